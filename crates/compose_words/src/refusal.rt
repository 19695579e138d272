ghost use Rattle.std.specs.Prelude.{◌≡◌, None, Some, if◌then◌else◌};
ghost use Rattle.std.specs.List.{list_any};
ghost use Rattle.compose_words.specs.declared.refusal.WordsRefusal.{WordsRefusal};
ghost use Rattle.compose_words.specs.Refusals.{again_refusal, command_refusal, content_refusal, content_scales, foreign_refusal, gives, has_server_options, is_command, is_foreign, item_refusal, missing_at_command, option_refusal, scale_refusal, scales, server_refusal, unserved_refusal, value_refusal, wrong_value};

use crate::content::Content;
use crate::item::{Item, Role, Value};
use crate::options::Verb;
use crate::table::{CommandName, CommandRule, OptionName, OptionRule, ValueKind};
use std::error::Error;
use std::fmt;
use tree_base::Memory;

/// Why words are no command line. `at` is the place of a word, from 0.
#[derive(Debug, Clone, Copy)]
pub enum WordsRefusal {
    /// A word that is neither an option nor the command, a second command, a value for a flag, or an
    /// option of another command.
    UnknownWord { at: u32 },
    /// The last word wants a value.
    MissingValue { at: u32 },
    /// A value that is no number, or one that is out of bounds.
    BadNumber { at: u32 },
    /// A value that is none of those to choose from.
    BadChoice { at: u32 },
    /// An option that may be given once, given again.
    Twice { at: u32 },
    /// No word is a command.
    NoCommand,
    /// The address of the Engine in the environment has another form than `unix://PATH`. The words say
    /// nothing of it.
    BadHost,
    /// No memory was left.
    Memory,
}

impl From<Memory> for WordsRefusal {
    ghost use Rattle.compose_words.specs.declared.refusal.WordsRefusal.{WordsRefusal};

    ghost from_gives = { λ _ refusal. refusal ≡ WordsRefusal.Memory };

    fn from(_: Memory) -> WordsRefusal {
        WordsRefusal::Memory
    }
}

impl fmt::Display for WordsRefusal {
    ghost use Rattle.std.specs.Prelude.{Some};
    ghost use Rattle.compose_words.specs.Printed.{refusal_text};

    ghost output = { λ refusal. Some (refusal_text refusal) };

    fn fmt<W: fmt::Write>(&self, f: &mut fmt::Formatter<W>) -> fmt::Result {
        match self {
            WordsRefusal::UnknownWord { at } => write!(f, "word {at}: UnknownWord"),
            WordsRefusal::MissingValue { at } => write!(f, "word {at}: MissingValue"),
            WordsRefusal::BadNumber { at } => write!(f, "word {at}: BadNumber"),
            WordsRefusal::BadChoice { at } => write!(f, "word {at}: BadChoice"),
            WordsRefusal::Twice { at } => write!(f, "word {at}: Twice"),
            WordsRefusal::NoCommand => write!(f, "no command"),
            WordsRefusal::BadHost => write!(f, "bad host"),
            WordsRefusal::Memory => write!(f, "memory"),
        }
    }
}

impl Error for WordsRefusal {}

impl Item {
    /// Whether the item gives this option.
    pub(crate) fn gives(&self, name: OptionName) -> bool
        ensures { result ≡ gives name self.now }
    {
        match self.role {
            Role::Option(rule) => rule.name == name,
            Role::Command(_) => false,
            Role::Stray => false,
        }
    }

    fn is_command(&self) -> bool
        ensures { result ≡ is_command self.now }
    {
        match self.role {
            Role::Option(_) => false,
            Role::Command(_) => true,
            Role::Stray => false,
        }
    }

    fn scales(&self, service: &str) -> bool
        ensures { result ≡ scales service.now self.now }
    {
        match &self.value {
            Some(value) => value.content.scales(service),
            None => false,
        }
    }

    fn is_foreign(&self, command: CommandName) -> bool
        ensures { result ≡ is_foreign command self.now }
    {
        match self.role {
            Role::Option(rule) => !rule.users.serves(command),
            Role::Command(_) => false,
            Role::Stray => false,
        }
    }
}

impl Content {
    fn scales(&self, service: &str) -> bool
        ensures { result ≡ content_scales service.now self.now }
    {
        match self {
            Content::Text(_) => false,
            Content::Number(_) => false,
            Content::Format(_) => false,
            Content::Scale(scale) => scale.service.as_str() == service,
            Content::Wrong => false,
        }
    }
}

/// Whether an option is given by one of the items.
pub(crate) fn is_given(items: &[Item], name: OptionName) -> bool
    ensures { result ≡ list_any (gives name) items.now }
{
    items.iter().any(|item| item.gives(name))
}

fn has_command(items: &[Item]) -> bool
    ensures { result ≡ list_any is_command items.now }
{
    items.iter().any(|item| item.is_command())
}

/// The refusal of an item behind the items before it.
pub(crate) fn item_refusal(before: &[Item], item: &Item) -> Option<WordsRefusal>
    ensures { result ≡ item_refusal before.now item.now }
{
    match item.role {
        Role::Option(rule) => option_refusal(before, item, rule),
        Role::Command(rule) => command_refusal(before, item, rule),
        Role::Stray => Some(WordsRefusal::UnknownWord { at: item.at }),
    }
}

fn option_refusal(before: &[Item], item: &Item, rule: OptionRule) -> Option<WordsRefusal>
    ensures { result ≡ option_refusal before.now item.now rule }
{
    if !rule.repeats && is_given(before, rule.name) {
        return Some(WordsRefusal::Twice { at: item.at });
    }
    match value_refusal(item.at, rule.value, &item.value) {
        Some(refusal) => Some(refusal),
        None => again_refusal(before, &item.value),
    }
}

/// The refusal of a value whose service was given a number before.
fn again_refusal(before: &[Item], value: &Option<Value>) -> Option<WordsRefusal>
    ensures { result ≡ again_refusal before.now value.now }
{
    match value {
        Some(value) => scale_refusal(before, value.at, &value.content),
        None => None,
    }
}

fn scale_refusal(before: &[Item], at: u32, content: &Content) -> Option<WordsRefusal>
    ensures { result ≡ scale_refusal before.now at content.now }
{
    match content {
        Content::Text(_) => None,
        Content::Number(_) => None,
        Content::Format(_) => None,
        Content::Scale(scale) => twice_if(is_scaled(before, scale.service.as_str()), at),
        Content::Wrong => None,
    }
}

fn twice_if(again: bool, at: u32) -> Option<WordsRefusal>
    ensures { result ≡ (if again then Some (WordsRefusal.Twice at) else None) }
{
    if again {
        Some(WordsRefusal::Twice { at })
    } else {
        None
    }
}

/// Whether a number was given to a service.
fn is_scaled(items: &[Item], service: &str) -> bool
    ensures { result ≡ list_any (scales service.now) items.now }
{
    items.iter().any(|item| item.scales(service))
}

fn command_refusal(before: &[Item], item: &Item, rule: CommandRule) -> Option<WordsRefusal>
    ensures { result ≡ command_refusal before.now item.now rule }
{
    if has_command(before) {
        return Some(WordsRefusal::UnknownWord { at: item.at });
    }
    value_refusal(item.at, rule.value, &item.value)
}

fn value_refusal(at: u32, kind: ValueKind, value: &Option<Value>) -> Option<WordsRefusal>
    ensures { result ≡ value_refusal at kind value.now }
{
    match value {
        Some(value) => content_refusal(kind, value.at, &value.content),
        None if kind.takes_value() => Some(WordsRefusal::MissingValue { at }),
        None => None,
    }
}

fn content_refusal(kind: ValueKind, at: u32, content: &Content) -> Option<WordsRefusal>
    ensures { result ≡ content_refusal kind at content.now }
{
    match content {
        Content::Text(_) => None,
        Content::Number(_) => None,
        Content::Format(_) => None,
        Content::Scale(_) => None,
        Content::Wrong => Some(wrong_value(kind, at)),
    }
}

fn wrong_value(kind: ValueKind, at: u32) -> WordsRefusal
    ensures { result ≡ wrong_value kind at }
{
    match kind {
        ValueKind::Format => WordsRefusal::BadChoice { at },
        _ => WordsRefusal::BadNumber { at },
    }
}

/// The refusal of the first option that isn't for this command.
pub(crate) fn foreign_refusal(items: &[Item], command: CommandName) -> Option<WordsRefusal>
    ensures { result ≡ foreign_refusal command items.now }
{
    items
        .iter()
        .find(|item| item.is_foreign(command))
        .map(|item| WordsRefusal::UnknownWord { at: item.at })
}

/// The refusal of `enginesim` without its socket, or without the number of its connections: at the command's word.
pub(crate) fn unserved_refusal(items: &[Item], verb: Verb) -> Option<WordsRefusal>
    ensures { result ≡ unserved_refusal verb items.now }
{
    match verb {
        Verb::EngineSim => server_refusal(items),
        _ => None,
    }
}

fn server_refusal(items: &[Item]) -> Option<WordsRefusal>
    ensures { result ≡ server_refusal items.now }
{
    if has_server_options(items) {
        None
    } else {
        missing_at_command(items)
    }
}

fn has_server_options(items: &[Item]) -> bool
    ensures { result ≡ has_server_options items.now }
{
    is_given(items, OptionName::Socket) && is_given(items, OptionName::Connections)
}

fn missing_at_command(items: &[Item]) -> Option<WordsRefusal>
    ensures { result ≡ missing_at_command items.now }
{
    items
        .iter()
        .find(|item| item.is_command())
        .map(|item| WordsRefusal::MissingValue { at: item.at })
}
