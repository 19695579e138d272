ghost use Rattle.std.specs.Prelude.{◌≡◌, false, IfOk};
ghost use Rattle.std.specs.Option.{option_copied, option_map};
ghost use Rattle.compose_words.specs.Lookups.{first_given, first_verb, format_in, number_in, scale_in, text_in, value_given, values_given, verb_of};
ghost use Rattle.compose_words.specs.declared.table.OptionName.{OptionName};

use crate::content::Content;
use crate::item::{Item, Role, Value};
use crate::options::{Scale, Verb};
use crate::table::{CommandName, OptionName};
use std::alloc::Global;
use tree_base::{List, Memory, Text};

impl Content {
    fn text(&self) -> Option<&Text>
        ensures { option_copied result ≡ text_in self.now }
    {
        match self {
            Content::Text(text) => Some(text),
            Content::Number(_) => None,
            Content::Format(_) => None,
            Content::Scale(_) => None,
            Content::Wrong => None,
        }
    }

    fn number(&self) -> Option<u32>
        ensures { result ≡ number_in self.now }
    {
        match self {
            Content::Text(_) => None,
            Content::Number(number) => Some(*number),
            Content::Format(_) => None,
            Content::Scale(_) => None,
            Content::Wrong => None,
        }
    }

    fn format(&self) -> Option<bool>
        ensures { result ≡ format_in self.now }
    {
        match self {
            Content::Text(_) => None,
            Content::Number(_) => None,
            Content::Format(json) => Some(*json),
            Content::Scale(_) => None,
            Content::Wrong => None,
        }
    }

    fn scale(&self) -> Option<&Scale>
        ensures { option_copied result ≡ scale_in self.now }
    {
        match self {
            Content::Text(_) => None,
            Content::Number(_) => None,
            Content::Format(_) => None,
            Content::Scale(scale) => Some(scale),
            Content::Wrong => None,
        }
    }
}

impl Item {
    fn text_given(&self, name: OptionName) -> Option<&Text>
        ensures { option_copied result ≡ value_given text_in name self.now }
    {
        match &self.value {
            Some(value) if self.gives(name) => value.content.text(),
            _ => None,
        }
    }

    fn number_given(&self, name: OptionName) -> Option<u32>
        ensures { result ≡ value_given number_in name self.now }
    {
        match &self.value {
            Some(value) if self.gives(name) => value.content.number(),
            _ => None,
        }
    }

    fn format_given(&self, name: OptionName) -> Option<bool>
        ensures { result ≡ value_given format_in name self.now }
    {
        match &self.value {
            Some(value) if self.gives(name) => value.content.format(),
            _ => None,
        }
    }

    fn scale_given(&self, name: OptionName) -> Option<&Scale>
        ensures { option_copied result ≡ value_given scale_in name self.now }
    {
        match &self.value {
            Some(value) if self.gives(name) => value.content.scale(),
            _ => None,
        }
    }

    fn verb(&self) -> Option<Verb>
        ensures { result ≡ verb_of self.now }
    {
        let Role::Command(rule) = self.role else {
            return None;
        };
        match rule.name {
            CommandName::Config => Some(Verb::Config),
            CommandName::Up => Some(Verb::Up),
            CommandName::Down => Some(Verb::Down),
            CommandName::Simulate => match &self.value {
                Some(value) => simulation(value),
                None => None,
            },
            CommandName::Wait => Some(Verb::Wait),
            CommandName::Logs => Some(Verb::Logs),
            CommandName::EngineSim => Some(Verb::EngineSim),
        }
    }
}

fn simulation(value: &Value) -> Option<Verb>
    ensures { result ≡ option_map Verb.Simulate (number_in value.now.content) }
{
    match value.content.number() {
        Some(number) => Some(Verb::Simulate(number)),
        None => None,
    }
}

/// Takes what was given to options, and remembers whether memory was wanting for any of it.
#[derive(Drop)]
pub(crate) struct Taker {
    alloc: Global,
    pub(crate) failed: bool,
}

impl Taker {
    /// A taker that took nothing yet. No memory.
    pub(crate) fn new(alloc: Global) -> Taker {
        Taker {
            alloc,
            failed: false,
        }
    }

    /// The texts that were given to an option, from left to right; none where there is no memory for them.
    pub(crate) fn texts(&mut self, items: &[Item], name: OptionName) -> List<Text>
        ensures kept { self.new.failed ≡ false → self.old.failed ≡ false }
        ensures same { self.new.failed ≡ false → result ≡ values_given text_in name items.now }
    {
        match texts(self.alloc, items, name) {
            Ok(texts) => texts,
            Err(Memory) => {
                self.failed = true;
                List::new(self.alloc)
            }
        }
    }

    /// The text that was given to an option first; none where there is no memory for it.
    pub(crate) fn first_text(&mut self, items: &[Item], name: OptionName) -> Option<Text>
        ensures kept { self.new.failed ≡ false → self.old.failed ≡ false }
        ensures same { self.new.failed ≡ false → result ≡ first_given text_in name items.now }
    {
        match first_text(self.alloc, items, name) {
            Ok(text) => text,
            Err(Memory) => {
                self.failed = true;
                None
            }
        }
    }
}

/// The texts that were given to an option, from left to right.
fn texts(alloc: Global, items: &[Item], name: OptionName) -> Result<List<Text>, Memory>
    ensures { IfOk result (λ texts. texts ≡ values_given text_in name items.now) }
{
    let mut texts = List::new(alloc);
    for item in items {
        if let Some(text) = item.text_given(name) {
            texts.push(text.copy(alloc)?)?;
        }
    }
    Ok(texts)
}

/// How many containers were given to each service, from left to right.
pub(crate) fn scales(alloc: Global, items: &[Item]) -> Result<List<Scale>, Memory>
    ensures { IfOk result (λ scales. scales ≡ values_given scale_in OptionName.Scale items.now) }
{
    let mut scales = List::new(alloc);
    for item in items {
        if let Some(scale) = item.scale_given(OptionName::Scale) {
            scales.push(scale.copy(alloc)?)?;
        }
    }
    Ok(scales)
}

/// The text that was given to an option first.
fn first_text(alloc: Global, items: &[Item], name: OptionName) -> Result<Option<Text>, Memory>
    ensures { IfOk result (λ text. text ≡ first_given text_in name items.now) }
{
    for item in items {
        if let Some(text) = item.text_given(name) {
            return Ok(Some(text.copy(alloc)?));
        }
    }
    Ok(None)
}

/// The number that was given to an option first.
pub(crate) fn first_number(items: &[Item], name: OptionName) -> Option<u32>
    ensures { result ≡ first_given number_in name items.now }
{
    for item in items {
        if let Some(number) = item.number_given(name) {
            return Some(number);
        }
    }
    None
}

/// Whether JSON was asked for, where a form of the page was.
pub(crate) fn first_format(items: &[Item], name: OptionName) -> Option<bool>
    ensures { result ≡ first_given format_in name items.now }
{
    for item in items {
        if let Some(json) = item.format_given(name) {
            return Some(json);
        }
    }
    None
}

/// The first command.
pub(crate) fn first_verb(items: &[Item]) -> Option<Verb>
    ensures { result ≡ first_verb items.now }
{
    for item in items {
        if let Some(verb) = item.verb() {
            return Some(verb);
        }
    }
    None
}
