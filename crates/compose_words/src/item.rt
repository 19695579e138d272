ghost use Rattle.std.specs.Prelude.{◌≡◌, ◌+◌, ◌<◌, ◌≤◌, ◌^◌, IfOk, IsSome};
ghost use Rattle.std.specs.Option.{option_copied};
ghost use Rattle.compose_words.specs.Table.{option_named, command_named};
ghost use Rattle.compose_words.specs.Items.{item_of, kind_of, own_text, plain_role, role_of, value_at, value_of, width_of};

use crate::content::{Content, content_of};
use crate::table::{
    CommandRule, OptionRule, ValueKind, command_named, option_assigned, option_named,
};
use std::alloc::Global;
use tree_base::{Memory, Text};

/// What a word is that isn't another one's value.
#[derive(Clone, Copy)]
pub enum Role {
    Option(OptionRule),
    Command(CommandRule),
    /// Neither.
    Stray,
}

/// A value with the place of its word.
#[derive(Drop)]
pub struct Value {
    pub at: u32,
    pub content: Content,
}

/// A word with its place and the value that belongs to it.
#[derive(Drop)]
pub struct Item {
    pub at: u32,
    pub role: Role,
    pub value: Option<Value>,
}

impl Role {
    /// The kind of value that belongs to a word of this role.
    pub(crate) fn kind(self) -> ValueKind
        ensures { result ≡ kind_of self }
    {
        match self {
            Role::Option(rule) => rule.value,
            Role::Command(rule) => rule.value,
            Role::Stray => ValueKind::Flag,
        }
    }
}

impl Item {
    /// How many words the item takes.
    pub(crate) fn width(&self) -> usize
        ensures value { result ≡ width_of self.now }
        ensures least { 1 ≤ result }
        ensures most { result ≤ 2 }
    {
        match &self.value {
            Some(value) if value.at != self.at => 2,
            _ => 1,
        }
    }
}

/// The item that begins with a word, before the next word, if there is one.
pub(crate) fn item_of(
    alloc: Global,
    at: u32,
    word: &Text,
    next: Option<&Text>,
) -> Result<Item, Memory>
    requires { IsSome next → at + 1 < 2 ^ 32 }
    ensures { IfOk result (λ item. item ≡ item_of at word.now (option_copied next.entry)) }
{
    let word = word.as_str();
    let role = role_of(word);
    let value = value_of(alloc, role.kind(), at, own_text(word), next)?;
    Ok(Item { at, role, value })
}

fn role_of(word: &str) -> Role
    ensures { result ≡ role_of word.now }
{
    match word.split_once('=') {
        None => plain_role(word),
        Some((name, _)) => match option_assigned(name) {
            Some(rule) => Role::Option(rule),
            None => Role::Stray,
        },
    }
}

fn plain_role(word: &str) -> Role
    ensures { result ≡ plain_role (option_named word.now) (command_named word.now) }
{
    if let Some(rule) = option_named(word) {
        return Role::Option(rule);
    }
    match command_named(word) {
        Some(rule) => Role::Command(rule),
        None => Role::Stray,
    }
}

fn own_text(word: &str) -> Option<&str>
    ensures { option_copied result ≡ own_text word.now }
{
    match word.split_once('=') {
        None => None,
        Some((_, value)) => Some(value),
    }
}

fn value_of(
    alloc: Global,
    kind: ValueKind,
    at: u32,
    own: Option<&str>,
    next: Option<&Text>,
) -> Result<Option<Value>, Memory>
    requires { IsSome next → at + 1 < 2 ^ 32 }
    ensures { IfOk result (λ value. value ≡
        value_of kind at (option_copied own.entry) (option_copied next.entry)) }
{
    if !kind.takes_value() {
        return Ok(None);
    }
    if let Some(text) = own {
        return Ok(Some(value_at(alloc, kind, at, text)?));
    }
    match next {
        Some(text) => Ok(Some(value_at(alloc, kind, at + 1, text.as_str())?)),
        None => Ok(None),
    }
}

fn value_at(alloc: Global, kind: ValueKind, at: u32, text: &str) -> Result<Value, Memory>
    ensures { IfOk result (λ value. value ≡ value_at kind at text.now) }
{
    Ok(Value {
        at,
        content: content_of(alloc, kind, text)?,
    })
}
