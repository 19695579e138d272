ghost use Rattle.std.specs.Prelude.{◌≡◌, ◌<◌, ◌^◌, ◌≢◌, length, Err, IfErr, IfOk};
ghost use Rattle.compose_words.specs.Bounds.{IsBounded, IsWithin};
ghost use Rattle.compose_words.specs.Reading.{IsUnlessMemory, items_or_refusal, options_of, options_of_items};

use crate::item::{Item, item_of};
use crate::lookup::first_verb;
use crate::options::{Options, options_with};
use crate::refusal::{WordsRefusal, foreign_refusal, item_refusal, unserved_refusal};
use std::alloc::Global;
use tree_base::{List, Text};

/// Reads the words of a command line, without the program's own name.
///
/// An option may stand before or behind the command. Its value is the next word, whatever that is, or for
/// a long name what stands behind `=`. The answer is the first refusal from the left; then `NoCommand`;
/// then `UnknownWord` at the first option that isn't the command's; then `MissingValue` at `enginesim` without
/// `--socket` or `--connections`; and else the options. `Memory` comes where no memory is left, and `BadHost`
/// never. Numbers are within the bounds of their options, and the place of a refusal is that of one of the words.
pub fn read_words(alloc: Global, words: &List<Text>) -> Result<Options, WordsRefusal>
    requires { length words.now < 2 ^ 32 }
    ensures meaning { IsUnlessMemory result (options_of words.now) }
    ensures host { result ≢ Err WordsRefusal.BadHost }
    ensures bounds { IfOk result IsBounded }
    ensures places { IfErr result (IsWithin (length words.now)) }
{
    let items = items_or_refusal(alloc, words)?;
    options_of_items(alloc, items.as_slice())
}

/// The items of a command line, or the first refusal from the left.
fn items_or_refusal(alloc: Global, words: &List<Text>) -> Result<List<Item>, WordsRefusal>
    requires { length words.now < 2 ^ 32 }
    ensures { IsUnlessMemory result (items_or_refusal words.now) }
{
    let mut items = List::new(alloc);
    let mut at = 0;
    while let Some(word) = words.get(at) {
        let item = item_of(alloc, at as u32, word, words.get(at + 1))?;
        if let Some(refusal) = item_refusal(items.as_slice(), &item) {
            return Err(refusal);
        }
        at += item.width();
        items.push(item)?;
    }
    Ok(items)
}

/// The options that items give, or why they give none.
fn options_of_items(alloc: Global, items: &[Item]) -> Result<Options, WordsRefusal>
    ensures { IsUnlessMemory result (options_of_items items.now) }
{
    let Some(verb) = first_verb(items) else {
        return Err(WordsRefusal::NoCommand);
    };
    if let Some(refusal) = foreign_refusal(items, verb.name()) {
        return Err(refusal);
    }
    if let Some(refusal) = unserved_refusal(items, verb) {
        return Err(refusal);
    }
    Ok(options_with(alloc, verb, items)?)
}
