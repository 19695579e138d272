ghost use Rattle.std.specs.Prelude.{◌≡◌, ◌<◌, ◌^◌, IfOk, IsTrue};
ghost use Rattle.std.specs.Option.{SomeIff};
ghost use Rattle.std.specs.Str.{all_ascii_digits};
ghost use Rattle.std.specs.Str.Parse.{digits_value};
ghost use Rattle.compose_words.specs.Contents.{content_of, format_content, is_numeral, number_content, scale_content, scale_of, workers_content};

use crate::options::Scale;
use crate::table::ValueKind;
use std::alloc::Global;
use tree_base::limits::{MOST_CONTAINERS, MOST_WORKERS};
use tree_base::{Memory, Text};

/// What a value says.
#[derive(Drop)]
pub enum Content {
    Text(Text),
    Number(u32),
    /// Whether the page is JSON.
    Format(bool),
    /// How many containers a service has.
    Scale(Scale),
    /// Nothing that its kind wants.
    Wrong,
}

/// What a value of this kind says.
pub(crate) fn content_of(alloc: Global, kind: ValueKind, text: &str) -> Result<Content, Memory>
    ensures { IfOk result (λ content. content ≡ content_of kind text.now) }
{
    match kind {
        ValueKind::Flag => Ok(Content::Wrong),
        ValueKind::Text => Ok(Content::Text(Text::from_str(alloc, text)?)),
        ValueKind::Number { least, most } => Ok(number_content(least, most, text)),
        ValueKind::Workers => Ok(workers_content(text)),
        ValueKind::Format => Ok(format_content(text)),
        ValueKind::Scale => scale_content(alloc, text),
    }
}

fn workers_content(text: &str) -> Content
    ensures { result ≡ workers_content text.now }
{
    if text == "-1" {
        Content::Number(MOST_WORKERS)
    } else {
        number_content(1, MOST_WORKERS, text)
    }
}

fn format_content(text: &str) -> Content
    ensures { result ≡ format_content text.now }
{
    if text == "yaml" {
        return Content::Format(false);
    }
    if text == "json" {
        return Content::Format(true);
    }
    Content::Wrong
}

fn scale_content(alloc: Global, text: &str) -> Result<Content, Memory>
    ensures { IfOk result (λ content. content ≡ scale_content text.now) }
{
    match text.split_once('=') {
        None => Ok(Content::Wrong),
        Some((service, number)) => scale_of(alloc, service, number),
    }
}

fn scale_of(alloc: Global, service: &str, number: &str) -> Result<Content, Memory>
    ensures { IfOk result (λ content. content ≡ scale_of service.now number.now) }
{
    if service.is_empty() {
        return Ok(Content::Wrong);
    }
    match numeral(number) {
        Some(number) if number <= MOST_CONTAINERS => Ok(Content::Scale(Scale {
            service: Text::from_str(alloc, service)?,
            number,
        })),
        _ => Ok(Content::Wrong),
    }
}

fn number_content(least: u32, most: u32, text: &str) -> Content
    ensures { result ≡ number_content least most text.now }
{
    match numeral(text) {
        Some(number) if least <= number && number <= most => Content::Number(number),
        _ => Content::Wrong,
    }
}

/// The number that decimal digits write, with no sign, where it fits.
fn numeral(text: &str) -> Option<u32>
    ensures { SomeIff result (IsTrue (is_numeral text.now) ×
        (digits_value 10 text.now < 2 ^ 32)) (digits_value 10 text.now) }
{
    if !is_digits(text) {
        return None;
    }
    text.parse::<u32>().ok()
}

fn is_digits(text: &str) -> bool
    ensures { result ≡ all_ascii_digits text.now }
{
    for b in text.as_bytes() {
        if !b.is_ascii_digit() {
            return false;
        }
    }
    true
}
