ghost use Rattle.std.specs.Prelude.{◌≡◌, ◌+◌, ◌<◌, ◌≤◌, ◌^◌, ◌==◌, ◌&&◌, List, [], ◌∷◌, length, min, true, not, Option, MatchOption, codes};
ghost use Rattle.std.specs.List.{list_all, list_any};
ghost use Rattle.std.specs.Char.{is_ascii_digit};
ghost use Rattle.std.specs.Str.{str_eq_ignore_ascii_case};
ghost use Rattle.std.specs.Str.Parse.{digits_value};
ghost use Rattle.httparse.specs.Grammar.{Field};
ghost use Rattle.httparse.specs.Spans.{IsHeaderWithin, span_bytes};
ghost use Rattle.response_rules.specs.Heads.{Framing as HeadFraming, framing, framing_of, is_encoded, is_length};
ghost use Rattle.http_fields.specs.Digits.{stripped};
ghost use Rattle.http_fields.specs.Fields.{AreWithin, Cover, FramingBy, IsFirst, capped, is_past_limit, values_at};

use engine_types::WireEnd;
use httparse::spans::HeaderSpan;

/// Where a body ends (RFC 9112, section 6.3).
#[derive(Clone, Copy, PartialEq, Eq)]
pub enum Framing {
    /// With the connection.
    ToEnd,
    /// After so many bytes.
    Sized(u64),
    /// With its last chunk.
    Chunked,
}

/// The framing that a head's fields say, or their fault, where the head begins at a place: a wrong framing, or else another
/// coding of the content, or else a length past the limit. The headers are those that cover the fields. No memory.
pub fn framing_or_fault(
    head: &[u8],
    headers: &[HeaderSpan],
    at: u64,
    limit: u64,
) -> Result<Framing, WireEnd>
    requires within { AreWithin head.now headers.now }
    requires small { limit < 2 ^ 62 }
    ensures { (fields : List Field) → Cover head.now headers.now fields
        → FramingBy limit at (framing_of fields) (is_encoded fields) result }
{
    let framing = framing_of(head, headers);
    let encoded = is_encoded(head, headers);
    without_fault(framing, encoded, at, limit)
}

/// The framing, where there is one without a fault.
#[tactic(auto, using(crate::proofs::FieldValues::no_framing, crate::proofs::FieldValues::encoded_fault, crate::proofs::FieldValues::long_fault, crate::proofs::FieldValues::sound_framing))]
fn without_fault(
    framing: Option<Framing>,
    encoded: bool,
    at: u64,
    limit: u64,
) -> Result<Framing, WireEnd>
    requires { limit < 2 ^ 62 }
    ensures { (found : Option HeadFraming) → framing ≡ capped found
        → FramingBy limit at found encoded result }
{
    let Some(framing) = framing else {
        return Err(WireEnd::Malformed { at });
    };
    if encoded {
        return Err(WireEnd::Encoded);
    }
    if is_too_long(framing, limit) {
        return Err(WireEnd::TooLarge);
    }
    Ok(framing)
}

fn is_too_long(framing: Framing, limit: u64) -> bool
    ensures { result ≡ is_past_limit limit framing }
{
    match framing {
        Framing::Sized(length) => length > limit,
        Framing::ToEnd => false,
        Framing::Chunked => false,
    }
}

/// The framing that the fields say. A length past 64 bits is the greatest number of these.
#[tactic(auto, using(crate::proofs::FieldValues::not_coded, crate::proofs::FieldValues::once_coded))]
fn framing_of(head: &[u8], headers: &[HeaderSpan]) -> Option<Framing>
    requires { AreWithin head.now headers.now }
    ensures { result ≡ capped
        (framing (values_at head.now headers.now (codes "transfer-encoding"))
        (values_at head.now headers.now (codes "content-length"))) }
{
    match next_value(head, headers, b"transfer-encoding") {
        None => by_length(head, headers),
        Some((coding, more)) => by_coding(head, headers, coding, more),
    }
}

/// The framing where no coding is said.
#[tactic(auto, using(crate::proofs::FieldValues::without_length, crate::proofs::FieldValues::with_length))]
fn by_length(head: &[u8], headers: &[HeaderSpan]) -> Option<Framing>
    requires { AreWithin head.now headers.now }
    ensures { result ≡ capped
        (framing [] (values_at head.now headers.now (codes "content-length"))) }
{
    match next_value(head, headers, b"content-length") {
        None => Some(Framing::ToEnd),
        Some((first, more)) => sized(head, first, more),
    }
}

/// The framing of a first coding and of what the headers behind it say: neither another coding nor a length may stand there.
#[tactic(auto, using(crate::proofs::FieldValues::two_framings, crate::proofs::FieldValues::two_codings, crate::proofs::FieldValues::other_coding, crate::proofs::FieldValues::is_chunked))]
fn by_coding(
    head: &[u8],
    headers: &[HeaderSpan],
    coding: &[u8],
    behind: &[HeaderSpan],
) -> Option<Framing>
    requires within { AreWithin head.now headers.now }
    requires behind { AreWithin head.now behind.now }
    ensures { result ≡ capped
        (framing (coding.now ∷ values_at head.now behind.now (codes "transfer-encoding"))
        (values_at head.now headers.now (codes "content-length"))) }
{
    if let Some(_) = next_value(head, headers, b"content-length") {
        return None;
    }
    if let Some(_) = next_value(head, behind, b"transfer-encoding") {
        return None;
    }
    if is_same(coding, b"chunked") {
        Some(Framing::Chunked)
    } else {
        None
    }
}

/// The framing of a first length and of those that the headers behind it say (RFC 9112, section 6.3).
#[tactic(auto, using(crate::proofs::FieldValues::no_length, crate::proofs::FieldValues::two_lengths, crate::proofs::FieldValues::one_length, crate::proofs::Numbers::digits_of_length))]
fn sized(head: &[u8], first: &[u8], headers: &[HeaderSpan]) -> Option<Framing>
    requires { AreWithin head.now headers.now }
    ensures { result ≡ capped
        (framing [] (first.now ∷ values_at head.now headers.now (codes "content-length"))) }
{
    if !is_length(first) {
        return None;
    }
    if !are_lengths(head, headers, first) {
        return None;
    }
    Some(Framing::Sized(number(first)))
}

/// Whether the content has another coding than identity (RFC 9110, section 8.4).
fn is_encoded(head: &[u8], headers: &[HeaderSpan]) -> bool
    requires { AreWithin head.now headers.now }
    ensures { result ≡ list_any (λ value. not (str_eq_ignore_ascii_case value (codes "identity")))
        (values_at head.now headers.now (codes "content-encoding")) }
{
    let mut rest = headers;
    while let Some((value, more)) = next_value(head, rest, b"content-encoding") {
        if !is_same(value, b"identity") {
            return true;
        }
        rest = more;
    }
    false
}

/// Whether each length is digits alone, and the same number as the first.
fn are_lengths(head: &[u8], headers: &[HeaderSpan], first: &[u8]) -> bool
    requires within { AreWithin head.now headers.now }
    requires digits { list_all is_ascii_digit first.now ≡ true }
    ensures { result ≡ list_all
        (λ value. is_length value && (digits_value 10 value == digits_value 10 first.now))
        (values_at head.now headers.now (codes "content-length")) }
{
    let mut rest = headers;
    while let Some((value, more)) = next_value(head, rest, b"content-length") {
        if !is_as_long(value, first) {
            return false;
        }
        rest = more;
    }
    true
}

/// Whether it is a length, and the same number as the first.
#[tactic(auto, using(crate::proofs::Numbers::digits_of_length))]
fn is_as_long(value: &[u8], first: &[u8]) -> bool
    requires { list_all is_ascii_digit first.now ≡ true }
    ensures { result ≡ (is_length value.now
        && (digits_value 10 value.now == digits_value 10 first.now)) }
{
    if !is_length(value) {
        return false;
    }
    are_one(value, first)
}

/// The first value with a name, and the headers behind it.
#[tactic(auto, using(crate::proofs::FieldValues::none_at))]
fn next_value<'b>(
    head: &'b [u8],
    headers: &'b [HeaderSpan],
    name: &[u8],
) -> Option<(&'b [u8], &'b [HeaderSpan])>
    requires { AreWithin head.now headers.now }
    ensures { MatchOption result (values_at head.now headers.now name.now ≡ [])
        (λ found. IsFirst head.now headers.now name.now found.0.now found.1.now) }
{
    let mut rest = headers;
    while let Some((header, more)) = rest.split_first() {
        if is_named(head, header, name) {
            return Some((header.value.of(head), more));
        }
        rest = more;
    }
    None
}

fn is_named(head: &[u8], header: &HeaderSpan, name: &[u8]) -> bool
    requires { IsHeaderWithin (length head.now) header.now }
    ensures { result ≡ str_eq_ignore_ascii_case (span_bytes head.now header.now.name) name.now }
{
    is_same(header.name.of(head), name)
}

/// Whether two texts are the same in whatever case they are written.
#[tactic(auto, using(crate::proofs::FieldValues::same_case))]
fn is_same(text: &[u8], other: &[u8]) -> bool
    ensures { result ≡ str_eq_ignore_ascii_case text.now other.now }
{
    text.eq_ignore_ascii_case(other)
}

/// Whether it is digits alone, and at least one (RFC 9110, section 8.6).
#[tactic(auto, using(crate::proofs::Numbers::is_length_by))]
fn is_length(value: &[u8]) -> bool
    ensures { result ≡ is_length value.now }
{
    if value.is_empty() {
        return false;
    }
    are_digits(value)
}

fn are_digits(value: &[u8]) -> bool
    ensures { result ≡ list_all is_ascii_digit value.now }
{
    value.iter().all(|byte| byte.is_ascii_digit())
}

/// Whether two texts of digits write one number.
#[tactic(auto, using(crate::proofs::Numbers::compared))]
fn are_one(first: &[u8], second: &[u8]) -> bool
    requires one { list_all is_ascii_digit first.now ≡ true }
    requires two { list_all is_ascii_digit second.now ≡ true }
    ensures { result ≡ (digits_value 10 first.now == digits_value 10 second.now) }
{
    without_zeros(first) == without_zeros(second)
}

/// Digits without the zeros in front.
fn without_zeros(digits: &[u8]) -> &[u8]
    ensures { result.now ≡ stripped digits.now }
{
    let mut rest = digits;
    while let [b'0', more @ ..] = rest {
        rest = more;
    }
    rest
}

/// The number of decimal digits, at most the greatest of 64 bits.
fn number(digits: &[u8]) -> u64
    requires { list_all is_ascii_digit digits.now ≡ true }
    ensures { result ≡ min (digits_value 10 digits.now) 18446744073709551615 }
{
    let mut number: u64 = 0;
    for digit in digits {
        number = number
            .saturating_mul(10)
            .saturating_add(u64::from(*digit - b'0'));
    }
    number
}
