ghost use Rattle.std.specs.Prelude.{◌≡◌, ◌<◌, [], ◌∷◌, length, min, true, MatchOption, codes, option_map};
ghost use Rattle.std.specs.List.{list_all};
ghost use Rattle.std.specs.Char.{is_ascii_digit};
ghost use Rattle.std.specs.Str.{str_eq_ignore_ascii_case};
ghost use Rattle.std.specs.Str.Parse.{digits_value};
ghost use Rattle.httparse.specs.Spans.{IsHeaderWithin, span_bytes};
ghost use Rattle.response_rules.specs.Heads.{is_length};
ghost use Rattle.http_fields.specs.Fields.{AreWithin, IsFirst, values_at};
ghost use Rattle.request_reading.specs.Requests.{one_length};
ghost use Rattle.request_reading.specs.Stocks.{capped};

use httparse::spans::HeaderSpan;

/// The length that one Content-Length says in digits alone; None where there is none, or another. A length past 64 bits is the
/// greatest number of these. No memory.
#[tactic(auto, using(crate::proofs::Lengths::not_said, crate::proofs::Lengths::said_twice, crate::proofs::Lengths::said_badly, crate::proofs::Lengths::said_once, crate::proofs::Lengths::digits_of_length))]
pub(crate) fn length_said(head: &[u8], headers: &[HeaderSpan]) -> Option<u64>
    requires { AreWithin head.now headers.now }
    ensures { result ≡ option_map capped
        (one_length (values_at head.now headers.now (codes "content-length"))) }
{
    let Some((first, more)) = next_value(head, headers, b"content-length") else {
        return None;
    };
    if let Some(_) = next_value(head, more, b"content-length") {
        return None;
    }
    if !is_length(first) {
        return None;
    }
    Some(number(first))
}

/// The first value with a name, and the headers behind it.
#[tactic(auto, using(crate::proofs::FieldValues::none_at))]
fn next_value<'b>(
    head: &'b [u8],
    headers: &'b [HeaderSpan],
    name: &[u8],
) -> Option<(&'b [u8], &'b [HeaderSpan])>
    requires { AreWithin head.now headers.now }
    ensures { MatchOption result (values_at head.now headers.now name.now ≡ [])
        (λ found. IsFirst head.now headers.now name.now found.0.now found.1.now) }
{
    let mut rest = headers;
    while let Some((header, more)) = rest.split_first() {
        if is_named(head, header, name) {
            return Some((header.value.of(head), more));
        }
        rest = more;
    }
    None
}

#[tactic(auto, using(crate::proofs::FieldValues::same_case))]
fn is_named(head: &[u8], header: &HeaderSpan, name: &[u8]) -> bool
    requires { IsHeaderWithin (length head.now) header.now }
    ensures { result ≡ str_eq_ignore_ascii_case (span_bytes head.now header.now.name) name.now }
{
    header.name.of(head).eq_ignore_ascii_case(name)
}

/// Whether it is digits alone, and at least one (RFC 9110, section 8.6).
#[tactic(auto, using(crate::proofs::Lengths::is_length_by))]
fn is_length(value: &[u8]) -> bool
    ensures { result ≡ is_length value.now }
{
    if value.is_empty() {
        return false;
    }
    are_digits(value)
}

fn are_digits(value: &[u8]) -> bool
    ensures { result ≡ list_all is_ascii_digit value.now }
{
    value.iter().all(|byte| byte.is_ascii_digit())
}

/// The number of decimal digits, at most the greatest of 64 bits.
fn number(digits: &[u8]) -> u64
    requires { list_all is_ascii_digit digits.now ≡ true }
    ensures { result ≡ min (digits_value 10 digits.now) 18446744073709551615 }
{
    let mut number: u64 = 0;
    for digit in digits {
        number = number
            .saturating_mul(10)
            .saturating_add(u64::from(*digit - b'0'));
    }
    number
}
