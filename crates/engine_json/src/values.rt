ghost use Rattle.std.specs.Prelude.{◌≡◌, ◌+◌, false, nat_lt};
ghost use Rattle.tree_base.specs.Limits.{most_body_values};
ghost use Rattle.response_rules.specs.Values.{escape_after, has_many_values, is_of_json, is_place, places_from, string_after};

use engine_types::Request;
use tree_base::limits::MOST_BODY_VALUES;

/// Whether a body of JSON has more than 1,000,000 values, so that it isn't read. No memory.
pub(crate) fn has_many_values(request: &Request, status: u16, body: &[u8]) -> bool
    ensures { result ≡ has_many_values request.now status body.now }
{
    is_of_json(request, status) && are_many(places_in(body))
}

/// Whether JSON with so many places has more values than the limit: itself, and one at each of them.
#[tactic(auto, using(crate::proofs::Places::past_most))]
fn are_many(places: usize) -> bool
    ensures { result ≡ nat_lt most_body_values (1 + places) }
{
    places as u64 >= MOST_BODY_VALUES
}

/// Whether the body of a response is JSON: each is but that of logs.
fn is_of_json(request: &Request, status: u16) -> bool
    ensures { result ≡ is_of_json request.now status }
{
    match request {
        Request::Logs { .. } => status != 200,
        _ => true,
    }
}

/// How many commas and how many brackets and braces that begin an array or an object stand outside of strings (RFC 8259,
/// sections 2 and 7).
fn places_in(body: &[u8]) -> usize
    ensures { result ≡ places_from false false body.now }
{
    let mut at = 0;
    let mut found = 0;
    let mut in_string = false;
    let mut escaped = false;
    while at < body.len() {
        let byte = body[at];
        if is_place(in_string, byte) {
            found += 1;
        }
        let behind = string_after(in_string, escaped, byte);
        escaped = escape_after(in_string, escaped, byte);
        in_string = behind;
        at += 1;
    }
    found
}

fn is_place(in_string: bool, byte: u8) -> bool
    ensures { result ≡ is_place in_string byte }
{
    !in_string && (byte == b',' || (byte == b'[' || byte == b'{'))
}

fn string_after(in_string: bool, escaped: bool, byte: u8) -> bool
    ensures { result ≡ string_after in_string escaped byte }
{
    if byte == b'"' && !escaped {
        !in_string
    } else {
        in_string
    }
}

fn escape_after(in_string: bool, escaped: bool, byte: u8) -> bool
    ensures { result ≡ escape_after in_string escaped byte }
{
    in_string && (!escaped && byte == b'\\')
}
