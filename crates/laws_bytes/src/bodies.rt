ghost use Rattle.laws_bytes.specs.BodyLaws.{BodiesSayExactly, RequestsAreWhole, TablesSayExactly};

use http_request::bytes_are_one_request;

/// The law that an object of a table whose rows have names of their own says what the table says, and nothing else.
/// Nothing runs.
pub fn tables_say_exactly()
    ensures { TablesSayExactly }
{}

/// The law that each body says, member by member, what its table says, and nothing else. Nothing runs.
pub fn bodies_say_exactly()
    ensures { BodiesSayExactly }
{}

/// The law that the bytes of a request with its body are one request of HTTP's grammar, with its method, its target, its
/// header fields and its body. Nothing runs.
pub fn requests_are_whole()
    ensures { RequestsAreWhole }
{
    bytes_are_one_request();
}
