ghost use Rattle.std.specs.Prelude.{◌≡◌, [], ◌∷◌, ◌++◌, ◌+◌, ◌/◌, ◌%◌, ◌<◌, IfOk, OnOk, drop, length, map};
ghost use Rattle.std.specs.Char.{digit_char};
ghost use Rattle.std.specs.List.{prefix_len, zip};
ghost use Rattle.std.specs.Str.{IsCharBoundary};
ghost use Rattle.json.specs.Print.{quoted};
ghost use Rattle.project_print.specs.Json.{json_of, json_page_text, spelled};
ghost use Rattle.project_print.specs.Written.{comma, content, escape_of, is_string_byte, listed_from, members_text, stands};

use crate::node::Node;
use std::alloc::Global;
use tree_base::{Memory, Text};

/// How the dollars of texts are printed.
#[derive(Clone, Copy)]
pub enum Dollars {
    /// Each `$` twice, as in a page.
    Twice,
    /// As they are, as in the text that is hashed.
    Once,
}

/// The node as JSON without spaces, with the dollars of texts twice, and a line end. Memory where there is no
/// memory for it.
pub fn node_page_json(alloc: Global, node: &Node) -> Result<Text, Memory>
    ensures { IfOk result (λ text. text ≡ json_page_text node.now) }
{
    let mut out = json_text(alloc, node, Dollars::Twice)?;
    out.push_str("\n")?;
    Ok(out)
}

/// The node as JSON without spaces. Memory where there is no memory for it.
pub fn json_text(alloc: Global, node: &Node, dollars: Dollars) -> Result<Text, Memory>
    ensures { IfOk result (λ text. text ≡ json_of dollars node.now) }
{
    let mut out = Text::new(alloc);
    put_json(node, dollars, &mut out)?;
    Ok(out)
}

/// Puts the node's JSON last.
#[cycle(json)]
fn put_json(node: &Node, dollars: Dollars, out: &mut Text) -> Result<(), Memory>
    ensures { OnOk result (out.new ≡ out.old ++ json_of dollars node.now) }
{
    match node {
        Node::Null => out.push_str("null"),
        Node::Word(word) => out.push_str(word.as_str()),
        Node::Text(text) => put_string(text.as_str(), dollars, out),
        Node::Map(entries) => {
            out.push_str("{")?;
            put_members(entries.values(), entries.keys(), dollars, out)?;
            out.push_str("}")
        }
        Node::Seq(items) => {
            out.push_str("[")?;
            put_elements(items.as_slice(), dollars, out)?;
            out.push_str("]")
        }
    }
}

#[cycle(json)]
fn put_members(
    values: &[Node],
    keys: &[Text],
    dollars: Dollars,
    out: &mut Text,
) -> Result<(), Memory>
    requires { length keys.now ≡ length values.now }
    ensures { OnOk result (out.new ≡
        out.old ++ members_text (zip keys.now (map (json_of dollars) values.now))) }
{
    for (at, value) in values.iter().enumerate() {
        put_comma(at, out)?;
        put_string(keys[at].as_str(), Dollars::Once, out)?;
        out.push_str(":")?;
        put_json(value, dollars, out)?;
    }
    Ok(())
}

#[cycle(json)]
fn put_elements(items: &[Node], dollars: Dollars, out: &mut Text) -> Result<(), Memory>
    ensures { OnOk result (out.new ≡ out.old ++ listed_from 0 (map (json_of dollars) items.now)) }
{
    for (at, item) in items.iter().enumerate() {
        put_comma(at, out)?;
        put_json(item, dollars, out)?;
    }
    Ok(())
}

/// Puts what stands before a part: a comma, but before the first nothing.
fn put_comma(at: usize, out: &mut Text) -> Result<(), Memory>
    ensures { OnOk result (out.new ≡ out.old ++ comma at) }
{
    if at == 0 { Ok(()) } else { out.push_str(",") }
}

/// Puts a text last as a string of JSON.
fn put_string(text: &str, dollars: Dollars, out: &mut Text) -> Result<(), Memory>
    ensures { OnOk result (out.new ≡ out.old ++ quoted (spelled dollars text.now)) }
{
    out.push_str("\"")?;
    put_content(text, dollars, out)?;
    out.push_str("\"")
}

/// Puts what stands between the quotes, piece by piece: each is copied once, into the page.
fn put_content(text: &str, dollars: Dollars, out: &mut Text) -> Result<(), Memory>
    ensures { OnOk result (out.new ≡ out.old ++ content dollars text.now) }
{
    let mut rest = text;
    while !rest.is_empty() {
        let len = put_piece(rest, dollars, out)?;
        rest = &rest[len..];
    }
    Ok(())
}

/// Puts what a text begins with: the bytes that stand as they are, at once, or else the escape of the first byte. The
/// result is how many bytes of the text it stands for.
fn put_piece(text: &str, dollars: Dollars, out: &mut Text) -> Result<usize, Memory>
    requires { 0 < length text.now }
    ensures put { IfOk result (λ len.
        out.new ++ content dollars (drop len text.now) ≡ out.old ++ content dollars text.now) }
    ensures cut { IfOk result (λ len. (0 < len) × IsCharBoundary text.now len) }
{
    let len = standing_len(text.as_bytes(), dollars);
    if len == 0 {
        put_escape(text.as_bytes()[0], out)?;
        Ok(1)
    } else {
        let (front, _) = text.split_at(len);
        out.push_str(front)?;
        Ok(len)
    }
}

/// How many bytes in front stand as they are.
fn standing_len(bytes: &[u8], dollars: Dollars) -> usize
    ensures { result ≡ prefix_len (stands dollars) bytes.now }
{
    bytes
        .iter()
        .take_while(|byte| stands(**byte, dollars))
        .count()
}

/// Whether a byte stands in a string of JSON as it is.
fn stands(byte: u8, dollars: Dollars) -> bool
    ensures { result ≡ stands dollars byte }
{
    match dollars {
        Dollars::Twice => is_string_byte(byte) && byte != b'$',
        Dollars::Once => is_string_byte(byte),
    }
}

fn is_string_byte(byte: u8) -> bool
    ensures { result ≡ is_string_byte byte }
{
    byte >= b' ' && byte != b'"' && byte != b'\\'
}

/// Puts the escape of a byte last, which of a dollar is two of them.
fn put_escape(byte: u8, out: &mut Text) -> Result<(), Memory>
    ensures { OnOk result (out.new ≡ out.old ++ escape_of byte) }
{
    match byte {
        b'$' => out.push_str("$$"),
        b'"' => out.push_str("\\\""),
        b'\\' => out.push_str("\\\\"),
        0x08 => out.push_str("\\b"),
        0x0C => out.push_str("\\f"),
        b'\n' => out.push_str("\\n"),
        b'\r' => out.push_str("\\r"),
        b'\t' => out.push_str("\\t"),
        _ => put_code(byte, out),
    }
}

/// Puts the escape last that gives the number of a character.
fn put_code(byte: u8, out: &mut Text) -> Result<(), Memory>
    ensures { OnOk result (out.new ≡
        out.old ++ (92 ∷ 117 ∷ 48 ∷ 48 ∷ digit_char (byte / 16) ∷ digit_char (byte % 16) ∷ [])) }
{
    out.push_str("\\u00")?;
    out.push(digit(byte / 16))?;
    out.push(digit(byte % 16))
}

/// A lower-case hexadecimal digit.
fn digit(value: u8) -> char
    requires { value < 16 }
    ensures { result ≡ digit_char value }
{
    if value < 10 {
        (b'0' + value) as char
    } else {
        (b'a' + (value - 10)) as char
    }
}
