ghost use Rattle.std.specs.Prelude.{◌≡◌, ◌==◌, [], ◌∷◌, ◌+◌, ◌-◌, ◌≤◌, IfOk, IfSome, length, None, Some};
ghost use Rattle.std.specs.Fmt.{decimal};
ghost use Rattle.std.specs.List.{list_all};
ghost use Rattle.std.specs.Option.{option_map};
ghost use Rattle.tree_base.specs.Limits.{greatest_port};
ghost use Rattle.short_forms.specs.Answers.{Gives, answer_of};
ghost use Rattle.short_forms.specs.Cuts.{parts_at};
ghost use Rattle.short_forms.specs.Digits.{number_up_to};
ghost use Rattle.short_forms.specs.PortLaws.{published_in};
ghost use Rattle.short_forms.specs.Ports.{IsSpan, first_of, host_text, is_address, is_octet, is_protocol, port_at, ports_by, ports_from, ports_in, ports_of, published, published_of, range, span_of, target_of, unpublished};

use crate::cuts::cut_text;
use crate::digits::number;
use crate::form::{Form, FormRefusal};
use std::alloc::Global;
use tree_base::limits::{GREATEST_PORT, MOST_PORTS};
use tree_base::{List, Memory, Text, TryCopy};

/// A port of a service (Compose Specification, "ports").
#[derive(Drop)]
pub struct Port {
    /// The address of the host that the port is bound to.
    pub host_ip: Option<Text>,
    /// The port or the range of ports of the host.
    pub published: Option<Text>,
    /// The port of the container.
    pub target: u32,
    /// `tcp`, `udp` or `sctp`.
    pub protocol: Text,
}

impl TryCopy for Port {
    fn copy(&self, alloc: Global) -> Result<Port, Memory> {
        Ok(Port {
            protocol: self.protocol.copy(alloc)?,
            host_ip: self.host_ip.copy(alloc)?,
            published: self.published.copy(alloc)?,
            target: self.target,
        })
    }
}

/// One port, or a range of ports.
#[derive(Drop, Clone, Copy)]
enum Span {
    One(u32),
    Range(u32, u32),
}

/// The ports of `[[ip:]published:]target[/protocol]`, with the protocol `tcp`, `udp` or `sctp`, `tcp` where none is
/// named, and an IPv4 address. A target is 1 to 65,535, a published port 0 to 65,535; a range `a-b` has at most 1,000.
/// Two ranges of one length give a port each, and so does a range as target alone; a published range beside one target
/// is kept as it is spelled.
pub fn read_port(alloc: Global, text: &Text) -> Result<List<Port>, FormRefusal>
    ensures { Gives result (answer_of Form.Port (ports_of text.now)) }
{
    match cut_text(text.as_str(), '/') {
        None => read_fields(alloc, text.as_str(), "tcp"),
        Some((fields, protocol)) => with_protocol(alloc, fields, protocol),
    }
}

/// The ports of what stands before a protocol that is named.
fn with_protocol(alloc: Global, fields: &str, protocol: &str) -> Result<List<Port>, FormRefusal>
    ensures { Gives result (answer_of Form.Port
        (ports_by fields.now (Some (fields.now, protocol.now)))) }
{
    if is_protocol(protocol) {
        read_fields(alloc, fields, protocol)
    } else {
        Err(FormRefusal::BadForm { which: Form::Port })
    }
}

fn is_protocol(text: &str) -> bool
    ensures { result ≡ is_protocol text.now }
{
    match text {
        "tcp" | "udp" | "sctp" => true,
        _ => false,
    }
}

/// The ports of what stands before the protocol.
fn read_fields(alloc: Global, fields: &str, protocol: &str) -> Result<List<Port>, FormRefusal>
    ensures { Gives result (answer_of Form.Port (ports_in protocol.now (parts_at 58 fields.now))) }
{
    match cut_text(fields, ':') {
        None => unpublished(alloc, protocol, fields),
        Some((text, rest)) => ports_behind(alloc, protocol, text, rest),
    }
}

/// The ports behind a first colon.
fn ports_behind(
    alloc: Global,
    protocol: &str,
    text: &str,
    rest: &str,
) -> Result<List<Port>, FormRefusal>
    ensures { Gives result (answer_of Form.Port
        (ports_in protocol.now (text.now ∷ parts_at 58 rest.now))) }
{
    match cut_text(rest, ':') {
        None => published_of(alloc, &None, protocol, text, rest),
        Some((published, target)) => ports_at(alloc, protocol, text, published, target),
    }
}

/// The ports at an address of the host, behind a second colon.
fn ports_at(
    alloc: Global,
    protocol: &str,
    address: &str,
    text: &str,
    target: &str,
) -> Result<List<Port>, FormRefusal>
    ensures { Gives result (answer_of Form.Port
        (ports_in protocol.now (address.now ∷ text.now ∷ parts_at 58 target.now))) }
{
    match cut_text(target, ':') {
        None => at_address(alloc, protocol, address, text, target),
        Some(_) => Err(FormRefusal::BadForm { which: Form::Port }),
    }
}

/// The ports at an address of the host, where it is one.
fn at_address(
    alloc: Global,
    protocol: &str,
    address: &str,
    text: &str,
    target: &str,
) -> Result<List<Port>, FormRefusal>
    ensures { Gives result (answer_of Form.Port
        (ports_in protocol.now (address.now ∷ text.now ∷ target.now ∷ []))) }
{
    if !is_address(address) {
        return Err(FormRefusal::BadForm { which: Form::Port });
    }
    let host_ip = Some(Text::from_str(alloc, address)?);
    published_of(alloc, &host_ip, protocol, text, target)
}

/// Whether a text is an IPv4 address.
fn is_address(text: &str) -> bool
    ensures { result ≡ is_address text.now }
{
    count_numbers(text) == 4 && are_octets(text)
}

fn count_numbers(text: &str) -> usize
    ensures { result ≡ length (parts_at 46 text.now) }
{
    text.split('.').count()
}

fn are_octets(text: &str) -> bool
    ensures { result ≡ list_all is_octet (parts_at 46 text.now) }
{
    text.split('.').all(|number| is_octet(number.as_bytes()))
}

/// Whether a text is a number up to 255 without a leading zero.
fn is_octet(text: &[u8]) -> bool
    ensures { result ≡ is_octet text.now }
{
    number(text, 255).is_some() && (text.len() == 1 || text[0] != b'0')
}

/// The ports of a target that the host doesn't name.
fn unpublished(alloc: Global, protocol: &str, target: &str) -> Result<List<Port>, FormRefusal>
    ensures { Gives result (answer_of Form.Port
        (option_map (unpublished (port_at None protocol.now)) (target_of target.now))) }
{
    match target_of(target) {
        Some(Span::One(port)) => Ok(one_port(alloc, &None, protocol, None, port)?),
        Some(Span::Range(first, last)) => {
            Ok(ports_from(alloc, &None, protocol, None, first, last)?)
        }
        None => Err(FormRefusal::BadForm { which: Form::Port }),
    }
}

/// The ports of a published text and a target.
fn published_of(
    alloc: Global,
    host_ip: &Option<Text>,
    protocol: &str,
    text: &str,
    target: &str,
) -> Result<List<Port>, FormRefusal>
    ensures { Gives result (answer_of Form.Port
        (published_of (port_at host_ip.now protocol.now) text.now target.now)) }
{
    match (span_of(text), target_of(target)) {
        (Some(host), Some(target)) => published(alloc, host_ip, protocol, text, host, target),
        _ => Err(FormRefusal::BadForm { which: Form::Port }),
    }
}

/// The ports of a published text with its span and the span of the targets.
fn published(
    alloc: Global,
    host_ip: &Option<Text>,
    protocol: &str,
    text: &str,
    host: Span,
    target: Span,
) -> Result<List<Port>, FormRefusal>
    requires host { IsSpan host }
    requires target { IsSpan target }
    ensures { Gives result (answer_of Form.Port
        (published (port_at host_ip.now protocol.now) text.now host target)) }
{
    match (host, target) {
        (Span::One(host), Span::One(port)) => {
            let published = Some(number_text(alloc, host)?);
            Ok(one_port(alloc, host_ip, protocol, published, port)?)
        }
        (Span::Range(_, _), Span::One(port)) => {
            let published = Some(Text::from_str(alloc, text)?);
            Ok(one_port(alloc, host_ip, protocol, published, port)?)
        }
        (Span::Range(low, high), Span::Range(first, last)) => {
            if high - low != last - first {
                return Err(FormRefusal::BadForm { which: Form::Port });
            }
            Ok(ports_from(alloc, host_ip, protocol, Some(low), first, last)?)
        }
        (Span::One(_), Span::Range(_, _)) => Err(FormRefusal::BadForm { which: Form::Port }),
    }
}

/// What the host's port or range of ports is published as: a number without leading zeros, or a range as it is spelled; None
/// where a text is neither.
pub fn published_as(alloc: Global, text: &str) -> Result<Option<Text>, Memory>
    ensures { IfOk result (λ host. host ≡ published_in text.now) }
{
    match span_of(text) {
        Some(Span::One(port)) => Ok(Some(number_text(alloc, port)?)),
        Some(Span::Range(_, _)) => Ok(Some(Text::from_str(alloc, text)?)),
        None => Ok(None),
    }
}

/// One port or a range of ports up to 65,535.
fn span_of(text: &str) -> Option<Span>
    ensures value { result ≡ span_of text.now }
    ensures range { IfSome result IsSpan }
{
    match cut_text(text, '-') {
        None => Some(Span::One(port_number(text)?)),
        Some((first, last)) => range(port_number(first)?, port_number(last)?),
    }
}

/// A range of at most 1,000 ports.
fn range(first: u32, last: u32) -> Option<Span>
    ensures { result ≡ range first last }
{
    if first <= last && last - first < MOST_PORTS {
        Some(Span::Range(first, last))
    } else {
        None
    }
}

/// One port or a range of ports from 1 on.
fn target_of(text: &str) -> Option<Span>
    ensures value { result ≡ target_of text.now }
    ensures range { IfSome result IsSpan }
{
    let span = span_of(text)?;
    if first_of(span) > 0 { Some(span) } else { None }
}

fn first_of(span: Span) -> u32
    ensures { result ≡ first_of span }
{
    match span {
        Span::One(port) => port,
        Span::Range(first, _) => first,
    }
}

/// The number of a port, at most 65,535; None where a text is none. No memory.
pub fn port_number(text: &str) -> Option<u32>
    ensures value { result ≡ number_up_to greatest_port text.now }
    ensures range { IfSome result (λ port. port ≤ greatest_port) }
{
    let port = number(text.as_bytes(), GREATEST_PORT)?;
    u32::try_from(port).ok()
}

/// The text of a number.
fn number_text(alloc: Global, number: u32) -> Result<Text, Memory>
    ensures { IfOk result (λ t. t ≡ decimal number) }
{
    Ok(Text::from_string(format!(in alloc; "{number}")?))
}

fn port_at(
    alloc: Global,
    host_ip: &Option<Text>,
    protocol: &str,
    published: Option<Text>,
    target: u32,
) -> Result<Port, Memory>
    ensures { IfOk result (λ p. p ≡
        port_at host_ip.now protocol.now published target) }
{
    let protocol = Text::from_str(alloc, protocol)?;
    Ok(Port {
        host_ip: host_ip.copy(alloc)?,
        published,
        target,
        protocol,
    })
}

fn one_port(
    alloc: Global,
    host_ip: &Option<Text>,
    protocol: &str,
    published: Option<Text>,
    target: u32,
) -> Result<List<Port>, Memory>
    ensures { IfOk result (λ l. l ≡
        port_at host_ip.now protocol.now published target ∷ []) }
{
    let port = port_at(alloc, host_ip, protocol, published, target)?;
    let mut ports = List::new(alloc);
    ports.push(port)?;
    Ok(ports)
}

/// A port for each target from a first to a last one, published from `low` on where that is given.
fn ports_from(
    alloc: Global,
    host_ip: &Option<Text>,
    protocol: &str,
    low: Option<u32>,
    first: u32,
    last: u32,
) -> Result<List<Port>, Memory>
    requires targets { (first ≤ last) × (last ≤ greatest_port) }
    requires hosts { IfSome low (λ low. low ≤ greatest_port) }
    ensures { IfOk result (λ l. l ≡
        ports_from (λ place. port_at host_ip.now protocol.now (host_text low place))
        first (last - first + 1)) }
{
    let mut ports = List::new(alloc);
    for place in 0..last - first + 1 {
        let host = host_text(alloc, low, place)?;
        ports.push(port_at(alloc, host_ip, protocol, host, first + place)?)?;
    }
    Ok(ports)
}

/// What the port at a place of a range is published as.
fn host_text(alloc: Global, low: Option<u32>, place: u32) -> Result<Option<Text>, Memory>
    requires low { IfSome low (λ low. low ≤ greatest_port) }
    requires place { place ≤ greatest_port }
    ensures { IfOk result (λ t. t ≡ host_text low place) }
{
    match low {
        None => Ok(None),
        Some(low) => Ok(Some(number_text(alloc, low + place)?)),
    }
}
