ghost use Rattle.std.specs.Prelude.{◌≡◌, ◌++◌, IfOk};
ghost use Rattle.run_model.specs.Lines.{request_words, cause_words, kind_words, refused_words, lost_words, not_sent_words, outcome_words, seen_words};
ghost use Rattle.run_model.specs.Shown.{shown};
ghost use Rattle.engine_types.specs.declared.Outcome.{Outcome};
ghost use Rattle.engine_types.specs.declared.SeenFault.{SeenFault};
ghost use Rattle.refusals.specs.declared.refusal.Refusal.{Refusal};
ghost use Rattle.refusals.specs.Lines.{refusal_line, refusal_words, unbuilt_words};

use crate::condition::failed_words;
use crate::declaring_words::{digest_words, identity_words};
use crate::refusal::{Part, Refusal, Unbuilt};
use compose_words::WordsRefusal;
use engine_types::{Kind, Outcome, Reply, Request, SeenFault, WireEnd};
use loading_words::{active_words, load_words, project_words};
use run_lookups::shown;
use std::alloc::Global;
use tree_base::{Memory, Text};

/// The line that a refusal prints, with its line feed.
pub fn refusal_line(alloc: Global, refusal: &Refusal) -> Result<Text, Memory>
    ensures { IfOk result (λ line. line ≡ refusal_line refusal.now) }
{
    let words = refusal_words(alloc, refusal)?;
    let line = format!(in alloc; "compose: {words}\n")?;
    Ok(Text::from_string(line))
}

fn refusal_words(alloc: Global, refusal: &Refusal) -> Result<Text, Memory>
    ensures { IfOk result (λ words. words ≡ refusal_words refusal.now) }
{
    match refusal {
        Refusal::Words(refusal) => words_words(alloc, refusal),
        Refusal::NotBuilt(unbuilt) => unbuilt_words(alloc, unbuilt),
        Refusal::Load(refusal) => load_words(alloc, refusal),
        Refusal::Name(refusal) => project_words(alloc, refusal),
        Refusal::Active(refusal) => active_words(alloc, refusal),
        Refusal::Project(refusal) => project_words(alloc, refusal),
        Refusal::Digest(refusal) => digest_words(alloc, refusal),
        Refusal::Identity(refusal) => identity_words(alloc, refusal),
        Refusal::Seen(fault) => seen_words(alloc, fault),
        Refusal::Request { request, outcome } => outcome_words(alloc, request, outcome),
        Refusal::Condition {
            slot,
            condition,
            report,
        } => failed_words(alloc, slot, *condition, report),
        Refusal::Stopped => Text::from_str(alloc, "stopped"),
        Refusal::Late(_) => Text::from_str(alloc, "late"),
        Refusal::Outside(part) => fault_words(alloc, *part),
        Refusal::Memory => Text::from_str(alloc, "memory"),
    }
}

fn words_words(alloc: Global, refusal: &WordsRefusal) -> Result<Text, Memory>
    ensures { IfOk result (λ words. words ≡ refusal_words (Refusal.Words refusal.now)) }
{
    let words = format!(in alloc; "{refusal}")?;
    Ok(Text::from_string(words))
}

fn unbuilt_words(alloc: Global, unbuilt: &Unbuilt) -> Result<Text, Memory>
    ensures { IfOk result (λ words. words ≡ unbuilt_words unbuilt.now) }
{
    match unbuilt {
        Unbuilt::Words => Text::from_str(alloc, "not built: words"),
    }
}

pub(crate) fn before_text(alloc: Global, words: &str, text: &Text) -> Result<Text, Memory>
    ensures { IfOk result (λ all. all ≡ words.now ++ text.now) }
{
    let all = format!(in alloc; "{words}{text}")?;
    Ok(Text::from_string(all))
}

/// Words before a text that an Engine sent.
fn before_shown(alloc: Global, words: &str, text: &Text) -> Result<Text, Memory>
    ensures { IfOk result (λ all. all ≡ words.now ++ shown text.now) }
{
    let text = shown(alloc, text.as_str())?;
    before_text(alloc, words, &text)
}

fn fault_words(alloc: Global, part: Part) -> Result<Text, Memory>
    ensures { IfOk result (λ words. words ≡ refusal_words (Refusal.Outside part)) }
{
    match part {
        Part::Out => Text::from_str(alloc, "fault: Out"),
        Part::Plug => Text::from_str(alloc, "fault: Plug"),
    }
}

fn seen_words(alloc: Global, fault: &SeenFault) -> Result<Text, Memory>
    ensures { IfOk result (λ words. words ≡ seen_words fault.now) }
{
    match fault {
        SeenFault::RequestFailed {
            request,
            status,
            message,
        } => refused_words(alloc, request, *status, message.as_str()),
        SeenFault::PullFailed { image, message } => pull_words(alloc, image, message),
        SeenFault::Lost { request, cause } => lost_words(alloc, request, *cause),
        SeenFault::NotSent { request } => not_sent_words(alloc, request),
        SeenFault::NetworkTwice {
            name,
            first,
            second,
        } => twice_words(alloc, name, first, second),
        SeenFault::ForeignNetwork { name, id } => foreign_words(alloc, name, id),
        SeenFault::ExternalMissing { kind, name } => missing_words(alloc, *kind, name),
        SeenFault::NeedsBuild { service } => build_words(alloc, service),
        SeenFault::TooManyActions { count } => count_words(alloc, *count),
        SeenFault::Memory => Text::from_str(alloc, "memory"),
    }
}

fn pull_words(alloc: Global, image: &Text, message: &Text) -> Result<Text, Memory>
    ensures { IfOk result (λ words.
        words ≡ seen_words (SeenFault.PullFailed image.now message.now)) }
{
    let message = shown(alloc, message.as_str())?;
    let words = format!(in alloc; "pull {image}: {message}")?;
    Ok(Text::from_string(words))
}

fn twice_words(alloc: Global, name: &Text, first: &Text, second: &Text) -> Result<Text, Memory>
    ensures { IfOk result (λ words.
        words ≡ seen_words (SeenFault.NetworkTwice name.now first.now second.now)) }
{
    let first = shown(alloc, first.as_str())?;
    let second = shown(alloc, second.as_str())?;
    let words = format!(in alloc; "network {name} is there twice: {first} {second}")?;
    Ok(Text::from_string(words))
}

fn foreign_words(alloc: Global, name: &Text, id: &Text) -> Result<Text, Memory>
    ensures { IfOk result (λ words. words ≡ seen_words (SeenFault.ForeignNetwork name.now id.now)) }
{
    let id = shown(alloc, id.as_str())?;
    let words = format!(in alloc; "network {name} is foreign: {id}")?;
    Ok(Text::from_string(words))
}

fn missing_words(alloc: Global, kind: Kind, name: &Text) -> Result<Text, Memory>
    ensures { IfOk result (λ words. words ≡ seen_words (SeenFault.ExternalMissing kind name.now)) }
{
    let kind = kind_words(kind);
    let words = format!(in alloc; "external {kind} {name} is missing")?;
    Ok(Text::from_string(words))
}

fn build_words(alloc: Global, service: &Text) -> Result<Text, Memory>
    ensures { IfOk result (λ words. words ≡ seen_words (SeenFault.NeedsBuild service.now)) }
{
    let words = format!(in alloc; "{service} needs a build")?;
    Ok(Text::from_string(words))
}

fn count_words(alloc: Global, count: u64) -> Result<Text, Memory>
    ensures { IfOk result (λ words. words ≡ seen_words (SeenFault.TooManyActions count)) }
{
    let words = format!(in alloc; "TooManyActions: {count}")?;
    Ok(Text::from_string(words))
}

fn kind_words(kind: Kind) -> &'static str
    ensures { result.now ≡ kind_words kind }
{
    match kind {
        Kind::Service => "service",
        Kind::Network => "network",
        Kind::Volume => "volume",
        Kind::Secret => "secret",
        Kind::Config => "config",
    }
}

fn cause_words(cause: WireEnd) -> &'static str
    ensures { result.now ≡ cause_words cause }
{
    match cause {
        WireEnd::Fault => "Fault",
        WireEnd::Ended => "Ended",
        WireEnd::Malformed { .. } => "Malformed",
        WireEnd::Encoded => "Encoded",
        WireEnd::TooLarge => "TooLarge",
        WireEnd::BadBody => "BadBody",
    }
}

fn outcome_words(alloc: Global, request: &Request, outcome: &Outcome) -> Result<Text, Memory>
    ensures { IfOk result (λ words. words ≡ outcome_words request.now outcome.now) }
{
    match outcome {
        Outcome::Answered(reply) => reply_words(alloc, request, reply),
        Outcome::Lost(cause) => lost_words(alloc, request, *cause),
        Outcome::NotSent => not_sent_words(alloc, request),
        Outcome::Memory => Text::from_str(alloc, "memory"),
    }
}

fn reply_words(alloc: Global, request: &Request, reply: &Reply) -> Result<Text, Memory>
    ensures { IfOk result (λ words.
        words ≡ outcome_words request.now (Outcome.Answered reply.now)) }
{
    match reply {
        Reply::Refused { status, message } => {
            refused_words(alloc, request, *status, message.as_str())
        }
        _ => refused_words(alloc, request, 0, ""),
    }
}

fn refused_words(
    alloc: Global,
    request: &Request,
    status: u16,
    message: &str,
) -> Result<Text, Memory>
    ensures { IfOk result (λ words. words ≡ refused_words request.now status message.now) }
{
    let request = request_words(alloc, request)?;
    let message = shown(alloc, message)?;
    let words = format!(in alloc; "refused: {request}: {status} {message}")?;
    Ok(Text::from_string(words))
}

fn lost_words(alloc: Global, request: &Request, cause: WireEnd) -> Result<Text, Memory>
    ensures { IfOk result (λ words. words ≡ lost_words request.now cause) }
{
    let request = request_words(alloc, request)?;
    let cause = cause_words(cause);
    let words = format!(in alloc; "lost: {request}: {cause}")?;
    Ok(Text::from_string(words))
}

fn not_sent_words(alloc: Global, request: &Request) -> Result<Text, Memory>
    ensures { IfOk result (λ words. words ≡ not_sent_words request.now) }
{
    let request = request_words(alloc, request)?;
    let words = format!(in alloc; "not sent: {request}")?;
    Ok(Text::from_string(words))
}

/// What a request asks, in words.
fn request_words(alloc: Global, request: &Request) -> Result<Text, Memory>
    ensures { IfOk result (λ words. words ≡ request_words request.now) }
{
    match request {
        Request::ListContainers { .. } => Text::from_str(alloc, "list containers"),
        Request::Inspect { id } => before_shown(alloc, "inspect container ", id),
        Request::Logs { id } => before_shown(alloc, "logs container ", id),
        Request::Create { name, .. } => before_text(alloc, "create container ", name),
        Request::Start { id } => before_shown(alloc, "start container ", id),
        Request::Stop { id, .. } => before_shown(alloc, "stop container ", id),
        Request::Remove { id } => before_shown(alloc, "remove container ", id),
        Request::ListNetworks => Text::from_str(alloc, "list networks"),
        Request::MakeNetwork { spec } => before_text(alloc, "create network ", &spec.name),
        Request::Connect { container, .. } => before_shown(alloc, "connect container ", container),
        Request::RemoveNetwork { id } => before_shown(alloc, "remove network ", id),
        Request::ListVolumes => Text::from_str(alloc, "list volumes"),
        Request::MakeVolume { spec } => before_text(alloc, "create volume ", &spec.name),
        Request::RemoveVolume { name } => before_text(alloc, "remove volume ", name),
        Request::Image { name } => before_text(alloc, "image ", name),
        Request::Pull { name } => before_text(alloc, "pull ", name),
    }
}
