ghost use Rattle.std.specs.Prelude.{◌≡◌, ◌<◌, ◌^◌, IfOk, length, map};
ghost use Rattle.compose.specs.Hinting.{exchange_hint, hint_on, is_unsent, is_unsent_fault, is_unsent_outcome, project_hint, seen_hint, unsent_hint, words_hint};

use crate::reaching::{Asked, UnheardSocket, unheard_socket};
use compose_cli::Ended;
use engine_plugs::MainHand;
use engine_types::{Exchange, Outcome, Request, SeenFault};
use exchange_log::ExchangeLog;
use hints::{attribute_hint, request_hint, say_hint, socket_hint, word_hint};
use outside_files::Sink;
use refusals::{ProjectRefusal, Refusal, WordsRefusal};
use std::alloc::Global;
use tree_base::{List, Memory, Text};

/// Writes a hint behind the line of what a call was refused with, where there is one. The call's status is what it is, whatever comes
/// of the hint.
pub(crate) fn say_hint_on<R, G: Sink>(
    host: &HostRuntime,
    asked: Asked<'_>,
    ended: &Ended<MainHand<'_, R>>,
    err: &mut G,
)
    requires { length asked.words.now < 2 ^ 32 }
{
    let Some(refusal) = &ended.refusal else {
        return;
    };
    if let Ok(Some(hint)) = hint_behind(host, asked, ended.hands.as_slice(), refusal) {
        say_hint(host.alloc(), &hint, err);
    }
}

/// The hint on a refusal, for which the socket is looked at where nothing could be sent.
fn hint_behind<R>(
    host: &HostRuntime,
    asked: Asked<'_>,
    hands: &[MainHand<'_, R>],
    refusal: &Refusal,
) -> Result<Option<Text>, Memory>
    requires { length asked.words.now < 2 ^ 32 }
{
    let socket = if is_unsent(refusal) {
        unheard_socket(host, asked)?
    } else {
        None
    };
    let exchanges = exchanges_of(host.alloc(), hands)?;
    hint_on(
        host.alloc(),
        asked.words,
        &socket,
        exchanges.as_slice(),
        refusal,
    )
}

/// The exchanges of all hands, hand by hand, but for looks at containers that were answered with a report.
pub(crate) fn exchanges_of<'a, 'r, R>(
    alloc: Global,
    hands: &'a [MainHand<'r, R>],
) -> Result<Vec<&'a Exchange>, Memory> {
    let mut exchanges = Vec::new(alloc);
    for hand in hands {
        for exchange in log_of(hand).parts().0 {
            exchanges.push(exchange)?;
        }
    }
    Ok(exchanges)
}

fn log_of<'a, 'r, R>(hand: &'a MainHand<'r, R>) -> &'a ExchangeLog {
    match hand {
        MainHand::Http(hand) => hand.hand.log(),
        MainHand::Memory(hand) => hand.log(),
    }
}

/// Whether nothing could be sent.
fn is_unsent(refusal: &Refusal) -> bool
    ensures { result ≡ is_unsent refusal.now }
{
    match refusal {
        Refusal::Seen(fault) => is_unsent_fault(fault),
        Refusal::Request { outcome, .. } => is_unsent_outcome(outcome),
        _ => false,
    }
}

fn is_unsent_fault(fault: &SeenFault) -> bool
    ensures { result ≡ is_unsent_fault fault.now }
{
    match fault {
        SeenFault::NotSent { .. } => true,
        _ => false,
    }
}

fn is_unsent_outcome(outcome: &Outcome) -> bool
    ensures { result ≡ is_unsent_outcome outcome.now }
{
    match outcome {
        Outcome::NotSent => true,
        _ => false,
    }
}

/// The hint on a refusal of a call with these words: on a word or an attribute that is none, on the socket at which nothing could be
/// sent, or on a request that wasn't answered well, by the exchanges of its run. None on any other one.
fn hint_on(
    alloc: Global,
    words: &List<Text>,
    socket: &Option<UnheardSocket>,
    exchanges: &[&Exchange],
    refusal: &Refusal,
) -> Result<Option<Text>, Memory>
    ensures { IfOk result (λ hint. hint ≡ hint_on words.now socket.now
        (map (λ exchange. exchange.now) exchanges.now) refusal.now) }
{
    match refusal {
        Refusal::Words(unread) => words_hint(alloc, words, unread),
        Refusal::Project(wrong) => project_hint(alloc, wrong),
        Refusal::Seen(fault) => seen_hint(alloc, socket, fault),
        Refusal::Request { request, outcome } => {
            exchange_hint(alloc, socket, exchanges, request, outcome)
        }
        _ => Ok(None),
    }
}

fn words_hint(
    alloc: Global,
    words: &List<Text>,
    refusal: &WordsRefusal,
) -> Result<Option<Text>, Memory>
    ensures { IfOk result (λ hint. hint ≡ words_hint words.now refusal.now) }
{
    match refusal {
        WordsRefusal::UnknownWord { at } => match words.get(*at as usize) {
            Some(word) => word_hint(alloc, word.as_str()),
            None => Ok(None),
        },
        _ => Ok(None),
    }
}

fn project_hint(alloc: Global, refusal: &ProjectRefusal) -> Result<Option<Text>, Memory>
    ensures { IfOk result (λ hint. hint ≡ project_hint refusal.now) }
{
    match refusal {
        ProjectRefusal::UnknownAttribute { path } => attribute_hint(alloc, path.as_slice()),
        _ => Ok(None),
    }
}

fn seen_hint(
    alloc: Global,
    socket: &Option<UnheardSocket>,
    fault: &SeenFault,
) -> Result<Option<Text>, Memory>
    ensures { IfOk result (λ hint. hint ≡ seen_hint socket.now fault.now) }
{
    match fault {
        SeenFault::NotSent { .. } => unsent_hint(alloc, socket),
        _ => Ok(None),
    }
}

fn exchange_hint(
    alloc: Global,
    socket: &Option<UnheardSocket>,
    exchanges: &[&Exchange],
    request: &Request,
    outcome: &Outcome,
) -> Result<Option<Text>, Memory>
    ensures { IfOk result (λ hint. hint ≡ exchange_hint socket.now
        (map (λ exchange. exchange.now) exchanges.now) request.now outcome.now) }
{
    match outcome {
        Outcome::NotSent => unsent_hint(alloc, socket),
        _ => request_hint(alloc, request, outcome, exchanges),
    }
}

/// What is wrong with the socket, where there is one.
fn unsent_hint(alloc: Global, socket: &Option<UnheardSocket>) -> Result<Option<Text>, Memory>
    ensures { IfOk result (λ hint. hint ≡ unsent_hint socket.now) }
{
    match socket {
        Some(socket) => {
            let hint = socket_hint(alloc, socket.state, socket.path.as_str())?;
            Ok(Some(hint))
        }
        None => Ok(None),
    }
}
