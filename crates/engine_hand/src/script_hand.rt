ghost use Rattle.std.specs.Prelude.{◌≡◌, ◌<◌, ◌≤◌, ◌^◌, [], None, IfOk, IsFalse, length};
ghost use Rattle.engine_hand.specs.ScriptHands.{clock_of, faults_of, faults_with, fitted, is_done_by, is_made_by, is_of_row, log_of, script_of, scripted};
ghost use Rattle.outside_api.specs.Clock.{after_asked, after_pause, new_clock, read_at};
ghost use Rattle.outside_api.specs.Hands.{HasCause, Logs, logged};

use engine_types::{Exchange, Outcome, Reply, Request, WireEnd};
use outside_api::{Hand, MemoryClock};
use std::alloc::Global;
use tree_base::{List, Memory, ReservedList, TryCopy};

/// A hand that answers with told outcomes, one for each exchange, in order, and behind the last one with NotSent. A reply that isn't one
/// of its request's is Lost with BadBody. It tells no Engine and nothing of what it heard, counts what is lost or not sent as a fault,
/// is never asked to stop, and its clock rises by its pauses.
#[derive(Drop)]
pub struct ScriptHand {
    script: List<Outcome>,
    log: ReservedList<Exchange>,
    failed: u64,
    clock: MemoryClock,
}

impl ScriptHand {
    /// A hand with an empty log, which is to answer so, and a clock that was never used. No memory.
    pub fn new(alloc: Global, script: List<Outcome>) -> ScriptHand
        ensures log { ⟦<ScriptHand as Hand>⟧.log result ≡ [] }
        ensures faults { ⟦<ScriptHand as Hand>⟧.faults result ≡ 0 }
        ensures clock { ⟦<ScriptHand as Hand>⟧.clock result ≡ new_clock }
        ensures script { script_of result ≡ script }
    {
        ScriptHand {
            script,
            log: ReservedList::new(alloc),
            failed: 0,
            clock: MemoryClock::new(),
        }
    }

    /// What the script has for the next exchange.
    fn next(&self, alloc: Global, request: &Request) -> Result<Outcome, Memory>
        ensures { IfOk result (λ outcome.
            outcome ≡ scripted (script_of self.now) (length (log_of self.now)) request.now) }
    {
        match self.script.get(self.log.len()) {
            Some(outcome) => fitted(alloc, request, outcome),
            None => Ok(Outcome::NotSent),
        }
    }
}

impl Hand for ScriptHand {
    ghost use Rattle.outside_api.specs.ClockCounts.{counts_of};

    ghost log = { λ hand. log_of hand };

    ghost engine = { λ _. None };

    ghost heard = { λ _. None };

    ghost faults = { λ hand. faults_of hand };

    ghost clock = { λ hand. clock_of hand };

    /// Answers with the script's next outcome. Where there is no room in the log, or none for two copies, nothing changes.
    fn exchange(&mut self, alloc: Global, request: Request) -> Outcome
        ensures log { Logs (log_of self.old) request result (log_of self.new) }
        ensures unsent_faults { log_of self.new ≡ log_of self.old
            → faults_of self.new ≡ faults_of self.old }
        ensures counted { faults_of self.old ≤ faults_of self.new }
        ensures cause { HasCause request None (faults_of self.old) (faults_of self.new) result }
        ensures clock { clock_of self.new ≡ clock_of self.old }
        ensures scripted { log_of self.new ≡ logged (log_of self.old) request result
            → result ≡ scripted (script_of self.old) (length (log_of self.old)) request }
        ensures faults { log_of self.new ≡ logged (log_of self.old) request result
            → faults_of self.new ≡ faults_with result (faults_of self.old) }
        ensures script { script_of self.new ≡ script_of self.old }
    {
        let (Ok(outcome), Ok(kept)) = (self.next(alloc, &request), self.next(alloc, &request))
        else {
            drop(request);
            return Outcome::Memory;
        };
        if self.log.reserve(1).is_err() {
            drop(request);
            return Outcome::Memory;
        }
        self.failed = faults_with(&outcome, self.failed);
        let exchange = Exchange {
            request,
            outcome: kept,
        };
        self.log.push(exchange).unwrap();
        outcome
    }

    /// The time in milliseconds, which rises by the pauses alone.
    fn now(&mut self) -> u64
        requires { (clock_of self.old).readings < 2 ^ 62 }
        ensures clock { clock_of self.new
            ≡ read_at (length (log_of self.old)) (clock_of self.old) result }
        ensures log { log_of self.new ≡ log_of self.old }
        ensures faults { faults_of self.new ≡ faults_of self.old }
        ensures script { script_of self.new ≡ script_of self.old }
    {
        let made = self.log.len() as u64;
        self.clock.now_at(made)
    }

    fn pause(&mut self, ms: u32)
        requires { (clock_of self.old).paused < 2 ^ 62 }
        ensures clock { clock_of self.new ≡ after_pause (clock_of self.old) ms }
        ensures log { log_of self.new ≡ log_of self.old }
        ensures faults { faults_of self.new ≡ faults_of self.old }
        ensures script { script_of self.new ≡ script_of self.old }
    {
        self.clock.pause(ms);
    }

    /// Whether the worker is asked to stop: never.
    fn asked(&mut self) -> bool
        requires { (clock_of self.old).looks < 2 ^ 62 }
        ensures clock { clock_of self.new ≡ after_asked (clock_of self.old) result }
        ensures log { log_of self.new ≡ log_of self.old }
        ensures faults { faults_of self.new ≡ faults_of self.old }
        ensures script { script_of self.new ≡ script_of self.old }
        ensures never { IsFalse result }
    {
        self.clock.look(false);
        false
    }
}

/// A count of faults after an outcome: one more where a response was lost, or a request wasn't sent. No memory.
fn faults_with(outcome: &Outcome, faults: u64) -> u64
    ensures { result ≡ faults_with outcome.now faults }
{
    match outcome {
        Outcome::Lost(_) | Outcome::NotSent => faults.saturating_add(1),
        Outcome::Answered(_) | Outcome::Memory => faults,
    }
}

/// A copy of an outcome as it fits a request: a reply that isn't one of the request's is no body of its form.
fn fitted(alloc: Global, request: &Request, outcome: &Outcome) -> Result<Outcome, Memory>
    ensures { IfOk result (λ copy. copy ≡ fitted request.now outcome.now) }
{
    match outcome {
        Outcome::Answered(reply) if !is_of_row(request, reply) => {
            Ok(Outcome::Lost(WireEnd::BadBody))
        }
        outcome => outcome.copy(alloc),
    }
}

/// Whether a reply is one of its request's. No memory.
fn is_of_row(request: &Request, reply: &Reply) -> bool
    ensures { result ≡ is_of_row request.now reply.now }
{
    match reply {
        Reply::Refused { .. } => true,
        Reply::Containers(_) => matches!(request, Request::ListContainers { .. }),
        Reply::State(_) => matches!(request, Request::Inspect { .. }),
        Reply::Bytes(_) => matches!(request, Request::Logs { .. }),
        Reply::Made(_) => is_made_by(request),
        Reply::Done => is_done_by(request),
        Reply::Already => matches!(request, Request::Start { .. } | Request::Stop { .. }),
        Reply::Networks(_) => matches!(request, Request::ListNetworks),
        Reply::Volumes(_) => matches!(request, Request::ListVolumes),
        Reply::ImageId(_) => matches!(request, Request::Image { .. }),
        Reply::Pulled | Reply::PullFailed(_) => matches!(request, Request::Pull { .. }),
    }
}

/// Whether a request may be answered with an id that was made.
fn is_made_by(request: &Request) -> bool
    ensures { result ≡ is_made_by request.now }
{
    matches!(
        request,
        Request::Create { .. } | Request::MakeNetwork { .. }
    )
}

/// Whether a request may be answered with Done.
fn is_done_by(request: &Request) -> bool
    ensures { result ≡ is_done_by request.now }
{
    matches!(
        request,
        Request::Start { .. }
            | Request::Stop { .. }
            | Request::Remove { .. }
            | Request::Connect { .. }
            | Request::RemoveNetwork { .. }
            | Request::MakeVolume { .. }
            | Request::RemoveVolume { .. }
    )
}
