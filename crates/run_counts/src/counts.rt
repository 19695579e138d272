ghost use Rattle.std.specs.Prelude.{◌≡◌};
ghost use Rattle.run_counts.specs.Counts.{answered, creates, ends_well, is_claim, is_create, is_done, sent};

use engine_types::{Entry, Exchange, Outcome, Reply, Request};
use exchange_log::ExchangeLog;

/// What is counted of a run: its exit status, how many actions were sent, and how many of them ended well.
#[derive(Clone, Copy)]
pub struct RunCounts {
    pub status: u8,
    pub sent: usize,
    pub answered: usize,
}

/// How many actions a journal claims: each claim is sent once, whatever comes of it. No memory.
pub fn sent(journal: &[Entry]) -> usize
    ensures { result ≡ sent journal.now }
{
    journal.iter().filter(|entry| is_claim(entry)).count()
}

/// How many of the actions that a journal claims ended well: what was asked for was made or done, or was so already. No memory.
pub fn answered(journal: &[Entry]) -> usize
    ensures { result ≡ answered journal.now }
{
    journal.iter().filter(|entry| ends_well(entry)).count()
}

/// How many exchanges of a log ask for a container to be made, whatever came of them. No memory.
pub fn creates(log: &[Exchange]) -> usize
    ensures { result ≡ creates log.now }
{
    log.iter()
        .filter(|exchange| is_create(&exchange.request))
        .count()
}

/// The same of a log that keeps looks beside the other exchanges: no look asks for a container to be made. No memory.
pub fn creates_logged(log: &ExchangeLog) -> usize
    ensures { result ≡ creates log.now.items }
{
    let (whole, _) = log.parts();
    creates(whole)
}

#[tactic(auto, unfolding(crate::specs::Counts::is_claim))]
fn is_claim(entry: &Entry) -> bool
    ensures { result ≡ is_claim entry.now }
{
    match entry {
        Entry::Claim { .. } => true,
        _ => false,
    }
}

#[tactic(auto, unfolding(crate::specs::Counts::ends_well))]
fn ends_well(entry: &Entry) -> bool
    ensures { result ≡ ends_well entry.now }
{
    match entry {
        Entry::Ended {
            outcome: Outcome::Answered(reply),
            ..
        } => is_done(reply),
        _ => false,
    }
}

#[tactic(auto, unfolding(crate::specs::Counts::is_done))]
fn is_done(reply: &Reply) -> bool
    ensures { result ≡ is_done reply.now }
{
    match reply {
        Reply::Made(_) | Reply::Done | Reply::Already => true,
        _ => false,
    }
}

#[tactic(auto, unfolding(crate::specs::Counts::is_create))]
fn is_create(request: &Request) -> bool
    ensures { result ≡ is_create request.now }
{
    match request {
        Request::Create { .. } => true,
        _ => false,
    }
}
