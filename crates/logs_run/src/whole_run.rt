ghost use Rattle.std.specs.Prelude.{◌≡◌, ℕ, ◌+◌, ◌<◌, ◌≤◌, Some, [], length, map, slice_index_or, vec_capacity, vec_len};
ghost use Rattle.tree_base.specs.Limits.{most_log_slots, most_workers};
ghost use Rattle.outside_api.specs.Accounts.{account};
ghost use Rattle.logs_run.specs.Ending.{logs_status};
ghost use Rattle.logs_run.specs.Listing.{ListsWith};
ghost use Rattle.logs_run.specs.Logged.{HasLogged, IsLogged};
ghost use Rattle.logs_run.specs.Met.{HasFetchedAs, MayFetch};
ghost use Rattle.logs_run.specs.Slots.{tasks};
ghost use Rattle.turn_ledger.specs.Seats.{IsFirst, IsOf};

use crate::crew::{end_all, seat_all};
use crate::ending::{ended, refusal};
use crate::fetching::{Fetcher, fetch_own};
use crate::listing::list;
use crate::logged::Logged;
use crate::tasks::{Task, all_tasks};
use engine_types::{Declared, Listed, LogsRefusal};
use log_book::LogBook;
use outside_api::Hand;
use std::alloc::Global;
use std::sync::Wait;
use std::thread;
use std::thread::Threads;
use tree_base::List;
use tree_base::limits::MOST_LOG_SLOTS;
use turn_ledger::{TurnSeat, Turns};

/// What the containers of a project's slots wrote, asked for by as many workers as there are hands, 1 to 16, each in a thread of its own;
/// where no thread can be made, one after another. Slots without a container are passed over, and so are those with a terminal, which
/// the call is refused for.
pub fn logs_run<R: Threads + Wait + Sync, H: Hand + Send>(
    alloc: Global,
    rt: &R,
    declared: &Declared,
    hands: List<H>,
) -> Logged<H>
    requires some { 0 < length hands }
    requires few { length hands ≤ most_workers }
    ensures logged { IsLogged declared.now
        (map (λ h. account (H.log h) (H.heard h) (H.faults h)) hands)
        (map (λ h. account (H.log h) (H.heard h) (H.faults h)) result.hands)
        result.refusal result.entries }
    ensures status { result.status ≡ logs_status result.refusal }
    ensures clocks { map (λ h. H.clock h) result.hands ≡ map (λ h. H.clock h) hands }
{
    let count = declared.slots.len();
    if count > MOST_LOG_SLOTS {
        let count = u32::try_from(count).unwrap_or(u32::MAX);
        return ended(
            Some(LogsRefusal::TooManySlots { count }),
            hands,
            List::new(alloc),
        );
    }
    let (hands, listed) = list_with(alloc, hands, declared);
    match listed {
        Ok(rows) => fetch_all(alloc, rt, declared, rows, hands),
        Err(refusal) => ended(Some(refusal), hands, List::new(alloc)),
    }
}

/// What hand 0 lists, with the hands.
fn list_with<H: Hand>(
    alloc: Global,
    hands: List<H>,
    declared: &Declared,
) -> (List<H>, Result<List<Listed>, LogsRefusal>)
    requires { 0 < length hands }
    ensures lists { ListsWith (λ h. account (H.log h) (H.heard h) (H.faults h)) (λ h. H.clock h)
        declared.now result.1 hands result.0 }
    ensures as_many { length result.0 ≡ length hands }
{
    let mut hands = hands.into_vec();
    let listed = list_first(alloc, hands.as_mut_slice(), declared);
    (List::from_vec(hands), listed)
}

/// The same with the hands in their place.
fn list_first<H: Hand>(
    alloc: Global,
    hands: &mut [H],
    declared: &Declared,
) -> Result<List<Listed>, LogsRefusal>
    requires { 0 < length hands.old }
    ensures { ListsWith (λ h. account (H.log h) (H.heard h) (H.faults h)) (λ h. H.clock h)
        declared.now result hands.old hands.new }
{
    list(alloc, &mut hands[0], declared)
}

/// Asks for the logs of all slots, by these rows of the listing.
fn fetch_all<R: Threads + Wait + Sync, H: Hand + Send>(
    alloc: Global,
    rt: &R,
    declared: &Declared,
    rows: List<Listed>,
    hands: List<H>,
) -> Logged<H>
    requires some { 0 < length hands }
    requires few { length hands ≤ most_workers }
    requires slots { length declared.now.slots ≤ most_log_slots }
    ensures logged { HasLogged declared.now rows
        (map (λ h. account (H.log h) (H.heard h) (H.faults h)) hands)
        (map (λ h. account (H.log h) (H.heard h) (H.faults h)) result.hands)
        result.refusal result.entries }
    ensures status { result.status ≡ logs_status result.refusal }
    ensures clocks { map (λ h. H.clock h) result.hands ≡ map (λ h. H.clock h) hands }
{
    let seats = hands.len() as u32;
    let mut crew = Vec::new(alloc);
    let Ok(()) = crew.reserve(hands.len()) else {
        return unfetched(alloc, hands);
    };
    let Ok(all) = all_tasks(alloc, declared, rows.as_slice()) else {
        return unfetched(alloc, hands);
    };
    let Ok(book) = LogBook::begin(alloc, declared.slots.len() as u32, seats) else {
        return unfetched(alloc, hands);
    };
    match Turns::new(alloc, book, seats) {
        Ok((turns, first)) => {
            fetch_in_turns(alloc, rt, declared, rows, all, turns, first, crew, hands)
        }
        Err(book) => {
            drop(book);
            drop(all);
            drop(rows);
            unfetched(alloc, hands)
        }
    }
}

/// What comes of a call that finds no memory to begin. No memory.
fn unfetched<H: Hand>(alloc: Global, hands: List<H>) -> Logged<H>
    ensures refusal { result.refusal ≡ Some LogsRefusal.Memory }
    ensures hands { result.hands ≡ hands }
    ensures entries { result.entries ≡ [] }
    ensures status { result.status ≡ logs_status result.refusal }
{
    ended(Some(LogsRefusal::Memory), hands, List::new(alloc))
}

/// Seats the hands, fetches with all, and ends the turns.
fn fetch_in_turns<R: Threads + Wait + Sync, H: Hand + Send>(
    alloc: Global,
    rt: &R,
    declared: &Declared,
    rows: List<Listed>,
    all: List<Task>,
    turns: Turns<LogBook>,
    first: TurnSeat<LogBook>,
    mut crew: Vec<Fetcher<H>>,
    hands: List<H>,
) -> Logged<H>
    requires some { 0 < length hands }
    requires few { length hands ≤ most_workers }
    requires slots { length declared.now.slots ≤ most_log_slots }
    requires all { all ≡ tasks declared.now rows }
    requires book { turns.object
        ≡ record { slots = length declared.now.slots; workers = length hands; entries = [] } }
    requires own { IsOf turns first }
    requires first { IsFirst turns.object (length hands) first.view }
    requires seats { turns.seats ≡ length hands }
    requires empty { crew.items ≡ [] }
    requires room { vec_len crew + length hands ≤ vec_capacity crew }
    ensures logged { HasLogged declared.now rows
        (map (λ h. account (H.log h) (H.heard h) (H.faults h)) hands)
        (map (λ h. account (H.log h) (H.heard h) (H.faults h)) result.hands)
        result.refusal result.entries }
    ensures status { result.status ≡ logs_status result.refusal }
    ensures clocks { map (λ h. H.clock h) result.hands ≡ map (λ h. H.clock h) hands }
{
    let mut hands = hands.into_vec();
    seat_all(&turns, first, &mut hands, &mut crew);
    fetch_each(alloc, rt, &turns, crew.as_mut_slice(), all.as_slice());
    let (book, met) = end_all(turns, crew, &mut hands);
    let entries = book.finish();
    let refusal = refusal(alloc, declared, rows.as_slice(), met, entries.as_slice());
    ended(refusal, List::from_vec(hands), entries)
}

/// Fetches with each worker, each in a thread of its own; where no thread can be made, one after another.
fn fetch_each<R: Threads + Wait + Sync, H: Hand + Send>(
    alloc: Global,
    rt: &R,
    turns: &Turns<LogBook>,
    crew: &mut [Fetcher<H>],
    all: &[Task],
)
    requires some { 0 < length crew.old }
    requires few { length crew.old ≤ most_workers }
    requires may { (k : ℕ) (d : Fetcher H) → k < length crew.old
        → MayFetch turns.now (slice_index_or crew.old k d).seat (slice_index_or crew.old k d).met
        all.now (length crew.old) k }
    ensures as_many { length crew.new ≡ length crew.old }
    ensures fetched { (k : ℕ) (d : Fetcher H) → k < length crew.old
        → HasFetchedAs turns.now all.now (length crew.old) k (slice_index_or crew.old k d).seat
        (slice_index_or crew.new k d).seat (slice_index_or crew.new k d).met
        (account (H.log (slice_index_or crew.old k d).hand)
        (H.heard (slice_index_or crew.old k d).hand) (H.faults (slice_index_or crew.old k d).hand))
        (account (H.log (slice_index_or crew.new k d).hand)
        (H.heard (slice_index_or crew.new k d).hand)
        (H.faults (slice_index_or crew.new k d).hand))
        × (H.clock (slice_index_or crew.new k d).hand
        ≡ H.clock (slice_index_or crew.old k d).hand) }
{
    let count = crew.len();
    let workers = count as u32;
    thread::for_each_mut(
        rt,
        crew,
        count,
        &move |at: usize, fetcher: &mut Fetcher<H>|
            requires { (at < workers) × MayFetch turns.now fetcher.old.seat fetcher.old.met all.now
                workers at }
            ensures { HasFetchedAs turns.entry.now all.entry.now workers at
                fetcher.old.seat fetcher.new.seat fetcher.new.met
                (account (H.log fetcher.old.hand) (H.heard fetcher.old.hand)
                (H.faults fetcher.old.hand))
                (account (H.log fetcher.new.hand) (H.heard fetcher.new.hand)
                (H.faults fetcher.new.hand))
                × (H.clock fetcher.new.hand ≡ H.clock fetcher.old.hand) }
        { fetch_own(alloc, rt, turns, fetcher, all, workers, at as u32) },
    );
}
