ghost use Rattle.std.specs.Prelude.{◌≡◌, ◌<◌, ◌≤◌, ◌&&◌, false, is_some, length, IfOk, IfSome};
ghost use Rattle.std.specs.List.{list_any};
ghost use Rattle.std.specs.Option.{option_copied};
ghost use Rattle.tree_base.specs.Limits.{most_log_slots};
ghost use Rattle.logs_run.specs.Ending.{logs_status};
ghost use Rattle.logs_run.specs.Refusing.{IsFaultRefusal, IsFirstTerminal, IsTerminalRefusal, RefusedBy, SlotRefusedBy, or_full};
ghost use Rattle.logs_run.specs.Slots.{container_of, has_terminal};

use crate::fetching::{Fault, Met, Reason};
use crate::logged::Logged;
use crate::tasks::{container_of, has_terminal};
use engine_types::{Declared, Listed, LogsRefusal, Slot};
use log_book::LogEntry;
use outside_api::Hand;
use run_lookups::logs_refusal_status;
use std::alloc::Global;
use tree_base::{List, Memory, TryCopy};

/// What a call came to, with the status of its refusal. No memory.
pub(crate) fn ended<H: Hand>(
    refusal: Option<LogsRefusal>,
    hands: List<H>,
    entries: List<LogEntry>,
) -> Logged<H>
    ensures status { result.status ≡ logs_status refusal }
    ensures refusal { result.refusal ≡ refusal }
    ensures hands { result.hands ≡ hands }
    ensures entries { result.entries ≡ entries }
{
    let status = status_of(refusal.as_ref());
    Logged {
        status,
        refusal,
        hands,
        entries,
    }
}

/// The exit status of a refusal; 0 without one. No memory.
fn status_of(refusal: Option<&LogsRefusal>) -> u8
    ensures { result ≡ logs_status (option_copied refusal.entry) }
{
    match refusal {
        None => 0,
        Some(refusal) => logs_refusal_status(refusal),
    }
}

/// What a call is refused with whose workers have met this: the refusal of the least slot that has one, then that of a full book.
pub(crate) fn refusal(
    alloc: Global,
    declared: &Declared,
    rows: &[Listed],
    met: Met,
    entries: &[LogEntry],
) -> Option<LogsRefusal>
    requires slots { length declared.now.slots ≤ most_log_slots }
    requires within { met.short ≡ false
        → IfSome met.fault (λ fault. fault.slot < length declared.now.slots) }
    ensures { RefusedBy declared.now rows.now met entries.now result }
{
    let Met { short, fault } = met;
    if short {
        drop(fault);
        return Some(LogsRefusal::Memory);
    }
    match slot_refusal(alloc, declared, rows, fault) {
        Ok(found) => or_full(found, entries),
        Err(Memory) => Some(LogsRefusal::Memory),
    }
}

/// A refusal, else that of a full book. No memory.
fn or_full(found: Option<LogsRefusal>, entries: &[LogEntry]) -> Option<LogsRefusal>
    ensures { result ≡ or_full found entries.now }
{
    match found {
        Some(refusal) => Some(refusal),
        None if is_full(entries) => Some(LogsRefusal::LogsFull),
        None => None,
    }
}

/// The refusal of the least slot that has one: of the first with a terminal and a container, or the fault.
fn slot_refusal(
    alloc: Global,
    declared: &Declared,
    rows: &[Listed],
    fault: Option<Fault>,
) -> Result<Option<LogsRefusal>, Memory>
    requires slots { length declared.now.slots ≤ most_log_slots }
    requires within { IfSome fault (λ found. found.slot < length declared.now.slots) }
    ensures { IfOk result (λ refusal. SlotRefusedBy declared.now rows.now fault refusal) }
{
    let terminal = first_terminal(alloc, declared, rows)?;
    match (terminal, fault) {
        (None, None) => Ok(None),
        (None, Some(fault)) => Ok(Some(fault_refusal(alloc, declared, fault)?)),
        (Some(slot), None) => Ok(Some(terminal_refusal(alloc, declared, slot)?)),
        (Some(slot), Some(fault)) => {
            if fault.slot < slot {
                Ok(Some(fault_refusal(alloc, declared, fault)?))
            } else {
                drop(fault);
                Ok(Some(terminal_refusal(alloc, declared, slot)?))
            }
        }
    }
}

/// The refusal of a terminal, which names its slot.
fn terminal_refusal(alloc: Global, declared: &Declared, slot: u32) -> Result<LogsRefusal, Memory>
    requires { slot < length declared.now.slots }
    ensures { IfOk result (λ refusal. IsTerminalRefusal declared.now slot refusal) }
{
    let slot = declared.slots.as_slice()[slot as usize].name.copy(alloc)?;
    Ok(LogsRefusal::Terminal { slot })
}

/// The refusal of a fault, which names its slot where what came are no frames.
fn fault_refusal(alloc: Global, declared: &Declared, fault: Fault) -> Result<LogsRefusal, Memory>
    requires { fault.slot < length declared.now.slots }
    ensures { IfOk result (λ refusal. IsFaultRefusal declared.now fault refusal) }
{
    let Fault { slot, reason } = fault;
    match reason {
        Reason::Unframed { at } => {
            let slot = declared.slots.as_slice()[slot as usize].name.copy(alloc)?;
            Ok(LogsRefusal::Frames { slot, at })
        }
        Reason::Failed { request, outcome } => Ok(LogsRefusal::Request { request, outcome }),
    }
}

/// The first slot that has a terminal and a container.
fn first_terminal(
    alloc: Global,
    declared: &Declared,
    rows: &[Listed],
) -> Result<Option<u32>, Memory>
    requires { length declared.now.slots ≤ most_log_slots }
    ensures { IfOk result (λ first. IsFirstTerminal declared.now rows.now first) }
{
    let slots = declared.slots.as_slice();
    for at in 0..slots.len() {
        let found = is_terminal(alloc, declared, rows, &slots[at])?;
        if found {
            return Ok(Some(at as u32));
        }
    }
    Ok(None)
}

/// Whether a slot has a terminal and a container.
fn is_terminal(
    alloc: Global,
    declared: &Declared,
    rows: &[Listed],
    slot: &Slot,
) -> Result<bool, Memory>
    ensures { IfOk result (λ found. found
        ≡ (has_terminal slot.now && is_some (container_of declared.now rows.now slot.now))) }
{
    if !has_terminal(slot) {
        return Ok(false);
    }
    let row = container_of(alloc, declared, rows, slot)?;
    Ok(row.is_some())
}

/// Whether lines were left out of the book. No memory.
fn is_full(entries: &[LogEntry]) -> bool
    ensures { result ≡ list_any (λ e. e.full) entries.now }
{
    entries.iter().any(|entry| entry.full)
}
