ghost use Rattle.std.specs.Prelude.{◌≡◌, ◌++◌, ◌<◌, length, IfOk, OnOk};
ghost use Rattle.log_frames.specs.Cutting.{after, ended, rest_lines};
ghost use Rattle.log_frames.specs.Frames.{IsReply, LieIn};
ghost use Rattle.log_book.specs.Books.{most_parts, of_container};
ghost use Rattle.logs_run.specs.Adding.{AddsEntry, AddsParts, AddsReply, HasNone, IsFetcher, MayAddTo};

use log_book::{LogBook, LogCall};
use log_frames::{Cutter, Frame, FrameRefusal, LogLine, first_part, frames, part_size};
use std::alloc::Global;
use std::sync::Wait;
use tree_base::{List, Memory};
use turn_ledger::{TurnSeat, Turns};

/// Cuts a reply into frames and these into lines, and adds the lines to the book, an entry for each part. Where the bytes aren't frames
/// nothing is added, and the refusal tells from which place on; where memory is wanted, entries of the last parts may be missing.
pub(crate) fn add_reply<R: Wait>(
    alloc: Global,
    rt: &R,
    turns: &Turns<LogBook>,
    seat: &mut TurnSeat<LogBook>,
    slot: u32,
    bytes: &[u8],
) -> Result<(), FrameRefusal>
    requires fetcher { IsFetcher turns.now seat.old }
    requires may { MayAddTo turns.now seat.old.view slot }
    requires none { HasNone seat.old.view slot }
    ensures fetcher { IsFetcher turns.now seat.new }
    ensures adds { AddsReply bytes.now slot seat.old.view seat.new.view result }
{
    let frames = frames(alloc, bytes)?;
    add_frames(alloc, rt, turns, seat, slot, bytes, frames.as_slice())?;
    Ok(())
}

/// Adds the lines of a reply's frames, an entry for each part.
fn add_frames<R: Wait>(
    alloc: Global,
    rt: &R,
    turns: &Turns<LogBook>,
    seat: &mut TurnSeat<LogBook>,
    slot: u32,
    bytes: &[u8],
    frames: &[Frame],
) -> Result<(), Memory>
    requires fetcher { IsFetcher turns.now seat.old }
    requires may { MayAddTo turns.now seat.old.view slot }
    requires none { HasNone seat.old.view slot }
    requires reply { IsReply bytes.now frames.now }
    requires within { LieIn bytes.now frames.now }
    ensures fetcher { IsFetcher turns.now seat.new }
    ensures adds { AddsParts bytes.now frames.now slot seat.old.view seat.new.view result }
{
    let size = part_size(frames.len());
    let mut cutter = Cutter::new(alloc)?;
    let mut left = frames;
    while left.len() > size {
        let (part, behind) = first_part(left, size);
        let lines = cutter.cut(alloc, bytes, part, slot)?;
        add(rt, turns, seat, slot, lines);
        left = behind;
    }
    if left.is_empty() {
        return Ok(());
    }
    let lines = last_lines(alloc, cutter, bytes, left, slot)?;
    add(rt, turns, seat, slot, lines);
    Ok(())
}

/// The lines of the last part, and behind them those that no line feed ended.
fn last_lines(
    alloc: Global,
    mut cutter: Cutter,
    bytes: &[u8],
    part: &[Frame],
    slot: u32,
) -> Result<List<LogLine>, Memory>
    requires { LieIn bytes.now part.now }
    ensures { IfOk result (λ lines. lines ≡ ended cutter bytes.now slot part.now
        ++ rest_lines (after cutter bytes.now part.now) slot) }
{
    let mut lines = cutter.cut(alloc, bytes, part, slot)?;
    let rest = cutter.rest(alloc, slot)?;
    put_behind(&mut lines, rest.into_vec())?;
    Ok(lines)
}

/// Puts lines behind others.
fn put_behind(lines: &mut List<LogLine>, mut rest: Vec<LogLine>) -> Result<(), Memory>
    ensures { OnOk result (lines.new ≡ lines.old ++ rest.items) }
{
    while !rest.is_empty() {
        let line = rest.remove(0);
        lines.push(line)?;
    }
    Ok(())
}

/// Adds lines in a turn.
fn add<R: Wait>(
    rt: &R,
    turns: &Turns<LogBook>,
    seat: &mut TurnSeat<LogBook>,
    slot: u32,
    lines: List<LogLine>,
)
    requires fetcher { IsFetcher turns.now seat.old }
    requires may { MayAddTo turns.now seat.old.view slot }
    requires fewer { length (of_container slot seat.old.view.mine) < most_parts }
    ensures fetcher { IsFetcher turns.now seat.new }
    ensures adds { AddsEntry lines slot seat.old.view seat.new.view }
{
    let call = LogCall::Add {
        container: slot,
        lines,
    };
    turns.act(rt, seat, call);
}
