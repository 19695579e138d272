ghost use Rattle.std.specs.Prelude.{◌≡◌, IfOk};
ghost use Rattle.progress_board.specs.Lines.{begun_line, cut_line, drawn, ended_line};

use std::alloc::Global;
use tree_base::{Memory, Text};

/// The line that says what has begun and lasts, with its line feed.
pub fn begun_line(alloc: Global, words: &Text) -> Result<Text, Memory>
    ensures { IfOk result (λ line. line ≡ begun_line words.now) }
{
    let line = format!(in alloc; "compose: {words}\n")?;
    Ok(Text::from_string(line))
}

/// The line that says what has ended, after so many milliseconds, with its line feed. It tells whole tenths of seconds.
pub fn ended_line(alloc: Global, words: &Text, ms: u64) -> Result<Text, Memory>
    ensures { IfOk result (λ line. line ≡ ended_line words.now ms) }
{
    let seconds = ms / 1_000;
    let tenths = ms / 100 % 10;
    let line = format!(in alloc; "compose: {words}: {seconds}.{tenths} s\n")?;
    Ok(Text::from_string(line))
}

/// The first 79 characters of a line, so that it stands on one line of a terminal.
#[tactic(auto, using(crate::proofs::Cuts::cut))]
pub fn cut_line(alloc: Global, line: &Text) -> Result<Text, Memory>
    ensures { IfOk result (λ cut. cut ≡ cut_line line.now) }
{
    let line = line.as_str();
    let cut = format!(in alloc; "{line:.79}")?;
    Ok(Text::from_string(cut))
}

/// What draws a line over the one where a terminal stands, and takes that one away where the line is empty.
pub(crate) fn drawn(alloc: Global, line: &Text) -> Result<Text, Memory>
    ensures { IfOk result (λ text. text ≡ drawn line.now) }
{
    let text = format!(in alloc; "\r{line}\x1B[K")?;
    Ok(Text::from_string(text))
}
