ghost use Rattle.std.specs.Prelude.{◌<◌, length, IfSome};

use crate::lines::{begun_line, drawn, ended_line};
use crate::row::{Row, RowOf, shown_rows};
use crate::subject::{Subject, id_in, is_settled, subject_of};
use crate::words::{said_words, waited_words};
use engine_types::{Listed, NetRow, Outcome, Reply, Report, Request};
use std::alloc::Global;
use tree_base::{List, Memory, Text, TextMap};

/// For how many milliseconds an exchange lasts before it is said.
const BEFORE_SAYING: u64 = 200;

/// What the workers of a call are at. What is told it may answer a text, which is then to be written on standard error before anything
/// else is told. All times are in milliseconds of one clock.
///
/// A container is waited for from the first look at it that doesn't find it settled until one does, or tells nothing. That is said from
/// the second such look on.
#[derive(Drop)]
pub struct Board {
    alloc: Global,
    is_plain: bool,
    rows: List<Row>,
    /// The names of containers and networks by their ids, as far as replies told them.
    names: TextMap<Text>,
    /// What stands on the terminal's line.
    standing: Text,
}

impl Board {
    /// An empty board, of lines that stay or for a terminal. No memory.
    pub fn new(alloc: Global, is_plain: bool) -> Board {
        Board {
            alloc,
            is_plain,
            rows: List::new(alloc),
            names: TextMap::new(alloc),
            standing: Text::new(alloc),
        }
    }

    /// A worker begins an exchange: what the board is to be told at its end.
    pub fn begin(&mut self, worker: u32, request: &Request, now: u64) -> Subject {
        if let Ok(words) = self.words_of(request) {
            let row = Row {
                of: RowOf::Worker(worker),
                words,
                since: now,
                is_said: false,
            };
            drop(self.rows.push(row));
        }
        subject_of(self.alloc, request).unwrap_or(Subject::Other)
    }

    fn words_of(&self, request: &Request) -> Result<Text, Memory> {
        match id_in(request) {
            Some(id) => said_words(self.alloc, request, self.names.get(id)),
            None => said_words(self.alloc, request, None),
        }
    }

    /// A worker's exchange has ended.
    pub fn end(
        &mut self,
        worker: u32,
        subject: &Subject,
        outcome: &Outcome,
        now: u64,
    ) -> Result<Text, Memory> {
        let mut out = Text::new(self.alloc);
        if let Some(at) = place_of_worker(self.rows.as_slice(), worker) {
            self.end_row(at, now, &mut out)?;
        }
        self.learn(subject, outcome, now, &mut out)?;
        self.finish(out, now)
    }

    /// So late it is: says what lasts.
    pub fn late(&mut self, now: u64) -> Result<Text, Memory> {
        let mut out = Text::new(self.alloc);
        for at in 0..self.rows.len() {
            if let Some(row) = self.rows.get_mut(at) {
                say_if_late(self.alloc, row, now, &mut out)?;
            }
        }
        self.finish(out, now)
    }

    /// Takes all rows away. Whether a line stands on the terminal that is to be taken away too. No memory.
    pub fn clear(&mut self) -> bool {
        let stands = !self.standing.is_empty();
        self.rows = List::new(self.alloc);
        self.standing = Text::new(self.alloc);
        stands
    }

    /// What is to be written: the lines that stay, or what draws the terminal's line where that isn't what stands there.
    fn finish(&mut self, lines: Text, now: u64) -> Result<Text, Memory> {
        if self.is_plain {
            return Ok(lines);
        }
        drop(lines);
        let line = shown_rows(self.alloc, self.rows.as_slice(), now)?;
        if line.as_str() == self.standing.as_str() {
            return Ok(Text::new(self.alloc));
        }
        let text = drawn(self.alloc, &line)?;
        self.standing = line;
        Ok(text)
    }

    /// Takes the row at a place away, and says its end where it was said.
    fn end_row(&mut self, at: usize, now: u64, out: &mut Text) -> Result<(), Memory>
        requires { at < length self.old.rows }
    {
        let row = self.rows.remove(at);
        if row.is_said {
            let ms = now.saturating_sub(row.since);
            let line = ended_line(self.alloc, &row.words, ms)?;
            out.push_str(line.as_str())?;
        }
        Ok(())
    }

    /// Learns what an outcome tells.
    fn learn(
        &mut self,
        subject: &Subject,
        outcome: &Outcome,
        now: u64,
        out: &mut Text,
    ) -> Result<(), Memory> {
        match outcome {
            Outcome::Answered(Reply::State(report)) => self.look(subject, report, now, out),
            Outcome::Answered(Reply::Made(id)) => self.name_made(subject, id),
            Outcome::Answered(Reply::Containers(rows)) => self.name_containers(rows.as_slice()),
            Outcome::Answered(Reply::Networks(rows)) => self.name_networks(rows.as_slice()),
            _ => self.look_in_vain(subject, now, out),
        }
    }

    fn name_made(&mut self, subject: &Subject, id: &Text) -> Result<(), Memory> {
        match subject {
            Subject::Made(name) => self.name(id, name),
            _ => Ok(()),
        }
    }

    fn name(&mut self, id: &Text, name: &Text) -> Result<(), Memory> {
        let id = id.copy(self.alloc)?;
        let name = name.copy(self.alloc)?;
        drop(self.names.put(id, name)?);
        Ok(())
    }

    fn name_containers(&mut self, rows: &[Listed]) -> Result<(), Memory> {
        for row in rows {
            self.name(&row.id, &row.name)?;
        }
        Ok(())
    }

    fn name_networks(&mut self, rows: &[NetRow]) -> Result<(), Memory> {
        for row in rows {
            self.name(&row.id, &row.name)?;
        }
        Ok(())
    }

    /// Learns how a container is.
    fn look(
        &mut self,
        subject: &Subject,
        report: &Report,
        now: u64,
        out: &mut Text,
    ) -> Result<(), Memory> {
        let Subject::LookedAt(id) = subject else {
            return Ok(());
        };
        let place = place_of_container(self.rows.as_slice(), id);
        match place {
            Some(at) if is_settled(report) => self.end_row(at, now, out),
            Some(at) => self.say_row(at, out),
            None if is_settled(report) => Ok(()),
            None => self.wait_for(id, now),
        }
    }

    /// Learns that a look at a container, if it was one, told nothing: it is waited for no more.
    fn look_in_vain(&mut self, subject: &Subject, now: u64, out: &mut Text) -> Result<(), Memory> {
        let Subject::LookedAt(id) = subject else {
            return Ok(());
        };
        match place_of_container(self.rows.as_slice(), id) {
            Some(at) => self.end_row(at, now, out),
            None => Ok(()),
        }
    }

    fn say_row(&mut self, at: usize, out: &mut Text) -> Result<(), Memory> {
        match self.rows.get_mut(at) {
            Some(row) if !row.is_said => say(self.alloc, row, out),
            _ => Ok(()),
        }
    }

    fn wait_for(&mut self, id: &Text, now: u64) -> Result<(), Memory> {
        let words = match self.names.get(id) {
            Some(name) => waited_words(self.alloc, name)?,
            None => waited_words(self.alloc, id)?,
        };
        let row = Row {
            of: RowOf::Container(id.copy(self.alloc)?),
            words,
            since: now,
            is_said: false,
        };
        self.rows.push(row)
    }
}

fn place_of_worker(rows: &[Row], number: u32) -> Option<usize>
    ensures { IfSome result (λ at. at < length rows.now) }
{
    rows.iter().position(|row| row.is_of_worker(number))
}

fn place_of_container(rows: &[Row], id: &Text) -> Option<usize>
    ensures { IfSome result (λ at. at < length rows.now) }
{
    rows.iter().position(|row| row.is_of_container(id))
}

/// Says the row of an exchange that lasts.
fn say_if_late(alloc: Global, row: &mut Row, now: u64, out: &mut Text) -> Result<(), Memory> {
    let lasts = BEFORE_SAYING <= now.saturating_sub(row.since);
    if row.is_said || !lasts || matches!(row.of, RowOf::Container(_)) {
        return Ok(());
    }
    say(alloc, row, out)
}

fn say(alloc: Global, row: &mut Row, out: &mut Text) -> Result<(), Memory> {
    row.is_said = true;
    let line = begun_line(alloc, &row.words)?;
    out.push_str(line.as_str())
}
