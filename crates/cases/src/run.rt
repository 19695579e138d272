use crate::counts::Counts;
use crate::stop::Stop;
use case_files::Line;
use tree_base::{Memory, Text};

/// How a run of cases goes: what was counted, and why it is broken off, where it is. What comes behind that is
/// passed over, so that a run has one exit.
#[derive(Drop)]
pub struct Run {
    pub counts: Counts,
    stop: Option<Stop>,
}

impl Run {
    /// Nothing ran yet.
    pub fn new() -> Run {
        Run {
            counts: Counts::new(),
            stop: None,
        }
    }

    /// Whether nothing broke it off so far.
    pub fn goes_on(&self) -> bool {
        self.stop.is_none()
    }

    /// Breaks the run off, where nothing did before.
    pub fn break_off(&mut self, stop: Stop) {
        if self.stop.is_none() {
            self.stop = Some(stop);
        }
    }

    /// The exit status: that of what broke the run off, or else of the counts.
    pub fn status(&self) -> u8 {
        match self.stop {
            Some(stop) => stop.status(),
            None => self.counts.status(),
        }
    }

    /// Prints what was said on a line, unless the run is broken off.
    pub fn tell(&mut self, rt: &HostRuntime, line: Line) {
        match line.end() {
            Ok(text) => self.print(rt, &text),
            Err(Memory) => self.break_off(Stop::Memory),
        }
    }

    fn print(&mut self, rt: &HostRuntime, text: &Text) {
        if self.goes_on() && print!(rt; "{text}").is_err() {
            self.break_off(Stop::Output);
        }
    }
}
