ghost use Rattle.std.specs.Prelude.{◌≡◌};
ghost use Rattle.shared_hand.specs.SharedHands.{log_of};

use crate::meeting::Meeting;
use engine_types::{Outcome, Request};
use exchange_log::ExchangeLog;
use outside_api::Hand;
use shared_hand::SharedHand;
use std::alloc::Global;
use std::sync::{Arc, Wait};
use std::time::Clock;

/// A hand that shares an Engine in memory with others, and meets them in its first create. It is in all that it tells the hand that it
/// is made of.
#[derive(Drop)]
pub struct MeetingHand<'r, R> {
    rt: &'r R,
    pub hand: SharedHand<'r, R>,
    meeting: Arc<Meeting>,
    number: u32,
    has_met: bool,
}

impl<'r, R> MeetingHand<'r, R> {
    /// Every exchange of this hand, in order. No memory.
    pub fn log(&self) -> &ExchangeLog
        ensures { result.now.items ≡ log_of self.now.hand }
    {
        self.hand.log()
    }
}

impl<'r, R: Wait + Clock> MeetingHand<'r, R> {
    /// The same hand, which meets the others as the one with this number. No memory.
    pub fn new(
        rt: &'r R,
        hand: SharedHand<'r, R>,
        meeting: Arc<Meeting>,
        number: u32,
    ) -> MeetingHand<'r, R>
        ensures { result.hand ≡ hand.entry }
    {
        MeetingHand {
            rt,
            hand,
            meeting,
            number,
            has_met: false,
        }
    }

    /// Meets the others where this is the first create.
    fn meet(&mut self, request: &Request)
        ensures { self.new.hand ≡ self.old.hand }
    {
        if !self.has_met && matches!(request, Request::Create { .. }) {
            self.has_met = true;
            self.meeting.attend(self.rt, self.number);
        }
    }

    /// Lets the hand's worker be asked to stop in its next look, where it is to be and has met the others. These don't look then.
    fn begin_look(&self) {
        if self.has_met && self.meeting.stops(self.number) {
            let mut shared = self.hand.shared.lock(self.rt);
            shared.engine.faults.asked_from = Some(0);
        }
    }

    /// Lets no other worker be asked to stop, and tells them that this one was.
    fn end_look(&self) {
        if self.has_met && self.meeting.stops(self.number) {
            self.let_go_on();
            self.meeting.note_stop();
        }
    }

    fn let_go_on(&self) {
        let mut shared = self.hand.shared.lock(self.rt);
        shared.engine.faults.asked_from = None;
    }
}

impl<'r, R: Wait + Sync + Clock> Hand for MeetingHand<'r, R> {
    ghost use Rattle.std.specs.Prelude.{None};
    ghost use Rattle.shared_hand.specs.SharedHands.{clock_of, log_of};

    ghost log = { λ hand. log_of hand.hand };

    ghost engine = { λ _. None };

    ghost heard = { λ _. None };

    ghost faults = { λ _. 0 };

    ghost clock = { λ hand. clock_of hand.hand };

    fn exchange(&mut self, alloc: Global, request: Request) -> Outcome {
        self.meet(&request);
        self.hand.exchange(alloc, request)
    }

    fn now(&mut self) -> u64 {
        self.hand.now()
    }

    fn pause(&mut self, ms: u32) {
        self.hand.pause(ms)
    }

    fn asked(&mut self) -> bool {
        self.begin_look();
        let answer = self.hand.asked();
        self.end_look();
        answer
    }
}
