ghost use Rattle.std.specs.Prelude.{◌≡◌, None};

use engine_types::{Outcome, Request};
use http_hand::HttpHand;
use outside_api::Hand;
use progress_board::{SharedBoard, tell_begin, tell_end};
use socket_wire::{SocketWire, milliseconds};
use std::alloc::Global;
use std::sync::Wait;

/// The hand of a worker over a socket, which tells a board, if there is one, of its exchanges. It is in all what the hand over its wire
/// is.
#[derive(Drop)]
pub struct SocketHand<'r, R> {
    pub hand: HttpHand<SocketWire<'r>>,
    host: &'r HostRuntime,
    rt: &'r R,
    board: Option<SharedBoard>,
    /// The worker's number.
    number: u32,
}

impl<'r, R> SocketHand<'r, R> {
    /// The same hand for a worker, with a board or without. No memory.
    pub fn new(
        host: &'r HostRuntime,
        rt: &'r R,
        hand: HttpHand<SocketWire<'r>>,
        board: Option<SharedBoard>,
        number: u32,
    ) -> SocketHand<'r, R>
        ensures { result.hand ≡ hand.entry }
    {
        SocketHand {
            hand,
            host,
            rt,
            board,
            number,
        }
    }
}

impl<'r, R: Wait + Sync> Hand for SocketHand<'r, R> {
    ghost log = { λ it. ⟦<HttpHand<SocketWire<'r>> as Hand>⟧.log it.hand };

    ghost engine = { λ _. None };

    ghost heard = { λ it. ⟦<HttpHand<SocketWire<'r>> as Hand>⟧.heard it.hand };

    ghost faults = { λ it. ⟦<HttpHand<SocketWire<'r>> as Hand>⟧.faults it.hand };

    ghost clock = { λ it. ⟦<HttpHand<SocketWire<'r>> as Hand>⟧.clock it.hand };

    fn exchange(&mut self, alloc: Global, request: Request) -> Outcome {
        let Some(board) = &self.board else {
            return self.hand.exchange(alloc, request);
        };
        let begun = milliseconds(self.host, 0);
        let subject = tell_begin(self.rt, board, self.number, &request, begun);
        let outcome = self.hand.exchange(alloc, request);
        let ended = milliseconds(self.host, begun);
        tell_end(
            self.host,
            self.rt,
            board,
            self.number,
            &subject,
            &outcome,
            ended,
        );
        outcome
    }

    fn now(&mut self) -> u64 {
        self.hand.now()
    }

    fn pause(&mut self, ms: u32) {
        self.hand.pause(ms);
    }

    fn asked(&mut self) -> bool {
        self.hand.asked()
    }
}
