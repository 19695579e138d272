ghost use Rattle.std.specs.Prelude.{None};

use crate::socket_hand::SocketHand;
use engine_types::{Outcome, Request};
use outside_api::Hand;
use shared_hand::SharedHand;
use std::alloc::Global;
use std::sync::Wait;

/// A hand of the program: over a wire, or one that shares an Engine in memory with others of its plug. It is in all what that
/// hand is.
#[derive(Drop)]
pub enum MainHand<'r, R> {
    Http(SocketHand<'r, R>),
    Memory(SharedHand<'r, R>),
}

impl<'r, R: Wait + Sync> Hand for MainHand<'r, R> {
    ghost use Rattle.engine_plugs.specs.declared.main_hand.MainHand.TheVariants.{Http, Memory};

    ghost log = { elim [
      | Http hand ↦ ⟦<SocketHand<'r, R> as Hand>⟧.log hand
      | Memory hand ↦ ⟦<SharedHand<'r, R> as Hand>⟧.log hand
    ] };

    ghost engine = { λ _. None };

    ghost heard = { elim [
      | Http hand ↦ ⟦<SocketHand<'r, R> as Hand>⟧.heard hand
      | Memory hand ↦ None
    ] };

    ghost faults = { elim [
      | Http hand ↦ ⟦<SocketHand<'r, R> as Hand>⟧.faults hand
      | Memory hand ↦ 0
    ] };

    ghost clock = { elim [
      | Http hand ↦ ⟦<SocketHand<'r, R> as Hand>⟧.clock hand
      | Memory hand ↦ ⟦<SharedHand<'r, R> as Hand>⟧.clock hand
    ] };

    fn exchange(&mut self, alloc: Global, request: Request) -> Outcome {
        match self {
            MainHand::Http(hand) => hand.exchange(alloc, request),
            MainHand::Memory(hand) => hand.exchange(alloc, request),
        }
    }

    fn now(&mut self) -> u64 {
        match self {
            MainHand::Http(hand) => hand.now(),
            MainHand::Memory(hand) => hand.now(),
        }
    }

    fn pause(&mut self, ms: u32) {
        match self {
            MainHand::Http(hand) => hand.pause(ms),
            MainHand::Memory(hand) => hand.pause(ms),
        }
    }

    fn asked(&mut self) -> bool {
        match self {
            MainHand::Http(hand) => hand.asked(),
            MainHand::Memory(hand) => hand.asked(),
        }
    }
}
