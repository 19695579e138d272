//! The rule of the table, and what each step on it tells.
ghost use Rattle.turn_ledger.specs.Turning.{Kept, newcomer, drawn, looked, marked, ended, learned, spared, forked, both, spent};

use crate::serial::Serial;
use crate::view::{Opening, View};
use atomic_table::{Join, Play, Split, TableRule};
use std::marker::PhantomData;

/// The rule that holds of the table between any two steps.
pub struct Rule<Q> {
    object: PhantomData<Q>,
}

impl<Q: Serial> TableRule<Option<Q>, View<Q, Q::Entry>, Opening<Q>> for Rule<Q> {
    ghost holds = { λ k. Kept Q.journal Q.origin Q.by Q.most k };

    ghost first = { λ k. newcomer k };
}

/// A seat draws a ticket.
pub struct Draw;

impl<Q, E> Play<Option<Q>, View<Q, E>> for Draw {
    ghost then = { drawn };
}

/// A seat looks which ticket is served, and takes the object where it is its own.
pub struct Look<Q> {
    object: PhantomData<Q>,
}

impl<Q: Serial> Play<Option<Q>, View<Q, Q::Entry>> for Look<Q> {
    ghost then = { looked Q.journal Q.origin Q.by };
}

/// A seat that has put the object back adds its entry to the history.
pub struct Mark<Q> {
    object: PhantomData<Q>,
}

impl<Q: Serial> Play<Option<Q>, View<Q, Q::Entry>> for Mark<Q> {
    ghost then = { marked Q.journal };
}

/// A seat ends its turn: the next ticket is served.
pub struct End;

impl<Q, E> Play<Option<Q>, View<Q, E>> for End {
    ghost then = { ended };
}

/// A seat makes another one.
pub struct Fork;

impl<Q, E> Split<View<Q, E>> for Fork {
    ghost left = { spared };

    ghost right = { forked };
}

/// A seat takes another one in.
pub struct TakeIn;

impl<Q, E> Join<View<Q, E>> for TakeIn {
    ghost both = { both };

    ghost spent = { spent };
}

/// A seat that took another one in learns that what both had seen is one history.
pub struct Learn;

impl<Q, E> Play<Option<Q>, View<Q, E>> for Learn {
    ghost then = { learned };
}
