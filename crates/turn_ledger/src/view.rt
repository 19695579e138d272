use std::collections::LinkedList;
use std::snapshot::Snapshot;

/// How far a seat is with its turn. A ticket is the place of a turn among all turns.
pub enum Stage {
    /// It was taken into another seat.
    Spent,
    /// It has no ticket.
    Idle,
    /// It waits with this ticket.
    Waiting(u64),
    /// It has the object.
    Turn(u64),
    /// It has put the object back, and has yet to end its turn.
    Done(u64),
}

/// What a seat knows. No value of it is made: contracts alone speak of it.
pub struct View<Q, E> {
    /// The object as it was opened.
    pub opened: Option<Q>,
    /// How many seats there may be.
    pub seats: u64,
    /// The number under which its calls are made.
    pub number: u64,
    /// How far it is.
    pub stage: Stage,
    /// The entries since the opening that it has seen.
    pub seen: LinkedList<E>,
    /// Entries that a seat which it took in had seen.
    pub shown: LinkedList<E>,
    /// The entries of its own calls.
    pub mine: LinkedList<E>,
    /// The seats that it took in: their numbers, each with the entries of its calls.
    pub joined: LinkedList<(u64, LinkedList<E>)>,
    /// How many seats it may still make.
    pub left: u64,
}

/// What a table is told when it is made: the object, and how many seats there may be.
#[derive(Drop)]
pub struct Opening<Q> {
    pub object: Snapshot<Q>,
    pub seats: u32,
}
