// The history of a pool, and what a seat knows of it. Proofs speak of them, and no value of them is made.

use std::collections::LinkedList;

/// What happened at one step on the count of the works that are in. Each names the seat that made it.
pub enum PoolEvent {
    /// A work was put in: at `Pool::new`, or as it was handed back.
    Put { seat: u64 },
    /// A work was drawn.
    Draw { seat: u64 },
    /// No work was in.
    Look { seat: u64 },
}

/// What a seat knows of the history of its pool.
pub struct SeatHistory {
    /// The seat's own number.
    pub number: u64,
    /// How many seats were made of this one.
    pub made: u64,
    /// How many seats this one stands for: itself, those that may still be made of it, and those that it took in.
    pub seats: u64,
    /// How many works are out with this seat.
    pub out: u64,
    /// What happened up to the last event of this seat, in order.
    pub history: LinkedList<PoolEvent>,
    /// The events of this seat and of those that it took in.
    pub own: LinkedList<PoolEvent>,
    /// The histories of both seats at each time that this one, or one that it took in, took in another.
    pub taken: LinkedList<LinkedList<PoolEvent>>,
}
