// What a seat knows. Proofs speak of it, and no value of these types but `Origin` is made.

use crate::stops::Stop;
use sb_actor::{ThreadState, WorkerState};
use sb_book::Book;
use sb_rule::Policies;
use sb_statements::{Actor, Script, StmtResult};
use std::collections::LinkedList;
use std::snapshot::Snapshot;

/// Where one actor is in the world.
pub enum Part {
    /// The worker of a target, and the book while it has the turn.
    Worker {
        target: u32,
        state: WorkerState,
        book: Option<Book>,
    },
    /// A thread of a target, and its results so far.
    Thread {
        target: u32,
        thread: u32,
        state: ThreadState,
        results: LinkedList<StmtResult>,
    },
}

/// The policies and the script with which a shared world was opened.
#[derive(Drop)]
pub struct Origin {
    /// The policies.
    pub policies: Snapshot<Policies>,
    /// The script.
    pub script: Snapshot<Script>,
}

/// What happened in a run: each atomic step is one event.
pub enum Event {
    /// An actor made its step.
    Step { actor: Actor },
    /// A seat set a stop.
    Stop { stop: Stop },
    /// A seat looked at the stop word.
    Look,
}

/// What a seat knew that was taken in.
pub struct TakenSeat {
    /// Where its actors were.
    pub parts: LinkedList<Part>,
    /// All that had happened when it made its last step.
    pub history: LinkedList<Event>,
}

/// What a seat knows.
pub struct View {
    /// The policies and the script of the run.
    pub key: Origin,
    /// Where the seat's actors are.
    pub parts: LinkedList<Part>,
    /// What the last step of its actor found in its word, or stored there.
    pub found: u64,
    /// All that had happened when the seat made its last step, with that step.
    pub history: LinkedList<Event>,
    /// The seats that it took in, unless its actor made a step since.
    pub taken: LinkedList<TakenSeat>,
}
