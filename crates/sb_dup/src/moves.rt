// Moves of handles, and how they are answered.

use sb_base::Items;
use sb_rule::Verdict;

/// A move: a target gives another target a handle on what it holds open itself.
#[derive(Clone, Copy)]
pub struct Move {
    /// The number of the target that gives, from 0.
    pub from: u32,
    /// The number of its handle.
    pub handle: u64,
    /// The number of the target that is given the handle, from 0. It may be the same target.
    pub to: u32,
    /// The access of the new handle that is asked for.
    pub access: u32,
}

/// Moves, in the order in which they are made.
pub type Moves = Items<Move>;

/// How a move is answered.
#[derive(Clone, Copy)]
pub enum MoveAnswer {
    /// The target was given a handle of this number with this access.
    Given { handle: u64, access: u32 },
    /// The giver holds no such handle.
    NotHeld,
    /// The access asked for has a bit that the giver's handle lacks, whose access is this.
    MoreAccess { held: u32 },
    /// The object is a pipe: there is no call that opens it.
    NoOpening,
    /// The policy of this target does not let it open the object with this access. The giver is asked first.
    Denied { target: u32, verdict: Verdict },
}

/// Moves with their answers, in the order in which they were made.
pub type Answered = Items<(Move, MoveAnswer)>;
