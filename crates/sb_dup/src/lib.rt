// Handles that are passed from one target to another, each by a move that the policies of both targets allow as if each target opened
// the object by its name; the files that list moves, and the lines that tell how they went.
#![tactic(auto)]

mod faults;
mod laws;
mod lines;
mod move_lines;
mod move_texts;
mod moves;
mod names;
mod openings;
mod passing;
mod verdicts;

pub use faults::{MoveFault, MoveKind, MovesRefused};
pub use laws::{
    chains_never_widen, moves_are_granted_if_allowed, pipes_alone_are_not_opened,
    read_moves_are_bounded, refused_moves_change_nothing, written_moves_are_read,
};
pub use lines::MAX_MOVES;
pub use move_lines::put_moves;
pub use move_texts::read_moves;
pub use moves::{Answered, Move, MoveAnswer, Moves};
pub use passing::Passing;
