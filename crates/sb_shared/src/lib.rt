// The shared world: what all actors of a run on threads share, in one atomic table whose rule is that its words, its book and what the
// seats know are those of a world to which one list of events leads, of which each seat has seen a beginning. Each actor has one seat, and
// each step of a seat is one step of that world: it is the next event, and what it found is what the world after those before it has there.
//
// `specs/Rule.antt` is the rule, `specs/Seats.antt` says what a step makes of a seat, `specs/Closing.antt` what is known once all seats
// were taken in, and `specs/Runs.antt` that a closed run is a run of the core.
#![tactic(auto)]

mod books;
mod closings;
mod divisions;
mod keepers;
mod laws;
mod layout;
mod listings;
mod moves;
mod openings;
mod protocol;
mod rooms;
mod stops;
mod threads;
mod views;
mod workers;
mod worlds;

pub use closings::ClosedRun;
pub use keepers::Keeper;
pub use laws::{closed_runs_are_runs, seats_step_the_core};
pub use openings::{SharedParts, script_of};
pub use stops::Stop;
pub use threads::ThreadSeat;
pub use views::{Event, Origin, Part, TakenSeat, View};
pub use workers::WorkerSeat;
pub use worlds::SharedWorld;
