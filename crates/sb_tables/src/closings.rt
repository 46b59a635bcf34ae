// A shared world is closed, whatever its actors were doing.
ghost use Rattle.std.specs.Prelude.{◌≡◌, is_some};
ghost use Rattle.std.specs.List.{list_any};
ghost use Rattle.sb_shared.specs.Closing.{IsKeeper};
ghost use Rattle.sb_tables.specs.Players.{ArePlayers};

use crate::players::Players;
use sb_actor::{Act, WorkerState};
use sb_book::Report;
use sb_shared::{ClosedRun, Keeper, SharedWorld, WorkerSeat};

/// What a run left: its report without a drain, and the workers.
#[derive(Drop)]
pub struct Left {
    /// The report.
    pub report: Report,
    /// The workers, by target.
    pub workers: Vec<WorkerState>,
}

// Whether a worker has the turn.
#[tactic(auto, using(crate::proofs::Playing::turn_plans))]
fn has_turn(seat: &WorkerSeat) -> bool
    ensures { result ≡ is_some seat.now.book }
{
    seat.establish_turn();
    matches!(seat.plan(), Act::Answer | Act::Give)
}

// Whether some worker has the turn.
fn is_held(seats: &[WorkerSeat]) -> bool
    ensures { result ≡ list_any (λ s. is_some s.book) seats.now }
{
    for seat in seats {
        if has_turn(seat) {
            return true;
        }
    }
    false
}

/// What the actors left. None if a worker has the turn.
#[tactic(auto, using(crate::proofs::Playing::seats_left))]
pub fn left_by(world: SharedWorld, keeper: Keeper, players: Players) -> Option<Left>
    requires keeper { IsKeeper world keeper }
    requires players { ArePlayers world players }
{
    let Players { workers, threads } = players;
    if is_held(&workers) {
        return None;
    }
    let ClosedRun {
        words,
        workers,
        book,
        results,
    } = world.close(keeper, workers, threads);
    let (entries, kernel) = book.into_parts();
    Some(Left {
        report: Report {
            entries,
            results,
            words,
            kernel,
        },
        workers,
    })
}
