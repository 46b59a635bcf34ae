// The work of a pool: the seat of a worker that is looking. Whoever draws it, with a seat of the pool, serves the target of that worker.
ghost use Rattle.std.specs.Prelude.{◌≡◌, true};
ghost use Rattle.sb_actor.specs.WorkerTable.{is_looking};
ghost use Rattle.sb_run.specs.Works.{IsWork};

use sb_pool::{Numbered, PoolSeat};
use sb_shared::WorkerSeat;
use std::marker::Model;

/// The seat of a worker that is looking and does not have the turn.
pub(crate) struct Work {
    seat: WorkerSeat,
}

impl Drop for Work {
    fn drop(self) {
        let Work { seat: _ } = self;
    }
}

impl Model for Work {
    ghost use Rattle.sb_shared.specs.Seats.{WorkerSeatValue};
    ghost use Rattle.sb_run.specs.Works.{IsWork};

    ghost Value = { WorkerSeatValue };

    ghost view = { λ x. x.seat };

    ghost invariant = { λ x. IsWork x.seat };
}

impl Numbered for Work {
    ghost use Rattle.sb_run.specs.Works.{home_of, number_of};

    type Home = WorkerSeat;

    ghost number = { number_of };

    ghost home = { home_of };

    fn number(&self) -> u32 {
        self.seat.target()
    }
}

impl Work {
    /// The work of the seat of a worker that is looking.
    #[tactic(auto, using(crate::proofs::Looking::looks_without))]
    pub(crate) fn of(seat: WorkerSeat) -> Work
        requires { is_looking seat.state.stage ≡ true }
        ensures { result ≡ seat }
    {
        seat.establish_turn();
        Work { seat }
    }

    /// The seat, with what its type keeps of it.
    pub(crate) fn into_seat(self) -> WorkerSeat
        ensures seat { result ≡ self }
        ensures kept { IsWork result }
    {
        let Work { seat } = self;
        seat
    }
}

/// The seat of the pool with which a thread serves targets.
pub(crate) type Server = PoolSeat<Work>;
