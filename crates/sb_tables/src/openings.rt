// A run is opened.
ghost use Rattle.std.specs.Prelude.{◌≡◌, IfOk, IfSome};
ghost use Rattle.sb_shared.specs.Closing.{IsKeeper};
ghost use Rattle.sb_tables.specs.Players.{AreHere, AreOnTable, ArePlayers};

use crate::players::Players;
use sb_book::ReadyScript;
use sb_rows::RowFault;
use sb_shared::{Keeper, SharedParts, SharedWorld, WorkerSeat};
use std::alloc::Global;

/// The shared world of a script, with the seats of all actors before their first steps.
pub fn open(alloc: Global, inputs: &ReadyScript) -> Result<(SharedWorld, Keeper, Players), RowFault>
    ensures policies { IfOk result (λ r. r.0.key.policies.value.list ≡ inputs.now.policies) }
    ensures script { IfOk result (λ r. r.0.key.script.value ≡ inputs.now.script) }
    ensures keeper { IfOk result (λ r. IsKeeper r.0 r.1) }
    ensures players { IfOk result (λ r. ArePlayers r.0 r.2) }
{
    let SharedParts {
        world,
        keeper,
        workers,
        threads,
    } = SharedWorld::open(alloc, inputs.start(alloc)?)?;
    Ok((world, keeper, Players { workers, threads }))
}

/// Takes the seat of the last worker off the list. None if there is none.
pub fn last_worker(world: &SharedWorld, seats: &mut Vec<WorkerSeat>) -> Option<WorkerSeat>
    requires { AreHere world.now seats.old.items }
    ensures last { IfSome result (λ s. s.table ≡ world.now.table) }
    ensures others { AreOnTable world.now seats.new.items }
{
    let _world = world;
    seats.pop()
}
