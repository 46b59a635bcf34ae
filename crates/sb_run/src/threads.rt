// A thread of the script is run to its end.
ghost use Rattle.std.specs.Prelude.{◌≡◌, ◌<◌, OnErr, OnOk};
ghost use Rattle.sb_shared.specs.Closing.{IsThreadSeat};
ghost use Rattle.sb_shared.specs.Events.{stop_in};
ghost use Rattle.sb_run.specs.Threads.{HasEnded};

use crate::pauses::StepWait;
use sb_base::NoMemory;
use sb_shared::{SharedWorld, ThreadSeat};
use sb_statements::SoundScript;
use std::sync::Wait;

/// Makes the steps of a thread until each of its statements has ended. After a step that found nothing to go on with, it looks at the stop word and waits a
/// little.
///
/// # Errors
/// `NoMemory` if it found the stop word set.
pub(crate) fn run_thread<R: Wait>(
    rt: &R,
    world: &SharedWorld,
    script: &SoundScript,
    seat: &mut ThreadSeat,
) -> Result<(), NoMemory>
    requires own { IsThreadSeat world.now seat.old }
    requires script { script.now ≡ world.now.key.script.value }
    ensures ended { OnOk result (HasEnded seat.old seat.new) }
    ensures stopped { OnErr result (0 < stop_in seat.new.history) }
{
    let mut wait = StepWait::new();
    for _ in rt.forever() {
        if seat.is_finished() {
            break;
        }
        seat.step(world, script);
        if seat.is_waiting() {
            if seat.stopped(world).is_some() {
                return Err(NoMemory);
            }
            wait.pass(rt, world, seat.is_patient(script));
        } else {
            wait.reset();
        }
    }
    Ok(())
}
