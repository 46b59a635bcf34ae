// What a thread does that serves targets: it draws the seat of a worker, serves its target for a while, and hands it back.
ghost use Rattle.std.specs.Prelude.{◌≡◌, IfErr, IfOk, OnOk};
ghost use Rattle.sb_shared.specs.Closing.{IsWorkerOf};
ghost use Rattle.sb_run.specs.Servers.{IsSameServer, IsServer};
ghost use Rattle.sb_run.specs.Stops.{HasSeenFailure, HasSeenStop, IsAttendance};
ghost use Rattle.sb_run.specs.Works.{home_of};

use crate::contexts::RunContext;
use crate::pauses::IdleWait;
use crate::visits::visit;
use crate::works::{Server, Work};
use sb_outside::Gate;
use sb_rule::Judge;
use sb_shared::WorkerSeat;
use std::alloc::Global;
use std::snapshot::Snapshot;
use std::sync::Wait;

/// The seat of a worker as it was once it knew of a stop: a fact for contracts, without bytes.
pub(crate) type SeenStop = Snapshot<WorkerSeat>;

/// How a pass of a thread that serves targets ended.
#[derive(Drop)]
pub(crate) enum Attendance {
    /// It served some call.
    Served,
    /// There was nothing to serve, or another thread had it.
    Idle,
    /// The stop word is set, as the seat of the worker saw.
    Stopped(SeenStop),
}

// Serves the target of a work for a while, unless the stop word is set.
//
// # Errors
// If the worker ran out of memory, or another one did while this one tried to take the turn. Then the stop word says so, and the work is dropped.
fn serve<J: Judge, G: Gate, R: Wait>(
    rt: &R,
    alloc: Global,
    context: &RunContext<'_, J, G>,
    work: Work,
) -> Result<(Work, Attendance), SeenStop>
    requires own { IsWorkerOf context.now.world work }
    ensures home { IfOk result (λ served. home_of served.0 ≡ home_of work) }
    ensures attendance { IfOk result (λ served. IsAttendance context.now.world served.1) }
    ensures failed { IfErr result (λ seen. HasSeenFailure context.now.world seen.value) }
{
    let mut seat = work.into_seat();
    if seat.stopped(context.world).is_some() {
        let seen = Snapshot::of(&seat);
        return Ok((Work::of(seat), Attendance::Stopped(seen)));
    }
    match visit(rt, alloc, context, &mut seat) {
        Ok(true) => Ok((Work::of(seat), Attendance::Served)),
        Ok(false) => Ok((Work::of(seat), Attendance::Idle)),
        Err(_) => Err(Snapshot::of(&seat)),
    }
}

/// One pass of a thread that serves targets: it draws a work, serves its target for a while unless the stop word is set, and hands the work back.
///
/// # Errors
/// If the worker ran out of memory, or another one did while this one tried to take the turn. Then the stop word says so, and the work is dropped.
pub(crate) fn attend_once<J: Judge, G: Gate, R: Wait>(
    rt: &R,
    alloc: Global,
    context: &RunContext<'_, J, G>,
    server: &mut Server,
) -> Result<Attendance, SeenStop>
    requires server { IsServer context.now server.old }
    ensures server { OnOk result (IsServer context.now server.new) }
    ensures same { OnOk result (IsSameServer server.old server.new) }
    ensures attendance { IfOk result (IsAttendance context.now.world) }
    ensures failed { IfErr result (λ seen. HasSeenFailure context.now.world seen.value) }
{
    let Some((number, work)) = server.draw(rt, context.pool) else {
        return Ok(Attendance::Idle);
    };
    let (work, attendance) = serve(rt, alloc, context, work)?;
    server.hand_back(rt, context.pool, number, work);
    Ok(attendance)
}

/// Serves targets until the stop word is set, and returns the seat that saw it. Then no work is out with the seat of the pool.
///
/// # Errors
/// As `attend_once`.
pub(crate) fn attend<J: Judge, G: Gate, R: Wait>(
    rt: &R,
    alloc: Global,
    context: &RunContext<'_, J, G>,
    server: &mut Server,
) -> Result<SeenStop, SeenStop>
    requires server { IsServer context.now server.old }
    ensures server { OnOk result (IsServer context.now server.new) }
    ensures same { OnOk result (IsSameServer server.old server.new) }
    ensures stopped { IfOk result (λ seen. HasSeenStop context.now.world seen.value) }
    ensures failed { IfErr result (λ seen. HasSeenFailure context.now.world seen.value) }
{
    let mut wait = IdleWait::new(context.script.targets.len(), context.serving);
    for _ in rt.forever() {
        match attend_once(rt, alloc, context, server)? {
            Attendance::Served => wait.reset(),
            Attendance::Idle => wait.pass(rt, context.world),
            Attendance::Stopped(seen) => return Ok(seen),
        }
    }
    unreachable!()
}
