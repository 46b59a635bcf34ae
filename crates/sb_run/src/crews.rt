// The threads of a run: they are started, the caller has what could not be started, and all are joined.
ghost use Rattle.std.specs.Prelude.{◌≡◌, ◌<◌, IfOk, OnErr, OnOk, map};
ghost use Rattle.std.specs.List.{All, AllZip};
ghost use Rattle.sb_run.specs.Crews.{AreAll, CanRun, HasRun};
ghost use Rattle.sb_shared.specs.Closing.{IsKeeper, IsThreadSeat};
ghost use Rattle.sb_shared.specs.Events.{stop_in};
ghost use Rattle.sb_shared.specs.Seats.{IsStop};
ghost use Rattle.sb_shared.specs.declared.stops.Stop.TheVariants.{Finished};
ghost use Rattle.sb_run.specs.Servers.{IsSameServer, IsServer};
ghost use Rattle.sb_run.specs.Started.{IsDone};
ghost use Rattle.sb_run.specs.Threads.{HasEnded};

use crate::contexts::RunContext;
use crate::flags::{Flag, make_flags};
use crate::groups::{
    is_any_with_caller, join_servers, join_threads, serve_with_each, start_servers, start_threads,
    step_each,
};
use crate::started::{StartedServer, StartedThread};
use crate::watches::Watch;
use crate::works::Server;
use crossbeam_utils::CachePadded;
use sb_base::NoMemory;
use sb_outside::Gate;
use sb_rule::Judge;
use sb_shared::{Keeper, SharedWorld, ThreadSeat};
use std::alloc::Global;
use std::sync::Wait;
use std::sync::atomic::{AtomicU64, Ordering};
use std::thread;
use std::thread::{Scope, Threads};

// The caller's loop. While a thread whose steps it makes is unfinished, or it serves with some seats and a started thread still runs, it makes a step of each
// such thread, serves once with each such seat, and looks at the stop word, which is set here only if memory ran out.
fn look_after<J: Judge, G: Gate, R: Wait>(
    rt: &R,
    alloc: Global,
    context: &RunContext<'_, J, G>,
    running: &AtomicU64,
    threads: &mut Vec<StartedThread>,
    servers: &mut Vec<StartedServer>,
    watch: &mut Watch,
) -> Result<(), NoMemory>
    requires threads { All (IsThreadSeat context.now.world) (map (λ s. s.first) threads.old.items) }
    requires servers { All (IsServer context.now) (map (λ s. s.first) servers.old.items) }
    requires keeper { IsKeeper context.now.world watch.old }
    ensures threads { map (λ s. s.first) threads.new.items ≡ map (λ s. s.first) threads.old.items }
    ensures servers { map (λ s. s.first) servers.new.items ≡ map (λ s. s.first) servers.old.items }
    ensures keeper { IsKeeper context.now.world watch.new }
    ensures done { OnOk result (All IsDone threads.new.items) }
{
    context.establish_kept();
    let serves = is_any_with_caller(servers);
    for _ in rt.forever() {
        let busy = step_each(context.world, context.script, threads);
        if !busy && !(serves && running.load(Ordering::SeqCst) > 0) {
            break;
        }
        serve_with_each(rt, alloc, context, servers)?;
        if watch.stopped(context.world).is_some() {
            return Err(NoMemory);
        }
    }
    Ok(())
}

// Joins the threads of the script, and stops the run once each has come back ended.
fn stop_at_end<R: Threads>(
    rt: &R,
    alloc: Global,
    world: &SharedWorld,
    threads: Vec<StartedThread>,
    watch: &mut Watch,
) -> Result<Vec<ThreadSeat>, NoMemory>
    requires own { All (IsThreadSeat world.now) (map (λ s. s.first) threads.items) }
    requires all { AreAll world.now (map (λ s. s.first) threads.items) }
    requires done { All IsDone threads.items }
    requires keeper { IsKeeper world.now watch.old }
    ensures ended { IfOk result (λ ended. AllZip HasEnded (map (λ s. s.first) threads.items) ended.items) }
    ensures keeper { IsKeeper world.now watch.new }
    ensures stopped { OnOk result (IsStop watch.old.parts watch.old.history Finished watch.new.history) }
    ensures running { OnErr result (watch.new ≡ watch.old) }
{
    let ended = join_threads(rt, alloc, threads)?;
    watch.stop(world, ended.as_slice());
    Ok(ended)
}

// Starts all threads, looks after those that came back, and joins all: those of the script first, and then, once the stop word is set, those that
// serve.
fn work<'s, 'e, J: Judge, G: Gate, R: Threads + Wait + Sync>(
    scope: &'s Scope<'s, &'e ()>,
    rt: &'e R,
    alloc: Global,
    context: &RunContext<'e, J, G>,
    flags: &'e [Flag],
    running: &'e AtomicU64,
    threads: Vec<ThreadSeat>,
    servers: Vec<Server>,
    watch: &mut Watch,
) -> Result<(Vec<ThreadSeat>, Vec<Server>), NoMemory>
    requires threads { All (IsThreadSeat context.now.world) threads.items }
    requires all { AreAll context.now.world threads.items }
    requires servers { All (IsServer context.now) servers.items }
    requires keeper { IsKeeper context.now.world watch.old }
    ensures ended { IfOk result (λ r. AllZip HasEnded threads.items r.0.items) }
    ensures served { IfOk result (λ r. AllZip IsSameServer servers.items r.1.items) }
    ensures keeper { IsKeeper context.now.world watch.new }
    ensures stopped { OnOk result (0 < stop_in watch.new.history) }
{
    context.establish_kept();
    let (world, script, count) = (context.world, context.script, threads.len());
    let mut threads = start_threads(scope, rt, alloc, world, script, flags, running, threads)?;
    let mut servers = start_servers(scope, rt, alloc, context, flags, count, servers)?;
    look_after(
        rt,
        alloc,
        context,
        running,
        &mut threads,
        &mut servers,
        watch,
    )?;
    let ended = stop_at_end(rt, alloc, world, threads, watch)?;
    let back = join_servers(rt, alloc, servers)?;
    Ok((ended, back))
}

// The same, and if memory ran out the stop word is set, so that each thread of the scope ends.
fn work_or_fail<'s, 'e, J: Judge, G: Gate, R: Threads + Wait + Sync>(
    scope: &'s Scope<'s, &'e ()>,
    rt: &'e R,
    alloc: Global,
    context: &RunContext<'e, J, G>,
    flags: &'e [Flag],
    running: &'e AtomicU64,
    threads: Vec<ThreadSeat>,
    servers: Vec<Server>,
    watch: &mut Watch,
) -> Result<(Vec<ThreadSeat>, Vec<Server>), NoMemory>
    requires { CanRun context.now threads.items servers.items watch.old }
    ensures ran { IfOk result (λ r. HasRun context.now threads.items servers.items r.0.items r.1.items watch.new) }
    ensures failed { OnErr result (stop_in watch.new.history ≡ 2) }
{
    let worked = work(
        scope, rt, alloc, context, flags, running, threads, servers, watch,
    );
    if worked.is_err() {
        watch.fail(context.world);
    }
    worked
}

/// Runs all threads of the script to their ends while targets are served with each seat of the pool: each by a thread of its own, or by the caller if
/// it could not be started. Then the stop word is set, and no thread is left. The seats come back in order; the caller's, by which it looks at the stop
/// word, too.
///
/// # Errors
/// `NoMemory` if there is none for a thread, for the caller or for the lists. Then each thread that was started has ended, too.
pub(crate) fn run_crew<J: Judge, G: Gate, R: Threads + Wait + Sync>(
    rt: &R,
    alloc: Global,
    context: &RunContext<'_, J, G>,
    threads: Vec<ThreadSeat>,
    servers: Vec<Server>,
    keeper: Keeper,
) -> Result<(Vec<ThreadSeat>, Vec<Server>, Keeper), NoMemory>
    requires threads { All (IsThreadSeat context.now.world) threads.items }
    requires all { AreAll context.now.world threads.items }
    requires servers { All (IsServer context.now) servers.items }
    requires keeper { IsKeeper context.now.world keeper }
    ensures ended { IfOk result (λ r. AllZip HasEnded threads.items r.0.items) }
    ensures served { IfOk result (λ r. AllZip IsSameServer servers.items r.1.items) }
    ensures keeper { IfOk result (λ r. IsKeeper context.now.world r.2) }
    ensures stopped { IfOk result (λ r. 0 < stop_in r.2.history) }
{
    context.establish_kept();
    let flags = make_flags(alloc, threads.len() + servers.len())?;
    // The caller and each thread of the script write it, so no other value is on its cache lines.
    let running = CachePadded::new(AtomicU64::new(0));
    let count: &AtomicU64 = &running;
    let (judge, gate, script) = (context.judge, context.gate, context.script);
    let (world, pool, serving) = (context.world, context.pool, context.serving);
    let all_flags = flags.as_slice();
    thread::scope(
        thread::scope_env(),
        rt,
        move |scope| -> Result<(Vec<ThreadSeat>, Vec<Server>, Keeper), NoMemory>
            requires { CanRun (record { script = script.now; world = world.now; pool = pool.now; policies = J.policies judge.now }) threads.items servers.items keeper }
            ensures { IfOk result (λ r. HasRun (record { script = script.entry.now; world = world.entry.now; pool = pool.entry.now; policies = J.policies judge.entry.now }) threads.items servers.items r.0.items r.1.items r.2) }
        {
            let context = RunContext {
                judge,
                gate,
                script,
                world,
                pool,
                serving,
            };
            let mut watch = Watch::new(keeper);
            let (ended, back) = work_or_fail(
                scope, rt, alloc, &context, all_flags, count, threads, servers, &mut watch,
            )?;
            Ok((ended, back, watch.into_keeper()))
        },
    )
}
