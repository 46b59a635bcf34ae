// All started threads of the script, and all seats with which targets are served.
ghost use Rattle.std.specs.Prelude.{◌≡◌, IfOk, OnOk, false, map};
ghost use Rattle.std.specs.List.{All, AllZip, list_any};
ghost use Rattle.sb_shared.specs.Closing.{IsThreadSeat};
ghost use Rattle.sb_run.specs.Servers.{IsSameServer, IsServer};
ghost use Rattle.sb_run.specs.Started.{IsDone};
ghost use Rattle.sb_run.specs.Threads.{HasEnded};

use crate::contexts::RunContext;
use crate::flags::Flag;
use crate::spawning::{start_server, start_thread};
use crate::started::{StartedServer, StartedThread};
use crate::works::Server;
use sb_base::NoMemory;
use sb_outside::Gate;
use sb_rule::Judge;
use sb_shared::{SharedWorld, ThreadSeat};
use sb_statements::SoundScript;
use std::alloc::Global;
use std::sync::Wait;
use std::sync::atomic::AtomicU64;
use std::thread::{Scope, Threads};

/// Starts all threads of the script, each with a flag of its own: the first ones.
///
/// # Errors
/// `NoMemory` if there is none for the list, or for a thread that was refused.
pub(crate) fn start_threads<'s, 'e, R: Threads + Wait + Sync>(
    scope: &'s Scope<'s, &'e ()>,
    rt: &'e R,
    alloc: Global,
    world: &'e SharedWorld,
    script: &'e SoundScript,
    flags: &'e [Flag],
    running: &'e AtomicU64,
    threads: Vec<ThreadSeat>,
) -> Result<Vec<StartedThread>, NoMemory>
    requires own { All (IsThreadSeat world.now) threads.items }
    requires script { script.now ≡ world.now.key.script.value }
    ensures { IfOk result (λ started. map (λ s. s.first) started.items ≡ threads.items) }
{
    let mut started = Vec::new(alloc);
    for seat in threads {
        let refused = flags.get(started.len());
        let thread = start_thread(scope, rt, world, script, refused, running, seat)?;
        started.push(thread)?;
    }
    Ok(started)
}

/// One step of each thread whose steps the caller makes. False only if each of them is finished.
pub(crate) fn step_each(
    world: &SharedWorld,
    script: &SoundScript,
    threads: &mut Vec<StartedThread>,
) -> bool
    requires own { All (IsThreadSeat world.now) (map (λ s. s.first) threads.old.items) }
    requires script { script.now ≡ world.now.key.script.value }
    ensures first { map (λ s. s.first) threads.new.items ≡ map (λ s. s.first) threads.old.items }
    ensures done { result ≡ false → All IsDone threads.new.items }
{
    let mut busy = false;
    for at in 0..threads.len() {
        if threads[at].step(world, script) {
            busy = true;
        }
    }
    busy
}

/// The seats of all threads, in order, once each has ended. It waits for that.
///
/// # Errors
/// `NoMemory` if a thread was stopped since memory ran out, or there is none for the list.
pub(crate) fn join_threads<R: Threads>(
    rt: &R,
    alloc: Global,
    threads: Vec<StartedThread>,
) -> Result<Vec<ThreadSeat>, NoMemory>
    requires { All IsDone threads.items }
    ensures { IfOk result (λ seats. AllZip HasEnded (map (λ s. s.first) threads.items) seats.items) }
{
    let mut seats = Vec::new(alloc);
    for thread in threads {
        let seat = thread.join(rt)?;
        seats.push(seat)?;
    }
    Ok(seats)
}

/// Starts the threads that serve targets, each with a flag of its own: those from `first` on.
///
/// # Errors
/// `NoMemory` if there is none for the list, or for a thread that was refused.
pub(crate) fn start_servers<'s, 'e, J: Judge, G: Gate, R: Threads + Wait + Sync>(
    scope: &'s Scope<'s, &'e ()>,
    rt: &'e R,
    alloc: Global,
    context: &RunContext<'e, J, G>,
    flags: &'e [Flag],
    first: usize,
    servers: Vec<Server>,
) -> Result<Vec<StartedServer>, NoMemory>
    requires { All (IsServer context.now) servers.items }
    ensures { IfOk result (λ started. map (λ s. s.first) started.items ≡ servers.items) }
{
    let mut started = Vec::new(alloc);
    for server in servers {
        let refused = flags.get(first.saturating_add(started.len()));
        let serving = start_server(scope, rt, alloc, context, refused, server)?;
        started.push(serving)?;
    }
    Ok(started)
}

/// Whether the caller serves with some of these seats.
pub(crate) fn is_any_with_caller(servers: &[StartedServer]) -> bool
    ensures { result ≡ list_any (λ s. s.by_caller) servers.now }
{
    servers.iter().any(|server| server.is_with_caller())
}

/// Serves once with each of the seats with which the caller serves.
///
/// # Errors
/// `NoMemory` if a worker ran out of memory. Then the stop word is set.
pub(crate) fn serve_with_each<J: Judge, G: Gate, R: Wait>(
    rt: &R,
    alloc: Global,
    context: &RunContext<'_, J, G>,
    servers: &mut Vec<StartedServer>,
) -> Result<(), NoMemory>
    requires { All (IsServer context.now) (map (λ s. s.first) servers.old.items) }
    ensures first { map (λ s. s.first) servers.new.items ≡ map (λ s. s.first) servers.old.items }
    ensures same { OnOk result (servers.new.items ≡ servers.old.items) }
{
    for at in 0..servers.len() {
        servers[at].serve(rt, alloc, context)?;
    }
    Ok(())
}

/// The seats with which targets were served, in order. It waits for the threads that serve with them.
///
/// # Errors
/// `NoMemory` if one of these ran out of memory, or there is none for the list.
pub(crate) fn join_servers<R: Threads>(
    rt: &R,
    alloc: Global,
    servers: Vec<StartedServer>,
) -> Result<Vec<Server>, NoMemory>
    ensures { IfOk result (λ back. AllZip IsSameServer (map (λ s. s.first) servers.items) back.items) }
{
    let mut back = Vec::new(alloc);
    for server in servers {
        let seat = server.join(rt)?;
        back.push(seat)?;
    }
    Ok(back)
}
