// Starts the threads of a run. Each thread of the script, and each seat of the pool with which targets are served, is started as a thread of a scope;
// if that fails the caller has it.
ghost use Rattle.std.specs.Prelude.{◌≡◌, IfOk};
ghost use Rattle.sb_run.specs.Returns.{IsServerReturn, IsThreadReturn};
ghost use Rattle.sb_run.specs.Contexts.{IsContext};
ghost use Rattle.sb_shared.specs.Closing.{IsThreadSeat};
ghost use Rattle.sb_run.specs.Servers.{IsServer};

use crate::contexts::RunContext;
use crate::flags::Flag;
use crate::promises::{ServerHost, ServerPromise, ThreadHost, ThreadPromise};
use crate::returns::{ServerReturn, ThreadReturn};
use crate::serving::attend;
use crate::started::{StartedServer, StartedThread};
use crate::threads::run_thread;
use crate::works::Server;
use sb_base::NoMemory;
use sb_outside::Gate;
use sb_rule::Judge;
use sb_shared::{SharedWorld, ThreadSeat};
use sb_statements::SoundScript;
use std::alloc::Global;
use std::snapshot::Snapshot;
use std::sync::Wait;
use std::sync::atomic::{AtomicU64, Ordering};
use std::thread::{Scope, Threads};

// Runs a thread of the script to its end, unless the flag says that its thread could not be started: then the seat comes back. One thread less is
// running.
fn run_or_return<R: Wait>(
    rt: &R,
    world: &SharedWorld,
    script: &SoundScript,
    refused: &Flag,
    running: &AtomicU64,
    seat: ThreadSeat,
) -> ThreadReturn
    requires own { IsThreadSeat world.now seat }
    requires script { script.now ≡ world.now.key.script.value }
    ensures { IsThreadReturn seat result }
{
    if refused.load(Ordering::SeqCst) {
        running.fetch_sub(1, Ordering::SeqCst);
        return ThreadReturn::Back(seat);
    }
    let mut seat = seat;
    let outcome = run_thread(rt, world, script, &mut seat);
    running.fetch_sub(1, Ordering::SeqCst);
    match outcome {
        Ok(()) => ThreadReturn::Ended(seat),
        Err(_) => ThreadReturn::Stopped,
    }
}

// A seat that came back: the caller makes the steps of its thread.
fn thread_host(
    first: Snapshot<ThreadSeat>,
    returned: ThreadReturn,
) -> Result<StartedThread, NoMemory>
    requires { IsThreadReturn first.value returned }
    ensures { IfOk result (λ s. s.first ≡ first.value) }
{
    match returned {
        ThreadReturn::Ended(seat) | ThreadReturn::Back(seat) => {
            Ok(StartedThread::new(first, ThreadHost::Caller(seat)))
        }
        ThreadReturn::Stopped => Err(NoMemory),
    }
}

/// Starts the thread of a seat. If that fails, or there is no flag for it, the caller makes the steps.
///
/// # Errors
/// `NoMemory` if the thread was refused and memory ran out.
pub(crate) fn start_thread<'s, 'e, R: Threads + Wait + Sync>(
    scope: &'s Scope<'s, &'e ()>,
    rt: &'e R,
    world: &'e SharedWorld,
    script: &'e SoundScript,
    refused: Option<&'e Flag>,
    running: &'e AtomicU64,
    seat: ThreadSeat,
) -> Result<StartedThread, NoMemory>
    requires own { IsThreadSeat world.now seat }
    requires script { script.now ≡ world.now.key.script.value }
    ensures { IfOk result (λ s. s.first ≡ seat) }
{
    let first = Snapshot::of(&seat);
    let Some(refused) = refused else {
        return thread_host(first, ThreadReturn::Back(seat));
    };
    let promise = ThreadPromise {
        seat: Snapshot::of(&seat),
    };
    running.fetch_add(1, Ordering::SeqCst);
    match scope.spawn_with(
        promise,
        move || -> ThreadReturn
            requires { IsThreadSeat world.now seat × (script.now ≡ world.now.key.script.value) }
            ensures { IsThreadReturn seat result }
        { run_or_return(rt, world, script, refused, running, seat) },
    ) {
        Ok(child) => Ok(StartedThread::new(first, ThreadHost::Thread(child))),
        Err(back) => {
            refused.store(true, Ordering::SeqCst);
            thread_host(first, (back.value)())
        }
    }
}

// Serves targets until the stop word is set, unless the flag says that the thread could not be started: then the seat comes back.
fn attend_or_return<J: Judge, G: Gate, R: Wait>(
    rt: &R,
    alloc: Global,
    context: RunContext<'_, J, G>,
    refused: &Flag,
    server: Server,
) -> ServerReturn
    requires { IsServer context server }
    ensures { IsServerReturn server result }
{
    if refused.load(Ordering::SeqCst) {
        return ServerReturn::Back(server);
    }
    let mut server = server;
    match attend(rt, alloc, &context, &mut server) {
        Ok(_) => ServerReturn::Ended(server),
        Err(_) => ServerReturn::Stopped,
    }
}

// A seat of the pool that came back: the caller serves with it.
fn server_host(first: Snapshot<Server>, returned: ServerReturn) -> Result<StartedServer, NoMemory>
    requires { IsServerReturn first.value returned }
    ensures { IfOk result (λ s. s.first ≡ first.value) }
{
    match returned {
        ServerReturn::Ended(server) | ServerReturn::Back(server) => {
            Ok(StartedServer::new(first, ServerHost::Caller(server)))
        }
        ServerReturn::Stopped => Err(NoMemory),
    }
}

/// Starts a thread that serves targets. If that fails, or there is no flag for it, the caller serves with its seat.
///
/// # Errors
/// `NoMemory` if the thread was refused and memory ran out.
pub(crate) fn start_server<'s, 'e, J: Judge, G: Gate, R: Threads + Wait + Sync>(
    scope: &'s Scope<'s, &'e ()>,
    rt: &'e R,
    alloc: Global,
    context: &RunContext<'e, J, G>,
    refused: Option<&'e Flag>,
    server: Server,
) -> Result<StartedServer, NoMemory>
    requires { IsServer context.now server }
    ensures { IfOk result (λ s. s.first ≡ server) }
{
    context.establish_kept();
    let first = Snapshot::of(&server);
    let Some(refused) = refused else {
        return server_host(first, ServerReturn::Back(server));
    };
    let (judge, gate, script) = (context.judge, context.gate, context.script);
    let (world, pool, serving) = (context.world, context.pool, context.serving);
    let promise = ServerPromise {
        server: Snapshot::of(&server),
    };
    match scope.spawn_with(
        promise,
        move || -> ServerReturn
            requires { IsContext (record { script = script.now; world = world.now; pool = pool.now; policies = J.policies judge.now }) × IsServer (record { script = script.now; world = world.now; pool = pool.now; policies = J.policies judge.now }) server }
            ensures { IsServerReturn server result }
        {
            let context = RunContext {
                judge,
                gate,
                script,
                world,
                pool,
                serving,
            };
            attend_or_return(rt, alloc, context, refused, server)
        },
    ) {
        Ok(child) => Ok(StartedServer::new(first, ServerHost::Thread(child))),
        Err(back) => {
            refused.store(true, Ordering::SeqCst);
            server_host(first, (back.value)())
        }
    }
}
