// The worker of a target: which step comes next, and what it found.
ghost use Rattle.std.specs.Prelude.{◌≡◌, ◌<◌, ◌==◌, length, take, is_some, false};
ghost use Rattle.sb_actor.specs.Acts.{observation};
ghost use Rattle.sb_actor.specs.declared.acts.Act.TheVariants.{Idle};
ghost use Rattle.sb_host.specs.HostWorkers.{after_loads, after_stores, can_load, can_store, host_adopt, host_moves, host_plan, host_start, values_to_store};
ghost use Rattle.sb_c.specs.Contents.{worker_in};
ghost use Rattle.sb_c.specs.Handles.{content};
ghost use Rattle.sb_c.specs.Statuses.{done_or_bad, status_number, status_of};
ghost use Rattle.sb_c.specs.Steps.{step_shown};
ghost use Rattle.sb_c.specs.Workers.{AreValues, IsNewWorker, can_step, found_at, is_channel_count, is_worker, step_found, told_by, with_worker};

use crate::handles::Handle;
use crate::helds::Held;
use crate::rooms::put;
use crate::shapes::Step;
use crate::statuses::{Status, done_or_bad};
use crate::steps::step_shown;
use sb_actor::{Act, Observed};
use sb_host::HostWorker;
use std::alloc::Global;

fn is_channel_count(channels: u32) -> bool
    ensures { result ≡ is_channel_count channels }
{
    0 < channels && channels <= 8
}

// What C found at a step: whether the turn was taken, and else a value.
fn found_at(act: Act, found: u64) -> Observed
    ensures { observation result ≡ found_at act found }
{
    match act {
        Act::Take => Observed::Turn(found != 0),
        _ => Observed::Value(found),
    }
}

/// Puts the worker of a target with 1 to 8 channels, which no worker has served, into an empty handle. A bad call exactly if there are fewer or more
/// channels, or the handle holds something.
#[unsafe(no_mangle)]
pub extern "C" fn sb_worker_new(alloc: Global, worker: &mut Handle, channels: u32) -> u32
    ensures status { IsNewWorker (host_start channels) channels (content worker.old) (content worker.new) (status_of result) }
    ensures same { 0 < result → content worker.new ≡ content worker.old }
{
    if !is_channel_count(channels) || worker.holds() {
        return Status::BadCall.number();
    }
    match Box::new(alloc, Held::Worker(HostWorker::new(channels))) {
        Ok(held) => {
            worker.put(held);
            Status::Ok.number()
        }
        Err(_) => Status::NoMemory.number(),
    }
}

/// Puts the worker of a target, whose 1 to 8 channels had a worker that makes no more steps, into an empty handle. It begins with an exchange of the
/// state of each channel, so that no call is performed twice. A bad call exactly if there are fewer or more channels, or the handle holds something.
#[unsafe(no_mangle)]
pub extern "C" fn sb_worker_adopt(alloc: Global, worker: &mut Handle, channels: u32) -> u32
    ensures status { IsNewWorker (host_adopt channels) channels (content worker.old) (content worker.new) (status_of result) }
    ensures same { 0 < result → content worker.new ≡ content worker.old }
{
    if !is_channel_count(channels) || worker.holds() {
        return Status::BadCall.number();
    }
    match Box::new(alloc, Held::Worker(HostWorker::adopt(channels))) {
        Ok(held) => {
            worker.put(held);
            Status::Ok.number()
        }
        Err(_) => Status::NoMemory.number(),
    }
}

/// Writes the one next step of a worker. A bad call, which writes a step of kind 0, exactly if the handle holds no worker. Does not allocate.
#[unsafe(no_mangle)]
pub extern "C" fn sb_worker_plan(alloc: Global, worker: &mut Handle, step: &mut Step) -> u32
    ensures status { result ≡ done_or_bad (is_some (worker_in (content worker.old))) }
    ensures step { step.new ≡ step_shown (told_by host_plan Idle (worker_in (content worker.old))) }
    ensures same { content worker.new ≡ content worker.old }
{
    let Some(held) = worker.take(alloc) else {
        *step = step_shown(Act::Idle);
        return Status::BadCall.number();
    };
    let planned = match held.worker() {
        Some(host) => Some(host.plan()),
        None => None,
    };
    worker.put(held);
    match planned {
        Some(act) => {
            *step = step_shown(act);
            Status::Ok.number()
        }
        None => {
            *step = step_shown(Act::Idle);
            Status::BadCall.number()
        }
    }
}

// Goes on by what C found at the next step.
fn after(host: &mut HostWorker, found: u64) -> bool
    ensures done { result ≡ can_step host.old }
    ensures after { host.new ≡ step_found found host.old }
{
    let act = host.plan();
    host.after(found_at(act, found))
}

/// Goes on by what the next step found: a load or an exchange the value that was there, the turn any number but 0 if it was taken; of a store, and of
/// the turn given back, any number. A bad call exactly if the handle holds no worker, or its next step is the answer. Does not allocate.
#[unsafe(no_mangle)]
pub extern "C" fn sb_worker_after(alloc: Global, worker: &mut Handle, found: u64) -> u32
    ensures status { result ≡ done_or_bad (is_worker can_step (worker_in (content worker.old))) }
    ensures worker { content worker.new ≡ with_worker (step_found found) (content worker.old) }
{
    let Some(mut held) = worker.take(alloc) else {
        return Status::BadCall.number();
    };
    let done = match &mut *held {
        Held::Worker(host) => after(host, found),
        Held::Policies(_) | Held::Space(_) => false,
    };
    worker.put(held);
    done_or_bad(done)
}

/// How many of the next steps of a worker move one word each, whatever they find: loads of the block into the copy, or stores of the reply. 0 if the
/// handle holds no worker. Does not allocate.
#[unsafe(no_mangle)]
pub extern "C" fn sb_worker_moves(alloc: Global, worker: &mut Handle) -> u32
    ensures moves { result ≡ told_by host_moves 0 (worker_in (content worker.old)) }
    ensures same { content worker.new ≡ content worker.old }
{
    let Some(held) = worker.take(alloc) else {
        return 0;
    };
    let moves = match held.worker() {
        Some(host) => host.moves(),
        None => 0,
    };
    worker.put(held);
    moves
}

/// Goes on from loads of the next words of the block by their values, each loaded by one atomic step, in order. A bad call exactly if the handle holds no
/// worker, or its next steps are not that many loads of the block. Does not allocate.
#[unsafe(no_mangle)]
pub extern "C" fn sb_worker_loaded(alloc: Global, worker: &mut Handle, values: &[u64]) -> u32
    ensures status { result ≡ done_or_bad (is_worker (λ h. can_load h (length values.now)) (worker_in (content worker.old))) }
    ensures worker { content worker.new ≡ with_worker (λ h. after_loads h values.now) (content worker.old) }
{
    let Some(mut held) = worker.take(alloc) else {
        return Status::BadCall.number();
    };
    let done = match &mut *held {
        Held::Worker(host) => host.loaded(values),
        Held::Policies(_) | Held::Space(_) => false,
    };
    worker.put(held);
    done_or_bad(done)
}

// Puts the values that a worker stores next into a room.
fn put_values(host: &HostWorker, values: &mut [u64], count: &mut usize) -> Status
    ensures status { AreValues (Some host.now) (length values.old) count.new (take count.new values.new) (Some result) }
    ensures same { 0 < status_number result → (values.new ≡ values.old) × (count.new ≡ count.old) }
{
    if put(host.values(), values, count) {
        Status::Ok
    } else {
        Status::NoRoom
    }
}

/// Writes the values of the reply that the next steps of a worker store, one each, and how many there are. A bad call exactly if the handle holds no worker.
/// Does not allocate.
#[unsafe(no_mangle)]
#[tactic(auto, using(crate::proofs::StatusLemmas::values_as))]
pub extern "C" fn sb_worker_values(
    alloc: Global,
    worker: &mut Handle,
    values: &mut [u64],
    count: &mut usize,
) -> u32
    ensures status { AreValues (worker_in (content worker.old)) (length values.old) count.new (take count.new values.new) (status_of result) }
    ensures unwritten { 0 < result → (values.new ≡ values.old) × (count.new ≡ count.old) }
    ensures same { content worker.new ≡ content worker.old }
{
    let Some(held) = worker.take(alloc) else {
        return Status::BadCall.number();
    };
    let status = match held.worker() {
        Some(host) => put_values(host, values, count),
        None => Status::BadCall,
    };
    worker.put(held);
    status.number()
}

/// Goes on from this many stores of the next words of the reply. A bad call exactly if the handle holds no worker, or its next steps are not that many
/// stores of the reply. Does not allocate.
#[unsafe(no_mangle)]
pub extern "C" fn sb_worker_stored(alloc: Global, worker: &mut Handle, count: u32) -> u32
    ensures status { result ≡ done_or_bad (is_worker (λ h. can_store h count) (worker_in (content worker.old))) }
    ensures worker { content worker.new ≡ with_worker (λ h. after_stores h count) (content worker.old) }
{
    let Some(mut held) = worker.take(alloc) else {
        return Status::BadCall.number();
    };
    let done = match &mut *held {
        Held::Worker(host) => host.stored(count),
        Held::Policies(_) | Held::Space(_) => false,
    };
    worker.put(held);
    done_or_bad(done)
}
