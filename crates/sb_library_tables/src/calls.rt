// Whole calls: a caller and a worker, each a step in turn, on the words of one channel.

use crate::channels::Channel;
use crate::decisions::{block_of, serve};
use crate::policies::set_of;
use sb_actor::{Act, Observed};
use sb_call::Answer;
use sb_host::{ClientCall, HostWorker, PolicySet, Undecided};
use sb_rows::{RowFault, number};
use sb_statements::CallResult;
use std::alloc::Global;

// More rounds than a call takes, of one step of each.
const MAX_ROUNDS: u32 = 400;

// The value that a step found, 0 if it found none.
fn value_of(seen: Observed) -> u64 {
    match seen {
        Observed::Value(value) => value,
        Observed::Done | Observed::Turn(_) => 0,
    }
}

// A step of a caller, if its call goes on.
fn step_caller(channel: &mut Channel, call: &mut ClientCall) {
    if call.is_calling() {
        let seen = channel.step(call.plan());
        call.after(value_of(seen));
    }
}

// A step of a worker. It answers by the first policy, with success, handle 9 and the word 5.
fn step_worker(
    alloc: Global,
    channel: &mut Channel,
    set: &PolicySet,
    worker: &mut HostWorker,
) -> Result<(), RowFault> {
    if let Act::Answer = worker.plan() {
        return match worker.decide(alloc, set, 0) {
            Ok(()) => {
                worker.reply(&Answer::with_word(0, 9, 5));
                Ok(())
            }
            Err(Undecided::Unfit) => Err(RowFault::NotInRange),
            Err(Undecided::NoMemory) => Err(RowFault::NoMemory),
        };
    }
    let seen = channel.step(worker.plan());
    worker.after(seen);
    Ok(())
}

// The same, with all words of a block or a reply at once.
fn move_worker(
    alloc: Global,
    channel: &mut Channel,
    set: &PolicySet,
    worker: &mut HostWorker,
) -> Result<(), RowFault> {
    let moves = worker.moves();
    match worker.plan() {
        Act::Load { word, .. } if moves > 0 => {
            let mut values = Vec::new(alloc);
            let first = word.at as usize;
            for at in 0..moves as usize {
                values.push(channel.get(first.saturating_add(at)))?;
            }
            if worker.loaded(&values) {
                return Ok(());
            }
            Err(RowFault::NotInRange)
        }
        Act::Store { .. } if moves > 0 => {
            for _move in 0..worker.values().len() {
                channel.step(worker.plan());
                if !worker.stored(1) {
                    return Err(RowFault::NotInRange);
                }
            }
            Ok(())
        }
        _ => step_worker(alloc, channel, set, worker),
    }
}

// Appends how a call ended.
fn put_result(out: &mut String, ended: Option<CallResult>) -> Result<(), RowFault> {
    match ended {
        None => out.push_str("goes on")?,
        Some(CallResult::Reply { channel, reply }) => write!(
            out,
            "channel {channel} outcome {} status {:x} handle {} words {}",
            reply.outcome,
            reply.status,
            reply.handle,
            reply.ext.as_slice().len()
        )?,
        Some(CallResult::NoChannel) => out.push_str("no channel")?,
        Some(CallResult::SendLost { channel, found }) => {
            write!(out, "send lost on channel {channel}, found {found}")?;
        }
        Some(CallResult::Foreign { channel, mark }) => {
            write!(out, "foreign on channel {channel}, mark {mark:x}")?;
        }
        Some(CallResult::TimedOut { channel }) => write!(out, "timed out on channel {channel}")?,
    }
    Ok(())
}

// A call of patience 0, from its block to its result.
fn whole_call(alloc: Global, rules: &str, text: &str, bulk: bool) -> Result<String, RowFault> {
    let set = set_of(alloc, rules)?;
    let block = block_of(alloc, text)?;
    let mut channel = Channel::free();
    let mut worker = HostWorker::new(1);
    let mut call = ClientCall::new();
    if !call.begin(1, 0, &block) {
        return Err(RowFault::NotInRange);
    }
    for _round in 0..MAX_ROUNDS {
        step_caller(&mut channel, &mut call);
        if bulk {
            move_worker(alloc, &mut channel, &set, &mut worker)?;
        } else {
            step_worker(alloc, &mut channel, &set, &mut worker)?;
        }
    }
    let mut out = String::new(alloc);
    put_result(&mut out, call.result())?;
    Ok(out)
}

/// How a call ends, of which each word is moved by a call of its own.
pub fn called(alloc: Global, rules: &str, text: &str) -> Result<String, RowFault> {
    whole_call(alloc, rules, text, false)
}

/// How a call ends, of which all words of the block, and of the reply, are moved by one call.
pub fn called_in_bulk(alloc: Global, rules: &str, text: &str) -> Result<String, RowFault> {
    whole_call(alloc, rules, text, true)
}

/// A worker takes over a channel in this state: what state it leaves, and whether it then has a call to answer.
pub fn adopted(alloc: Global, text: &str) -> Result<String, RowFault> {
    let mut channel = Channel::new(number(text)?);
    let mut worker = HostWorker::adopt(1);
    let is_serving = serve(&mut channel, &mut worker);
    let mut out = String::new(alloc);
    write!(out, "state {} serving {is_serving}", channel.get(0))?;
    Ok(out)
}

/// A caller begins a call of this patience whose block has 16 words, all of them 1, on a channel that no worker serves: whether it begins,
/// a second one while it goes on, and how it ends.
pub fn began(alloc: Global, text: &str) -> Result<String, RowFault> {
    let patience = number(text)?;
    let block = [1; 16];
    let mut channel = Channel::free();
    let mut call = ClientCall::new();
    let (first, second) = (
        call.begin(1, patience, &block),
        call.begin(1, patience, &block),
    );
    for _round in 0..MAX_ROUNDS {
        step_caller(&mut channel, &mut call);
    }
    let mut out = String::new(alloc);
    write!(out, "begun {first} {second}; state {}; ", channel.get(0))?;
    put_result(&mut out, call.result())?;
    Ok(out)
}
