// What a host does with a call that a target has handed over.

use crate::channels::Channel;
use crate::policies::{put_verdict, set_of};
use sb_block::fault_of;
use sb_book::Ruling;
use sb_call::{Answer, Arg};
use sb_host::{HostWorker, NoBlock, PolicySet, Undecided, copy_of};
use sb_kernel::Kernel;
use sb_rows::{RowFault, call, number};
use sb_rule::Verdict;
use std::alloc::Global;

// More steps than a worker makes from one look to its next.
const MAX_STEPS: u32 = 200;

// The mark of the calls of all rows.
const MARK: u64 = 0x10000;

/// The block of a call. Its mark is 0x10000.
pub fn block_of(alloc: Global, text: &str) -> Result<Vec<u64>, RowFault> {
    let (tag, args) = call(alloc, text)?;
    match sb_host::block_of(tag, args.as_slice(), MARK) {
        Ok(words) => Ok(Vec::from_slice(alloc, words.as_slice())?),
        Err(NoBlock::Unfit) => Err(RowFault::NotInRange),
        Err(NoBlock::TooBig) => Err(RowFault::TooMany),
    }
}

/// Whether the block of a call, before which a count and an end were loaded, is a copy, and whether it has a fault.
pub fn copied(alloc: Global, loaded: &str, text: &str) -> Result<String, RowFault> {
    let (count, end) = loaded.split_once(' ').unwrap_or((loaded, "0"));
    let block = block_of(alloc, text)?;
    let told = match copy_of(number(count)?, number(end)?, &block) {
        None => "no copy",
        Some(copy) => match fault_of(&copy) {
            None => "a copy without a fault",
            Some(_) => "a copy with a fault",
        },
    };
    Ok(String::from_str(alloc, told)?)
}

/// Makes the steps of a worker until it is to answer, or has looked in vain. True if it is to answer.
pub fn serve(channel: &mut Channel, worker: &mut HostWorker) -> bool {
    for _step in 0..MAX_STEPS {
        if worker.copy_to_answer().is_some() {
            return true;
        }
        let seen = channel.step(worker.plan());
        worker.after(seen);
    }
    false
}

// Makes the steps of a worker until the reply is there.
fn finish(channel: &mut Channel, worker: &mut HostWorker) {
    for _step in 0..MAX_STEPS {
        if channel.is_acknowledged() {
            return;
        }
        let seen = channel.step(worker.plan());
        worker.after(seen);
    }
}

/// Appends the twelve words of a reply, of those behind the count only as many as it says.
pub fn put_reply(out: &mut String, channel: &Channel) -> Result<(), RowFault> {
    out.push_str("reply")?;
    let count = channel.get(8).min(7) as usize;
    for at in 4..count.saturating_add(9) {
        write!(out, " {:x}", channel.get(at))?;
    }
    Ok(())
}

// Appends arguments.
fn put_args(out: &mut String, args: &[Arg]) -> Result<(), RowFault> {
    for arg in args {
        match arg {
            Arg::Num(number) => write!(out, " {number:#x}")?,
            Arg::Str(text) => write!(out, " units:{}", text.as_units().len())?,
        }
    }
    Ok(())
}

// Appends what is decided.
fn put_ruling(out: &mut String, ruling: Option<Ruling>) -> Result<(), RowFault> {
    match ruling {
        None => Ok(out.push_str("undecided")?),
        Some(Ruling::Refused(_)) => Ok(out.push_str("refused")?),
        Some(Ruling::Denied { tag, verdict }) => {
            out.push_str("denied ")?;
            put_verdict(out, tag, verdict)
        }
        Some(Ruling::Faked { tag, line }) => {
            out.push_str("faked ")?;
            out.push_str(sb_call::call_word(tag))?;
            Ok(write!(out, " rule {line}")?)
        }
        Some(Ruling::Performed { tag, line, action }) => {
            out.push_str("performed ")?;
            put_verdict(out, tag, Verdict::Rule { line, action })
        }
    }
}

// Decides by the policy of this number, and appends what is decided, granted and asked for.
fn put_decision(
    alloc: Global,
    out: &mut String,
    set: &PolicySet,
    policy: u32,
    worker: &mut HostWorker,
) -> Result<(), RowFault> {
    match worker.decide(alloc, set, policy) {
        Ok(()) => {}
        Err(Undecided::Unfit) => out.push_str("unfit ")?,
        Err(Undecided::NoMemory) => return Err(RowFault::NoMemory),
    }
    put_ruling(out, worker.ruling())?;
    put_args(out, worker.args())?;
    out.push_str("; asked")?;
    match worker.asked(alloc)? {
        Some(call) => put_args(out, call.args.as_slice())?,
        None => out.push_str(" nothing")?,
    }
    out.push_str("; ")?;
    Ok(())
}

// Appends whether it was done.
fn put_done(out: &mut String, done: bool) -> Result<(), RowFault> {
    Ok(out.push_str(if done { "done; " } else { "not done; " })?)
}

/// A call is decided by a policy that is not there, by the first one, and by the second one; the host answers 0, with handle 9 and the word
/// 5, before and after the decision, and once more.
pub fn decided(alloc: Global, rules: &str, text: &str) -> Result<String, RowFault> {
    decided_block(alloc, rules, &block_of(alloc, text)?)
}

/// The same, and the block says that it has ten parameters.
pub fn refused(alloc: Global, rules: &str, text: &str) -> Result<String, RowFault> {
    let mut block = block_of(alloc, text)?;
    if let Some(count) = block.get_mut(2) {
        *count = 10;
    }
    decided_block(alloc, rules, &block)
}

fn decided_block(alloc: Global, rules: &str, block: &[u64]) -> Result<String, RowFault> {
    let set = set_of(alloc, rules)?;
    let mut channel = Channel::ready(block);
    let mut worker = HostWorker::new(1);
    let mut out = String::new(alloc);
    serve(&mut channel, &mut worker);
    let answer = Answer::with_word(0, 9, 5);
    put_done(&mut out, worker.reply(&answer))?;
    put_decision(alloc, &mut out, &set, 2, &mut worker)?;
    put_decision(alloc, &mut out, &set, 0, &mut worker)?;
    put_decision(alloc, &mut out, &set, 1, &mut worker)?;
    put_done(&mut out, worker.reply(&answer))?;
    put_done(&mut out, worker.reply(&answer))?;
    finish(&mut channel, &mut worker);
    put_reply(&mut out, &channel)?;
    Ok(out)
}

/// A call is performed in a namespace of its own, before and after the decision, and once more.
pub fn performed(alloc: Global, rules: &str, text: &str) -> Result<String, RowFault> {
    let set = set_of(alloc, rules)?;
    let mut kernel = Kernel::new(alloc);
    let mut channel = Channel::ready(&block_of(alloc, text)?);
    let mut worker = HostWorker::new(1);
    let mut out = String::new(alloc);
    serve(&mut channel, &mut worker);
    put_done(&mut out, worker.perform(&mut kernel, 0)?)?;
    put_decision(alloc, &mut out, &set, 0, &mut worker)?;
    put_done(&mut out, worker.perform(&mut kernel, 0)?)?;
    put_done(&mut out, worker.perform(&mut kernel, 0)?)?;
    finish(&mut channel, &mut worker);
    put_reply(&mut out, &channel)?;
    Ok(out)
}
