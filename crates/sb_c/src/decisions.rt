// What is decided of a copy, the arguments that are granted, and the reply.
ghost use Rattle.std.specs.Prelude.{◌≡◌, ◌<◌, IfErr, IfOk, OnErr, OnOk, Some, length, option_map, true, slice_get};
ghost use Rattle.sb_rule.specs.Verdicts.{policy_at};
ghost use Rattle.sb_host.specs.HostWorkers.{after_answer, after_decision, asked, can_decide, can_reply};
ghost use Rattle.sb_c.specs.Contents.{policies_in, worker_in};
ghost use Rattle.sb_c.specs.Decisions.{IsArgument, IsAsked, IsDecided, IsShown, IsUndecided, asked_by, decision_shown, granted_in, ruling_shown};
ghost use Rattle.sb_c.specs.Handles.{content};
ghost use Rattle.sb_c.specs.Statuses.{done_or_bad, status_number, status_of};
ghost use Rattle.sb_c.specs.Workers.{answer_in, is_worker, with_worker};

use crate::blocks::fault_shown;
use crate::handles::Handle;
use crate::helds::Held;
use crate::shapes::{Argument, CallVerdict, CopyDecision, HostAnswer};
use crate::statuses::{Status, done_or_bad};
use crate::verdicts::verdict_shown;
use arrayvec::ArrayVec;
use sb_base::NoMemory;
use sb_book::Ruling;
use sb_call::{Answer, Arg, Extended};
use sb_host::{HostWorker, PolicySet, Undecided};
use sb_rule::{Action, Verdict};
use std::alloc::Global;

fn decision_shown(
    outcome: u32,
    call: u32,
    said: CallVerdict,
    fault: u32,
    arguments: u64,
) -> CopyDecision
    ensures { result ≡ decision_shown outcome call said fault arguments }
{
    CopyDecision {
        outcome,
        call,
        has_rule: said.has_rule,
        line: said.line,
        action: said.action,
        fault,
        arguments,
    }
}

#[tactic(auto, using(crate::proofs::FaultLemmas::first_of_words))]
fn ruling_shown(arguments: u64, ruling: Ruling) -> CopyDecision
    ensures { result ≡ ruling_shown arguments ruling }
{
    let no_rule = verdict_shown(Verdict::NoRule);
    match ruling {
        Ruling::Performed { tag, line, action } => {
            let said = verdict_shown(Verdict::Rule { line, action });
            decision_shown(0, tag as u32, said, 0, arguments)
        }
        Ruling::Refused(fault) => decision_shown(
            1,
            0,
            no_rule,
            fault_shown(fault).number,
            arguments,
        ),
        Ruling::Denied { tag, verdict } => decision_shown(
            2,
            tag as u32,
            verdict_shown(verdict),
            0,
            arguments,
        ),
        Ruling::Faked { tag, line } => {
            let action = Action::Fake;
            decision_shown(
                3,
                tag as u32,
                verdict_shown(Verdict::Rule { line, action }),
                0,
                arguments,
            )
        }
    }
}

// Decides the copy of a worker by a policy, and says what is decided.
#[tactic(auto, using(crate::proofs::DecisionLemmas::is_decided))]
fn decide(
    alloc: Global,
    host: &mut HostWorker,
    set: &PolicySet,
    policy: u32,
) -> Result<CopyDecision, Status>
    ensures shown { IfOk result (λ shown. IsShown host.new.decision shown) }
    ensures fits { OnOk result (can_decide host.old (length set.now.policies) policy ≡ true) }
    ensures decided { OnOk result (host.new ≡ after_decision host.old (policy_at set.now.policies policy)) }
    ensures none { IfErr result (IsUndecided host.old set.now.policies policy) }
    ensures same { OnErr result (host.new ≡ host.old) }
{
    match host.decide(alloc, set, policy) {
        Ok(()) => {}
        Err(Undecided::Unfit) => return Err(Status::BadCall),
        Err(Undecided::NoMemory) => return Err(Status::NoMemory),
    }
    let arguments = host.args().len() as u64;
    match host.ruling() {
        Some(ruling) => Ok(ruling_shown(arguments, ruling)),
        None => Err(Status::BadCall),
    }
}

/// Decides the copy of a worker by the policy with this number, and writes what is decided. The decision stays until the reply. A bad call exactly if
/// there is no worker with a copy to answer of which nothing is decided, or no such policy.
#[unsafe(no_mangle)]
#[tactic(auto, using(crate::proofs::StatusLemmas::undecided_as))]
pub extern "C" fn sb_worker_decide(
    alloc: Global,
    worker: &mut Handle,
    policies: &mut Handle,
    policy: u32,
    decision: &mut CopyDecision,
) -> u32
    ensures status { IsDecided (worker_in (content worker.old)) (policies_in (content policies.old)) policy decision.new (status_of result) }
    ensures decided { result ≡ 0 → content worker.new ≡ with_worker (λ h. after_decision h (policy_at (policies_in (content policies.old)) policy)) (content worker.old) }
    ensures same { 0 < result → content worker.new ≡ content worker.old }
    ensures unwritten { 0 < result → decision.new ≡ decision.old }
    ensures policies { content policies.new ≡ content policies.old }
{
    let Some(mut held) = worker.take(alloc) else {
        return Status::BadCall.number();
    };
    let Some(rules) = policies.take(alloc) else {
        worker.put(held);
        return Status::BadCall.number();
    };
    let decided = match (&mut *held, rules.policies()) {
        (Held::Worker(host), Some(set)) => decide(alloc, host, set, policy),
        _ => Err(Status::BadCall),
    };
    worker.put(held);
    policies.put(rules);
    match decided {
        Ok(shown) => {
            *decision = shown;
            Status::Ok.number()
        }
        Err(status) => status.number(),
    }
}

// Shows an argument, whose string is put at the front of the units.
fn show(given: Option<&Arg>, argument: &mut Argument, units: &mut [u16]) -> Status
    ensures status { IsArgument (option_map (λ arg. arg.now) given.entry) (length units.old) argument.new units.new (Some result) }
    ensures same { 0 < status_number result → (argument.new ≡ argument.old) × (units.new ≡ units.old) }
{
    match given {
        None => return Status::BadCall,
        Some(Arg::Num(number)) => {
            *argument = Argument {
                is_text: 0,
                start: 0,
                length: 0,
                room: 0,
                number: *number,
            };
        }
        Some(Arg::Str(text)) => {
            let text = text.as_units();
            if text.len() > units.len() || text.len() > 0xffff_ffff {
                return Status::NoRoom;
            }
            units[..text.len()].copy_from_slice(text);
            *argument = Argument {
                is_text: 1,
                start: 0,
                length: text.len() as u32,
                room: 0,
                number: 0,
            };
        }
    }
    Status::Ok
}

/// Writes the argument with this number, from 0, that is granted; a string is put at the front of the units. A bad call exactly if there is no worker, or
/// fewer arguments are granted; `NoRoom` exactly if the string has more units than there is room for, or than 32 bits count. Does not allocate.
#[unsafe(no_mangle)]
#[tactic(auto, using(crate::proofs::StatusLemmas::argument_as))]
pub extern "C" fn sb_worker_argument(
    alloc: Global,
    worker: &mut Handle,
    number: u32,
    argument: &mut Argument,
    units: &mut [u16],
) -> u32
    ensures status { IsArgument (slice_get (granted_in (worker_in (content worker.old))) number) (length units.old) argument.new units.new (status_of result) }
    ensures unwritten { 0 < result → (argument.new ≡ argument.old) × (units.new ≡ units.old) }
    ensures same { content worker.new ≡ content worker.old }
{
    let Some(held) = worker.take(alloc) else {
        return Status::BadCall.number();
    };
    let status = match held.worker() {
        Some(host) => show(host.args().get(number as usize), argument, units),
        None => Status::BadCall,
    };
    worker.put(held);
    status.number()
}

// Shows an argument of the call that the copy of a worker asks for.
#[tactic(auto, using(crate::proofs::StatusLemmas::asked_argument))]
fn show_asked(
    alloc: Global,
    host: &HostWorker,
    number: u32,
    argument: &mut Argument,
    units: &mut [u16],
) -> Status
    ensures status { IsAsked (asked host.now) number (length units.old) argument.new units.new (Some result) }
    ensures same { 0 < status_number result → (argument.new ≡ argument.old) × (units.new ≡ units.old) }
{
    match host.asked(alloc) {
        Ok(Some(call)) => show(call.args.as_slice().get(number as usize), argument, units),
        Ok(None) => Status::BadCall,
        Err(NoMemory) => Status::NoMemory,
    }
}

/// Writes the argument with this number, from 0, of the call that the copy to answer asks for, whatever is decided of it; a string is put at the front of the
/// units. It is for logs, and must never be performed. A bad call exactly if there is no worker with a copy to answer that asks for a call, or the call has
/// fewer arguments; `NoRoom` as for an argument that is granted.
#[unsafe(no_mangle)]
#[tactic(auto, using(crate::proofs::StatusLemmas::asked_as))]
pub extern "C" fn sb_worker_asked(
    alloc: Global,
    worker: &mut Handle,
    number: u32,
    argument: &mut Argument,
    units: &mut [u16],
) -> u32
    ensures status { IsAsked (asked_by (worker_in (content worker.old))) number (length units.old) argument.new units.new (status_of result) }
    ensures unwritten { 0 < result → (argument.new ≡ argument.old) × (units.new ≡ units.old) }
    ensures same { content worker.new ≡ content worker.old }
{
    let Some(held) = worker.take(alloc) else {
        return Status::BadCall.number();
    };
    let status = match held.worker() {
        Some(host) => show_asked(alloc, host, number, argument, units),
        None => Status::BadCall,
    };
    worker.put(held);
    status.number()
}

// What a host answers, with at most seven extended words.
fn answer_in(answer: &HostAnswer) -> Answer
    ensures { result ≡ answer_in answer.now }
{
    let mut words = ArrayVec::new();
    let count = answer.count.min(7) as usize;
    let _fits = words.try_extend_from_slice(&answer.words[..count]);
    Answer {
        status: answer.status,
        handle: answer.handle,
        ext: Extended::new(words),
    }
}

/// Goes on from the answer by the reply to what was decided: the host's answer if the call is performed, and else what the decision says. A bad call
/// exactly if the handle holds no worker, there is no copy to answer, or nothing is decided of it. Does not allocate.
#[unsafe(no_mangle)]
pub extern "C" fn sb_worker_reply(alloc: Global, worker: &mut Handle, answer: &HostAnswer) -> u32
    ensures status { result ≡ done_or_bad (is_worker can_reply (worker_in (content worker.old))) }
    ensures worker { content worker.new ≡ with_worker (λ h. after_answer h (answer_in answer.now)) (content worker.old) }
{
    let Some(mut held) = worker.take(alloc) else {
        return Status::BadCall.number();
    };
    let done = match &mut *held {
        Held::Worker(host) => host.reply(&answer_in(answer)),
        Held::Policies(_) | Held::Space(_) => false,
    };
    worker.put(held);
    done_or_bad(done)
}
