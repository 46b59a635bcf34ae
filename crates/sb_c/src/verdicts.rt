// The verdict of a policy on a call.
ghost use Rattle.std.specs.Prelude.{◌≡◌, ◌<◌, IfErr, IfOk, OnOk, true};
ghost use Rattle.sb_c.specs.Blocks.{call_of_c};
ghost use Rattle.sb_c.specs.Contents.{policies_in};
ghost use Rattle.sb_c.specs.Handles.{content};
ghost use Rattle.sb_c.specs.Statuses.{status_of};
ghost use Rattle.sb_c.specs.Verdicts.{IsJudged, IsNoVerdict, can_judge, verdict_on, verdict_shown};

use crate::arguments::{are_within, arguments_meant};
use crate::blocks::tag_of;
use crate::handles::Handle;
use crate::shapes::{Argument, CallVerdict};
use crate::statuses::Status;
use sb_host::PolicySet;
use sb_rule::Verdict;
use std::alloc::Global;

/// A verdict as C sees it.
pub(crate) fn verdict_shown(verdict: Verdict) -> CallVerdict
    ensures { result ≡ verdict_shown verdict }
{
    match verdict {
        Verdict::Rule { line, action } => CallVerdict {
            has_rule: 1,
            line,
            action: action as u32,
            room: 0,
        },
        Verdict::NoRule => CallVerdict {
            has_rule: 0,
            line: 0,
            action: 0,
            room: 0,
        },
    }
}

// The verdict of a policy on a call of C.
fn verdict_on(
    alloc: Global,
    set: &PolicySet,
    policy: u32,
    call: u64,
    arguments: &[Argument],
    units: &[u16],
) -> Result<Verdict, Status>
    ensures verdict { IfOk result (λ v. v ≡ verdict_on set.now.policies policy (call_of_c call arguments.now units.now)) }
    ensures ok { OnOk result (can_judge set.now.policies policy (call_of_c call arguments.now units.now) ≡ true) }
    ensures none { IfErr result (IsNoVerdict set.now.policies policy (call_of_c call arguments.now units.now)) }
{
    if !are_within(units, arguments) {
        return Err(Status::BadCall);
    }
    let Some(tag) = tag_of(call) else {
        return Err(Status::BadCall);
    };
    let Ok(args) = arguments_meant(alloc, units, arguments) else {
        return Err(Status::NoMemory);
    };
    match set.verdict(policy, tag, args.as_slice()) {
        Some(verdict) => Ok(verdict),
        None => Err(Status::BadCall),
    }
}

/// Writes the verdict of the policy with this number on a call, whose strings are parts of the units. A bad call exactly if there is no such policy or
/// call, a string does not lie within the units, or the arguments are not those of the call.
#[unsafe(no_mangle)]
#[tactic(auto, using(crate::proofs::StatusLemmas::no_verdict_as))]
pub extern "C" fn sb_judge(
    alloc: Global,
    policies: &mut Handle,
    policy: u32,
    call: u64,
    arguments: &[Argument],
    units: &[u16],
    verdict: &mut CallVerdict,
) -> u32
    ensures status { IsJudged (policies_in (content policies.old)) policy (call_of_c call arguments.now units.now) verdict.new (status_of result) }
    ensures unwritten { 0 < result → verdict.new ≡ verdict.old }
    ensures same { content policies.new ≡ content policies.old }
{
    let Some(held) = policies.take(alloc) else {
        return Status::BadCall.number();
    };
    let judged = match held.policies() {
        Some(set) => verdict_on(alloc, set, policy, call, arguments, units),
        None => Err(Status::BadCall),
    };
    policies.put(held);
    match judged {
        Ok(found) => {
            *verdict = verdict_shown(found);
            Status::Ok.number()
        }
        Err(status) => status.number(),
    }
}
