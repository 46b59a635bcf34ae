// Whether an entry on a clean channel is that of a call.
ghost use Rattle.std.specs.Prelude.{◌≡◌, ◌<◌, ◌≤◌, length, Some, true};
ghost use Rattle.sb_book.specs.Decisions.{by_verdict};
ghost use Rattle.sb_book.specs.Histories.{setting_of};
ghost use Rattle.sb_transcript.specs.Printed.{shown_decision};
ghost use Rattle.sb_rule.specs.Verdicts.{policy_at};
ghost use Rattle.sb_rule.specs.declared.verdicts.Verdict.TheVariants.{Rule};
ghost use Rattle.sb_audit.specs.Audited.{policy_of};
ghost use Rattle.sb_audit.specs.Clauses.{is_decided};
ghost use Rattle.sb_audit.specs.Comparing.{same_decision};
ghost use Rattle.sb_audit.specs.Dues.{due_call, due_decision};
ghost use Rattle.sb_actor.specs.Found.{is_encoded};
ghost use Rattle.sb_actor.specs.Marks.{place_of, thread_of};
ghost use Rattle.sb_audit.specs.Kept.{IsOwnPlace};

use crate::arguments::{same_arguments, same_read_only};
use crate::contexts::Context;
use crate::dues::OwnDue;
use crate::own_places::OwnPlace;
use crate::rows::Rows;
use sb_actor::{CallMark, sound_statement_at};
use sb_block::blocks_come_back;
use sb_call::{Arg, CallTag};
use sb_rule::{Action, Judge, Verdict};
use sb_statements::Statement;
use sb_transcript::{EntryLine, ShownDecision};

// Whether a decision is the one that a verdict on a call makes.
fn shows_verdict(decision: &ShownDecision, tag: CallTag, args: &[Arg], verdict: Verdict) -> bool
    ensures { result ≡ same_decision decision.now (shown_decision (by_verdict tag args.now verdict)) }
{
    match verdict {
        Verdict::NoRule => match decision {
            ShownDecision::NoRule(shown) => *shown == tag,
            _ => false,
        },
        Verdict::Rule { line, action } => shows_action(decision, tag, args, line, action),
    }
}

// Whether a decision is the one that a rule on this line with this action makes.
fn shows_action(
    decision: &ShownDecision,
    tag: CallTag,
    args: &[Arg],
    deciding: u32,
    action: Action,
) -> bool
    ensures { result ≡ same_decision decision.now (shown_decision (by_verdict tag args.now (Rule deciding action))) }
{
    match (action, decision) {
        (Action::Deny, ShownDecision::Denied { tag: shown, line }) => {
            *shown == tag && *line == deciding
        }
        (Action::Alarm, ShownDecision::Alarmed { tag: shown, line }) => {
            *shown == tag && *line == deciding
        }
        (Action::Fake, ShownDecision::Faked { tag: shown, line }) => {
            *shown == tag && *line == deciding
        }
        (
            Action::Allow,
            ShownDecision::Allowed {
                tag: shown,
                args: given,
                line,
            },
        ) => { *shown == tag && same_arguments(given.as_slice(), args) && *line == deciding }
        (
            Action::ReadOnly,
            ShownDecision::ReadOnly {
                tag: shown,
                args: given,
                line,
            },
        ) => { *shown == tag && same_read_only(given.as_slice(), args) && *line == deciding }
        _ => false,
    }
}

// Whether a decision is that of a target's policy on the whole block of a statement that is a call with this mark.
#[tactic(auto, using(crate::proofs::Calls::call_decided))]
fn is_decided<J: Judge>(
    judge: &J,
    target: u32,
    mark: u64,
    decision: &ShownDecision,
    statement: &Statement,
) -> bool
    requires there { target < length (J.policies judge.now) }
    requires encoded { is_encoded statement.now ≡ true }
    ensures { result ≡ is_decided (policy_at (J.policies judge.now) target) mark decision.now (Some statement.now) }
{
    blocks_come_back();
    match statement {
        Statement::Call { tag, args } => {
            let verdict = judge.judge(target, *tag, args.as_slice());
            shows_verdict(decision, *tag, args.as_slice(), verdict)
        }
        _ => false,
    }
}

/// Where the call of an entry is whose channel is clean.
pub(crate) fn own_place<J: Judge>(
    context: &Context<'_>,
    judge: &J,
    rows: &Rows,
    target: u32,
    entry: &EntryLine,
) -> OwnPlace
    requires there { target < length context.now.script.targets }
    requires judge { J.policies judge.now ≡ (setting_of context.now.policies context.now.script).policies }
    ensures { IsOwnPlace (policy_of context.now.policies context.now.script target) context.now.script rows.now target entry.now result }
{
    if !context.is_clean(target, entry.channel) {
        return OwnPlace::NotClean;
    }
    let Some(mark) = CallMark::of(entry.mark) else {
        return OwnPlace::NotOwn;
    };
    let thread = mark.thread as usize;
    let place = mark.place as usize;
    let Some(statement) = sound_statement_at(context.script(), target, thread, place) else {
        return OwnPlace::NotOwn;
    };
    if is_decided(judge, target, entry.mark, &entry.decision, statement)
        && rows.len(target, thread) <= place
    {
        OwnPlace::At { thread, place }
    } else {
        OwnPlace::NotOwn
    }
}

// What is due of an entry whose mark names this statement, if the entry is not its own.
fn due_decision<J: Judge>(
    judge: &J,
    target: u32,
    entry: &EntryLine,
    mark: CallMark,
    statement: &Statement,
) -> OwnDue
    requires there { target < length (J.policies judge.now) }
    requires encoded { is_encoded statement.now ≡ true }
    requires marked { (mark.thread ≡ thread_of entry.now.mark) × (mark.place ≡ place_of entry.now.mark) }
    ensures { result ≡ due_decision (policy_at (J.policies judge.now) target) entry.now (Some statement.now) }
{
    match statement {
        Statement::Call { tag, args } => {
            if !is_decided(judge, target, entry.mark, &entry.decision, statement) {
                return OwnDue::Decision {
                    tag: *tag,
                    verdict: judge.judge(target, *tag, args.as_slice()),
                };
            }
            OwnDue::Later {
                thread: mark.thread,
                place: mark.place,
            }
        }
        _ => OwnDue::CallMark,
    }
}

/// What is due of an entry on a clean channel that is not that of a call above its thread's earlier ones.
pub(crate) fn due_call<J: Judge>(
    context: &Context<'_>,
    judge: &J,
    target: u32,
    entry: &EntryLine,
) -> OwnDue
    requires there { target < length context.now.script.targets }
    requires judge { J.policies judge.now ≡ (setting_of context.now.policies context.now.script).policies }
    ensures { result ≡ due_call (policy_of context.now.policies context.now.script target) context.now.script target entry.now }
{
    let Some(mark) = CallMark::of(entry.mark) else {
        return OwnDue::CallMark;
    };
    let (thread, place) = (mark.thread as usize, mark.place as usize);
    match sound_statement_at(context.script(), target, thread, place) {
        Some(statement) => due_decision(judge, target, entry, mark, statement),
        None => OwnDue::CallMark,
    }
}
