// Calls that a target denies itself.
ghost use Rattle.std.specs.Prelude.{◌≡◌, ◌≢◌, ◌<◌, ◌≤◌, ◌++◌, [], true, length, IfOk, OnErr, OnOk};
ghost use Rattle.std.specs.List.{list_all};
ghost use Rattle.sb_rule.specs.Verdicts.{policy_at};
ghost use Rattle.sb_statements.specs.PlacedStatements.{placed as seen};
ghost use Rattle.sb_local.specs.Denials.{can_be_judged, denial_in, denial_of, denials, denials_in, fits_its_call, is_local_denial};

use sb_base::{Items, NoMemory};
use sb_call::CallTag;
use sb_rule::{Action, Judge, Verdict};
use sb_statements::{
    PlacedStatement, SoundScript, Statement, StatementCursor, placed_statements_are_sound,
};
use std::alloc::Global;

/// A call that its target denies itself, without a step. Targets, threads and places are numbered from 0, as in the script before it is
/// thinned.
#[derive(Clone, Copy)]
pub struct LocalDenial {
    /// The target.
    pub target: u32,
    /// The thread of the target.
    pub thread: u32,
    /// The place of the call among the statements of its thread.
    pub place: u32,
    /// The call.
    pub tag: CallTag,
    /// What the policy of the target says of it: no rule, or a rule that says deny.
    pub verdict: Verdict,
}

// Whether a target may deny a call with this verdict itself. Alarms and fakes are for the broker.
fn is_local_denial(verdict: Verdict) -> bool
    ensures { result ≡ is_local_denial verdict }
{
    match verdict {
        Verdict::NoRule => true,
        Verdict::Rule { action, .. } => match action {
            Action::Deny => true,
            Action::Allow | Action::Alarm | Action::Fake | Action::ReadOnly => false,
        },
    }
}

/// The call and its verdict, if the statement is a call that its target denies itself. The judge must know the target.
pub(crate) fn denial_of<J: Judge>(
    judge: &J,
    target: u32,
    statement: &Statement,
) -> Option<(CallTag, Verdict)>
    requires target { target < length (J.policies judge.now) }
    requires fits { fits_its_call statement.now ≡ true }
    ensures { result ≡ denial_of (policy_at (J.policies judge.now) target) statement.now }
{
    match statement {
        Statement::Call { tag, args } => {
            let verdict = judge.judge(target, *tag, args.as_slice());
            if is_local_denial(verdict) {
                Some((*tag, verdict))
            } else {
                None
            }
        }
        Statement::Store { .. }
        | Statement::Exchange { .. }
        | Statement::Load { .. }
        | Statement::Wait { .. } => None,
    }
}

// Appends the denial of a statement, if it is a call that its target denies itself.
#[tactic(auto, using(crate::proofs::Denied::one_is_denied))]
fn note_denial<J: Judge>(
    judge: &J,
    placed: &PlacedStatement<'_>,
    denied: &mut Items<LocalDenial>,
) -> Result<(), NoMemory>
    requires target { placed.now.target < length (J.policies judge.now) }
    requires fits { fits_its_call placed.now.statement.now ≡ true }
    ensures ok { OnOk result (denied.new ≡ denied.old ++ denial_in (J.policies judge.now) (seen placed.now)) }
    ensures err { OnErr result (denial_in (J.policies judge.now) (seen placed.now) ≢ []) }
{
    let Some((tag, verdict)) = denial_of(judge, placed.target, placed.statement) else {
        return Ok(());
    };
    denied.push(LocalDenial {
        target: placed.target,
        thread: placed.thread,
        place: placed.place,
        tag,
        verdict,
    })
}

// Those of these statements that are calls which their targets deny themselves, in order.
#[tactic(auto, using(crate::proofs::Denied::can_be_judged_first))]
fn denials_in<J: Judge>(
    alloc: Global,
    judge: &J,
    statements: StatementCursor<'_>,
) -> Result<Items<LocalDenial>, NoMemory>
    requires judged { list_all (can_be_judged (J.policies judge.now)) statements ≡ true }
    ensures denied { IfOk result (λ denied. denied ≡ denials_in (J.policies judge.now) statements.entry) }
    ensures memory { OnErr result (denials_in (J.policies judge.now) statements.entry ≢ []) }
{
    let mut denied = Items::empty(alloc);
    let mut rest = statements;
    while let Some((first, later)) = rest.split_first() {
        note_denial(judge, &first, &mut denied)?;
        rest = later;
    }
    Ok(denied)
}

/// The calls that the targets of a script deny themselves, by target, thread and place. The judge must know each target. Each call is
/// judged once.
///
/// # Errors
/// `NoMemory` only if a call is denied, and there was none for the list.
pub(crate) fn denials<J: Judge>(
    alloc: Global,
    judge: &J,
    script: &SoundScript,
) -> Result<Items<LocalDenial>, NoMemory>
    requires judge { length script.now.targets ≤ length (J.policies judge.now) }
    ensures denied { IfOk result (λ denied. denied ≡ denials (J.policies judge.now) script.now) }
    ensures memory { OnErr result (denials (J.policies judge.now) script.now ≢ []) }
{
    placed_statements_are_sound();
    script.establish_sound();
    denials_in(alloc, judge, script.statements())
}
