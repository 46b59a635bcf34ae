// A script without the calls that its targets deny themselves.
ghost use Rattle.std.specs.Prelude.{◌≡◌, ◌<◌, ◌≤◌, ◌++◌, true, List, length, IfOk, OnOk};
ghost use Rattle.std.specs.List.{list_all};
ghost use Rattle.sb_rule.specs.Verdicts.{policy_at};
ghost use Rattle.sb_rule.specs.declared.policies.Policy.{Policy};
ghost use Rattle.sb_local.specs.Denials.{denial_of, fits_its_call};
ghost use Rattle.sb_local.specs.Thinning.{fits_in_target, fits_in_targets, fits_in_thread, statement_if_kept, thin, thin_target, thin_targets, thin_thread};

use crate::denials::denial_of;
use sb_base::NoMemory;
use sb_book::ReadyScript;
use sb_rule::{Judge, WellMadePolicies};
use sb_statements::{Script, SoundScript, Statement, Statements, TargetScript, Targets, Threads};
use std::alloc::Global;

// Appends a statement, unless it is a call that is denied.
fn keep_statement<J: Judge>(
    judge: &J,
    target: u32,
    statement: &Statement,
    kept: &mut Statements,
) -> Result<(), NoMemory>
    requires target { target < length (J.policies judge.now) }
    requires fits { fits_its_call statement.now ≡ true }
    ensures { OnOk result (kept.new ≡ kept.old
        ++ statement_if_kept statement.now (denial_of (policy_at (J.policies judge.now) target) statement.now)) }
{
    match denial_of(judge, target, statement) {
        Some(_) => Ok(()),
        None => kept.push(statement.clone()?),
    }
}

// Thins a thread.
fn thin_thread<J: Judge>(
    alloc: Global,
    judge: &J,
    target: u32,
    statements: &[Statement],
) -> Result<Statements, NoMemory>
    requires target { target < length (J.policies judge.now) }
    requires fits { fits_in_thread statements.now ≡ true }
    ensures { IfOk result (λ kept. kept ≡ thin_thread (policy_at (J.policies judge.now) target) statements.now) }
{
    let mut kept = Statements::empty(alloc);
    let mut rest = statements;
    while let Some((statement, later)) = rest.split_first() {
        keep_statement(judge, target, statement, &mut kept)?;
        rest = later;
    }
    Ok(kept)
}

// Thins a target.
fn thin_target<J: Judge>(
    alloc: Global,
    judge: &J,
    target: u32,
    script: &TargetScript,
) -> Result<TargetScript, NoMemory>
    requires target { target < length (J.policies judge.now) }
    requires fits { fits_in_target script.now ≡ true }
    ensures { IfOk result (λ thinned. thinned ≡ thin_target (policy_at (J.policies judge.now) target) script.now) }
{
    let mut threads = Threads::empty(alloc);
    let mut rest = script.threads.as_slice();
    while let Some((statements, later)) = rest.split_first() {
        threads.push(thin_thread(alloc, judge, target, statements.as_slice())?)?;
        rest = later;
    }
    Ok(TargetScript {
        name: script.name.copy(),
        policy: script.policy,
        channels: script.channels,
        threads,
    })
}

// Thins targets.
fn thin_targets<J: Judge>(
    alloc: Global,
    judge: &J,
    targets: &[TargetScript],
) -> Result<Targets, NoMemory>
    requires judge { length targets.now ≤ length (J.policies judge.now) }
    requires fits { fits_in_targets targets.now ≡ true }
    ensures { IfOk result (λ thinned. thinned ≡ thin_targets (J.policies judge.now) 0 targets.now) }
{
    let mut thinned = Targets::empty(alloc);
    let mut target = 0;
    let mut rest = targets;
    while let Some((script, later)) = rest.split_first() {
        thinned.push(thin_target(alloc, judge, target, script)?)?;
        target += 1;
        rest = later;
    }
    Ok(thinned)
}

/// The script without each call on which the policy of its target has no rule, or one that says deny. Calls that alarm or are faked
/// stay, and all other statements. The judge must know each target of the script. Each call is judged once.
///
/// # Errors
/// `NoMemory` if there was none for the thinned script.
#[tactic(auto, using(crate::proofs::Sound::fits_in_sound))]
pub(crate) fn thin<J: Judge>(
    alloc: Global,
    judge: &J,
    script: &SoundScript,
) -> Result<SoundScript, NoMemory>
    requires judge { length script.now.targets ≤ length (J.policies judge.now) }
    ensures { IfOk result (λ thinned. thinned ≡ (thin (J.policies judge.now) script.now).script) }
{
    script.establish_sound();
    let targets = thin_targets(alloc, judge, script.targets.as_slice())?;
    let start = script.start.clone()?;
    Ok(SoundScript::of(Script {
        patience: script.patience,
        start,
        targets,
    }))
}

// A copy of policies.
fn copy_policies(policies: &WellMadePolicies) -> Result<WellMadePolicies, NoMemory>
    ensures { IfOk result (λ copy. copy ≡ policies.now) }
{
    policies.establish_well_made();
    Ok(WellMadePolicies::of(policies.policies().clone()?))
}

/// The thinned script of a ready one, with a copy of the policies: it is ready for them too. What is there at the start is as before, so
/// that the namespace that the first script opens with is that of the second.
///
/// # Errors
/// `NoMemory` if there was none for the copy of the policies.
pub(crate) fn make_ready(ready: &ReadyScript, thinned: SoundScript) -> Result<ReadyScript, NoMemory>
    requires thinned { (judged : List Policy) × (thinned ≡ (thin judged ready.now.script).script) }
    ensures policies { IfOk result (λ r. r.policies ≡ ready.now.policies) }
    ensures script { IfOk result (λ r. r.script ≡ thinned) }
{
    ready.establish_ready();
    let policies = copy_policies(ready.policies())?;
    Ok(ReadyScript::of(policies, thinned))
}
