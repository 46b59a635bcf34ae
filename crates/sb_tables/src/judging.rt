// Calls judged by the program of a policy, and by its rules.
ghost use Rattle.std.specs.Prelude.{◌≡◌, true};
ghost use Rattle.sb_call.specs.Arguments.{fits};

use crate::inputs::statements_of;
use sb_book::ReadyScript;
use sb_call::{Args, CallTag, fits};
use sb_compile::{Program, compile};
use sb_rows::RowFault;
use sb_rule::{Action, Policy, Verdict, WellMadePolicies, verdict_plain};
use sb_statements::Statement;
use std::alloc::Global;

// A call whose arguments fit it.
#[derive(Drop)]
struct FitCall {
    tag: CallTag,
    args: Args,
    ghost fitting: { fits tag args ≡ true },
}

/// Judges the calls of the first thread by the program of the first policy, in these rounds.
pub fn verdicts_by_code(
    alloc: Global,
    inputs: &ReadyScript,
    rounds: u64,
) -> Result<String, RowFault> {
    let calls = calls_of(alloc, statements_of(inputs.script(), 0))?;
    let program = program_of(alloc, inputs.policies())?;
    let mut allowed: u64 = 0;
    for _round in 0..rounds {
        allowed = allowed.saturating_add(allowed_by_code(&program, &calls));
    }
    allowed_line(alloc, &calls, allowed)
}

// The program of the first policy.
fn program_of(alloc: Global, policies: &WellMadePolicies) -> Result<Program, RowFault> {
    match policies.get(0) {
        Some(policy) => Ok(compile(alloc, &policy)?),
        None => Err(RowFault::BadWords),
    }
}

/// Judges the calls of the first thread by the rules of the first policy, in these rounds.
pub fn verdicts_by_rules(
    alloc: Global,
    inputs: &ReadyScript,
    rounds: u64,
) -> Result<String, RowFault> {
    let calls = calls_of(alloc, statements_of(inputs.script(), 0))?;
    let [policy, ..] = inputs.policies().policies().list.as_slice() else {
        return Err(RowFault::BadWords);
    };
    let mut allowed: u64 = 0;
    for _round in 0..rounds {
        allowed = allowed.saturating_add(allowed_by_rules(policy, &calls));
    }
    allowed_line(alloc, &calls, allowed)
}

fn allowed_line(alloc: Global, calls: &[FitCall], allowed: u64) -> Result<String, RowFault> {
    let many = calls.len();
    Ok(format!(in alloc; "calls {many} allowed {allowed}")?)
}

fn calls_of(alloc: Global, statements: &[Statement]) -> Result<Vec<FitCall>, RowFault> {
    let mut calls = Vec::new(alloc);
    for statement in statements {
        calls.push(fit_call(alloc, statement)?)?;
    }
    Ok(calls)
}

fn fit_call(alloc: Global, statement: &Statement) -> Result<FitCall, RowFault> {
    let Statement::Call { tag, args } = statement else {
        return Err(RowFault::BadWords);
    };
    let tag = *tag;
    let args = args.clone()?;
    if !fits(tag, args.as_slice()) {
        return Err(RowFault::BadWords);
    }
    Ok(FitCall { tag, args })
}

fn allowed_by_code(program: &Program, calls: &[FitCall]) -> u64 {
    let mut allowed: u64 = 0;
    for call in calls {
        if is_allowed_by_code(program, call) {
            allowed = allowed.saturating_add(1);
        }
    }
    allowed
}

fn is_allowed_by_code(program: &Program, call: &FitCall) -> bool {
    is_allowed(program.judge(call.tag, call.args.as_slice()))
}

fn allowed_by_rules(policy: &Policy, calls: &[FitCall]) -> u64 {
    let mut allowed: u64 = 0;
    for call in calls {
        if is_allowed_by_rules(policy, call) {
            allowed = allowed.saturating_add(1);
        }
    }
    allowed
}

fn is_allowed_by_rules(policy: &Policy, call: &FitCall) -> bool {
    is_allowed(verdict_plain(policy, call.tag, call.args.as_slice()))
}

fn is_allowed(verdict: Verdict) -> bool {
    match verdict {
        Verdict::Rule { action, .. } => matches!(action, Action::Allow),
        Verdict::NoRule => false,
    }
}
