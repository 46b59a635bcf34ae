// Classes of calls that policies and accesses do not tell apart.
ghost use Rattle.std.specs.Prelude.{◌≡◌, ◌++◌, IfOk, OnOk};
ghost use Rattle.std.specs.List.{flat_map};
ghost use Rattle.sb_rule.specs.Verdicts.{verdict_of};
ghost use Rattle.sb_compare.specs.Classes.{bit_of, class_of, class_of_change, class_of_verdict, verdict_numbers};

use crate::changes::Change;
use sb_base::NoMemory;
use sb_call::{Arg, CallTag};
use sb_cover::writes;
use sb_explore::State;
use sb_rule::{Policy, Verdict, verdict_plain};
use std::alloc::Global;

fn bit_of(test: bool) -> u32
    ensures { result ≡ bit_of test }
{
    if test { 1 } else { 0 }
}

// Puts the two numbers of a verdict.
fn put_verdict(numbers: &mut Vec<u32>, verdict: Verdict) -> Result<(), NoMemory>
    ensures { OnOk result (numbers.new.items ≡ numbers.old.items ++ verdict_numbers verdict) }
{
    match verdict {
        Verdict::NoRule => {
            numbers.push(0)?;
            numbers.push(5)?;
            Ok(())
        }
        Verdict::Rule { line, action } => {
            numbers.push(line)?;
            numbers.push(action as u32)?;
            Ok(())
        }
    }
}

/// The class of a call: whether it does more than read, and its verdict under each policy.
///
/// # Errors
/// `NoMemory` if there was none for it.
pub(crate) fn class_of(
    alloc: Global,
    tag: CallTag,
    policies: &[Policy],
    args: &[Arg],
) -> Result<State, NoMemory>
    ensures { IfOk result (λ class. class ≡ class_of tag policies.now args.now) }
{
    let mut numbers = Vec::new(alloc);
    numbers.push(bit_of(writes(tag, args)))?;
    for policy in policies {
        put_verdict(&mut numbers, verdict_plain(policy, tag, args))?;
    }
    Ok(State::new(numbers))
}

/// The class of the calls with a change.
///
/// # Errors
/// `NoMemory` if there was none for it.
#[tactic(auto, using(crate::proofs::ClassLemmas::numbers_joined))]
pub(crate) fn class_of_change(alloc: Global, change: Change) -> Result<State, NoMemory>
    ensures { IfOk result (λ class. class ≡ class_of_change change) }
{
    let mut numbers = Vec::new(alloc);
    numbers.push(bit_of(change.writes))?;
    put_verdict(&mut numbers, change.old)?;
    put_verdict(&mut numbers, change.new)?;
    Ok(State::new(numbers))
}

/// The class of the calls with a verdict that do, or do not do, more than read.
///
/// # Errors
/// `NoMemory` if there was none for it.
#[tactic(auto, using(crate::proofs::ClassLemmas::numbers_of_verdict))]
pub(crate) fn class_of_verdict(
    alloc: Global,
    writes: bool,
    verdict: Verdict,
) -> Result<State, NoMemory>
    ensures { IfOk result (λ class. class ≡ class_of_verdict writes verdict) }
{
    let mut numbers = Vec::new(alloc);
    numbers.push(bit_of(writes))?;
    put_verdict(&mut numbers, verdict)?;
    Ok(State::new(numbers))
}
