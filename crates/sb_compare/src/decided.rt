// Which calls a verdict decides.
ghost use Rattle.std.specs.Prelude.{◌≡◌, ◌++◌, ◌∷◌, [], List, true, IfErr, IfOk, OnOk};
ghost use Rattle.std.specs.List.{list_all};
ghost use Rattle.std.specs.Option.{option_copied};
ghost use Rattle.sb_call.specs.CallWords.{every_tag};
ghost use Rattle.sb_rule.specs.WellMade.{is_well_made};
ghost use Rattle.sb_rule.specs.declared.policies.Policy.{Policy};
ghost use Rattle.sb_cover.specs.Choices.{is_shown_arg};
ghost use Rattle.sb_compare.specs.Candidates.{verdicts};
ghost use Rattle.sb_compare.specs.Decided.{shorter_of, AreAllDecided, AreDecidedPut, IsDecidedPut};
ghost use Rattle.sb_compare.specs.Faults.{IsExceeded};
ghost use Rattle.sb_compare.specs.ShownCalls.{AreShortest};

use crate::candidates::verdicts;
use crate::classes::class_of_verdict;
use crate::faults::ChangesFault;
use crate::shown_calls::{ShownCalls, copy_of, shown_calls};
use sb_base::{Items, NoMemory};
use sb_call::{Args, CallTag, every_tag};
use sb_cover::{Budget, is_shorter};
use sb_rule::{Policy, Verdict};
use std::alloc::Global;

/// A verdict, with a shortest call that it decides.
pub(crate) struct Decided {
    /// The tag of the calls.
    pub tag: CallTag,
    /// The verdict.
    pub verdict: Verdict,
    /// The call. None if it decides none.
    pub call: Option<Args>,
}

impl Drop for Decided {
    fn drop(self) {
        let Decided {
            tag: _,
            verdict: _,
            call: _,
        } = self;
    }
}

// The shorter one of two calls, as far as there are any.
fn shorter_of<'a>(a: Option<&'a Args>, b: Option<&'a Args>) -> Option<&'a Args>
    ensures { option_copied result ≡ shorter_of (option_copied a.entry) (option_copied b.entry) }
{
    match (a, b) {
        (None, b) => b,
        (a, None) => a,
        (Some(a), Some(b)) => { if is_shorter(b, a) { Some(b) } else { Some(a) } }
    }
}

fn copy_if_any(call: Option<&Args>) -> Result<Option<Args>, NoMemory>
    ensures { IfOk result (λ copy. copy ≡ option_copied call.entry) }
{
    match call {
        Some(call) => Ok(Some(copy_of(call)?)),
        None => Ok(None),
    }
}

// Puts a verdict with the shorter one of its calls that do more than read and of those that do not.
fn put_verdict(
    alloc: Global,
    tag: CallTag,
    calls: &ShownCalls,
    verdict: Verdict,
    list: &mut Items<Decided>,
) -> Result<(), NoMemory>
    ensures { OnOk result ((policy : Policy) → AreShortest tag (policy ∷ []) calls.now.classes.keys calls.now.calls.items
        → list_all (list_all is_shown_arg) calls.now.calls.items ≡ true → IsDecidedPut tag policy verdict list.old list.new) }
{
    let reading = class_of_verdict(alloc, false, verdict)?;
    let writing = class_of_verdict(alloc, true, verdict)?;
    let call = copy_if_any(shorter_of(calls.call_of(&reading), calls.call_of(&writing)))?;
    list.push(Decided { tag, verdict, call })?;
    Ok(())
}

// Puts each verdict with a call.
fn put_verdicts(
    alloc: Global,
    tag: CallTag,
    calls: &ShownCalls,
    verdicts: &[Verdict],
    list: &mut Items<Decided>,
) -> Result<(), NoMemory>
    ensures { OnOk result ((policy : Policy) → AreShortest tag (policy ∷ []) calls.now.classes.keys calls.now.calls.items
        → list_all (list_all is_shown_arg) calls.now.calls.items ≡ true → AreDecidedPut tag policy verdicts.now list.old list.new) }
{
    for verdict in verdicts {
        put_verdict(alloc, tag, calls, *verdict, list)?;
    }
    Ok(())
}

// A policy in a list.
fn alone(alloc: Global, policy: &Policy) -> Result<Vec<Policy>, NoMemory>
    ensures { IfOk result (λ policies. policies.items ≡ policy.now ∷ []) }
{
    let mut policies = Vec::new(alloc);
    policies.push(policy.clone()?)?;
    Ok(policies)
}

// Puts the verdicts of the calls of a tag.
fn put_tag(
    alloc: Global,
    tag: CallTag,
    policy: &Policy,
    budget: &mut Budget,
    list: &mut Items<Decided>,
) -> Result<(), ChangesFault>
    requires { is_well_made policy.now ≡ true }
    ensures all { OnOk result (AreDecidedPut tag policy.now (verdicts tag policy.now.rules) list.old list.new) }
    ensures exceeded { IfErr result (IsExceeded budget.new.is_exceeded) }
{
    let policies = alone(alloc, policy)?;
    budget.begin_tag();
    let Some(calls) = shown_calls(alloc, tag, &policies, budget)? else {
        return Err(ChangesFault::TooComplex(tag));
    };
    let all = verdicts(alloc, tag, &policy.rules)?;
    put_verdicts(alloc, tag, &calls, &all, list)?;
    Ok(())
}

/// For each call in the order of their numbers, for each rule for it in order and then for no rule, a shortest call with this verdict, if there is one.
///
/// # Errors
/// `NoMemory` if there was none for them; `TooComplex` only if the budget is exceeded.
pub(crate) fn decided_calls(
    alloc: Global,
    policy: &Policy,
    budget: &mut Budget,
) -> Result<Items<Decided>, ChangesFault>
    requires { is_well_made policy.now ≡ true }
    ensures all { IfOk result (AreAllDecided policy.now every_tag) }
    ensures exceeded { IfErr result (IsExceeded budget.new.is_exceeded) }
{
    let mut list = Items::empty(alloc);
    for tag in every_tag() {
        put_tag(alloc, *tag, policy, budget, &mut list)?;
    }
    Ok(list)
}
