// Which changes are shown, each with a call.
ghost use Rattle.std.specs.Prelude.{◌≡◌, ◌∷◌, ◌++◌, [], List, true, IfErr, IfOk, OnOk};
ghost use Rattle.std.specs.List.{list_all};
ghost use Rattle.sb_cover.specs.Choices.{is_shown_arg};
ghost use Rattle.sb_call.specs.CallWords.{every_tag};
ghost use Rattle.sb_rule.specs.WellMade.{is_well_made};
ghost use Rattle.sb_rule.specs.declared.policies.Policy.{Policy};
ghost use Rattle.sb_compare.specs.Candidates.{candidates};
ghost use Rattle.sb_compare.specs.ShownChanges.{AreAllChanges, ArePut, IsChangePut};
ghost use Rattle.sb_compare.specs.Faults.{IsExceeded};
ghost use Rattle.sb_compare.specs.ShownCalls.{AreShortest};
ghost use Rattle.sb_compare.specs.declared.changes.ShownChange.{ShownChange};

use crate::answers::is_answered_alike;
use crate::candidates::possible_changes;
use crate::changes::{Change, ShownChange};
use crate::classes::class_of_change;
use crate::faults::ChangesFault;
use crate::laws::changes_decide_answers;
use crate::shown_calls::{ShownCalls, copy_of, shown_calls};
use sb_base::{Items, NoMemory};
use sb_call::{CallTag, ShortName, every_tag};
use sb_cover::Budget;
use sb_rule::Policy;
use std::alloc::Global;

/// The changes of the calls of a tag, or of all.
pub(crate) type ShownChanges = Items<ShownChange>;

// Puts a change with its call, unless no call has it or both policies answer its calls alike.
fn put_change(
    alloc: Global,
    name: &ShortName,
    tag: CallTag,
    calls: &ShownCalls,
    change: Change,
    shown: &mut ShownChanges,
) -> Result<(), NoMemory>
    ensures { OnOk result ((old new : Policy) → new.name ≡ name.now → is_well_made old ≡ true → is_well_made new ≡ true → AreShortest tag (old ∷ new ∷ []) calls.now.classes.keys calls.now.calls.items
        → list_all (list_all is_shown_arg) calls.now.calls.items ≡ true
        → IsChangePut tag old new change shown.old shown.new) }
{
    changes_decide_answers();
    if is_answered_alike(change) {
        return Ok(());
    }
    let class = class_of_change(alloc, change)?;
    let Some(call) = calls.call_of(&class) else {
        return Ok(());
    };
    let call = copy_of(call)?;
    shown.push(ShownChange {
        policy: name.copy(),
        tag,
        change,
        call,
    })?;
    Ok(())
}

// The changes of the calls of a tag, by the shortest call of each class.
fn put_changes(
    alloc: Global,
    name: &ShortName,
    tag: CallTag,
    calls: &ShownCalls,
    changes: &[Change],
    shown: &mut ShownChanges,
) -> Result<(), NoMemory>
    ensures { OnOk result ((old new : Policy) → new.name ≡ name.now → is_well_made old ≡ true → is_well_made new ≡ true → AreShortest tag (old ∷ new ∷ []) calls.now.classes.keys calls.now.calls.items
        → list_all (list_all is_shown_arg) calls.now.calls.items ≡ true
        → ArePut tag old new changes.now shown.old shown.new) }
{
    for change in changes {
        put_change(alloc, name, tag, calls, *change, shown)?;
    }
    Ok(())
}

// Two policies in a list.
fn pair(alloc: Global, old: &Policy, new: &Policy) -> Result<Vec<Policy>, NoMemory>
    ensures { IfOk result (λ policies. policies.items ≡ old.now ∷ new.now ∷ []) }
{
    let mut policies = Vec::new(alloc);
    policies.push(old.clone()?)?;
    policies.push(new.clone()?)?;
    Ok(policies)
}

// Puts the changes of the calls of a tag.
fn put_tag(
    alloc: Global,
    tag: CallTag,
    old: &Policy,
    new: &Policy,
    budget: &mut Budget,
    shown: &mut ShownChanges,
) -> Result<(), ChangesFault>
    requires old { is_well_made old.now ≡ true }
    requires new { is_well_made new.now ≡ true }
    ensures all { OnOk result (ArePut tag old.now new.now (candidates tag old.now new.now) shown.old shown.new) }
    ensures exceeded { IfErr result (IsExceeded budget.new.is_exceeded) }
{
    let policies = pair(alloc, old, new)?;
    budget.begin_tag();
    let Some(calls) = shown_calls(alloc, tag, &policies, budget)? else {
        return Err(ChangesFault::TooComplex(tag));
    };
    let changes = possible_changes(alloc, tag, old, new)?;
    put_changes(alloc, &new.name, tag, &calls, &changes, shown)?;
    Ok(())
}

/// Puts how a policy differs from an old one: for each call in the order of their numbers, for each pair of verdicts in the order of the old rule, then of the
/// new one, first of calls that do no more than read and then of others, a shortest call with these verdicts, if there is one that the policies do not answer
/// alike.
///
/// # Errors
/// `NoMemory` if there was none for them; `TooComplex` only if the budget is exceeded.
pub(crate) fn put_policy(
    alloc: Global,
    old: &Policy,
    new: &Policy,
    budget: &mut Budget,
    shown: &mut ShownChanges,
) -> Result<(), ChangesFault>
    requires old { is_well_made old.now ≡ true }
    requires new { is_well_made new.now ≡ true }
    ensures all { OnOk result ((here : List ShownChange) × (shown.new ≡ shown.old ++ here) × AreAllChanges old.now new.now every_tag here) }
    ensures exceeded { IfErr result (IsExceeded budget.new.is_exceeded) }
{
    for tag in every_tag() {
        put_tag(alloc, *tag, old, new, budget, shown)?;
    }
    Ok(())
}
