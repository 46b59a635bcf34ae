// The shortest call of each class.
ghost use Rattle.std.specs.Prelude.{◌≡◌, ◌<◌, ℕ, true, length, slice_set, if◌then◌else◌, IfNone, IfOk, IfSome, OnOk};
ghost use Rattle.std.specs.Option.{option_copied};
ghost use Rattle.sb_explore.specs.Exploring.{list_at};
ghost use Rattle.sb_cover.specs.Lengths.{is_shorter};
ghost use Rattle.std.specs.List.{list_all};
ghost use Rattle.sb_cover.specs.Choices.{is_shown_arg};
ghost use Rattle.sb_rule.specs.WellMade.{is_well_made};
ghost use Rattle.sb_compare.specs.Classes.{class_of};
ghost use Rattle.sb_compare.specs.ShownCalls.{call_at, AreShortest, AreShortestSoFar, IsCallNoted, IsFoundIn};

use crate::classes::class_of;
use indexmap::IndexSet;
use sb_base::NoMemory;
use sb_call::{Args, CallTag};
use sb_cover::{Budget, cover_under, is_shorter};
use sb_explore::State;
use sb_rule::Policy;
use std::alloc::Global;

/// For each class of calls a shortest call.
#[derive(Drop)]
pub(crate) struct ShownCalls {
    /// The classes.
    pub classes: IndexSet<State>,
    /// A call of each, in the same order.
    pub calls: Vec<Args>,
    ghost as_many: { length calls.items ≡ length classes.keys },
}

// The place of a class.
fn place_of(classes: &IndexSet<State>, class: &State) -> Option<usize>
    ensures there { IfSome result (λ k. (k < length classes.now.keys) × (list_at classes.now.keys k ≡ class.now)) }
    ensures missing { IfNone result ((k : ℕ) → k < length classes.now.keys → list_at classes.now.keys k ≡ class.now → ⊥) }
{
    classes.get_index_of(class)
}

impl ShownCalls {
    /// The call of a class. None exactly if no call has this class.
    pub(crate) fn call_of(&self, class: &State) -> Option<&Args>
        ensures { IsFoundIn self.now.classes.keys self.now.calls.items class.now (option_copied result) }
    {
        match place_of(&self.classes, class) {
            Some(place) => Some(&self.calls[place]),
            None => None,
        }
    }
}

/// A copy of a call.
///
/// # Errors
/// `NoMemory` if there was none for it.
pub(crate) fn copy_of(call: &Args) -> Result<Args, NoMemory>
    ensures { IfOk result (λ copy. copy ≡ call.now) }
{
    Ok(call.clone()?)
}

// Keeps the shorter one of two calls.
fn keep_shorter(calls: &mut Vec<Args>, place: usize, call: Args)
    requires { place < length calls.old.items }
    ensures { calls.new.items ≡ (if is_shorter call (call_at calls.old.items place) then slice_set calls.old.items place call else calls.old.items) }
{
    if is_shorter(&call, &calls[place]) {
        calls[place] = call;
    }
}

// Notes a call, unless a call of its class is there that is not longer.
fn note(
    classes: &mut IndexSet<State>,
    calls: &mut Vec<Args>,
    class: State,
    call: Args,
) -> Result<(), NoMemory>
    requires { length calls.old.items ≡ length classes.old.keys }
    ensures { OnOk result (IsCallNoted class call classes.old.keys calls.old.items classes.new.keys calls.new.items) }
{
    let (place, is_new) = classes.insert_full(class)?;
    if is_new {
        calls.push(call)?;
        return Ok(());
    }
    keep_shorter(calls, place, call);
    Ok(())
}

// Of some calls a shortest one of each class.
fn shortest_of(
    alloc: Global,
    tag: CallTag,
    policies: &[Policy],
    seen: &[Args],
) -> Result<ShownCalls, NoMemory>
    ensures { IfOk result (λ shown. AreShortestSoFar (class_of tag policies.now) seen.now (length seen.now) shown.classes.keys shown.calls.items) }
{
    let mut classes = IndexSet::new(alloc);
    let mut calls = Vec::new(alloc);
    for call in seen {
        let class = class_of(alloc, tag, policies, call)?;
        let copy = copy_of(call)?;
        note(&mut classes, &mut calls, class, copy)?;
    }
    Ok(ShownCalls { classes, calls })
}

/// For each class of the calls of a tag a shortest call. None if the budget is exceeded.
///
/// # Errors
/// `NoMemory` if there was none for them.
pub(crate) fn shown_calls(
    alloc: Global,
    tag: CallTag,
    policies: &[Policy],
    budget: &mut Budget,
) -> Result<Option<ShownCalls>, NoMemory>
    ensures all { IfOk result (λ shown. IfSome shown (λ shown. AreShortest tag policies.now shown.classes.keys shown.calls.items)) }
    ensures written { IfOk result (λ shown. IfSome shown (λ shown. list_all is_well_made policies.now ≡ true → list_all (list_all is_shown_arg) shown.calls.items ≡ true)) }
    ensures exceeded { IfOk result (λ shown. IfNone shown (budget.new.is_exceeded ≡ true)) }
{
    let Some(calls) = cover_under(alloc, tag, policies, budget)? else {
        return Ok(None);
    };
    let shown = shortest_of(alloc, tag, policies, &calls)?;
    Ok(Some(shown))
}
