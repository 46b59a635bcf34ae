// Calls that stand for all calls.
ghost use Rattle.std.specs.Prelude.{◌≡◌, ◌<◌, ◌+◌, ◌∷◌, ◌^◌, ℕ, Bool, true, List, length, slice_index, IfNone, IfOk, IfSome, OnOk};
ghost use Rattle.std.specs.List.{Contains, list_all};
ghost use Rattle.sb_call.specs.Arguments.{arg_at, fit};
ghost use Rattle.sb_call.specs.declared.arguments.Arg.{Arg};
ghost use Rattle.sb_cover.specs.Choices.{is_shown_arg};
ghost use Rattle.sb_cover.specs.Calls.{later_at, AreCalls, AllSplit, JoinTo};

use crate::asked_conds::CondTable;
use crate::budgets::Budget;
use crate::lefts::lefts_of;
use crate::open_rules::OpenQuestion;
use crate::param_covers::{Choices, choices_for};
use sb_base::{Items, NoMemory};
use sb_call::{Arg, Args, ParamKind};
use std::alloc::Global;

// An argument before others.
fn before(alloc: Global, value: &Arg, later: &[Arg]) -> Result<Args, NoMemory>
    ensures { IfOk result (λ args. args ≡ value.now ∷ later.now) }
{
    let mut args = Items::empty(alloc);
    args.push(value.clone()?)?;
    for arg in later {
        args.push(arg.clone()?)?;
    }
    Ok(args)
}

// Puts an argument before each of some lists.
fn put_before(
    alloc: Global,
    calls: &mut Vec<Args>,
    value: &Arg,
    later: &[Args],
) -> Result<(), NoMemory>
    ensures kept { OnOk result ((x : List Arg) → Contains calls.old.items x → Contains calls.new.items x) }
    ensures here { OnOk result ((x : List Arg) → Contains later.now x → Contains calls.new.items (value.now ∷ x)) }
    ensures all { OnOk result ((one : Arg → Bool) (more every : List Arg → Bool) → JoinTo one more every → one value.now ≡ true → list_all more later.now ≡ true
        → list_all every calls.old.items ≡ true → list_all every calls.new.items ≡ true) }
{
    for args in later {
        calls.push(before(alloc, value, args)?)?;
    }
    Ok(())
}

// Each value before the lists of arguments that belong to it. None if the budget is exceeded.
fn join_all(
    alloc: Global,
    values: &[Arg],
    places: &[usize],
    laters: &[Items<Args>],
    budget: &mut Budget,
) -> Result<Option<Vec<Args>>, NoMemory>
    requires as_many { length places.now ≡ length values.now }
    requires within { (k : ℕ) → k < length values.now → slice_index places.now k < length laters.now }
    ensures here { IfOk result (λ calls. IfSome calls (λ calls. (k : ℕ) (x : List Arg) → k < length values.now → Contains (later_at laters.now (slice_index places.now k)) x
        → Contains calls.items (arg_at values.now k ∷ x))) }
    ensures all { IfOk result (λ calls. IfSome calls (λ calls. (one : Arg → Bool) (more every : List Arg → Bool) → JoinTo one more every → list_all one values.now ≡ true
        → ((j : ℕ) → j < length laters.now → list_all more (later_at laters.now j) ≡ true) → list_all every calls.items ≡ true)) }
    ensures exceeded { IfOk result (λ calls. IfNone calls (budget.new.is_exceeded ≡ true)) }
{
    let mut calls = Vec::new(alloc);
    for (k, value) in values.iter().enumerate() {
        let later = &laters[places[k]];
        if !budget.take_choices(later.len()) {
            return Ok(None);
        }
        put_before(alloc, &mut calls, value, later)?;
    }
    Ok(Some(calls))
}

/// Lists of arguments from a parameter on, of the given kinds: for each other list one of these is answered alike, and none of its strings is longer. None
/// if the budget is exceeded.
///
/// # Errors
/// `NoMemory` if there was none for the lists.
pub(crate) fn calls_from(
    alloc: Global,
    table: &CondTable,
    kinds: &[ParamKind],
    param: u32,
    questions: &[OpenQuestion],
    budget: &mut Budget,
) -> Result<Option<Vec<Args>>, NoMemory>
    requires few { param + length kinds.now < 2 ^ 32 }
    requires split { AllSplit table.now.conds.items param questions.now }
    ensures all { IfOk result (λ calls. IfSome calls (λ calls. AreCalls table.now.conds.items param kinds.now questions.now calls.items)) }
    ensures fit { IfOk result (λ calls. IfSome calls (λ calls. list_all (fit kinds.now) calls.items ≡ true)) }
    ensures shown { IfOk result (λ calls. IfSome calls (λ calls. table.now.is_plain ≡ true → list_all (list_all is_shown_arg) calls.items ≡ true)) }
    ensures exceeded { IfOk result (λ calls. IfNone calls (budget.new.is_exceeded ≡ true)) }
{
    let Some((kind, rest)) = kinds.split_first() else {
        let mut calls = Vec::new(alloc);
        calls.push(Items::empty(alloc))?;
        return Ok(Some(calls));
    };
    let Some(choices) = choices_for(alloc, table, *kind, questions, budget)? else {
        return Ok(None);
    };
    let Choices { values, labels } = choices;
    let lefts = lefts_of(alloc, &table.conds, questions, labels.as_slice(), param + 1)?;
    let mut laters = Vec::new(alloc);
    for left in &lefts.lists {
        let Some(later) = calls_from(alloc, table, rest, param + 1, left, budget)? else {
            return Ok(None);
        };
        laters.push(Items::new(later))?;
    }
    let calls = join_all(alloc, &values, &lefts.places, &laters, budget)?;
    Ok(calls)
}
