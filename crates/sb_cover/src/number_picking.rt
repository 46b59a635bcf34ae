// One number for each label.
ghost use Rattle.std.specs.Prelude.{◌≡◌, ◌≤◌, ◌==◌, ℕ, Bool, true, length, IfNone, IfOk, IfSome, OnOk};
ghost use Rattle.std.specs.List.{list_any};
ghost use Rattle.sb_call.specs.declared.arguments.Arg.TheVariants as arg;
ghost use Rattle.sb_rule.specs.Verdicts.{test_holds};
ghost use Rattle.sb_cover.specs.AskedConds.{is_met, met, seen_number};
ghost use Rattle.sb_cover.specs.Choices.{AreNumberChoices, AreNumbersPicked, IsNumberPicked};
ghost use Rattle.sb_cover.specs.Pruning.{is_true, AgreeWhereNeeded, AllDecideAlike};

use crate::asked_conds::{AskedCond, CondTable};
use crate::budgets::Budget;
use crate::comparing::comparisons_for;
use crate::labels::label_of;
use crate::number_covers::number_values;
use crate::open_rules::OpenQuestion;
use crate::picking::{by_negation, note_label};
use crate::pruning::{Signs, needed_conds};
use crate::signs::is_needed;
use indexmap::IndexSet;
use sb_base::NoMemory;
use sb_explore::State;
use sb_rule::{READ_ONLY_BITS, Test};
use std::alloc::Global;

/// Numbers, each with a label that no other one has.
#[derive(Drop)]
pub(crate) struct PickedNumbers {
    /// The numbers.
    pub values: Vec<u64>,
    /// Their labels, in the same order.
    pub labels: IndexSet<State>,
}

fn is_one_of(numbers: &[u64], number: u64) -> bool
    ensures { result ≡ list_any (λ n. n == number) numbers.now }
{
    for n in numbers {
        if *n == number {
            return true;
        }
    }
    false
}

fn does_test_hold(test: &Test, number: u64) -> bool
    ensures { result ≡ test_holds test.now (arg.Num number) }
{
    match test {
        Test::OneOf(numbers) => is_one_of(numbers, number),
        Test::Range { lo, hi } => *lo <= number && number <= *hi,
        Test::Mask(mask) => number & *mask != 0,
        Test::Equal(_) | Test::Like(_) => false,
    }
}

// A number as a condition sees it.
fn seen_number(asked: &AskedCond, number: u64) -> u64
    ensures { result ≡ seen_number asked.now.is_cut asked.now.cond.param number }
{
    if asked.is_cut && asked.cond.param == 1 {
        number & READ_ONLY_BITS
    } else {
        number
    }
}

fn is_met(asked: &AskedCond, number: u64) -> bool
    ensures { result ≡ is_met asked.now (arg.Num number) }
{
    let holds = does_test_hold(&asked.cond.test, seen_number(asked, number));
    by_negation(asked.cond.negated, holds)
}

// Whether a condition is needed and holds of a number.
fn truth_of(asked: &AskedCond, number: u64, is_needed: bool) -> bool
    ensures { is_needed ≡ true → result ≡ is_met asked.now (arg.Num number) }
{
    if !is_needed {
        return false;
    }
    is_met(asked, number)
}

#[tactic(auto, using(crate::proofs::NumberPickLemmas::truth_more, crate::proofs::NumberPickLemmas::truths_agree))]
// Which of the needed conditions hold of a number.
fn truths_of(
    alloc: Global,
    conds: &[AskedCond],
    needed: &[bool],
    number: u64,
) -> Result<Vec<bool>, NoMemory>
    ensures { IfOk result (λ truths. AgreeWhereNeeded needed.now (met conds.now (arg.Num number)) (is_true truths.items)) }
{
    let mut truths = Vec::new(alloc);
    for (place, asked) in conds.iter().enumerate() {
        truths.push(truth_of(asked, number, is_needed(needed, place)))?;
    }
    Ok(truths)
}

#[tactic(auto, using(crate::proofs::NumberPickLemmas::number_decides, crate::proofs::NumberPickLemmas::number_old, crate::proofs::NumberPickLemmas::number_new))]
// Keeps a number if its label is new.
fn pick(
    alloc: Global,
    conds: &[AskedCond],
    needed: &[bool],
    questions: &[OpenQuestion],
    number: u64,
    picked: &mut PickedNumbers,
) -> Result<(), NoMemory>
    requires { (f g : ℕ → Bool) → AgreeWhereNeeded needed.now f g → AllDecideAlike f g questions.now }
    ensures { OnOk result (IsNumberPicked conds.now questions.now number picked.old.values.items picked.old.labels.keys picked.new.values.items picked.new.labels.keys) }
{
    let truths = truths_of(alloc, conds, needed, number)?;
    let label = label_of(alloc, questions, &truths)?;
    let is_new = note_label(&mut picked.labels, label)?;
    if !is_new {
        return Ok(());
    }
    picked.values.push(number)?;
    Ok(())
}

// Of some numbers one for each label.
fn pick_all(
    alloc: Global,
    conds: &[AskedCond],
    needed: &[bool],
    questions: &[OpenQuestion],
    numbers: &[u64],
) -> Result<PickedNumbers, NoMemory>
    requires { (f g : ℕ → Bool) → AgreeWhereNeeded needed.now f g → AllDecideAlike f g questions.now }
    ensures { IfOk result (λ picked. AreNumbersPicked conds.now questions.now numbers.now (length numbers.now) picked.values.items picked.labels.keys) }
{
    let mut picked = PickedNumbers {
        values: Vec::new(alloc),
        labels: IndexSet::new(alloc),
    };
    for number in numbers {
        pick(alloc, conds, needed, questions, *number, &mut picked)?;
    }
    Ok(picked)
}

/// Numbers that stand for all of a width: each other one has the label of one of these. None if the budget is exceeded.
///
/// # Errors
/// `NoMemory` if there was none for the numbers.
pub(crate) fn number_choices(
    alloc: Global,
    table: &CondTable,
    questions: &[OpenQuestion],
    width: u32,
    budget: &mut Budget,
) -> Result<Option<PickedNumbers>, NoMemory>
    requires { width ≤ 64 }
    ensures all { IfOk result (λ picked. IfSome picked (λ picked. AreNumberChoices table.now.conds.items width questions.now picked.values.items picked.labels.keys)) }
    ensures exceeded { IfOk result (λ picked. IfNone picked (budget.new.is_exceeded ≡ true)) }
{
    let signs = Signs::unknown(alloc);
    let needed = needed_conds(alloc, questions, &signs, table.conds.len())?;
    let comparisons = comparisons_for(alloc, &table.conds, &needed)?;
    let Some(numbers) = number_values(alloc, comparisons, width, budget)? else {
        return Ok(None);
    };
    let picked = pick_all(alloc, &table.conds, &needed, questions, &numbers)?;
    Ok(Some(picked))
}
