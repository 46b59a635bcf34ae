// The rules that are left once a parameter is read.
ghost use Rattle.std.specs.Prelude.{◌≡◌, ◌&&◌, ◌++◌, ◌∷◌, [], ℕ, Bool, true, false, List, drop, nat_le, nat_lt, IfOk, OnOk};
ghost use Rattle.std.specs.List.{list_all};
ghost use Rattle.sb_cover.specs.AskedConds.{cond_at};
ghost use Rattle.sb_cover.specs.Calls.{IsSplit, AreSplit, AllSplit, AreLeft, AreMarkedRules, IsMarkedPut};
ghost use Rattle.sb_cover.specs.Pruning.{places, marks_by, marks_in};

use crate::asked_conds::AskedCond;
use crate::open_rules::{CondNumbers, OpenQuestion, OpenRule};
use sb_base::{Items, NoMemory};
use std::alloc::Global;

// Whether a condition is on a parameter up to the given one.
fn is_here(conds: &[AskedCond], number: u32, param: u32) -> bool
    ensures { result ≡ nat_le (cond_at conds.now number).cond.param param }
{
    match conds.get(number as usize) {
        Some(asked) => asked.cond.param <= param,
        None => true,
    }
}

// The conditions up to a parameter, and those after it.
fn split(
    alloc: Global,
    conds: &[AskedCond],
    numbers: &[u32],
    param: u32,
) -> Result<(CondNumbers, CondNumbers), NoMemory>
    ensures all { IfOk result (λ parts. (f : ℕ → Bool) → (list_all f parts.0 && list_all f parts.1) ≡ list_all f numbers.now) }
    ensures here { IfOk result (λ parts. list_all (λ n. nat_le (cond_at conds.now n).cond.param param) parts.0 ≡ true) }
    ensures later { IfOk result (λ parts. list_all (λ n. nat_lt param (cond_at conds.now n).cond.param) parts.1 ≡ true) }
{
    let mut here = Items::empty(alloc);
    let mut later = Items::empty(alloc);
    for number in numbers {
        put_by(
            &mut here,
            &mut later,
            *number,
            is_here(conds, *number, param),
        )?;
    }
    Ok((here, later))
}

// Puts a number into one of two lists.
fn put_by(
    here: &mut CondNumbers,
    later: &mut CondNumbers,
    number: u32,
    is_here: bool,
) -> Result<(), NoMemory>
    ensures here { OnOk result (is_here ≡ true → (here.new ≡ here.old ++ number ∷ []) × (later.new ≡ later.old)) }
    ensures later { OnOk result (is_here ≡ false → (later.new ≡ later.old ++ number ∷ []) × (here.new ≡ here.old)) }
{
    if is_here {
        here.push(number)?;
    } else {
        later.push(number)?;
    }
    Ok(())
}

/// A rule of which the given conditions are left, when the given parameter is read.
///
/// # Errors
/// `NoMemory` if there was none for the rule.
pub(crate) fn open_rule(
    alloc: Global,
    conds: &[AskedCond],
    place: usize,
    numbers: &[u32],
    param: u32,
) -> Result<OpenRule, NoMemory>
    ensures place { IfOk result (λ rule. rule.place ≡ place) }
    ensures all { IfOk result (λ rule. (f : ℕ → Bool) → (list_all f rule.here && list_all f rule.later) ≡ list_all f numbers.now) }
    ensures split { IfOk result (IsSplit conds.now param) }
{
    let (here, later) = split(alloc, conds, numbers, param)?;
    Ok(OpenRule { place, here, later })
}

// Puts a rule with the conditions that are left, if it is marked.
#[tactic(auto, using(crate::proofs::ResidualLemmas::split_push))]
fn put_marked(
    alloc: Global,
    conds: &[AskedCond],
    left: &mut Items<OpenRule>,
    rule: &OpenRule,
    mark: u32,
    param: u32,
) -> Result<(), NoMemory>
    ensures left { OnOk result (IsMarkedPut mark rule.now left.old left.new) }
    ensures split { OnOk result (AreSplit conds.now param left.old → AreSplit conds.now param left.new) }
{
    if mark != 1 {
        return Ok(());
    }
    left.push(open_rule(alloc, conds, left.len(), &rule.later, param)?)?;
    Ok(())
}

// Of some rules those that are marked.
#[tactic(auto, using(crate::proofs::ResidualLemmas::none_so_far, crate::proofs::ResidualLemmas::rule_left, crate::proofs::ResidualLemmas::left_done, crate::proofs::ResidualLemmas::left_unmarked))]
fn rules_left(
    alloc: Global,
    conds: &[AskedCond],
    rules: &[OpenRule],
    label: &[u32],
    param: u32,
) -> Result<Items<OpenRule>, NoMemory>
    ensures left { IfOk result (AreMarkedRules rules.now label.now) }
    ensures split { IfOk result (AreSplit conds.now param) }
{
    let mut left = Items::empty(alloc);
    let mut rules = rules;
    let mut label = label;
    while let Some((rule, more_rules)) = rules.split_first() {
        let Some((mark, more_marks)) = label.split_first() else {
            return Ok(left);
        };
        put_marked(alloc, conds, &mut left, rule, *mark, param)?;
        rules = more_rules;
        label = more_marks;
    }
    Ok(left)
}

fn rest_after(label: &[u32], count: usize) -> &[u32]
    ensures { result.now ≡ drop count label.now }
{
    let (_, rest) = label.split_at(count.min(label.len()));
    rest
}

/// The questions that are left after a value with this label, their rules numbered anew, when the given parameter is read next.
///
/// # Errors
/// `NoMemory` if there was none for the rules.
pub(crate) fn questions_left(
    alloc: Global,
    conds: &[AskedCond],
    questions: &[OpenQuestion],
    label: &[u32],
    param: u32,
) -> Result<Items<OpenQuestion>, NoMemory>
    ensures left { IfOk result (λ left. AreLeft questions.now label.now left) }
    ensures split { IfOk result (AllSplit conds.now param) }
{
    let mut left = Items::empty(alloc);
    let mut label = label;
    for question in questions {
        let rules = rules_left(alloc, conds, &question.rules, label, param)?;
        left.push(OpenQuestion {
            depth: question.depth,
            rules,
        })?;
        label = rest_after(label, question.rules.len());
    }
    Ok(left)
}
