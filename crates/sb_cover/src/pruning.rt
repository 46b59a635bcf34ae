// Which conditions have to be known so that the first rules that hold are.
ghost use Rattle.std.specs.Prelude.{◌≡◌, ◌==◌, ◌<◌, ◌∷◌, [], ℕ, Bool, true, false, List, OnOk, IfOk, IfSome, slice_index_or};
ghost use Rattle.std.specs.List.{list_all, list_any};
ghost use Rattle.sb_cover.specs.Pruning.{is_needed, marks_by, AgreeWhereNeeded, AllDecideAlike, ArePruned, AreSure, DecideAlike, IsCovered, IsImplied, StayNeeded};
ghost use Rattle.sb_cover.specs.declared.open_rules.OpenRule.{OpenRule};

use crate::laws::pruned_decide_alike;
use crate::open_rules::{CondNumbers, OpenQuestion, OpenRule};
use sb_base::{Items, NoMemory};
use std::alloc::Global;

/// What is known for sure of conditions, by their numbers.
#[derive(Drop)]
pub(crate) struct Signs {
    /// Those that fail.
    pub fails: Vec<bool>,
    /// Those that hold.
    pub holds: Vec<bool>,
}

impl Signs {
    /// Nothing is known for sure. Does not allocate.
    pub(crate) fn unknown(alloc: Global) -> Signs
        ensures fails { result.fails.items ≡ [] }
        ensures holds { result.holds.items ≡ [] }
    {
        Signs {
            fails: Vec::new(alloc),
            holds: Vec::new(alloc),
        }
    }
}

fn is_among(numbers: &[u32], number: u32) -> bool
    ensures { result ≡ list_any (λ n. n == number) numbers.now }
{
    for n in numbers {
        if *n == number {
            return true;
        }
    }
    false
}

// Whether all of the first conditions hold if all of the second do, since they are among them.
fn is_implied(few: &[u32], many: &[u32]) -> bool
    ensures { result ≡ true → IsImplied few.now many.now }
{
    for number in few {
        if !is_among(many, *number) {
            return false;
        }
    }
    true
}

// How many lists are still to be found after one that may be implied.
#[tactic(auto, using(crate::proofs::NeedLemmas::covered_implied, crate::proofs::NeedLemmas::covered_other))]
fn left_after(left: usize, conds: &[u32], later: &[u32]) -> usize
    requires { 0 < left }
    ensures { (decided : List (List ℕ)) → IsCovered result decided later.now → IsCovered left (conds.now ∷ decided) later.now }
{
    if is_implied(conds, later) {
        return left - 1;
    }
    left
}

/// Whether that many of the lists of conditions are implied by these conditions.
pub(crate) fn is_covered(depth: usize, decided: &[CondNumbers], later: &[u32]) -> bool
    ensures { result ≡ true → IsCovered depth decided.now later.now }
{
    let mut left = depth;
    for conds in decided {
        if left == 0 {
            return true;
        }
        left = left_after(left, conds, later);
    }
    left == 0
}

/// Whether the flag of a number is set.
pub(crate) fn is_set(flags: &[bool], number: usize) -> bool
    ensures { result ≡ slice_index_or flags.now number false }
{
    match flags.get(number) {
        Some(flag) => *flag,
        None => false,
    }
}

// A condition that fails for sure.
fn first_failing(signs: &Signs, conds: &[u32]) -> Option<u32>
    ensures among { IfSome result (λ n. list_any (λ k. k == n) conds.now ≡ true) }
    ensures fails { IfSome result (λ n. slice_index_or signs.now.fails.items n false ≡ true) }
{
    for cond in conds {
        if is_set(&signs.fails, *cond as usize) {
            return Some(*cond);
        }
    }
    None
}

/// Whether the flags of all these numbers are set.
pub(crate) fn all_set(flags: &[bool], numbers: &[u32]) -> bool
    ensures { result ≡ list_all (λ n. slice_index_or flags.now n false) numbers.now }
{
    for number in numbers {
        if !is_set(flags, *number as usize) {
            return false;
        }
    }
    true
}

/// Sets the flag of a condition, if it has one.
pub(crate) fn need(needed: &mut Vec<bool>, cond: u32)
    ensures stay { StayNeeded needed.old.items needed.new.items }
    ensures here { is_needed needed.new.items cond ≡ true }
{
    let place = cond as usize;
    if place < needed.len() {
        needed[place] = true;
    }
}

fn need_all(needed: &mut Vec<bool>, conds: &[u32])
    ensures stay { StayNeeded needed.old.items needed.new.items }
    ensures here { list_all (is_needed needed.new.items) conds.now ≡ true }
{
    for cond in conds {
        need(needed, *cond);
    }
}

/// A copy of the numbers of conditions.
///
/// # Errors
/// `NoMemory` if there was none for it.
pub(crate) fn copy_of(alloc: Global, numbers: &[u32]) -> Result<CondNumbers, NoMemory>
    ensures { IfOk result (λ copy. copy ≡ numbers.now) }
{
    let copy = Vec::from_slice(alloc, numbers)?;
    Ok(Items::new(copy))
}

// Notes the conditions of one rule that have to be known, and the rule if it holds here for sure.
fn note_rule(
    alloc: Global,
    rule: &OpenRule,
    signs: &Signs,
    depth: usize,
    decided: &mut Vec<CondNumbers>,
    needed: &mut Vec<bool>,
) -> Result<(), NoMemory>
    ensures stay { OnOk result (StayNeeded needed.old.items needed.new.items) }
    ensures pruned { OnOk result ((f g : ℕ → Bool) (a b : List Bool) (rules : List OpenRule) → AreSure signs.now.fails.items signs.now.holds.items f
        → AgreeWhereNeeded needed.new.items f g → ArePruned depth decided.new.items a b rules
        → ArePruned depth decided.old.items (list_all f rule.now.here ∷ a) (list_all g rule.now.here ∷ b) (rule.now ∷ rules)) }
{
    if is_covered(depth, decided, &rule.later) {
        return Ok(());
    }
    if let Some(cond) = first_failing(signs, &rule.here) {
        need(needed, cond);
        return Ok(());
    }
    need_all(needed, &rule.here);
    if !all_set(&signs.holds, &rule.here) {
        return Ok(());
    }
    let later = copy_of(alloc, &rule.later)?;
    decided.push(later)?;
    Ok(())
}

// Notes the conditions of the rules of one question that have to be known.
fn note_rules(
    alloc: Global,
    depth: usize,
    rules: &[OpenRule],
    signs: &Signs,
    needed: &mut Vec<bool>,
) -> Result<(), NoMemory>
    ensures stay { OnOk result (StayNeeded needed.old.items needed.new.items) }
    ensures alike { OnOk result ((f g : ℕ → Bool) → AreSure signs.now.fails.items signs.now.holds.items f → AgreeWhereNeeded needed.new.items f g
        → DecideAlike depth rules.now (marks_by f rules.now) (marks_by g rules.now)) }
{
    pruned_decide_alike();
    let mut decided = Vec::new(alloc);
    for rule in rules {
        note_rule(alloc, rule, signs, depth, &mut decided, needed)?;
    }
    Ok(())
}

/// Of which of the given number of conditions it has to be known whether they hold, if so much is known for sure: for any two tests that agree on these
/// conditions the same rules are the first that hold, whatever the later conditions are.
///
/// # Errors
/// `NoMemory` if there was none for the list.
pub(crate) fn needed_conds(
    alloc: Global,
    questions: &[OpenQuestion],
    signs: &Signs,
    count: usize,
) -> Result<Vec<bool>, NoMemory>
    ensures { IfOk result (λ needed. (f g : ℕ → Bool) → AreSure signs.now.fails.items signs.now.holds.items f → AgreeWhereNeeded needed.items f g → AllDecideAlike f g questions.now) }
{
    let mut needed = Vec::new(alloc);
    needed.resize(count, false)?;
    for question in questions {
        note_rules(alloc, question.depth, &question.rules, signs, &mut needed)?;
    }
    Ok(needed)
}
