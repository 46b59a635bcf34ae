// The slots in which each rule may hold.
ghost use Rattle.std.specs.Prelude.{◌≡◌, ◌≤◌, ◌<◌, ◌+◌, ◌==◌, ◌&&◌, ◌||◌, ℕ, length, Some, IfOk, if◌then◌else◌};
ghost use Rattle.std.specs.List.{list_all, list_any};
ghost use Rattle.sb_rule.specs.Limits.{most_rules};
ghost use Rattle.sb_rule.specs.Verdicts.{is_for};
ghost use Rattle.sb_index.specs.Bounds.{first_of, last_of};
ghost use Rattle.sb_index.specs.Marks.{AreFresh, AreMarked, AreSized, is_marked};
ghost use Rattle.sb_index.specs.Questions.{cond_may_pass, lies, may_pass};
ghost use Rattle.sb_index.specs.Values.{AreAdmitted};
ghost use Rattle.sb_index.specs.declared.questions.Question.TheVariants.{Within};

use crate::bounds::Bounds;
use crate::marks::Marks;
use crate::questions::Feature;
use crate::values::{Values, conds_pass, values_of_all};
use sb_base::NoMemory;
use sb_call::CallTag;
use sb_rule::{Cond, Rule};
use std::alloc::Global;

// Puts a rule with these conditions to the slot of a number, if they pass there.
fn put_number(
    marks: &mut Marks,
    bounds: &Bounds,
    feature: Feature,
    conds: &[Cond],
    number: u64,
    rule: usize,
)
    requires rule { rule < 256 }
    requires sized { AreSized marks.old (length bounds.now + 1) }
    ensures sized { AreSized marks.new (length bounds.now + 1) }
    ensures fresh { (from : ℕ) → rule < from → AreFresh marks.old from → AreFresh marks.new from }
    ensures marked { (slot : ℕ) (k : ℕ) → slot ≤ length bounds.now → is_marked marks.new slot k ≡ (is_marked marks.old slot k
        || (k == rule && (lies (first_of bounds.now slot) (last_of bounds.now slot) number
        && list_all (cond_may_pass (Within feature (first_of bounds.now slot) (last_of bounds.now slot))) conds.now))) }
{
    let slot = bounds.slot_of(number);
    if conds_pass(feature, conds, bounds.first(slot), bounds.last(slot)) {
        marks.put_point(bounds.len() + 1, slot, rule);
    }
}

// Puts a rule with these conditions to the slots of some numbers, as far as they pass there.
fn put_numbers(
    marks: &mut Marks,
    bounds: &Bounds,
    feature: Feature,
    conds: &[Cond],
    numbers: &[u64],
    rule: usize,
)
    requires rule { rule < 256 }
    requires sized { AreSized marks.old (length bounds.now + 1) }
    ensures sized { AreSized marks.new (length bounds.now + 1) }
    ensures fresh { (from : ℕ) → rule < from → AreFresh marks.old from → AreFresh marks.new from }
    ensures marked { (slot : ℕ) (k : ℕ) → slot ≤ length bounds.now → is_marked marks.new slot k ≡ (is_marked marks.old slot k
        || (k == rule && (list_any (lies (first_of bounds.now slot) (last_of bounds.now slot)) numbers.now
        && list_all (cond_may_pass (Within feature (first_of bounds.now slot) (last_of bounds.now slot))) conds.now))) }
{
    for number in numbers {
        put_number(marks, bounds, feature, conds, *number, rule);
    }
}

// Puts a rule with these conditions, which no slot has, to the slots of the values that they admit.
fn put_values(
    marks: &mut Marks,
    bounds: &Bounds,
    feature: Feature,
    conds: &[Cond],
    values: Values<'_>,
    rule: usize,
)
    requires rule { rule < 256 }
    requires sized { AreSized marks.old (length bounds.now + 1) }
    requires fresh { AreFresh marks.old rule }
    requires admitted { (first : ℕ) (last : ℕ) → AreAdmitted (Some values) first last (list_all (cond_may_pass (Within feature first last)) conds.now) }
    ensures sized { AreSized marks.new (length bounds.now + 1) }
    ensures fresh { AreFresh marks.new (rule + 1) }
    ensures marked { (slot : ℕ) (k : ℕ) → slot ≤ length bounds.now → is_marked marks.new slot k ≡ (is_marked marks.old slot k
        || (k == rule && list_all (cond_may_pass (Within feature (first_of bounds.now slot) (last_of bounds.now slot))) conds.now)) }
{
    match values {
        Values::Among(numbers) => put_numbers(marks, bounds, feature, conds, numbers, rule),
        Values::Between { lo, hi } => marks.put_run(
            bounds.len() + 1,
            bounds.slot_of(lo),
            bounds.slot_of(hi),
            rule,
        ),
    }
}

// Puts a rule, which no slot has, to the slots in which it may hold.
#[tactic(auto, using(crate::proofs::SlotLemmas::everywhere))]
fn put_rule(marks: &mut Marks, bounds: &Bounds, feature: Feature, rule: &Rule, at: usize)
    requires rule { at < 256 }
    requires sized { AreSized marks.old (length bounds.now + 1) }
    requires fresh { AreFresh marks.old at }
    ensures sized { AreSized marks.new (length bounds.now + 1) }
    ensures fresh { AreFresh marks.new (at + 1) }
    ensures marked { (slot : ℕ) (k : ℕ) → slot ≤ length bounds.now → is_marked marks.new slot k ≡ (is_marked marks.old slot k
        || (k == at && may_pass (Within feature (first_of bounds.now slot) (last_of bounds.now slot)) rule.now)) }
{
    let conds: &[Cond] = &rule.conds;
    match values_of_all(feature, conds) {
        Some(values) => put_values(marks, bounds, feature, conds, values, at),
        None => marks.put_run(bounds.len() + 1, 0, bounds.len(), at),
    }
}

// Puts a rule to the slots in which it may hold, by the number that it has among the rules for the tag, if it is one of them.
// Returns the number of the next one.
fn put_next(
    marks: &mut Marks,
    bounds: &Bounds,
    feature: Feature,
    rule: &Rule,
    tag: CallTag,
    at: usize,
) -> usize
    requires rule { at < 256 }
    requires sized { AreSized marks.old (length bounds.now + 1) }
    requires fresh { AreFresh marks.old at }
    ensures next { result ≡ (if is_for tag rule.now then at + 1 else at) }
    ensures sized { AreSized marks.new (length bounds.now + 1) }
    ensures fresh { AreFresh marks.new result }
    ensures marked { (slot : ℕ) (k : ℕ) → slot ≤ length bounds.now → is_marked marks.new slot k ≡ (is_marked marks.old slot k
        || (is_for tag rule.now && (k == at && may_pass (Within feature (first_of bounds.now slot) (last_of bounds.now slot)) rule.now))) }
{
    if !rule.is_for(tag) {
        return at;
    }
    put_rule(marks, bounds, feature, rule, at);
    at + 1
}

/// The slots of a feature in which each of the rules for a tag may hold.
///
/// # Errors
/// `NoMemory` if there was none for the sets of the slots.
pub fn marks_of(
    alloc: Global,
    rules: &[Rule],
    tag: CallTag,
    feature: Feature,
    bounds: &Bounds,
) -> Result<Marks, NoMemory>
    requires { length rules.now ≤ most_rules }
    ensures sized { IfOk result (λ marks. AreSized marks (length bounds.now + 1)) }
    ensures marked { IfOk result (λ marks. AreMarked rules.now tag feature bounds.now marks) }
{
    let mut marks = Marks::new(alloc, bounds.len() + 1)?;
    let mut at = 0;
    for rule in rules {
        at = put_next(&mut marks, bounds, feature, rule, tag, at);
    }
    Ok(marks)
}
