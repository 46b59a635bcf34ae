// Which rules hold here, once it is known of all conditions here whether they hold.
ghost use Rattle.std.specs.Prelude.{◌≡◌, ◌==◌, ◌∷◌, ◌++◌, [], ℕ, Bool, true, false, List, length, IfOk, if◌then◌else◌};
ghost use Rattle.std.specs.List.{list_all};
ghost use Rattle.sb_cover.specs.Pruning.{is_true, marks_by, marks_in, ArePruned, DecideAlike, IsLabel};
ghost use Rattle.sb_cover.specs.declared.open_rules.OpenRule.{OpenRule};

use crate::laws::pruned_decide_alike;
use crate::open_rules::{CondNumbers, OpenQuestion, OpenRule};
use crate::pruning::{all_set, copy_of, is_covered};
use sb_base::NoMemory;
use sb_explore::State;
use std::alloc::Global;

// Whether a rule holds here and may still be among the first that hold.
fn is_marked(
    alloc: Global,
    rule: &OpenRule,
    truths: &[bool],
    depth: usize,
    decided: &mut Vec<CondNumbers>,
) -> Result<bool, NoMemory>
    ensures { IfOk result (λ mark. (a b : List Bool) (rules : List OpenRule) → ArePruned depth decided.new.items a b rules
        → ArePruned depth decided.old.items (list_all (is_true truths.now) rule.now.here ∷ a) (mark ∷ b) (rule.now ∷ rules)) }
{
    if is_covered(depth, decided, &rule.later) {
        return Ok(false);
    }
    if !all_set(truths, &rule.here) {
        return Ok(false);
    }
    let later = copy_of(alloc, &rule.later)?;
    decided.push(later)?;
    Ok(true)
}

fn number_of_mark(mark: bool) -> u32
    ensures { (result == 1) ≡ mark }
{
    if mark { 1 } else { 0 }
}

// A mark for each rule of one question.
fn marks_for(
    alloc: Global,
    depth: usize,
    rules: &[OpenRule],
    truths: &[bool],
) -> Result<Vec<u32>, NoMemory>
    ensures count { IfOk result (λ marks. length marks.items ≡ length rules.now) }
    ensures alike { IfOk result (λ marks. (more : List ℕ)
        → DecideAlike depth rules.now (marks_by (is_true truths.now) rules.now) (marks_in (marks.items ++ more))) }
{
    pruned_decide_alike();
    let mut decided = Vec::new(alloc);
    let mut marks = Vec::new(alloc);
    for rule in rules {
        let mark = is_marked(alloc, rule, truths, depth, &mut decided)?;
        marks.push(number_of_mark(mark))?;
    }
    Ok(marks)
}

/// The label of what is known: a mark for each rule of each question, 1 if all its conditions here hold and it may still be among the first that hold.
///
/// # Errors
/// `NoMemory` if there was none for the label.
pub(crate) fn label_of(
    alloc: Global,
    questions: &[OpenQuestion],
    truths: &[bool],
) -> Result<State, NoMemory>
    ensures { IfOk result (λ label. IsLabel (is_true truths.now) questions.now label) }
{
    let mut numbers = Vec::new(alloc);
    for question in questions {
        let marks = marks_for(alloc, question.depth, &question.rules, truths)?;
        numbers.extend_from_slice(&marks)?;
    }
    Ok(State::new(numbers))
}
