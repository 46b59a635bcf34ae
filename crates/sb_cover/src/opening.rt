// Questions are opened: their rules for a tag, with the numbers of their conditions.
ghost use Rattle.std.specs.Prelude.{◌≡◌, ◌<◌, ◌++◌, true, List, length, IfOk, IfSome, OnOk};
ghost use Rattle.std.specs.List.{list_all};
ghost use Rattle.sb_call.specs.declared.arguments.Arg.{Arg};
ghost use Rattle.sb_rule.specs.Verdicts.{cond_holds};
ghost use Rattle.sb_cover.specs.Calls.{met_from};
ghost use Rattle.sb_cover.specs.AskedConds.{cond_at};
ghost use Rattle.sb_cover.specs.Opening.{asked_of, AreMore, AreOpened, AllOpened, AreUnread, AllUnread, IsRulePut};
ghost use Rattle.sb_cover.specs.PlainQuestions.{is_plain_asked, is_plain_cond, is_plain_question, is_plain_rule};
ghost use Rattle.sb_cover.specs.declared.asked_conds.AskedCond.{AskedCond};

use crate::asked_conds::AskedCond;
use crate::open_rules::{OpenQuestion, OpenRule};
use crate::questions::Question;
use sb_base::{Items, NoMemory};
use sb_call::CallTag;
use sb_rule::{Cell, Cond, Rule, Test};
use std::alloc::Global;

/// The most conditions.
pub(crate) const MAX_CONDS: usize = 0x10_0000;

#[tactic(auto, using(crate::proofs::OpeningLemmas::equal_numbers))]
fn are_same_numbers(a: &[u64], b: &[u64]) -> bool
    ensures { result ≡ true → a.now ≡ b.now }
{
    a == b
}

#[tactic(auto, using(crate::proofs::OpeningLemmas::equal_numbers))]
fn are_same_units(a: &[u16], b: &[u16]) -> bool
    ensures { result ≡ true → a.now ≡ b.now }
{
    a == b
}

#[tactic(auto, using(crate::proofs::OpeningLemmas::equal_cells))]
fn are_same_cells(a: &[Cell], b: &[Cell]) -> bool
    ensures { result ≡ true → a.now ≡ b.now }
{
    a == b
}

fn are_same_bounds(low: u64, other_low: u64, high: u64, other_high: u64) -> bool
    ensures low { result ≡ true → low ≡ other_low }
    ensures high { result ≡ true → high ≡ other_high }
{
    low == other_low && high == other_high
}

fn is_same_test(a: &Test, b: &Test) -> bool
    ensures { result ≡ true → a.now ≡ b.now }
{
    match (a, b) {
        (Test::OneOf(x), Test::OneOf(y)) => are_same_numbers(x, y),
        (Test::Range { lo, hi }, Test::Range { lo: low, hi: high }) => {
            are_same_bounds(*lo, *low, *hi, *high)
        }
        (Test::Mask(x), Test::Mask(y)) => *x == *y,
        (Test::Equal(x), Test::Equal(y)) => are_same_units(x.as_units(), y.as_units()),
        (Test::Like(x), Test::Like(y)) => are_same_cells(x.cells(), y.cells()),
        _ => false,
    }
}

#[tactic(auto, using(crate::proofs::OpeningLemmas::same_asked))]
fn is_same(asked: &AskedCond, cond: &Cond, is_cut: bool) -> bool
    ensures { result ≡ true → asked.now ≡ record { cond = cond.now; is_cut = is_cut } }
{
    if asked.is_cut != is_cut {
        return false;
    }
    if asked.cond.param != cond.param {
        return false;
    }
    if asked.cond.negated != cond.negated {
        return false;
    }
    is_same_test(&asked.cond.test, &cond.test)
}

// The number of a condition, if it has one.
#[tactic(auto, using(crate::proofs::OpeningLemmas::found_at))]
fn find(conds: &[AskedCond], cond: &Cond, is_cut: bool) -> Option<usize>
    ensures within { IfSome result (λ n. n < length conds.now) }
    ensures there { IfSome result (λ n. cond_at conds.now n ≡ record { cond = cond.now; is_cut = is_cut }) }
{
    for (number, asked) in conds.iter().enumerate() {
        if is_same(asked, cond, is_cut) {
            return Some(number);
        }
    }
    None
}

// The number of a condition, which has one afterwards. None if there are too many conditions.
#[tactic(auto, using(crate::proofs::OpeningLemmas::more_none, crate::proofs::OpeningLemmas::more_one, crate::proofs::OpeningLemmas::met_found, crate::proofs::OpeningLemmas::met_put, crate::proofs::PlainLemmas::plain_put))]
fn number_of(conds: &mut Vec<AskedCond>, cond: &Cond, is_cut: bool) -> Result<Option<u32>, NoMemory>
    ensures more { IfOk result (λ number. AreMore conds.old.items conds.new.items) }
    ensures met { IfOk result (λ number. IfSome number (λ n. (more : List AskedCond) (args : List Arg)
        → met_from (conds.new.items ++ more) 0 args n ≡ cond_holds cond.now (asked_of is_cut args))) }
    ensures plain { OnOk result (is_plain_cond cond.now ≡ true → list_all is_plain_asked conds.old.items ≡ true → list_all is_plain_asked conds.new.items ≡ true) }
{
    if let Some(number) = find(conds, cond, is_cut) {
        if number < MAX_CONDS {
            return Ok(Some(number as u32));
        }
        return Ok(None);
    }
    let number = conds.len();
    if number >= MAX_CONDS {
        return Ok(None);
    }
    conds.push(AskedCond {
        cond: cond.clone()?,
        is_cut,
    })?;
    Ok(Some(number as u32))
}

// The numbers of the conditions of a rule.
#[tactic(auto, using(crate::proofs::OpeningLemmas::more_none))]
fn numbers_of(
    alloc: Global,
    conds: &mut Vec<AskedCond>,
    rule_conds: &[Cond],
    is_cut: bool,
) -> Result<Option<Vec<u32>>, NoMemory>
    ensures more { IfOk result (λ numbers. AreMore conds.old.items conds.new.items) }
    ensures met { IfOk result (λ numbers. IfSome numbers (λ numbers. (more : List AskedCond) (args : List Arg)
        → list_all (met_from (conds.new.items ++ more) 0 args) numbers.items ≡ list_all (λ c. cond_holds c (asked_of is_cut args)) rule_conds.now)) }
    ensures plain { OnOk result (list_all is_plain_cond rule_conds.now ≡ true → list_all is_plain_asked conds.old.items ≡ true → list_all is_plain_asked conds.new.items ≡ true) }
{
    let mut numbers = Vec::new(alloc);
    for cond in rule_conds {
        let Some(number) = number_of(conds, cond, is_cut)? else {
            return Ok(None);
        };
        numbers.push(number)?;
    }
    Ok(Some(numbers))
}

// Of which calls rules are asked, and whether the access is cut.
#[derive(Clone, Copy)]
struct Asking {
    tag: CallTag,
    is_cut: bool,
}

// Puts a rule with the numbers of its conditions, if it is for the tag. Returns whether there are not too many conditions.
#[tactic(auto, using(crate::proofs::OpeningLemmas::more_none, crate::proofs::OpeningLemmas::rule_put, crate::proofs::OpeningLemmas::rule_not_put))]
fn put_rule(
    alloc: Global,
    conds: &mut Vec<AskedCond>,
    opened: &mut Items<OpenRule>,
    asking: Asking,
    rule: &Rule,
    place: usize,
) -> Result<bool, NoMemory>
    ensures more { OnOk result (AreMore conds.old.items conds.new.items) }
    ensures put { IfOk result (λ done. done ≡ true → IsRulePut conds.new.items asking.tag asking.is_cut rule.now place opened.old opened.new) }
    ensures plain { OnOk result (is_plain_rule rule.now ≡ true → list_all is_plain_asked conds.old.items ≡ true → list_all is_plain_asked conds.new.items ≡ true) }
{
    if !rule.is_for(asking.tag) {
        return Ok(true);
    }
    let Some(numbers) = numbers_of(alloc, conds, &rule.conds, asking.is_cut)? else {
        return Ok(false);
    };
    opened.push(OpenRule {
        place,
        here: Items::empty(alloc),
        later: Items::new(numbers),
    })?;
    Ok(true)
}

// The rules of a question for a tag, with the numbers of their conditions. None if there are too many of them.
#[tactic(auto, using(crate::proofs::OpeningLemmas::more_none))]
fn rules_for(
    alloc: Global,
    conds: &mut Vec<AskedCond>,
    tag: CallTag,
    rules: &[Rule],
    is_cut: bool,
) -> Result<Option<Items<OpenRule>>, NoMemory>
    ensures more { OnOk result (AreMore conds.old.items conds.new.items) }
    ensures rules { IfOk result (λ opened. IfSome opened (AreOpened conds.new.items tag rules.now is_cut rules.now)) }
    ensures unread { IfOk result (λ opened. IfSome opened AreUnread) }
    ensures plain { OnOk result (list_all is_plain_rule rules.now ≡ true → list_all is_plain_asked conds.old.items ≡ true → list_all is_plain_asked conds.new.items ≡ true) }
{
    let mut opened = Items::empty(alloc);
    for (place, rule) in rules.iter().enumerate() {
        let asking = Asking { tag, is_cut };
        let done = put_rule(alloc, conds, &mut opened, asking, rule, place)?;
        if !done {
            return Ok(None);
        }
    }
    Ok(Some(opened))
}

/// The questions with their rules for a tag, before a parameter is read, and the conditions by their numbers. None if there are too many of them.
///
/// # Errors
/// `NoMemory` if there was none for them.
pub(crate) fn open_questions(
    alloc: Global,
    conds: &mut Vec<AskedCond>,
    tag: CallTag,
    questions: &[Question],
) -> Result<Option<Items<OpenQuestion>>, NoMemory>
    ensures rules { IfOk result (λ opened. IfSome opened (AllOpened conds.new.items tag questions.now)) }
    ensures unread { IfOk result (λ opened. IfSome opened AllUnread) }
    ensures plain { OnOk result (list_all is_plain_question questions.now ≡ true → list_all is_plain_asked conds.old.items ≡ true → list_all is_plain_asked conds.new.items ≡ true) }
{
    let mut opened = Items::empty(alloc);
    for question in questions {
        let Some(rules) = rules_for(alloc, conds, tag, &question.rules, question.is_cut)? else {
            return Ok(None);
        };
        opened.push(OpenQuestion {
            depth: question.depth,
            rules,
        })?;
    }
    Ok(Some(opened))
}
