// The tests by which policies are well made.
ghost use Rattle.std.specs.Prelude.{◌≡◌, false};
ghost use Rattle.std.specs.List.{list_any, list_all};
ghost use Rattle.std.specs.Cmp.Lexicographic.{pointwise};
ghost use Rattle.sb_call.specs.Arguments.{kind_at};
ghost use Rattle.sb_rule.specs.PatternReading.{text_of};
ghost use Rattle.sb_base.specs.Surrogates.{is_paired, is_paired_after};
ghost use Rattle.sb_rule.specs.WellMade.{is_policy_text, is_like_text, is_number_test, is_sensible, is_well_formed, is_for_readers, is_well_made_rule, is_well_made, are_named_apart, are_well_made, is_named, last_unit};
ghost use Rattle.sb_base.specs.Wide.{is_text_unit};

use crate::actions::Action;
use crate::cells::Cell;
use crate::conditions::{Cond, Test};
use crate::limits::{MAX_CONDITIONS, MAX_NUMBERS, MAX_POLICIES, MAX_RULES, MAX_UNITS};
use crate::patterns::Pattern;
use crate::policies::{Policies, Policy, Rule};
use sb_base::{
    QUESTION, QUOTE, STAR, is_high_surrogate, is_low_surrogate, is_well_formed_utf16,
    walks_find_pairs,
};
use sb_call::{CallTag, ShortName};

fn is_text_unit(unit: u16) -> bool
    ensures { result ≡ is_text_unit unit }
{
    unit >= 32 && unit != QUOTE
}

fn are_text_units(units: &[u16]) -> bool
    ensures { result ≡ list_all is_text_unit units.now }
{
    units.iter().all(|unit| is_text_unit(*unit))
}

fn is_policy_text(units: &[u16]) -> bool
    ensures { result ≡ is_policy_text units.now }
{
    units.len() <= MAX_UNITS && are_text_units(units) && is_well_formed_utf16(units)
}

// The last unit of a cell's text. The only other one is the `/` before a question mark.
fn last_unit(cell: Cell) -> u16
    ensures { result ≡ last_unit cell }
{
    match cell {
        Cell::Lit(unit) => unit,
        Cell::One => QUESTION,
        Cell::Any => STAR,
    }
}

fn cells_are_paired(cells: &[Cell]) -> bool
    ensures { result ≡ is_paired_after false (text_of cells.now) }
{
    let mut after_high = false;
    for cell in cells {
        let unit = last_unit(*cell);
        if is_low_surrogate(unit) != after_high {
            return false;
        }
        after_high = is_high_surrogate(unit);
    }
    !after_high
}

fn are_paired_cells(cells: &[Cell]) -> bool
    ensures { result ≡ is_paired (text_of cells.now) }
{
    walks_find_pairs();
    cells_are_paired(cells)
}

fn are_text_cells(cells: &[Cell]) -> bool
    ensures { result ≡ list_all is_text_unit (text_of cells.now) }
{
    for cell in cells {
        if !is_text_unit(last_unit(*cell)) {
            return false;
        }
    }
    true
}

// The text of a pattern has at most 256 units.
fn is_like_text(pattern: &Pattern) -> bool
    ensures { result ≡ is_like_text pattern.now }
{
    are_text_cells(pattern.cells()) && are_paired_cells(pattern.cells())
}

fn is_sensible(test: &Test) -> bool
    ensures { result ≡ is_sensible test.now }
{
    match test {
        Test::OneOf(numbers) => numbers.len() > 0 && numbers.len() <= MAX_NUMBERS,
        Test::Range { lo, hi } => lo <= hi,
        Test::Mask(_) => true,
        Test::Equal(text) => is_policy_text(text.as_units()),
        Test::Like(pattern) => is_like_text(pattern),
    }
}

fn is_number_test(test: &Test) -> bool
    ensures { result ≡ is_number_test test.now }
{
    matches!(test, Test::OneOf(_) | Test::Range { .. } | Test::Mask(_))
}

fn is_well_formed(tag: CallTag, cond: &Cond) -> bool
    ensures { result ≡ is_well_formed tag cond.now }
{
    match tag.param_kind(cond.param) {
        Some(kind) => is_number_test(&cond.test) == kind.is_number() && is_sensible(&cond.test),
        None => false,
    }
}

fn are_well_formed(tag: CallTag, conds: &[Cond]) -> bool
    ensures { result ≡ list_all (is_well_formed tag) conds.now }
{
    conds.iter().all(|cond| is_well_formed(tag, cond))
}

/// Whether a rule for this call may have this action: `readonly` is for calls that open alone.
pub fn is_for_readers(action: Action, tag: CallTag) -> bool
    ensures { result ≡ is_for_readers action tag }
{
    match (action, tag) {
        (Action::ReadOnly, CallTag::FileOpen | CallTag::KeyOpen | CallTag::EventOpen) => true,
        (Action::ReadOnly, _) => false,
        _ => true,
    }
}

fn is_well_made_rule(rule: &Rule) -> bool
    ensures { result ≡ is_well_made_rule rule.now }
{
    rule.conds.len() <= MAX_CONDITIONS
        && is_for_readers(rule.action, rule.tag)
        && are_well_formed(rule.tag, &rule.conds)
}

fn are_well_made_rules(rules: &[Rule]) -> bool
    ensures { result ≡ list_all is_well_made_rule rules.now }
{
    rules.iter().all(is_well_made_rule)
}

/// Whether a policy is well made: it has at most 256 rules, each with at most 8 conditions, each condition is well formed,
/// and a rule with the action `ReadOnly` is for `file.open`, `key.open` or `event.open`.
///
/// A condition is well formed if its parameter is one of the call's, its test is of a number on a number or handle and
/// of a string on a text or name, a list has 1 to 16 numbers, a range is not empty, and a string, or a pattern's text, has
/// at most 256 units, none below 32 and no `"`, and well-formed UTF-16.
pub fn well_made(policy: &Policy) -> bool
    ensures { result ≡ is_well_made policy.now }
{
    policy.rules.len() <= MAX_RULES && are_well_made_rules(&policy.rules)
}

fn is_named(policies: &[Policy], name: &ShortName) -> bool
    ensures { result ≡ list_any (is_named name.now) policies.now }
{
    policies.iter().any(|policy| policy.name == *name)
}

fn are_named_apart(policies: &[Policy]) -> bool
    ensures { result ≡ are_named_apart policies.now }
{
    let mut rest = policies;
    while let Some((policy, later)) = rest.split_first() {
        if is_named(later, &policy.name) {
            return false;
        }
        rest = later;
    }
    true
}

// Whether each of the policies is well made.
fn each_well_made(policies: &[Policy]) -> bool
    ensures { result ≡ list_all is_well_made policies.now }
{
    policies.iter().all(well_made)
}

/// Whether policies are well made: there are at most 8, no two have one name, and each is well made.
pub fn all_well_made(policies: &Policies) -> bool
    ensures { result ≡ are_well_made policies.now.list }
{
    let list = &policies.list;
    list.len() <= MAX_POLICIES && are_named_apart(list) && each_well_made(list)
}
