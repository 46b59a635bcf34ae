// Tables of conditions.
ghost use Rattle.std.specs.Prelude.{◌≡◌, ◌==◌, ℕ, map, true, false, IfOk, IfSome};
ghost use Rattle.std.specs.List.{list_all};
ghost use Rattle.sb_base.specs.Names.{is_ordinary};
ghost use Rattle.sb_rule.specs.declared.cells.Cell.TheVariants.{Lit};
ghost use Rattle.sb_cover.specs.AskedConds.{cells_of_cond, cells_of_test};
ghost use Rattle.sb_cover.specs.Letters.{is_apart, IsStandIn};
ghost use Rattle.sb_cover.specs.PlainQuestions.{is_plain_asked};
ghost use Rattle.sb_cover.specs.Positions.{cells_at, AreShort};
ghost use Rattle.sb_cover.specs.Shown.{are_plain, is_plain_unit};

use crate::asked_conds::{AskedCond, CondTable};
use crate::modes::is_ordinary;
use crate::opening::MAX_CONDS;
use crate::positions::Cells;
use crate::shown::{are_plain, is_plain_unit};
use sb_base::{Items, NoMemory, to_ascii_uppercase};
use sb_rule::{Cell, Test};
use std::alloc::Global;

// The cells of a text.
fn literals(alloc: Global, text: &[u16]) -> Result<Vec<Cell>, NoMemory>
    ensures { IfOk result (λ cells. cells.items ≡ map Lit text.now) }
{
    let mut cells = Vec::new(alloc);
    for unit in text {
        cells.push(Cell::Lit(*unit))?;
    }
    Ok(cells)
}

// The cells that a string has to match, none for a test of numbers.
fn cells_of(alloc: Global, test: &Test) -> Result<Cells, NoMemory>
    ensures { IfOk result (λ cells. cells ≡ cells_of_test test.now) }
{
    match test {
        Test::OneOf(_) | Test::Range { lo: _, hi: _ } | Test::Mask(_) => Ok(Items::empty(alloc)),
        Test::Equal(text) => {
            let cells = literals(alloc, text.as_units())?;
            Ok(Items::new(cells))
        }
        Test::Like(pattern) => {
            let cells = Vec::from_slice(alloc, pattern.cells())?;
            Ok(Items::new(cells))
        }
    }
}

// The cells of all conditions.
fn patterns_of(alloc: Global, conds: &[AskedCond]) -> Result<Vec<Cells>, NoMemory>
    ensures { IfOk result (λ patterns. patterns.items ≡ map cells_of_cond conds.now) }
{
    let mut patterns = Vec::new(alloc);
    for asked in conds {
        patterns.push(cells_of(alloc, &asked.cond.test)?)?;
    }
    Ok(patterns)
}

// Whether all patterns have fewer cells than a position has places.
fn are_short(patterns: &[Cells]) -> bool
    ensures { result ≡ true → AreShort patterns.now }
{
    for cells in patterns {
        if cells.len() >= 512 {
            return false;
        }
    }
    true
}

fn is_apart(cell: Cell, unit: u16) -> bool
    ensures { result ≡ is_apart unit cell }
{
    match cell {
        Cell::Lit(wanted) => to_ascii_uppercase(wanted) != unit,
        Cell::One | Cell::Any => true,
    }
}

fn are_apart(cells: &[Cell], unit: u16) -> bool
    ensures { result ≡ list_all (is_apart unit) cells.now }
{
    for cell in cells {
        if !is_apart(*cell, unit) {
            return false;
        }
    }
    true
}

// Whether no literal of the patterns matches a unit that is its own folding.
fn all_apart(patterns: &[Cells], unit: u16) -> bool
    ensures { result ≡ true → (k : ℕ) → list_all (is_apart unit) (cells_at patterns.now k) ≡ true }
{
    for cells in patterns {
        if !are_apart(cells, unit) {
            return false;
        }
    }
    true
}

// Whether a script can have a unit by itself, and a component of a name can have it, also at its end.
fn is_part_of_names(unit: u16) -> bool
    ensures ordinary { result ≡ true → is_ordinary unit ≡ true }
    ensures plain { result ≡ true → is_plain_unit unit ≡ true }
    ensures no_dot { result ≡ true → (unit == 46) ≡ false }
    ensures no_space { result ≡ true → (unit == 32) ≡ false }
{
    is_ordinary(unit) && is_plain_unit(unit) && unit != 32 && unit != 46
}

fn is_stand_in(patterns: &[Cells], unit: u16) -> bool
    ensures { result ≡ true → IsStandIn patterns.now unit }
{
    if !is_part_of_names(unit) {
        return false;
    }
    if to_ascii_uppercase(unit) != unit {
        return false;
    }
    all_apart(patterns, unit)
}

// Whether a script can have all that the patterns name.
fn all_plain(patterns: &[Cells]) -> bool
    ensures { result ≡ list_all (are_plain false) patterns.now }
{
    for cells in patterns {
        if !are_plain(cells) {
            return false;
        }
    }
    true
}

// A unit that stands for all that no pattern names: the first from `!` to `~`, else from U+00A1 on.
fn stand_in(patterns: &[Cells]) -> Option<u16>
    ensures { IfSome result (IsStandIn patterns.now) }
{
    for unit in 33..127 {
        if is_stand_in(patterns, unit) {
            return Some(unit);
        }
    }
    for unit in 161..u16::MAX {
        if is_stand_in(patterns, unit) {
            return Some(unit);
        }
    }
    None
}

/// The table of conditions. None if there are more than can be numbered, if a text is longer than any in a policy file, or if the patterns name all units.
///
/// # Errors
/// `NoMemory` if there was none for the table.
#[tactic(auto, using(crate::proofs::PlainLemmas::plain_at))]
pub(crate) fn table_of(alloc: Global, conds: Vec<AskedCond>) -> Result<Option<CondTable>, NoMemory>
    ensures conds { IfOk result (λ table. IfSome table (λ table. table.conds.items ≡ conds.items)) }
    ensures plain { IfOk result (λ table. IfSome table (λ table. list_all is_plain_asked conds.items ≡ true → table.is_plain ≡ true)) }
{
    if conds.len() > MAX_CONDS {
        return Ok(None);
    }
    let patterns = patterns_of(alloc, &conds)?;
    if !are_short(&patterns) {
        return Ok(None);
    }
    let Some(other) = stand_in(&patterns) else {
        return Ok(None);
    };
    let is_plain = all_plain(&patterns);
    Ok(Some(CondTable {
        conds,
        patterns,
        other,
        is_plain,
    }))
}
