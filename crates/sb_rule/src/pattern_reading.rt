// The cells of a text, and what makes a text no pattern.
ghost use Rattle.std.specs.Prelude.{◌≡◌, ◌<◌, ◌≤◌, ◌∷◌, ◌++◌, [], length, IfOk, OnOk, MatchOption};
ghost use Rattle.sb_rule.specs.PatternLimits.{most_units};
ghost use Rattle.sb_rule.specs.PatternReading.{cell_of, cell_text, cells_of, fault_of, star_fault, text_of};

use crate::cells::Cell;
use crate::limits::MAX_UNITS;
use crate::pattern_faults::PatternFault;
use sb_base::{NoMemory, QUESTION, SLASH, STAR};
use std::alloc::Global;

fn star_fault(text: &[u16]) -> Option<PatternFault>
    requires { length text.now ≤ most_units }
    ensures { result ≡ star_fault 0 text.now }
{
    let mut at = 0;
    let mut rest = text;
    while let Some((unit, after)) = rest.split_first() {
        if *unit == STAR {
            match after.first() {
                Some(&STAR) => return Some(PatternFault::DoubleStar(at)),
                Some(&QUESTION) => return Some(PatternFault::StarQuestion(at)),
                _ => {}
            }
        }
        at += 1;
        rest = after;
    }
    None
}

// What makes the text no pattern.
pub(crate) fn fault_of(text: &[u16]) -> Option<PatternFault>
    ensures { result ≡ fault_of text.now }
{
    if text.len() > MAX_UNITS {
        return Some(PatternFault::TooLong);
    }
    star_fault(text)
}

// The cell of a unit.
fn cell_of(unit: u16) -> Cell
    ensures { result ≡ cell_of unit }
{
    match unit {
        STAR => Cell::Any,
        QUESTION => Cell::One,
        _ => Cell::Lit(unit),
    }
}

// The first cell, and the text after it.
fn next_cell(text: &[u16]) -> Option<(Cell, &[u16])>
    ensures first { MatchOption result (cells_of text.now ≡ []) (λ p. cells_of text.now ≡ p.0 ∷ cells_of p.1.now) }
    ensures shorter { MatchOption result (text.now ≡ []) (λ p. length p.1.now < length text.now) }
{
    match text.split_first() {
        Some((&SLASH, [QUESTION, after @ ..])) => Some((Cell::Lit(QUESTION), after)),
        Some((unit, after)) => Some((cell_of(*unit), after)),
        None => None,
    }
}

// The cells of the text, which are at most as many as its units.
pub(crate) fn cells_of(alloc: Global, text: &[u16]) -> Result<Vec<Cell>, NoMemory>
    ensures { IfOk result (λ cells. cells.items ≡ cells_of text.now) }
{
    let mut cells = Vec::with_capacity(alloc, text.len())?;
    let mut rest = text;
    while let Some((cell, after)) = next_cell(rest) {
        cells.push(cell)?;
        rest = after;
    }
    Ok(cells)
}

// Appends the text of a cell.
fn append_cell(units: &mut Vec<u16>, cell: &Cell) -> Result<(), NoMemory>
    ensures { OnOk result (units.new.items ≡ units.old.items ++ cell_text cell.now) }
{
    match cell {
        Cell::Lit(QUESTION) => units.extend_from_slice(&[SLASH, QUESTION])?,
        Cell::Lit(unit) => units.push(*unit)?,
        Cell::One => units.push(QUESTION)?,
        Cell::Any => units.push(STAR)?,
    }
    Ok(())
}

// The text of the cells.
pub(crate) fn units_of(alloc: Global, cells: &[Cell]) -> Result<Vec<u16>, NoMemory>
    ensures { IfOk result (λ units. units.items ≡ text_of cells.now) }
{
    let mut units = Vec::new(alloc);
    for cell in cells {
        append_cell(&mut units, cell)?;
    }
    Ok(units)
}
