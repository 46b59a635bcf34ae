// Sets of positions in patterns, and what a unit does to them.
ghost use Rattle.std.specs.Prelude.{◌≡◌, ◌<◌, ◌≤◌, ◌+◌, ◌/◌, ◌^◌, ◌∷◌, ◌==◌, ◌&&◌, ◌||◌, [], ℕ, Bool, List, length, nat_lt, IfOk, OnOk};
ghost use Rattle.std.specs.List.{list_any};
ghost use Rattle.sb_base.specs.Wide.{folded};
ghost use Rattle.sb_rule.specs.Matching.{matches};
ghost use Rattle.sb_rule.specs.declared.cells.Cell.{Cell};
ghost use Rattle.sb_cover.specs.Positions.{cells_at, is_of, is_position_of, tells, IsFrom, AreShort};

use sb_base::{Items, NoMemory, to_ascii_uppercase};
use sb_rule::Cell;
use std::alloc::Global;

/// The cells of a pattern.
pub(crate) type Cells = Items<Cell>;

/// The most patterns of a machine.
pub(crate) const MAX_PATTERNS: usize = 0x10_0000;

/// Puts a position, unless it is the last one.
pub(crate) fn put(positions: &mut Vec<u32>, position: u32) -> Result<(), NoMemory>
    ensures { OnOk result ((test : ℕ → Bool) → list_any test positions.new.items ≡ (list_any test positions.old.items || test position)) }
{
    if let Some(last) = positions.last() {
        if *last == position {
            return Ok(());
        }
    }
    positions.push(position)?;
    Ok(())
}

// Whether a literal matches a unit.
fn is_alike(unit: u16, wanted: u16) -> bool
    ensures { result ≡ (folded unit == folded wanted) }
{
    to_ascii_uppercase(unit) == to_ascii_uppercase(wanted)
}

#[tactic(auto, using(crate::proofs::PositionLemmas::told_unlike, crate::proofs::PositionLemmas::told_none))]
// Puts the positions to which a unit leads from the first of these cells, which is at the position.
fn step_cells(
    positions: &mut Vec<u32>,
    cells: &[Cell],
    position: u32,
    unit: u16,
) -> Result<(), NoMemory>
    requires { position + length cells.now < 2 ^ 32 }
    ensures { OnOk result ((patterns : List (List Cell)) (k : ℕ) (later : List ℕ) → IsFrom patterns position cells.now
        → tells patterns positions.new.items k later ≡ (tells patterns positions.old.items k later || is_of k cells.now (unit ∷ later) position)) }
{
    let Some((cell, rest)) = cells.split_first() else {
        return Ok(());
    };
    match *cell {
        Cell::Any => {
            put(positions, position)?;
            step_cells(positions, rest, position + 1, unit)?;
            Ok(())
        }
        Cell::One => {
            put(positions, position + 1)?;
            Ok(())
        }
        Cell::Lit(wanted) => {
            if !is_alike(unit, wanted) {
                return Ok(());
            }
            put(positions, position + 1)?;
            Ok(())
        }
    }
}

#[tactic(auto, using(crate::proofs::PositionLemmas::left_past, crate::proofs::PositionLemmas::left_none))]
// Puts the positions to which a unit leads from a position.
fn step_position(
    positions: &mut Vec<u32>,
    patterns: &[Cells],
    position: u32,
    unit: u16,
) -> Result<(), NoMemory>
    requires few { length patterns.now ≤ 2 ^ 20 }
    requires short { AreShort patterns.now }
    ensures { OnOk result ((k : ℕ) (later : List ℕ)
        → tells patterns.now positions.new.items k later ≡ (tells patterns.now positions.old.items k later || is_position_of patterns.now k (unit ∷ later) position)) }
{
    let Some(cells) = patterns.get((position / 512) as usize) else {
        return Ok(());
    };
    let place = (position % 512) as usize;
    if cells.len() < place {
        return Ok(());
    }
    let (_, rest) = cells.as_slice().split_at(place);
    step_cells(positions, rest, position, unit)
}

/// The positions to which a unit leads from some positions.
///
/// # Errors
/// `NoMemory` if there was none for the positions.
pub(crate) fn step_positions(
    alloc: Global,
    patterns: &[Cells],
    positions: &[u32],
    unit: u16,
) -> Result<Vec<u32>, NoMemory>
    requires few { length patterns.now ≤ 2 ^ 20 }
    requires short { AreShort patterns.now }
    ensures { IfOk result (λ next. (k : ℕ) (later : List ℕ) → tells patterns.now next.items k later ≡ tells patterns.now positions.now k (unit ∷ later)) }
{
    let mut next = Vec::new(alloc);
    for position in positions {
        step_position(&mut next, patterns, *position, unit)?;
    }
    Ok(next)
}
