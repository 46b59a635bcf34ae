// The units that have to be tried at some positions in patterns.
ghost use Rattle.std.specs.Prelude.{◌≡◌, ◌==◌, true, List, IfOk, OnOk};
ghost use Rattle.std.specs.List.{list_all, list_any};
ghost use Rattle.sb_base.specs.Wide.{folded};
ghost use Rattle.sb_cover.specs.Letters.{are_noted, has_letter, is_noted, AreKept};

use crate::positions::Cells;
use sb_base::{NoMemory, to_ascii_uppercase};
use sb_rule::Cell;
use std::alloc::Global;

// Whether one of the letters is the unit, whatever its case.
fn has_letter(letters: &[u16], unit: u16) -> bool
    ensures { result ≡ has_letter letters.now unit }
{
    let wanted = to_ascii_uppercase(unit);
    for letter in letters {
        if to_ascii_uppercase(*letter) == wanted {
            return true;
        }
    }
    false
}

/// Puts a unit, unless it is there in either case.
pub(crate) fn note(letters: &mut Vec<u16>, unit: u16) -> Result<(), NoMemory>
    ensures here { OnOk result (has_letter letters.new.items unit ≡ true) }
    ensures kept { OnOk result (AreKept letters.old.items letters.new.items) }
{
    if has_letter(letters, unit) {
        return Ok(());
    }
    letters.push(unit)?;
    Ok(())
}

// Puts the literal that the next unit can meet, if there is one.
fn note_cells(letters: &mut Vec<u16>, cells: &[Cell]) -> Result<(), NoMemory>
    ensures here { OnOk result (are_noted letters.new.items cells.now ≡ true) }
    ensures kept { OnOk result (AreKept letters.old.items letters.new.items) }
{
    let mut cells = cells;
    while let Some((cell, rest)) = cells.split_first() {
        match *cell {
            Cell::Any => {}
            Cell::One => return Ok(()),
            Cell::Lit(unit) => {
                note(letters, unit)?;
                return Ok(());
            }
        }
        cells = rest;
    }
    Ok(())
}

// Puts the literal that the next unit can meet at a position.
fn note_position(letters: &mut Vec<u16>, patterns: &[Cells], position: u32) -> Result<(), NoMemory>
    ensures here { OnOk result (is_noted patterns.now letters.new.items position ≡ true) }
    ensures kept { OnOk result (AreKept letters.old.items letters.new.items) }
{
    let Some(cells) = patterns.get((position / 512) as usize) else {
        return Ok(());
    };
    let place = ((position % 512) as usize).min(cells.len());
    let (_, rest) = cells.as_slice().split_at(place);
    note_cells(letters, rest)?;
    Ok(())
}

/// Puts the literals that the next unit can meet at the positions, as the patterns name them.
///
/// # Errors
/// `NoMemory` if there was none for the units.
pub(crate) fn note_positions(
    letters: &mut Vec<u16>,
    patterns: &[Cells],
    positions: &[u32],
) -> Result<(), NoMemory>
    ensures here { OnOk result (list_all (is_noted patterns.now letters.new.items) positions.now ≡ true) }
    ensures kept { OnOk result (AreKept letters.old.items letters.new.items) }
{
    for position in positions {
        note_position(letters, patterns, *position)?;
    }
    Ok(())
}
