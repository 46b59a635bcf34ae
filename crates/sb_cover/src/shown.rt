// Strings that a script can have, in place of others that the same patterns match.
ghost use Rattle.std.specs.Prelude.{◌≡◌, ℕ, Bool, true, false, IfOk};
ghost use Rattle.sb_cover.specs.Choices.{IsInPlace};
ghost use Rattle.sb_cover.specs.Shown.{is_plain_unit, is_shown, starts_low, unit_for, begins_pair, mended, are_plain, fits_after, begins_after};

use crate::asked_conds::CondTable;
use crate::laws::texts_are_matched;
use sb_base::{NoMemory, Wide, is_high_surrogate, is_low_surrogate, walks_find_pairs};
use sb_rule::Cell;
use std::alloc::Global;

/// Whether a script can have a unit by itself: no control unit, no `"` and no half of a pair.
pub(crate) fn is_plain_unit(unit: u16) -> bool
    ensures { result ≡ is_plain_unit unit }
{
    unit >= 32 && unit != 34 && !(is_high_surrogate(unit) || is_low_surrogate(unit))
}

fn starts_low(units: &[u16]) -> bool
    ensures { result ≡ starts_low units.now }
{
    match units.split_first() {
        Some((unit, _)) => is_low_surrogate(*unit),
        None => false,
    }
}

// The unit that is shown in place of one.
fn unit_for(other: u16, follows: bool, unit: u16, later: &[u16]) -> u16
    ensures { result ≡ unit_for other follows unit later.now }
{
    if follows || ((is_high_surrogate(unit) && starts_low(later)) || is_plain_unit(unit)) {
        unit
    } else {
        other
    }
}

// Whether a unit is the first half of a pair.
fn begins_pair(follows: bool, unit: u16, later: &[u16]) -> bool
    ensures { result ≡ begins_pair follows unit later.now }
{
    !follows && (is_high_surrogate(unit) && starts_low(later))
}

// The units, with another one in place of each that no script can have.
#[tactic(auto, using(crate::proofs::ShownLemmas::mended_step))]
fn mended(alloc: Global, units: &[u16], other: u16) -> Result<Wide, NoMemory>
    ensures { IfOk result (λ text. text ≡ mended other false units.now) }
{
    let mut shown = Vec::with_capacity(alloc, units.len())?;
    let mut follows = false;
    let mut units = units;
    while let Some((unit, later)) = units.split_first() {
        shown.push(unit_for(other, follows, *unit, later))?;
        follows = begins_pair(follows, *unit, later);
        units = later;
    }
    Ok(Wide::new(shown))
}

fn fits_after(follows: bool, cell: Cell) -> bool
    ensures { result ≡ fits_after follows cell }
{
    match cell {
        Cell::One | Cell::Any => !follows,
        Cell::Lit(unit) => {
            if follows {
                is_low_surrogate(unit)
            } else {
                is_high_surrogate(unit) || is_plain_unit(unit)
            }
        }
    }
}

fn begins_after(follows: bool, cell: Cell) -> bool
    ensures { result ≡ begins_after follows cell }
{
    match cell {
        Cell::One | Cell::Any => false,
        Cell::Lit(unit) => !follows && is_high_surrogate(unit),
    }
}

/// Whether a script can have the literals of a pattern.
#[tactic(auto, using(crate::proofs::ShownLemmas::plain_step))]
pub(crate) fn are_plain(cells: &[Cell]) -> bool
    ensures { result ≡ are_plain false cells.now }
{
    let mut follows = false;
    for cell in cells {
        if !fits_after(follows, *cell) {
            return false;
        }
        follows = begins_after(follows, *cell);
    }
    !follows
}

/// A string that is as long as the given one, is accepted where it is, and of which the same conditions hold. If a script can have all that patterns name,
/// it can have this string.
///
/// # Errors
/// `NoMemory` if there was none for the string.
pub(crate) fn text_in_place(
    alloc: Global,
    table: &CondTable,
    units: &[u16],
) -> Result<Wide, NoMemory>
    ensures in_place { IfOk result (IsInPlace table.now.conds.items units.now) }
    ensures shown { IfOk result (λ text. table.now.is_plain ≡ true → is_shown text ≡ true) }
{
    if !table.is_plain {
        let text = Wide::from_units(alloc, units)?;
        return Ok(text);
    }
    walks_find_pairs();
    texts_are_matched();
    let text = mended(alloc, units, table.other)?;
    Ok(text)
}
