// Where a fragment is found in a string. The fragment's cells are packed words, and a position is what is left of the
// string from there on.
ghost use Rattle.std.specs.Prelude.{◌≡◌, map, option_map, Some};
ghost use Rattle.sb_opcode.specs.Unpacking.{cell_of};
ghost use Rattle.sb_opcode.specs.Fragments.{unit_fits, after_fragment, after_units, after_first, after_end, after_seek, at_end, has_front};

use crate::opcodes::Seek;
use sb_base::to_ascii_uppercase;

// The word of `?`, above those of all units.
const ONE: u64 = 65536;

#[inline(always)]
fn unit_fits(folding: bool, cell: u64, unit: u16) -> bool
    ensures { result ≡ unit_fits folding (cell_of cell) unit }
{
    if cell == u64::from(unit) {
        return true;
    }
    if cell >= ONE {
        return cell == ONE;
    }
    folding && to_ascii_uppercase(unit) == to_ascii_uppercase(cell as u16)
}

fn after_fragment<'a>(folding: bool, cells: &[u64], units: &'a [u16]) -> Option<&'a [u16]>
    ensures { option_map (λ us. us.now) result ≡ after_fragment folding (map cell_of cells.now) units.now }
{
    let mut cells = cells;
    let mut units = units;
    while let Some((cell, later_cells)) = cells.split_first() {
        let (unit, later_units) = units.split_first()?;
        if !unit_fits(folding, *cell, *unit) {
            return None;
        }
        cells = later_cells;
        units = later_units;
    }
    Some(units)
}

// Whether a fragment fits a string from its beginning on, folded, and has no unit after it if it is to be the whole.
pub(crate) fn has_front(cells: &[u64], whole: bool, units: &[u16]) -> bool
    ensures { result ≡ has_front (map cell_of cells.now) whole units.now }
{
    match after_fragment(true, cells, units) {
        Some(left) => !whole || at_end(left).is_some(),
        None => false,
    }
}

fn after_units(count: u16, units: &[u16]) -> Option<&[u16]>
    ensures { option_map (λ us. us.now) result ≡ after_units count units.now }
{
    units.get(count as usize..)
}

fn after_first<'a>(folding: bool, cells: &[u64], units: &'a [u16]) -> Option<&'a [u16]>
    ensures { option_map (λ us. us.now) result ≡ after_first folding (map cell_of cells.now) units.now }
{
    let mut rest = units;
    while let Some((_, later)) = rest.split_first() {
        if let Some(left) = after_fragment(folding, cells, rest) {
            return Some(left);
        }
        rest = later;
    }
    after_fragment(folding, cells, rest)
}

fn after_end<'a>(folding: bool, cells: &[u64], units: &'a [u16]) -> Option<&'a [u16]>
    ensures { option_map (λ us. us.now) result ≡ after_end folding (map cell_of cells.now) units.now }
{
    if cells.len() > units.len() {
        return None;
    }
    let (_, end) = units.split_at(units.len() - cells.len());
    after_fragment(folding, cells, end)
}

// What is left after the fragment, if it is found where it is sought.
pub(crate) fn after_seek<'a>(
    seek: Seek,
    folding: bool,
    cells: &[u64],
    units: &'a [u16],
) -> Option<&'a [u16]>
    ensures { option_map (λ us. us.now) result ≡ after_seek seek folding (map cell_of cells.now) units.now }
{
    match seek {
        Seek::Skip(count) => after_fragment(folding, cells, after_units(count, units)?),
        Seek::Forward => after_first(folding, cells, units),
        Seek::ToEnd => after_end(folding, cells, units),
    }
}

// The position, if nothing is left.
pub(crate) fn at_end(left: &[u16]) -> Option<&[u16]>
    ensures { option_map (λ us. us.now) result ≡ at_end (Some left.now) }
{
    match left.split_first() {
        Some(_) => None,
        None => Some(left),
    }
}
