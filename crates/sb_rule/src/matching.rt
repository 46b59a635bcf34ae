// Matching by rows. A row tells for each place in a pattern whether the cells from that place on match a string; the rows
// are those of the string's ends, from the empty one to the whole string.
ghost use Rattle.std.specs.Prelude.{◌≡◌, ◌≤◌, ◌∷◌, [], ℕ, List, length};
ghost use Rattle.sb_rule.specs.PatternLimits.{most_units};
ghost use Rattle.sb_rule.specs.Matching.{matches};
ghost use Rattle.sb_rule.specs.Rows.{IsRow};
ghost use Rattle.sb_rule.specs.declared.cells.Cell.{Cell};

use crate::cells::Cell;
use sb_base::to_ascii_uppercase;

// The places in a pattern of 256 cells, its end included.
const PLACES: usize = 257;

// Whether a cell and those after it match the empty string, given whether those after it do.
fn matches_nothing(cell: Cell, after: bool) -> bool
    ensures { (cells : List Cell) → after ≡ matches cells [] → result ≡ matches (cell ∷ cells) [] }
{
    match cell {
        Cell::Any => after,
        Cell::Lit(_) | Cell::One => false,
    }
}

// The row of the empty string.
fn empty_row(cells: &[Cell]) -> [bool; PLACES]
    requires { length cells.now ≤ most_units }
    ensures { IsRow cells.now [] result }
{
    let mut row = [false; PLACES];
    let mut at = cells.len();
    row[at] = true;
    while at > 0 {
        let after = row[at];
        at -= 1;
        row[at] = matches_nothing(cells[at], after);
    }
    row
}

// Whether a cell and those after it match a unit and those after it. Given is whether they match without the unit,
// whether they match without both, and whether they match without the cell.
fn matches_from(
    cell: Cell,
    unit: u16,
    without_unit: bool,
    without_both: bool,
    without_cell: bool,
) -> bool
    ensures { (cells : List Cell) (units : List ℕ) → without_unit ≡ matches (cell ∷ cells) units → without_both ≡ matches cells units
        → without_cell ≡ matches cells (unit ∷ units) → result ≡ matches (cell ∷ cells) (unit ∷ units) }
{
    match cell {
        Cell::Any => without_cell || without_unit,
        Cell::Lit(wanted) => to_ascii_uppercase(unit) == to_ascii_uppercase(wanted) && without_both,
        Cell::One => without_both,
    }
}

// Puts a unit before a string: makes the row of the longer string out of that of the shorter one.
fn put_unit(cells: &[Cell], unit: u16, row: &mut [bool; PLACES])
    requires { length cells.now ≤ most_units }
    ensures { (units : List ℕ) → IsRow cells.now units row.old → IsRow cells.now (unit ∷ units) row.new }
{
    let mut at = cells.len();
    let mut without_both = row[at];
    row[at] = false;
    while at > 0 {
        let without_cell = row[at];
        at -= 1;
        let without_unit = row[at];
        row[at] = matches_from(cells[at], unit, without_unit, without_both, without_cell);
        without_both = without_unit;
    }
}

// Whether the cells match the units.
pub(crate) fn matches(cells: &[Cell], units: &[u16]) -> bool
    requires { length cells.now ≤ most_units }
    ensures { result ≡ matches cells.now units.now }
{
    let mut row = empty_row(cells);
    let mut before = units;
    while let Some((unit, earlier)) = before.split_last() {
        put_unit(cells, *unit, &mut row);
        before = earlier;
    }
    row[0]
}
