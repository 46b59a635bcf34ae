// The numbers that the beginnings of strings and patterns are.
ghost use Rattle.std.specs.Prelude.{◌≡◌, ◌+◌, ◌*◌, ◌^◌, ◌≤◌, ℕ, suc, drop, length};
ghost use Rattle.sb_index.specs.Fronts.{digit, key, edge, past};

use sb_base::to_ascii_uppercase;
use sb_rule::Cell;

// Four digits as one number, the first digit highest.
fn join(a: u16, b: u16, c: u16, d: u16) -> u64
    ensures { result ≡ a * 65536 ^ 3 + (b * 65536 ^ 2 + (c * 65536 + d)) }
{
    u64::from(d) | u64::from(c) << 16 | u64::from(b) << 32 | u64::from(a) << 48
}

fn digit(unit: u16) -> u16
    ensures { result ≡ digit unit }
{
    to_ascii_uppercase(unit)
}

// The first digit of a string, and the string after it.
fn first_digit(units: &[u16]) -> (u16, &[u16])
    ensures { (n : ℕ) → key (suc n) units.now ≡ result.0 * 65536 ^ n + key n result.1.now }
{
    match units.split_first() {
        Some((unit, later)) => (digit(*unit), later),
        None => (0, units),
    }
}

/// The first four units of a string as a number, folded.
pub fn key(units: &[u16]) -> u64
    ensures { result ≡ key 4 units.now }
{
    let (a, units) = first_digit(units);
    let (b, units) = first_digit(units);
    let (c, units) = first_digit(units);
    let (d, _) = first_digit(units);
    join(a, b, c, d)
}

/// What is left of a string after this many units.
pub fn rest_after(units: &[u16], skip: usize) -> &[u16]
    ensures { result.now ≡ drop skip units.now }
{
    units.get(skip..).unwrap_or(&[])
}

// The first digit of cells, and the cells after it. From the first cell that is no literal on, the digit is `fill`.
fn first_edge(cells: &[Cell], fill: u16) -> (u16, &[Cell])
    ensures { (n : ℕ) → edge fill (suc n) cells.now ≡ result.0 * 65536 ^ n + edge fill n result.1.now }
{
    match cells.split_first() {
        Some((Cell::Lit(unit), later)) => (digit(*unit), later),
        _ => (fill, &[]),
    }
}

/// The four digits with which cells begin as a number. From the first cell that is no literal on, the digit is `fill`.
pub fn edge(cells: &[Cell], fill: u16) -> u64
    ensures { result ≡ edge fill 4 cells.now }
{
    let (a, cells) = first_edge(cells, fill);
    let (b, cells) = first_edge(cells, fill);
    let (c, cells) = first_edge(cells, fill);
    let (d, _) = first_edge(cells, fill);
    join(a, b, c, d)
}

/// The cells after this many, or from the first star among them on.
pub fn past(cells: &[Cell], skip: usize) -> &[Cell]
    ensures { result.now ≡ past skip cells.now }
{
    let mut cells = cells;
    let mut skip = skip;
    while skip > 0 {
        match cells.split_first() {
            Some((Cell::Lit(_) | Cell::One, later)) => cells = later,
            _ => return cells,
        }
        skip -= 1;
    }
    cells
}
