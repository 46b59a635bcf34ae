// The opcodes of patterns. A pattern is cut at its stars, and each run of cells between them is one opcode.
ghost use Rattle.std.specs.Prelude.{◌≡◌, ◌+◌, ◌<◌, ◌≤◌, ◌^◌, ◌++◌, ◌∷◌, [], length, position, OnOk, MatchOption, IfOk, ⊤};
ghost use Rattle.std.specs.List.{slice_split, prefix_len};
ghost use Rattle.sb_rule.specs.Chunks.{is_any};
ghost use Rattle.sb_rule.specs.PatternLimits.{most_units};
ghost use Rattle.sb_compile.specs.Compiling.{closed, is_one, here, later_code, runs_code};
ghost use Rattle.sb_compile.specs.Steps.{last_if};

use crate::groups::{Group, is_none, whole_string};
use bitflags::Flags;
use sb_base::NoMemory;
use sb_opcode::{Code, OpKind, Options, Seek};
use sb_rule::Cell;

fn is_star(cell: &Cell) -> bool
    ensures { result ≡ is_any cell.now }
{
    matches!(cell, Cell::Any)
}

fn is_question(cell: &Cell) -> bool
    ensures { result ≡ is_one cell.now }
{
    matches!(cell, Cell::One)
}

fn star_at(cells: &[Cell]) -> Option<usize>
    ensures { result ≡ position is_any cells.now }
{
    cells.iter().position(is_star)
}

// The cells before the first star, and those after it. None if there is no star.
#[tactic(auto, using(crate::proofs::Stars::no_star, crate::proofs::Stars::first_star, crate::proofs::Stars::star_below))]
fn cut_at_star(cells: &[Cell]) -> Option<(&[Cell], &[Cell])>
    ensures parts { MatchOption result (slice_split is_any cells.now ≡ cells.now ∷ [])
        (λ parts. slice_split is_any cells.now ≡ parts.0.now ∷ slice_split is_any parts.1.now) }
    ensures shorter { MatchOption result (⊤) (λ parts. length parts.0.now + length parts.1.now + 1 ≡ length cells.now) }
{
    let at = star_at(cells)?;
    let (run, rest) = cells.split_at(at);
    let (_, later) = rest.split_at(1);
    Some((run, later))
}

// How many `?` the cells begin with.
fn questions(cells: &[Cell]) -> usize
    ensures count { result ≡ prefix_len is_one cells.now }
    ensures most { result ≤ length cells.now }
{
    let mut count = 0;
    while count < cells.len() && is_question(&cells[count]) {
        count += 1;
    }
    count
}

// Appends the opcode of cells that are compared at the position. The `?` that they begin with are skipped.
fn push_here(
    code: &mut Code,
    group: Group,
    options: Options,
    cells: &[Cell],
    is_last: bool,
) -> Result<(), NoMemory>
    requires room { length code.old + 1 < 2 ^ 32 }
    requires short { length cells.now ≤ most_units }
    ensures { OnOk result (code.new ≡ code.old ++ last_if is_last group.negated (here group.param options.0 cells.now) ∷ []) }
{
    let skip = questions(cells);
    let (_, cells) = cells.split_at(skip);
    let seek = Seek::Skip(skip as u16);
    group.push_text(code, options, seek, cells, is_last)
}

// Appends the opcodes of what follows the first star.
fn push_later(code: &mut Code, group: Group, cells: &[Cell]) -> Result<(), NoMemory>
    requires { length code.old + length cells.now + 1 < 2 ^ 32 }
    ensures ok { OnOk result (code.new ≡ code.old ++ closed group.negated (later_code group.param (slice_split is_any cells.now))) }
    ensures few { OnOk result (length code.new ≤ length code.old + length cells.now) }
{
    let mut rest = cells;
    while let Some((run, later)) = cut_at_star(rest) {
        group.push_text(code, Options::FOLD, Seek::Forward, run, is_none(later))?;
        rest = later;
    }
    if is_none(rest) {
        return Ok(());
    }
    group.push_text(code, Options::FOLD, Seek::ToEnd, rest, true)
}

// Appends the opcodes of a star and of what follows it.
#[tactic(auto, using(crate::proofs::Steps::star_pushed))]
fn push_star(code: &mut Code, group: Group, later: &[Cell]) -> Result<(), NoMemory>
    requires { length code.old + length later.now + 1 < 2 ^ 32 }
    ensures ok { OnOk result (code.new ≡ code.old ++ closed group.negated (runs_code group.param ([] ∷ slice_split is_any later.now))) }
    ensures few { OnOk result (length code.new ≤ length code.old + length later.now + 1) }
{
    if is_none(later) {
        let all = Group {
            param: 0,
            negated: group.negated,
        };
        return all.push(code, Options::empty(), OpKind::True, true);
    }
    push_later(code, group, later)
}

// Appends the opcodes of cells around the first star.
#[tactic(auto, using(crate::proofs::Steps::parts_pushed))]
fn push_parts(code: &mut Code, group: Group, run: &[Cell], later: &[Cell]) -> Result<(), NoMemory>
    requires room { length code.old + length run.now + length later.now + 1 < 2 ^ 32 }
    requires short { length run.now ≤ most_units }
    ensures ok { OnOk result (code.new ≡ code.old ++ closed group.negated (runs_code group.param (run.now ∷ slice_split is_any later.now))) }
    ensures few { OnOk result (length code.new ≤ length code.old + length run.now + length later.now + 1) }
{
    if is_none(run) {
        return push_star(code, group, later);
    }
    push_here(code, group, Options::FOLD, run, is_none(later))?;
    push_later(code, group, later)?;
    Ok(())
}

// Appends the opcodes of a pattern.
pub(crate) fn push_pattern(code: &mut Code, group: Group, cells: &[Cell]) -> Result<(), NoMemory>
    requires room { length code.old + length cells.now + 1 < 2 ^ 32 }
    requires short { length cells.now ≤ most_units }
    ensures ok { OnOk result (code.new ≡ code.old ++ closed group.negated (runs_code group.param (slice_split is_any cells.now))) }
    ensures few { OnOk result (length code.new ≤ length code.old + length cells.now + 1) }
{
    match cut_at_star(cells) {
        Some((run, later)) => push_parts(code, group, run, later),
        None => push_here(code, group, whole_string(), cells, true),
    }
}
