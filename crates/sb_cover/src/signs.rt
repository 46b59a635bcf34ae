// What positions in patterns tell for sure, whatever units follow.
ghost use Rattle.std.specs.Prelude.{◌≡◌, ◌⊎◌, ◌/◌, ◌&&◌, ◌||◌, ◌==◌, ℕ, List, length, nat_lt, not, true, false, IfOk, if◌then◌else◌};
ghost use Rattle.sb_cover.specs.Positions.{tells, is_position_of};
ghost use Rattle.sb_cover.specs.Pruning.{is_needed, is_true, AreSure};
ghost use Rattle.sb_cover.specs.TextMachines.{told};
ghost use Rattle.sb_rule.specs.declared.cells.Cell.{Cell};

use crate::asked_conds::{AskedCond, CondTable};
use crate::positions::Cells;
use crate::pruning::{Signs, is_set, need};
use sb_base::NoMemory;
use sb_rule::{Cell, star_matches_all};
use std::alloc::Global;

/// Whether a flag is set, or there is none.
pub(crate) fn is_needed(flags: &[bool], number: usize) -> bool
    ensures { result ≡ is_needed flags.now number }
{
    match flags.get(number) {
        Some(flag) => *flag,
        None => true,
    }
}

/// Sets the flag of a number, if it has one.
pub(crate) fn set(flags: &mut Vec<bool>, number: u32)
    ensures long { length flags.new.items ≡ length flags.old.items }
    ensures only { (n : ℕ) → is_true flags.new.items n ≡ true → (is_true flags.old.items n ≡ true) ⊎ (number ≡ n) }
    ensures all { (n : ℕ) → is_true flags.new.items n ≡ (is_true flags.old.items n || ((number == n) && nat_lt n (length flags.old.items))) }
{
    let place = number as usize;
    if place < flags.len() {
        flags[place] = true;
    }
}

// Which patterns have a position.
fn live_patterns(alloc: Global, positions: &[u32], count: usize) -> Result<Vec<bool>, NoMemory>
    ensures { IfOk result (λ live. (patterns : List (List Cell)) (n : ℕ) (later : List ℕ) → is_needed live.items n ≡ false → tells patterns positions.now n later ≡ false) }
{
    let mut live = Vec::new(alloc);
    live.resize(count, false)?;
    for position in positions {
        need(&mut live, *position / 512);
    }
    Ok(live)
}

// Whether nothing but a star is left of the pattern.
fn is_last_star(patterns: &[Cells], position: u32) -> bool
    ensures { result ≡ true → (later : List ℕ) → is_position_of patterns.now (position / 512) later position ≡ true }
{
    star_matches_all();
    let Some(cells) = patterns.get((position / 512) as usize) else {
        return false;
    };
    let place = ((position % 512) as usize).min(cells.len());
    let (_, rest) = cells.as_slice().split_at(place);
    match rest.split_first() {
        Some((Cell::Any, more)) => more.is_empty(),
        _ => false,
    }
}

// Which patterns match whatever follows.
fn sure_patterns(
    alloc: Global,
    patterns: &[Cells],
    positions: &[u32],
    count: usize,
) -> Result<Vec<bool>, NoMemory>
    ensures { IfOk result (λ sure. (n : ℕ) (later : List ℕ) → is_true sure.items n ≡ true → tells patterns.now positions.now n later ≡ true) }
{
    let mut sure = Vec::new(alloc);
    sure.resize(count, false)?;
    for position in positions {
        if is_last_star(patterns, *position) {
            set(&mut sure, *position / 512);
        }
    }
    Ok(sure)
}

// Whether a condition fails for sure, by whether its pattern may still match and whether it matches for sure.
fn does_fail(asked: &AskedCond, is_live: bool, is_sure: bool) -> bool
    ensures { result ≡ (if asked.now.cond.negated then is_sure else not is_live) }
{
    if asked.cond.negated {
        is_sure
    } else {
        !is_live
    }
}

// Whether a condition holds for sure.
fn does_hold(asked: &AskedCond, is_live: bool, is_sure: bool) -> bool
    ensures { result ≡ (if asked.now.cond.negated then not is_live else is_sure) }
{
    if asked.cond.negated {
        !is_live
    } else {
        is_sure
    }
}

/// What the positions tell for sure of the conditions on strings.
///
/// # Errors
/// `NoMemory` if there was none for it.
pub(crate) fn signs_of(
    alloc: Global,
    table: &CondTable,
    positions: &[u32],
) -> Result<Signs, NoMemory>
    ensures { IfOk result (λ signs. (later : List ℕ) → AreSure signs.fails.items signs.holds.items (told table.now.conds.items table.now.patterns.items positions.now later)) }
{
    let live = live_patterns(alloc, positions, table.conds.len())?;
    let sure = sure_patterns(alloc, &table.patterns, positions, table.conds.len())?;
    let mut fails = Vec::new(alloc);
    let mut holds = Vec::new(alloc);
    for (number, asked) in table.conds.iter().enumerate() {
        let is_live = is_needed(&live, number);
        let is_sure = is_set(&sure, number);
        fails.push(does_fail(asked, is_live, is_sure))?;
        holds.push(does_hold(asked, is_live, is_sure))?;
    }
    Ok(Signs { fails, holds })
}
