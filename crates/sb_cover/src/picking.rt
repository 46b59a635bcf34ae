// One string for each label of the states that accept.
ghost use Rattle.std.specs.Prelude.{◌≡◌, ◌<◌, ◌&&◌, [], ℕ, true, nat_lt, length, IfOk, OnOk};
ghost use Rattle.std.specs.List.{list_all};
ghost use Rattle.sb_cover.specs.AskedConds.{by_negation};
ghost use Rattle.sb_explore.specs.Exploring.{list_at, AreByLength};
ghost use Rattle.sb_rule.specs.Matching.{matches};
ghost use Rattle.sb_cover.specs.Choices.{ArePicked, IsNoted, IsPicked};
ghost use Rattle.sb_cover.specs.Positions.{cells_from, tells};
ghost use Rattle.sb_cover.specs.Pruning.{is_true};
ghost use Rattle.sb_cover.specs.Shown.{is_shown};
ghost use Rattle.sb_cover.specs.TextMachines.{told, LeadsTo};

use crate::asked_conds::CondTable;
use crate::labels::label_of;
use crate::modes::is_accepting;
use crate::open_rules::OpenQuestion;
use crate::positions::Cells;
use crate::pruning::is_set;
use crate::shown::text_in_place;
use crate::signs::set;
use indexmap::IndexSet;
use sb_base::{NoMemory, Wide};
use sb_explore::State;
use sb_rule::Cell;
use std::alloc::Global;

/// Strings, each with a label that no other one has.
#[derive(Drop)]
pub(crate) struct Picked {
    /// The strings.
    pub values: Vec<Wide>,
    /// Their labels, in the same order.
    pub labels: IndexSet<State>,
}

// Whether the cells match the empty string.
fn match_nothing(cells: &[Cell]) -> bool
    ensures { result ≡ matches cells.now [] }
{
    for cell in cells {
        match *cell {
            Cell::Any => {}
            Cell::One | Cell::Lit(_) => return false,
        }
    }
    true
}

// Whether the cells from a position on match the empty string.
fn does_end(patterns: &[Cells], position: u32) -> bool
    ensures { result ≡ matches (cells_from patterns.now position) [] }
{
    let Some(cells) = patterns.get((position / 512) as usize) else {
        return true;
    };
    let place = ((position % 512) as usize).min(cells.len());
    let (_, rest) = cells.as_slice().split_at(place);
    match_nothing(rest)
}

#[tactic(auto, using(crate::proofs::PickLemmas::ended_one, crate::proofs::PickLemmas::not_ended_one))]
// Which patterns match, if nothing follows.
fn matched_patterns(
    alloc: Global,
    patterns: &[Cells],
    positions: &[u32],
    count: usize,
) -> Result<Vec<bool>, NoMemory>
    ensures { IfOk result (λ matched. (n : ℕ) → is_true matched.items n ≡ (nat_lt n count && tells patterns.now positions.now n [])) }
{
    let mut matched = Vec::new(alloc);
    matched.resize(count, false)?;
    for position in positions {
        if does_end(patterns, *position) {
            set(&mut matched, *position / 512);
        }
    }
    Ok(matched)
}

/// The opposite, if a condition is negated.
pub(crate) fn by_negation(negated: bool, holds: bool) -> bool
    ensures { result ≡ by_negation negated holds }
{
    if negated { !holds } else { holds }
}

#[tactic(auto, using(crate::proofs::PickLemmas::truth_one, crate::proofs::PickLemmas::truths_all))]
// Which conditions hold, if nothing follows.
fn truths_of(alloc: Global, table: &CondTable, positions: &[u32]) -> Result<Vec<bool>, NoMemory>
    ensures { IfOk result (λ truths. (n : ℕ) → is_true truths.items n ≡ told table.now.conds.items table.now.patterns.items positions.now [] n) }
{
    let matched = matched_patterns(alloc, &table.patterns, positions, table.conds.len())?;
    let mut truths = Vec::new(alloc);
    for (number, asked) in table.conds.iter().enumerate() {
        truths.push(by_negation(asked.cond.negated, is_set(&matched, number)))?;
    }
    Ok(truths)
}

/// Notes a label, unless it is there. Returns whether it is new.
///
/// # Errors
/// `NoMemory` if there was none for it.
pub(crate) fn note_label(labels: &mut IndexSet<State>, label: State) -> Result<bool, NoMemory>
    ensures { IfOk result (λ is_new. IsNoted is_new label labels.old.keys labels.new.keys) }
{
    let (_, is_new) = labels.insert_full(label)?;
    Ok(is_new)
}

#[tactic(auto, using(crate::proofs::PickLemmas::picked_empty, crate::proofs::PickLemmas::picked_none, crate::proofs::PickLemmas::picked_old, crate::proofs::PickLemmas::picked_new, crate::proofs::PickLemmas::shown_push))]
// Looks at a state with its word. Keeps the word if the state accepts and its label is new.
fn pick(
    alloc: Global,
    table: &CondTable,
    questions: &[OpenQuestion],
    state: &State,
    word: &[u16],
    picked: &mut Picked,
) -> Result<(), NoMemory>
    ensures picked { OnOk result (IsPicked table.now.conds.items table.now.patterns.items questions.now word.now state.now picked.old.values.items picked.old.labels.keys picked.new.values.items picked.new.labels.keys) }
    ensures shown { OnOk result (table.now.is_plain ≡ true → list_all is_shown picked.old.values.items ≡ true → list_all is_shown picked.new.values.items ≡ true) }
{
    let Some((mode, positions)) = state.numbers().split_first() else {
        return Ok(());
    };
    if !is_accepting(*mode) {
        return Ok(());
    }
    let truths = truths_of(alloc, table, positions)?;
    let label = label_of(alloc, questions, &truths)?;
    let is_new = note_label(&mut picked.labels, label)?;
    if !is_new {
        return Ok(());
    }
    let value = text_in_place(alloc, table, word)?;
    picked.values.push(value)?;
    Ok(())
}

/// Of the words of states one for each label, a shortest one.
///
/// # Errors
/// `NoMemory` if there was none for the words.
pub(crate) fn pick_all(
    alloc: Global,
    table: &CondTable,
    questions: &[OpenQuestion],
    states: &[State],
    words: &[Wide],
) -> Result<Picked, NoMemory>
    requires { length words.now ≡ length states.now }
    ensures all { IfOk result (λ picked. (first : ℕ) → AreByLength words.now
        → ((k : ℕ) → k < length states.now → LeadsTo table.now.conds.items table.now.patterns.items questions.now first (list_at words.now k) (list_at states.now k))
        → ArePicked table.now.conds.items table.now.patterns.items questions.now first words.now states.now (length states.now) picked.values.items picked.labels.keys) }
    ensures shown { IfOk result (λ picked. table.now.is_plain ≡ true → list_all is_shown picked.values.items ≡ true) }
{
    let mut picked = Picked {
        values: Vec::new(alloc),
        labels: IndexSet::new(alloc),
    };
    for (place, state) in states.iter().enumerate() {
        pick(
            alloc,
            table,
            questions,
            state,
            words[place].as_units(),
            &mut picked,
        )?;
    }
    Ok(picked)
}
