// The machine that reads a string: which conditions hold of it, as far as they can still decide, and whether it is a name.
ghost use Rattle.std.specs.Prelude.{◌≡◌, ◌≤◌, ◌^◌, ◌<◌, ◌++◌, ◌∷◌, ◌&&◌, ◌||◌, ◌==◌, [], ℕ, List, true, length, IfOk, OnOk};
ghost use Rattle.sb_explore.specs.Exploring.{is_letter};
ghost use Rattle.sb_cover.specs.AskedConds.{cond_at, is_text};
ghost use Rattle.sb_cover.specs.Modes.{mode_after};
ghost use Rattle.sb_cover.specs.Positions.{cells_at, tells};
ghost use Rattle.sb_cover.specs.Pruning.{is_needed, AllDecideAlike};
ghost use Rattle.sb_cover.specs.TextMachines.{told, LeadsTo, StandsFor, IsLike};
ghost use Rattle.sb_rule.specs.Matching.{matches};
ghost use Rattle.sb_rule.specs.declared.cells.Cell.{Cell};

use crate::asked_conds::{AskedCond, CondTable};
use crate::laws::texts_are_matched;
use crate::letters::{note, note_positions};
use crate::modes::{ANY, DEAD, mode_after};
use crate::open_rules::OpenQuestion;
use crate::positions::step_positions;
use crate::pruning::needed_conds;
use crate::signs::{is_needed, signs_of};
use sb_base::NoMemory;
use sb_explore::{Machine, State};
use sb_rule::Test;
use std::alloc::Global;

/// A machine that reads strings. Its states tell which rules hold, as far as that can still decide, and how far the string is a name.
pub(crate) struct TextMachine<'a> {
    /// The conditions.
    pub table: &'a CondTable,
    /// The rules that may hold.
    pub questions: &'a [OpenQuestion],
    /// The mode of the empty string.
    pub first: u32,
}

impl<'a> Drop for TextMachine<'a> {
    fn drop(self) {
        let TextMachine {
            table: _,
            questions: _,
            first: _,
        } = self;
    }
}

// The state of a mode and positions.
fn state_of(alloc: Global, mode: u32, positions: &[u32]) -> Result<State, NoMemory>
    ensures { IfOk result (λ state. state ≡ mode ∷ positions.now) }
{
    let mut numbers = Vec::new(alloc);
    numbers.push(mode)?;
    numbers.extend_from_slice(positions)?;
    Ok(State::new(numbers))
}

fn is_text(test: &Test) -> bool
    ensures { result ≡ is_text test.now }
{
    match test {
        Test::OneOf(_) | Test::Range { lo: _, hi: _ } | Test::Mask(_) => false,
        Test::Equal(_) | Test::Like(_) => true,
    }
}

// Puts the position at which the pattern of a condition begins, if it is one on strings.
fn put_first(positions: &mut Vec<u32>, asked: &AskedCond, number: u32) -> Result<(), NoMemory>
    requires { number < 2 ^ 20 }
    ensures { OnOk result ((patterns : List (List Cell)) (n : ℕ) (units : List ℕ) → tells patterns positions.new.items n units
        ≡ (tells patterns positions.old.items n units || ((number == n) && (is_text asked.now.cond.test && matches (cells_at patterns number) units)))) }
{
    if !is_text(&asked.cond.test) {
        return Ok(());
    }
    positions.push(number * 512)?;
    Ok(())
}

// The positions at which the patterns of conditions on strings begin.
fn first_positions(alloc: Global, conds: &[AskedCond]) -> Result<Vec<u32>, NoMemory>
    requires { length conds.now ≤ 2 ^ 20 }
    ensures { IfOk result (λ positions. (patterns : List (List Cell)) (n : ℕ) (units : List ℕ)
        → tells patterns positions.items n units ≡ (is_text (cond_at conds.now n).cond.test && matches (cells_at patterns n) units)) }
{
    let mut positions = Vec::new(alloc);
    for (number, asked) in conds.iter().enumerate() {
        put_first(&mut positions, asked, number as u32)?;
    }
    Ok(positions)
}

// The positions in patterns of conditions that are needed.
fn keep_needed(alloc: Global, positions: &[u32], needed: &[bool]) -> Result<Vec<u32>, NoMemory>
    ensures { IfOk result (λ kept. (patterns : List (List Cell)) (n : ℕ) (later : List ℕ) → is_needed needed.now n ≡ true
        → tells patterns kept.items n later ≡ tells patterns positions.now n later) }
{
    let mut kept = Vec::new(alloc);
    for position in positions {
        if is_needed(needed, (*position / 512) as usize) {
            kept.push(*position)?;
        }
    }
    Ok(kept)
}

// The positions without those that can decide nothing any more.
#[tactic(auto, using(crate::proofs::TextLemmas::kept_alike))]
fn prune(
    alloc: Global,
    table: &CondTable,
    questions: &[OpenQuestion],
    positions: &[u32],
) -> Result<Vec<u32>, NoMemory>
    ensures { IfOk result (λ kept. (later : List ℕ) → AllDecideAlike (told table.now.conds.items table.now.patterns.items positions.now later)
        (told table.now.conds.items table.now.patterns.items kept.items later) questions.now) }
{
    let signs = signs_of(alloc, table, positions)?;
    let needed = needed_conds(alloc, questions, &signs, table.conds.len())?;
    let kept = keep_needed(alloc, positions, &needed)?;
    Ok(kept)
}

// The state after one letter more.
fn read(
    alloc: Global,
    table: &CondTable,
    questions: &[OpenQuestion],
    mode: u32,
    positions: &[u32],
    letter: u16,
) -> Result<State, NoMemory>
    ensures leads { IfOk result (λ next. (first : ℕ) (word : List ℕ) → LeadsTo table.now.conds.items table.now.patterns.items questions.now first word (mode ∷ positions.now)
        → LeadsTo table.now.conds.items table.now.patterns.items questions.now first (word ++ letter ∷ []) next) }
    ensures stands { IfOk result (λ next. (first unit : ℕ) (word : List ℕ) → IsLike table.now.patterns.items (mode ∷ positions.now) unit letter
        → StandsFor table.now.conds.items table.now.patterns.items questions.now first word (mode ∷ positions.now)
        → StandsFor table.now.conds.items table.now.patterns.items questions.now first (word ++ unit ∷ []) next) }
{
    let mode = mode_after(mode, letter);
    if mode == DEAD {
        let state = state_of(alloc, DEAD, &[])?;
        return Ok(state);
    }
    let next = step_positions(alloc, &table.patterns, positions, letter)?;
    let kept = prune(alloc, table, questions, &next)?;
    let state = state_of(alloc, mode, &kept)?;
    Ok(state)
}

// The letters that are tried: one that stands for all that are not told apart, and those that are.
fn letters_at(
    alloc: Global,
    table: &CondTable,
    mode: u32,
    positions: &[u32],
) -> Result<Vec<u16>, NoMemory>
    ensures { IfOk result (λ letters. (unit : ℕ) → (letter : ℕ) × (is_letter letters.items letter ≡ true) × IsLike table.now.patterns.items (mode ∷ positions.now) unit letter) }
{
    let mut letters = Vec::new(alloc);
    note(&mut letters, table.other)?;
    if mode == ANY {
        note_positions(&mut letters, &table.patterns, positions)?;
        return Ok(letters);
    }
    note(&mut letters, 92)?;
    note_positions(&mut letters, &table.patterns, positions)?;
    Ok(letters)
}

impl<'a> Machine for TextMachine<'a> {
    ghost leads_to = { λ machine word state. LeadsTo machine.table.now.conds.items machine.table.now.patterns.items machine.questions.now machine.first word state };

    ghost stands_for = { λ machine word state. StandsFor machine.table.now.conds.items machine.table.now.patterns.items machine.questions.now machine.first word state };

    ghost is_like = { λ machine state unit letter. IsLike machine.table.now.patterns.items state unit letter };

    #[tactic(auto, using(crate::proofs::TextLemmas::start_leads, crate::proofs::TextLemmas::start_stands))]
    fn start(&self, alloc: Global) -> Result<State, NoMemory> {
        texts_are_matched();
        let positions = first_positions(alloc, &self.table.conds)?;
        let kept = prune(alloc, self.table, self.questions, &positions)?;
        let state = state_of(alloc, self.first, &kept)?;
        Ok(state)
    }

    #[tactic(auto, using(crate::proofs::LetterLemmas::like_itself, crate::proofs::TextLemmas::letter_none))]
    fn letters(&self, alloc: Global, state: &State) -> Result<Vec<u16>, NoMemory> {
        match state.numbers().split_first() {
            Some((mode, positions)) => {
                let letters = letters_at(alloc, self.table, *mode, positions)?;
                Ok(letters)
            }
            None => {
                let letters = letters_at(alloc, self.table, DEAD, &[])?;
                Ok(letters)
            }
        }
    }

    fn next(&self, alloc: Global, state: &State, letter: u16) -> Result<State, NoMemory> {
        match state.numbers().split_first() {
            Some((mode, positions)) => {
                let next = read(alloc, self.table, self.questions, *mode, positions, letter)?;
                Ok(next)
            }
            None => {
                let next = state_of(alloc, DEAD, &[])?;
                Ok(next)
            }
        }
    }
}
