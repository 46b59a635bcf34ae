// Deterministic machines over words of units.
ghost use Rattle.std.specs.Prelude.{◌≡◌, ◌++◌, ◌∷◌, [], true, IfOk};
ghost use Rattle.sb_explore.specs.Exploring.{is_letter};

use crate::states::State;
use sb_base::NoMemory;
use std::alloc::Global;

/// A machine that reads words, unit by unit. Two relations say what its states mean. A word leads to a state if the machine is in it after the word. A
/// state stands for each word of which it tells what has to be known, also for words that lead to other states: then fewer states are needed.
pub trait Machine {
    ghost use Rattle.std.specs.Prelude.{List, ℕ};

    // The word leads to the state.
    ghost leads_to: { Self → List ℕ → List ℕ → Type 0 };

    // The state tells what has to be known of the word.
    ghost stands_for: { Self → List ℕ → List ℕ → Type 0 };

    // In the state, the letter may be read in place of the unit.
    ghost is_like: { Self → List ℕ → ℕ → ℕ → Type 0 };

    /// The state after the empty word.
    ///
    /// # Errors
    /// `NoMemory` if there was none for the state.
    fn start(&self, alloc: Global) -> Result<State, NoMemory>
        ensures leads { IfOk result (λ state. leads_to self.now [] state) }
        ensures stands { IfOk result (λ state. stands_for self.now [] state) };

    /// The letters that are tried in a state: one for each unit.
    ///
    /// # Errors
    /// `NoMemory` if there was none for the letters.
    fn letters(&self, alloc: Global, state: &State) -> Result<Vec<u16>, NoMemory>
        ensures own { IfOk result (λ letters. (letter : ℕ) → is_letter letters.items letter ≡ true → is_like self.now state.now letter letter) }
        ensures all { IfOk result (λ letters. (unit : ℕ) → (letter : ℕ) × (is_letter letters.items letter ≡ true) × is_like self.now state.now unit letter) };

    /// The state after one letter more.
    ///
    /// # Errors
    /// `NoMemory` if there was none for the state.
    fn next(&self, alloc: Global, state: &State, letter: u16) -> Result<State, NoMemory>
        ensures leads { IfOk result (λ next. (word : List ℕ) → is_like self.now state.now letter letter → leads_to self.now word state.now → leads_to self.now (word ++ letter ∷ []) next) }
        ensures stands { IfOk result (λ next. (word : List ℕ) (unit : ℕ) → is_like self.now state.now unit letter → stands_for self.now word state.now → stands_for self.now (word ++ unit ∷ []) next) };
}
