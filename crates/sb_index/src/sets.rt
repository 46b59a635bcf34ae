// Sets of rules by their numbers.
ghost use Rattle.std.specs.Prelude.{◌≡◌, ◌≤◌, ◌<◌, ◌==◌, ◌&&◌, ◌||◌, ℕ, true, false, nat_lt, MatchOption};
ghost use Rattle.sb_index.specs.Sets.{has, Has, HasAtMostOne, HasSeveral};

use std::marker::Model;

/// A set of numbers below 256, seen as its four words.
#[derive(Drop)]
pub struct RuleSet {
    words: [u64; 4],
}

impl Model for RuleSet {
    ghost use Rattle.std.specs.Prelude.{List, ℕ};

    ghost Value = { List ℕ };

    ghost view = { λ s. s.words };
}

impl RuleSet {
    #[tactic(auto, using(crate::proofs::SetLemmas::none_has))]
    /// The set without a number.
    pub fn empty() -> RuleSet
        ensures { (k : ℕ) → has result k ≡ false }
    {
        RuleSet { words: [0; 4] }
    }

    #[tactic(auto, using(crate::proofs::SetLemmas::all_has))]
    /// The set of all numbers below 256.
    pub fn all() -> RuleSet
        ensures { (k : ℕ) → has result k ≡ nat_lt k 256 }
    {
        RuleSet {
            words: [u64::MAX; 4],
        }
    }

    /// Puts a number into the set.
    pub fn insert(&mut self, number: usize)
        requires { number < 256 }
        ensures { (k : ℕ) → has self.new k ≡ (has self.old k || k == number) }
    {
        self.words[number / 64] |= 1 << (number % 64);
    }

    /// Takes the numbers out of the set that are not in another.
    pub fn intersect(&mut self, other: &RuleSet)
        ensures { (k : ℕ) → has self.new k ≡ (has self.old k && has other.now k) }
    {
        let [a, b, c, d] = self.words;
        let [e, f, g, h] = other.words;
        self.words = [a & e, b & f, c & g, d & h];
    }

    /// Puts the numbers of another set into the set.
    pub fn unite(&mut self, other: &RuleSet)
        ensures { (k : ℕ) → has self.new k ≡ (has self.old k || has other.now k) }
    {
        let [a, b, c, d] = self.words;
        let [e, f, g, h] = other.words;
        self.words = [a | e, b | f, c | g, d | h];
    }

    /// The same set.
    pub fn copy(&self) -> RuleSet
        ensures { result ≡ self.now }
    {
        RuleSet { words: self.words }
    }

    /// Whether the set has more than one number.
    pub fn has_several(&self) -> bool
        ensures several { result ≡ true → HasSeveral self.now }
        ensures one { result ≡ false → HasAtMostOne self.now }
    {
        match self.next_from(0) {
            Some(first) => self.next_from(first + 1).is_some(),
            None => false,
        }
    }

    /// The lowest number of the set from one on. None exactly if there is none below 256.
    pub fn next_from(&self, from: usize) -> Option<usize>
        ensures { MatchOption result ((k : ℕ) → from ≤ k → k < 256 → Has self.now k → ⊥)
            (λ number. (from ≤ number) × (number < 256) × Has self.now number × ((k : ℕ) → from ≤ k → k < number → Has self.now k → ⊥)) }
    {
        let mut at = from;
        while at < 256 {
            let whole = self.words[at / 64];
            let word = whole >> (at % 64);
            if word != 0 {
                return Some(at + word.trailing_zeros() as usize);
            }
            at = (at / 64 + 1) * 64;
        }
        None
    }
}
