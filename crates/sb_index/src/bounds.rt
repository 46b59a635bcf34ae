// Bounds, which divide all numbers into slots.
ghost use Rattle.std.specs.Prelude.{◌≡◌, ◌≤◌, ◌<◌, ◌^◌, length, take, IfOk};
ghost use Rattle.sb_index.specs.Bounds.{IsRising, most_bounds, first_of, last_of, rising_above};

use sb_base::NoMemory;
use std::alloc::Global;
use std::marker::Model;

/// The most bounds of a table: two for each rule of a policy.
pub const MAX_BOUNDS: usize = 512;

/// Numbers that divide all numbers into slots, one slot more than there are bounds: each bound is the first number of a slot, and the
/// first slot begins with 0. They rise, and there are at most `MAX_BOUNDS`.
#[derive(Drop)]
pub struct Bounds {
    items: Vec<u64>,
}

impl Model for Bounds {
    ghost use Rattle.std.specs.Prelude.{◌≤◌, List, ℕ, length};
    ghost use Rattle.sb_index.specs.Bounds.{IsRising, most_bounds};

    ghost Value = { List ℕ };

    ghost view = { λ b. b.items.items };

    ghost invariant = { λ b. IsRising b.items.items × (length b.items.items ≤ most_bounds) };
}

impl Bounds {
    #[tactic(auto, using(crate::proofs::SlotLemmas::rising_pushed, crate::proofs::SlotLemmas::last_pushed, crate::proofs::BoundLemmas::bound_put, crate::proofs::BoundLemmas::bound_passed, crate::proofs::BoundLemmas::bounds_full, crate::proofs::BoundLemmas::bounds_whole))]
    /// The bounds among these numbers, which are in order: those above 0, each once, up to the given count.
    ///
    /// # Errors
    /// `NoMemory` if there was none for the bounds.
    pub fn new(alloc: Global, numbers: &[u64], most: usize) -> Result<Bounds, NoMemory>
        requires { most ≤ most_bounds }
        ensures { IfOk result (λ bounds. bounds ≡ take most (rising_above 0 numbers.now)) }
    {
        let mut items = Vec::new(alloc);
        let mut last = 0;
        for number in numbers {
            if items.len() == most {
                return Ok(Bounds { items });
            }
            if *number <= last {
                continue;
            }
            items.push(*number)?;
            last = *number;
        }
        Ok(Bounds { items })
    }

    /// How many bounds there are.
    pub fn len(&self) -> usize
        ensures is { result ≡ length self.now }
        ensures few { result ≤ most_bounds }
    {
        self.items.len()
    }

    /// The first number of a slot.
    pub fn first(&self, slot: usize) -> u64
        requires { slot ≤ length self.now }
        ensures { result ≡ first_of self.now slot }
    {
        if slot == 0 { 0 } else { self.items[slot - 1] }
    }

    /// The last number of a slot.
    pub fn last(&self, slot: usize) -> u64
        requires { slot ≤ length self.now }
        ensures { result ≡ last_of self.now slot }
    {
        if slot < self.items.len() {
            self.items[slot].saturating_sub(1)
        } else {
            u64::MAX
        }
    }

    /// The slot of a number.
    pub fn slot_of(&self, number: u64) -> usize
        ensures within { result ≤ length self.now }
        ensures first { first_of self.now result ≤ number }
        ensures last { number ≤ last_of self.now result }
        ensures rising { IsRising self.now }
        ensures small { number < 2 ^ 64 }
    {
        match self.items.binary_search(&number) {
            Ok(bound) => bound + 1,
            Err(slot) => slot,
        }
    }
}
