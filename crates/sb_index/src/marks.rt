// Rules that are put to the slots in which they may hold.
ghost use Rattle.std.specs.Prelude.{◌≡◌, ◌<◌, ◌≤◌, ◌+◌, ◌==◌, ◌&&◌, ◌||◌, ℕ, suc, false, nat_le, [], length, IfOk, slice_index_or};
ghost use Rattle.sb_index.specs.Marks.{AreFresh, AreSized, is_marked, up_to};
ghost use Rattle.sb_index.specs.Sets.{has};

use crate::sets::RuleSet;
use sb_base::NoMemory;
use std::alloc::Global;

/// In which slots rules may hold: some in single slots, the others from the slot in which they begin to that in which they end. So a rule
/// takes as long in all slots as in one.
#[derive(Drop)]
pub struct Marks {
    /// For each slot the rules that may hold in it.
    pub points: Vec<RuleSet>,
    /// For each slot the rules that may hold from it on.
    pub begins: Vec<RuleSet>,
    /// For each slot, the last one first, the rules that may hold up to it.
    pub ends: Vec<RuleSet>,
}

/// Empty sets.
pub fn empty_sets(alloc: Global, count: usize) -> Result<Vec<RuleSet>, NoMemory>
    ensures many { IfOk result (λ sets. length sets.items ≡ count) }
    ensures empty { IfOk result (λ sets. (slot : ℕ) (k : ℕ) → has (slice_index_or sets.items slot []) k ≡ false) }
{
    let mut sets = Vec::with_capacity(alloc, count)?;
    for _ in 0..count {
        sets.push(RuleSet::empty())?;
    }
    Ok(sets)
}

/// Puts a number into one of the sets.
#[tactic(auto, using(crate::proofs::MarkLemmas::one_put))]
pub fn put(sets: &mut Vec<RuleSet>, slot: usize, number: usize)
    requires slot { slot < length sets.old.items }
    requires number { number < 256 }
    ensures many { length sets.new.items ≡ length sets.old.items }
    ensures put { (s : ℕ) (k : ℕ) → has (slice_index_or sets.new.items s []) k ≡ (has (slice_index_or sets.old.items s []) k || (k == number && s == slot)) }
{
    sets[slot].insert(number);
}

// For each set what the sets up to it have together.
fn unions(alloc: Global, sets: &[RuleSet]) -> Result<Vec<RuleSet>, NoMemory>
    ensures many { IfOk result (λ all. length all.items ≡ length sets.now) }
    ensures up { IfOk result (λ all. (slot : ℕ) (k : ℕ) → slot < length sets.now → has (slice_index_or all.items slot []) k ≡ up_to sets.now (suc slot) k) }
{
    let mut all = Vec::with_capacity(alloc, sets.len())?;
    let mut set = RuleSet::empty();
    for one in sets {
        set.unite(one);
        all.push(set.copy())?;
    }
    Ok(all)
}

// The rules that may hold in a slot.
fn merge(point: &RuleSet, begun: &RuleSet, unended: &RuleSet) -> RuleSet
    ensures { (k : ℕ) → has result k ≡ (has point.now k || (has begun.now k && has unended.now k)) }
{
    let mut run = begun.copy();
    run.intersect(unended);
    let mut set = point.copy();
    set.unite(&run);
    set
}

impl Marks {
    /// No rule in any slot.
    ///
    /// # Errors
    /// `NoMemory` if there was none for the sets.
    pub fn new(alloc: Global, slots: usize) -> Result<Marks, NoMemory>
        ensures sized { IfOk result (λ marks. AreSized marks slots) }
        ensures fresh { IfOk result (λ marks. AreFresh marks 0) }
    {
        let points = empty_sets(alloc, slots)?;
        let begins = empty_sets(alloc, slots)?;
        let ends = empty_sets(alloc, slots)?;
        Ok(Marks {
            points,
            begins,
            ends,
        })
    }

    /// Puts a rule to one slot.
    #[tactic(auto, using(crate::proofs::MarkLemmas::point_put))]
    pub fn put_point(&mut self, slots: usize, slot: usize, number: usize)
        requires sized { AreSized self.old slots }
        requires slot { slot < slots }
        requires number { number < 256 }
        ensures sized { AreSized self.new slots }
        ensures marked { (s : ℕ) (k : ℕ) → is_marked self.new s k ≡ (is_marked self.old s k || (k == number && s == slot)) }
        ensures fresh { (from : ℕ) → number < from → AreFresh self.old from → AreFresh self.new from }
    {
        put(&mut self.points, slot, number);
    }

    /// Puts a rule, which no slot has, to the slots from the first to the last.
    pub fn put_run(&mut self, slots: usize, first: usize, last: usize, number: usize)
        requires sized { AreSized self.old slots }
        requires fresh { AreFresh self.old number }
        requires first { first < slots }
        requires last { last < slots }
        requires number { number < 256 }
        ensures sized { AreSized self.new slots }
        ensures marked { (s : ℕ) (k : ℕ) → s < slots
            → is_marked self.new s k ≡ (is_marked self.old s k || (k == number && (nat_le first s && nat_le s last))) }
        ensures fresh { AreFresh self.new (number + 1) }
    {
        put(&mut self.begins, first, number);
        put(&mut self.ends, slots - 1 - last, number);
    }

    /// For each slot the rules that may hold in it.
    ///
    /// # Errors
    /// `NoMemory` if there was none for the sets.
    pub fn sets(&self, alloc: Global, slots: usize) -> Result<Vec<RuleSet>, NoMemory>
        requires { AreSized self.now slots }
        ensures many { IfOk result (λ sets. length sets.items ≡ slots) }
        ensures marked { IfOk result (λ sets. (slot : ℕ) (k : ℕ) → slot < slots → has (slice_index_or sets.items slot []) k ≡ is_marked self.now slot k) }
    {
        let begun = unions(alloc, &self.begins)?;
        let unended = unions(alloc, &self.ends)?;
        let mut sets = Vec::with_capacity(alloc, slots)?;
        for slot in 0..slots {
            sets.push(merge(&self.points[slot], &begun[slot], &unended[slots - 1 - slot]))?;
        }
        Ok(sets)
    }
}
