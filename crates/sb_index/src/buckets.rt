// The units that a string must have, in 64 buckets.
ghost use Rattle.std.specs.Prelude.{◌≡◌, ◌≢◌, ◌≤◌, ◌<◌, ◌+◌, ◌==◌, ◌&&◌, ◌||◌, ℕ, true, false, nat_lt, List, [], length, IfOk, Some, slice_index_or, if◌then◌else◌};
ghost use Rattle.std.specs.Int.{bit_at};
ghost use Rattle.sb_call.specs.declared.tags.CallTag.{CallTag};
ghost use Rattle.sb_rule.specs.Limits.{most_rules};
ghost use Rattle.sb_rule.specs.Verdicts.{is_for};
ghost use Rattle.sb_rule.specs.declared.policies.Rule.{Rule};
ghost use Rattle.sb_index.specs.Questions.{may_pass};
ghost use Rattle.sb_index.specs.Sets.{has, Has};
ghost use Rattle.sb_index.specs.Tables.{AreBuckets, AreNeeded, HasAllThatHold, IsBuckets, PassBuckets};
ghost use Rattle.sb_index.specs.declared.questions.Question.TheVariants.{Without};

use crate::laws::rules_that_hold_pass;
use crate::marks::{empty_sets, put};
use crate::needs::{rule_bits, units_bits};
use crate::sets::RuleSet;
use crate::tables::units_in;
use sb_base::NoMemory;
use sb_call::{Arg, CallTag};
use sb_rule::Rule;
use std::alloc::Global;

/// For each bucket of units the rules that may hold of a string without a unit in it.
#[derive(Drop)]
pub struct Buckets {
    /// The parameter of the string.
    pub param: u32,
    /// The sets, one for each of the 64 buckets.
    pub sets: Vec<RuleSet>,
    /// The buckets in which some rule needs a unit, as bits.
    pub needed: u64,
}

// The place of the lowest bit that is 1.
#[tactic(auto, using(crate::proofs::BucketLemmas::lowest_place, crate::proofs::BucketLemmas::lowest_bit))]
fn lowest(bits: u64) -> usize
    requires { 0 < bits }
    ensures within { result < 64 }
    ensures set { bit_at bits result ≡ 1 }
{
    bits.trailing_zeros() as usize
}

// The bits, this one cleared.
#[tactic(auto, using(crate::proofs::BucketLemmas::bit_cleared, crate::proofs::BucketLemmas::others_kept, crate::proofs::BucketLemmas::fewer_left))]
fn without(bits: u64, bucket: usize) -> u64
    requires within { bucket < 64 }
    requires set { bit_at bits bucket ≡ 1 }
    ensures clear { bit_at result bucket ≡ 0 }
    ensures others { (i : ℕ) → i < 64 → i ≢ bucket → bit_at result i ≡ bit_at bits i }
    ensures fewer { result < bits }
{
    bits & !(1 << bucket)
}

// The bits that are needed and that there are not.
#[tactic(auto, using(crate::proofs::BucketLemmas::is_missing, crate::proofs::BucketLemmas::is_needed))]
fn missing(needed: u64, bits: u64) -> u64
    ensures clear { (i : ℕ) → i < 64 → bit_at result i ≡ 1 → bit_at bits i ≡ 0 }
    ensures set { (i : ℕ) → i < 64 → bit_at needed i ≡ 1 → bit_at bits i ≡ 0 → bit_at result i ≡ 1 }
{
    needed & !bits
}

// Whether a bit is 0.
#[tactic(auto, using(crate::proofs::SetLemmas::clear_bit, crate::proofs::SetLemmas::set_bit))]
fn is_clear(bits: u64, bucket: usize) -> bool
    requires { bucket < 64 }
    ensures clear { result ≡ true → bit_at bits bucket ≡ 0 }
    ensures set { result ≡ false → bit_at bits bucket ≡ 1 }
{
    bits >> bucket & 1 == 0
}

// Puts a rule to a bucket if the bucket's bit is 0.
#[tactic(auto, using(crate::proofs::BucketLemmas::clear_put, crate::proofs::BucketLemmas::set_passed))]
fn put_if_clear(sets: &mut Vec<RuleSet>, bits: u64, bucket: usize, rule: usize)
    requires bucket { bucket < 64 }
    requires rule { rule < 256 }
    requires many { length sets.old.items ≡ 64 }
    ensures many { length sets.new.items ≡ 64 }
    ensures put { (s : ℕ) (k : ℕ) → has (slice_index_or sets.new.items s []) k
        ≡ (has (slice_index_or sets.old.items s []) k || ((k == rule && s == bucket) && bit_at bits s == 0)) }
{
    if is_clear(bits, bucket) {
        put(sets, bucket, rule);
    }
}

// Puts a rule to the buckets whose bits are 0.
fn put_clear(sets: &mut Vec<RuleSet>, bits: u64, rule: usize)
    requires rule { rule < 256 }
    requires many { length sets.old.items ≡ 64 }
    ensures many { length sets.new.items ≡ 64 }
    ensures put { (s : ℕ) (k : ℕ) → has (slice_index_or sets.new.items s []) k
        ≡ (has (slice_index_or sets.old.items s []) k || ((k == rule && nat_lt s 64) && bit_at bits s == 0)) }
{
    for bucket in 0..64 {
        put_if_clear(sets, bits, bucket, rule);
    }
}

// Puts a rule to the buckets of which it needs no unit, by the number that it has among the rules for the tag, if it is one of them.
// Returns the number of the next one.
fn put_next(sets: &mut Vec<RuleSet>, rule: &Rule, tag: CallTag, param: u32, at: usize) -> usize
    requires rule { at < 256 }
    requires many { length sets.old.items ≡ 64 }
    ensures next { result ≡ (if is_for tag rule.now then at + 1 else at) }
    ensures many { length sets.new.items ≡ 64 }
    ensures put { (s : ℕ) (k : ℕ) → s < 64 → has (slice_index_or sets.new.items s []) k
        ≡ (has (slice_index_or sets.old.items s []) k || (is_for tag rule.now && (k == at && may_pass (Without param s) rule.now))) }
{
    if !rule.is_for(tag) {
        return at;
    }
    put_clear(sets, rule_bits(param, rule), at);
    at + 1
}

// The sets of the buckets.
fn sets_of(
    alloc: Global,
    rules: &[Rule],
    tag: CallTag,
    param: u32,
) -> Result<Vec<RuleSet>, NoMemory>
    requires { length rules.now ≤ most_rules }
    ensures many { IfOk result (λ sets. length sets.items ≡ 64) }
    ensures buckets { IfOk result (λ sets. AreBuckets rules.now tag param sets.items) }
{
    let mut sets = empty_sets(alloc, 64)?;
    let mut at = 0;
    for rule in rules {
        at = put_next(&mut sets, rule, tag, param, at);
    }
    Ok(sets)
}

// The bits, and those of the buckets in which a rule needs a unit, if it is for the tag.
#[tactic(auto, using(crate::proofs::BucketLemmas::rule_needed, crate::proofs::BucketLemmas::rule_skipped))]
fn with_rule(bits: u64, rule: &Rule, tag: CallTag, param: u32) -> u64
    ensures { (bucket : ℕ) → bit_at result bucket ≡ 0 → (bit_at bits bucket ≡ 0) × (is_for tag rule.now ≡ true → may_pass (Without param bucket) rule.now ≡ true) }
{
    if rule.is_for(tag) {
        bits | rule_bits(param, rule)
    } else {
        bits
    }
}

// The buckets in which some rule for the tag needs a unit.
fn needed_by(rules: &[Rule], tag: CallTag, param: u32) -> u64
    ensures { AreNeeded rules.now tag param result }
{
    let mut bits = 0;
    for rule in rules {
        bits = with_rule(bits, rule, tag, param);
    }
    bits
}

impl Buckets {
    /// The buckets of a parameter for the rules of a tag.
    ///
    /// # Errors
    /// `NoMemory` if there was none for the sets.
    pub fn new(alloc: Global, rules: &[Rule], tag: CallTag, param: u32) -> Result<Buckets, NoMemory>
        requires { length rules.now ≤ most_rules }
        ensures buckets { IfOk result (λ buckets. IsBuckets rules.now tag (Some buckets)) }
        ensures param { IfOk result (λ buckets. buckets.param ≡ param) }
    {
        let sets = sets_of(alloc, rules, tag, param)?;
        let needed = needed_by(rules, tag, param);
        Ok(Buckets {
            param,
            sets,
            needed,
        })
    }

    /// Takes the rules out of a set that need a unit in a bucket in which the string of the arguments has none.
    pub fn narrow(&self, args: &[Arg], set: &mut RuleSet)
        requires { length self.now.sets.items ≡ 64 }
        ensures left { (k : ℕ) → Has set.new k → Has set.old k }
        ensures complete { (rules : List Rule) (tag : CallTag) → IsBuckets rules tag (Some self.now)
            → HasAllThatHold rules tag args.now set.old → HasAllThatHold rules tag args.now set.new }
        ensures alone { (rules : List Rule) (tag : CallTag) → IsBuckets rules tag (Some self.now) → PassBuckets rules tag (Some self.now) args.now set.new }
    {
        rules_that_hold_pass();
        self.narrow_by(units_bits(units_in(args, self.param)), set);
    }

    // Takes the rules out of a set that need a unit in a bucket whose bit is 0.
    fn narrow_by(&self, bits: u64, set: &mut RuleSet)
        requires { length self.now.sets.items ≡ 64 }
        ensures kept { (k : ℕ) → Has set.old k
            → ((bucket : ℕ) → bucket < 64 → bit_at bits bucket ≡ 0 → Has (slice_index_or self.now.sets.items bucket []) k) → Has set.new k }
        ensures left { (k : ℕ) → Has set.new k → Has set.old k }
        ensures alone { (k : ℕ) (bucket : ℕ) → Has set.new k → bucket < 64 → bit_at self.now.needed bucket ≡ 1 → bit_at bits bucket ≡ 0
            → Has (slice_index_or self.now.sets.items bucket []) k }
    {
        let mut left = missing(self.needed, bits);
        while left != 0 {
            let bucket = lowest(left);
            set.intersect(&self.sets[bucket]);
            left = without(left, bucket);
        }
    }

    /// Whether no rule needs a unit of its string.
    pub fn is_empty(&self) -> bool {
        self.needed == 0
    }
}
