// The buckets of units that strings have and rules need, as bits.
ghost use Rattle.std.specs.Prelude.{◌≡◌, ℕ, if◌then◌else◌};
ghost use Rattle.std.specs.Int.{bit_at};
ghost use Rattle.std.specs.List.{list_all, list_any};
ghost use Rattle.sb_index.specs.Questions.{is_in_bucket, is_cell_in_bucket, needs_bucket, cond_may_pass, may_pass};
ghost use Rattle.sb_index.specs.declared.questions.Question.TheVariants.{Without};

use sb_base::to_ascii_uppercase;
use sb_rule::{Cell, Cond, Rule, Test};

// The bits, and that of the bucket of a unit.
#[inline(always)]
#[tactic(auto, using(crate::proofs::BucketLemmas::unit_put))]
fn with_unit(bits: u64, unit: u16) -> u64
    ensures { (bucket : ℕ) → bit_at result bucket ≡ (if is_in_bucket bucket unit then 1 else bit_at bits bucket) }
{
    bits | 1 << (to_ascii_uppercase(unit) % 64)
}

// The bits, and that of the bucket of a literal.
fn with_cell(bits: u64, cell: Cell) -> u64
    ensures { (bucket : ℕ) → bit_at result bucket ≡ (if is_cell_in_bucket bucket cell then 1 else bit_at bits bucket) }
{
    match cell {
        Cell::Lit(unit) => with_unit(bits, unit),
        Cell::One | Cell::Any => bits,
    }
}

/// The buckets of the units of a string: a bucket's bit is 1 exactly if a unit is in it.
#[tactic(auto, using(crate::proofs::BucketLemmas::no_unit, crate::proofs::BucketLemmas::unit_more))]
pub fn units_bits(units: &[u16]) -> u64
    ensures { (bucket : ℕ) → bit_at result bucket ≡ (if list_any (is_in_bucket bucket) units.now then 1 else 0) }
{
    let mut bits = 0;
    for unit in units {
        bits = with_unit(bits, *unit);
    }
    bits
}

// The buckets of the literals of a pattern.
#[tactic(auto, using(crate::proofs::BucketLemmas::no_unit, crate::proofs::BucketLemmas::cell_more))]
fn cells_bits(cells: &[Cell]) -> u64
    ensures { (bucket : ℕ) → bit_at result bucket ≡ (if list_any (is_cell_in_bucket bucket) cells.now then 1 else 0) }
{
    let mut bits = 0;
    for cell in cells {
        bits = with_cell(bits, *cell);
    }
    bits
}

// The buckets of which a test needs a unit.
#[tactic(auto, using(crate::proofs::BucketLemmas::no_unit))]
fn test_bits(test: &Test) -> u64
    ensures { (bucket : ℕ) → bit_at result bucket ≡ (if needs_bucket test.now bucket then 1 else 0) }
{
    match test {
        Test::OneOf(_) | Test::Range { .. } | Test::Mask(_) => 0,
        Test::Equal(text) => units_bits(text.as_units()),
        Test::Like(pattern) => cells_bits(pattern.cells()),
    }
}

// The buckets without a unit of which a condition does not hold.
#[tactic(auto, using(crate::proofs::BucketLemmas::no_unit, crate::proofs::BucketLemmas::not_needed, crate::proofs::BucketLemmas::needed))]
fn cond_bits(param: u32, cond: &Cond) -> u64
    ensures { (bucket : ℕ) → bit_at result bucket ≡ (if cond_may_pass (Without param bucket) cond.now then 0 else 1) }
{
    if cond.negated || cond.param != param {
        return 0;
    }
    test_bits(&cond.test)
}

// The buckets without a unit of which some condition does not hold.
#[tactic(auto, using(crate::proofs::BucketLemmas::no_unit, crate::proofs::BucketLemmas::cond_more))]
fn conds_bits(param: u32, conds: &[Cond]) -> u64
    ensures { (bucket : ℕ) → bit_at result bucket ≡ (if list_all (cond_may_pass (Without param bucket)) conds.now then 0 else 1) }
{
    let mut bits = 0;
    for cond in conds {
        bits |= cond_bits(param, cond);
    }
    bits
}

/// The buckets without a unit of which a rule does not hold: a bucket's bit is 1 exactly if the rule needs a unit in it.
pub fn rule_bits(param: u32, rule: &Rule) -> u64
    ensures { (bucket : ℕ) → bit_at result bucket ≡ (if may_pass (Without param bucket) rule.now then 0 else 1) }
{
    conds_bits(param, rule.conds.as_slice())
}
