// With what the conditions of rules compare numbers.
ghost use Rattle.std.specs.Prelude.{◌≡◌, ◌<◌, ◌==◌, ◌++◌, ◌∷◌, ◌^◌, [], ℕ, true, bit_and, IfOk, OnOk};
ghost use Rattle.std.specs.List.{list_any};
ghost use Rattle.sb_call.specs.declared.arguments.Arg.TheVariants as arg;
ghost use Rattle.sb_rule.specs.Verdicts.{test_holds};
ghost use Rattle.sb_cover.specs.AskedConds.{is_met, met, seen_number};
ghost use Rattle.sb_cover.specs.Bits.{CompareAlike};
ghost use Rattle.sb_cover.specs.Comparing.{HasMore};
ghost use Rattle.sb_cover.specs.Pruning.{AgreeWhereNeeded};

use crate::asked_conds::AskedCond;
use crate::bits::Comparison;
use crate::signs::is_needed;
use sb_base::NoMemory;
use sb_rule::{READ_ONLY_BITS, Test};
use std::alloc::Global;

fn put(comparisons: &mut Vec<Comparison>, mask: u64, bound: u64) -> Result<(), NoMemory>
    ensures { OnOk result (comparisons.new.items ≡ comparisons.old.items ++ (record { mask = mask; bound = bound }) ∷ []) }
{
    comparisons.push(Comparison { mask, bound })?;
    Ok(())
}

// Puts the numbers of a list.
fn put_numbers(
    comparisons: &mut Vec<Comparison>,
    mask: u64,
    numbers: &[u64],
) -> Result<(), NoMemory>
    ensures more { OnOk result (HasMore comparisons.old.items comparisons.new.items) }
    ensures tells { OnOk result ((a b : ℕ) → CompareAlike comparisons.new.items a b
        → list_any (λ n. n == bit_and a mask) numbers.now ≡ list_any (λ n. n == bit_and b mask) numbers.now) }
{
    for number in numbers {
        put(comparisons, mask, *number)?;
    }
    Ok(())
}

// Puts what a test asks of those bits of a number that a mask has.
#[tactic(auto, using(crate::proofs::CompareLemmas::no_more, crate::proofs::CompareLemmas::one_more, crate::proofs::CompareLemmas::two_more, crate::proofs::CompareLemmas::range_told, crate::proofs::CompareLemmas::mask_told))]
fn put_test(comparisons: &mut Vec<Comparison>, mask: u64, test: &Test) -> Result<(), NoMemory>
    ensures more { OnOk result (HasMore comparisons.old.items comparisons.new.items) }
    ensures tells { OnOk result ((a b : ℕ) → CompareAlike comparisons.new.items a b
        → test_holds test.now (arg.Num (bit_and a mask)) ≡ test_holds test.now (arg.Num (bit_and b mask))) }
{
    match test {
        Test::OneOf(numbers) => {
            put_numbers(comparisons, mask, numbers)?;
            Ok(())
        }
        Test::Range { lo, hi } => {
            put(comparisons, mask, *lo)?;
            put(comparisons, mask, *hi)?;
            Ok(())
        }
        Test::Mask(bits) => {
            put(comparisons, mask & *bits, 0)?;
            Ok(())
        }
        Test::Equal(_) | Test::Like(_) => Ok(()),
    }
}

// The bits of a number that a condition sees.
fn mask_for(asked: &AskedCond) -> u64
    ensures { (n : ℕ) → n < 2 ^ 64 → bit_and n result ≡ seen_number asked.now.is_cut asked.now.cond.param n }
{
    if asked.is_cut && asked.cond.param == 1 {
        return READ_ONLY_BITS;
    }
    u64::MAX
}

// Puts what a condition asks of a number.
fn put_cond(comparisons: &mut Vec<Comparison>, asked: &AskedCond) -> Result<(), NoMemory>
    ensures more { OnOk result (HasMore comparisons.old.items comparisons.new.items) }
    ensures tells { OnOk result ((a b : ℕ) → a < 2 ^ 64 → b < 2 ^ 64 → CompareAlike comparisons.new.items a b
        → is_met asked.now (arg.Num a) ≡ is_met asked.now (arg.Num b)) }
{
    let mask = mask_for(asked);
    put_test(comparisons, mask, &asked.cond.test)?;
    Ok(())
}

// Puts what a condition asks of a number, if it is needed.
#[tactic(auto, using(crate::proofs::CompareLemmas::no_more))]
fn put_needed(
    comparisons: &mut Vec<Comparison>,
    asked: &AskedCond,
    is_needed: bool,
) -> Result<(), NoMemory>
    ensures more { OnOk result (HasMore comparisons.old.items comparisons.new.items) }
    ensures tells { OnOk result ((a b : ℕ) → a < 2 ^ 64 → b < 2 ^ 64 → is_needed ≡ true → CompareAlike comparisons.new.items a b
        → is_met asked.now (arg.Num a) ≡ is_met asked.now (arg.Num b)) }
{
    if !is_needed {
        return Ok(());
    }
    put_cond(comparisons, asked)?;
    Ok(())
}

/// What the needed conditions ask of a number.
///
/// # Errors
/// `NoMemory` if there was none for it.
pub(crate) fn comparisons_for(
    alloc: Global,
    conds: &[AskedCond],
    needed: &[bool],
) -> Result<Vec<Comparison>, NoMemory>
    ensures { IfOk result (λ comparisons. (a b : ℕ) → a < 2 ^ 64 → b < 2 ^ 64 → CompareAlike comparisons.items a b
        → AgreeWhereNeeded needed.now (met conds.now (arg.Num a)) (met conds.now (arg.Num b))) }
{
    let mut comparisons = Vec::new(alloc);
    for (number, asked) in conds.iter().enumerate() {
        put_needed(&mut comparisons, asked, is_needed(needed, number))?;
    }
    Ok(comparisons)
}
