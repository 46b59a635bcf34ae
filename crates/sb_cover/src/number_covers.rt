// Numbers that stand for all numbers.
ghost use Rattle.std.specs.Prelude.{◌≡◌, ◌≤◌, ◌<◌, ◌^◌, ℕ, true, length, take, IfNone, IfOk, IfSome, OnOk};
ghost use Rattle.std.specs.List.{Contains};
ghost use Rattle.sb_cover.specs.Bits.{value_of, AreBelow, AreNumbers};
ghost use Rattle.sb_explore.specs.Exploring.{list_at};

use crate::bits::{BitMachine, Comparison};
use crate::budgets::{Budget, explore_within};
use sb_base::{NoMemory, Wide};
use sb_explore::Found;
use std::alloc::Global;

// The first units of a word.
fn front(word: &[u16], width: usize) -> &[u16]
    ensures { result.now ≡ take width word.now }
{
    let (front, _) = word.split_at(width.min(word.len()));
    front
}

// The number of the first bits of a word.
#[tactic(auto, using(crate::proofs::NumberLemmas::bit_fits, crate::proofs::NumberLemmas::value_more, crate::proofs::NumberLemmas::below_more))]
fn number_of(word: &[u16], width: u32) -> u64
    requires { width ≤ 64 }
    ensures { result ≡ value_of width word.now }
{
    let bits = front(word, width as usize);
    let mut value = 0;
    for bit in bits {
        value = value * 2 + u64::from(*bit % 2);
    }
    value
}

// Puts the number of a word, if it has all bits.
#[tactic(auto, using(crate::proofs::NumberLemmas::below_pushed))]
fn put_number(values: &mut Vec<u64>, word: &[u16], width: u32) -> Result<(), NoMemory>
    requires { width ≤ 64 }
    ensures kept { OnOk result ((v : ℕ) → Contains values.old.items v → Contains values.new.items v) }
    ensures here { OnOk result (width ≤ length word.now → Contains values.new.items (value_of width word.now)) }
    ensures below { OnOk result (AreBelow (2 ^ width) values.old.items → AreBelow (2 ^ width) values.new.items) }
{
    if word.len() < width as usize {
        return Ok(());
    }
    values.push(number_of(word, width))?;
    Ok(())
}

// The numbers of the words that have all bits.
fn numbers_of(alloc: Global, words: &[Wide], width: u32) -> Result<Vec<u64>, NoMemory>
    requires { width ≤ 64 }
    ensures here { IfOk result (λ values. (k : ℕ) → k < length words.now → width ≤ length (list_at words.now k) → Contains values.items (value_of width (list_at words.now k))) }
    ensures below { IfOk result (λ values. AreBelow (2 ^ width) values.items) }
{
    let mut values = Vec::new(alloc);
    for word in words {
        put_number(&mut values, word.as_units(), width)?;
    }
    Ok(values)
}

#[tactic(auto, using(crate::proofs::NumberLemmas::zero_alone, crate::proofs::NumberLemmas::zero_below))]
/// Numbers of the given number of bits such that each other one compares with all bounds as one of these does. None if the budget is exceeded.
///
/// # Errors
/// `NoMemory` if there was none for the numbers.
pub(crate) fn number_values(
    alloc: Global,
    comparisons: Vec<Comparison>,
    width: u32,
    budget: &mut Budget,
) -> Result<Option<Vec<u64>>, NoMemory>
    requires { width ≤ 64 }
    ensures all { IfOk result (λ values. IfSome values (λ values. AreNumbers comparisons.items width values.items)) }
    ensures below { IfOk result (λ values. IfSome values (λ values. AreBelow (2 ^ width) values.items)) }
    ensures exceeded { IfOk result (λ values. IfNone values (budget.new.is_exceeded ≡ true)) }
{
    if comparisons.is_empty() {
        let values = Vec::from_slice(alloc, &[0])?;
        return Ok(Some(values));
    }
    let machine = BitMachine { comparisons, width };
    let Some(found) = explore_within(alloc, &machine, budget)? else {
        return Ok(None);
    };
    let Found { states: _, words } = found;
    let values = numbers_of(alloc, &words, width)?;
    Ok(Some(values))
}
