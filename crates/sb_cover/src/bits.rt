// The machine that reads a number bit by bit, and tells how it compares with others.
ghost use Rattle.std.specs.Prelude.{◌≡◌, ◌≤◌, ◌<◌, ◌+◌, ◌*◌, ◌/◌, ◌%◌, ◌^◌, ◌∷◌, ◌++◌, [], ℕ, List, length, slice_index, IfOk};
ghost use Rattle.sb_cover.specs.Bits.{code_of, codes_of, bound_code, IsRead};

use sb_base::NoMemory;
use sb_explore::{Machine, State};
use std::alloc::Global;

/// A comparison: those bits of a number that a mask has, as a number, with a bound.
#[derive(Clone, Copy)]
pub(crate) struct Comparison {
    /// The mask.
    pub mask: u64,
    /// The bound.
    pub bound: u64,
}

/// A machine that reads numbers bit by bit, the highest first.
#[derive(Drop)]
pub(crate) struct BitMachine {
    /// With what the numbers are compared.
    pub comparisons: Vec<Comparison>,
    /// How many bits a number has.
    pub width: u32,
    ghost narrow: { width ≤ 64 },
}

// How two numbers compare.
fn compare(value: u64, bound: u64) -> u32
    ensures { result ≡ bound_code value bound }
{
    if value == bound {
        return 0;
    }
    if value < bound { 1 } else { 2 }
}

// How a number compares after one more bit.
#[tactic(auto, using(crate::proofs::BitLemmas::code_kept, crate::proofs::BitLemmas::code_more))]
fn next_code(code: u32, comparison: Comparison, left: u32, bit: u64) -> u32
    requires left { left < 64 }
    requires bit { bit < 2 }
    ensures { (v : ℕ) → code ≡ code_of (left + 1) v comparison → result ≡ code_of left (v * 2 + bit) comparison }
{
    if code != 0 {
        return code;
    }
    let masked = bit & ((comparison.mask >> left) % 2);
    let bound = (comparison.bound >> left) % 2;
    compare(masked, bound)
}

fn code_at(codes: &[u32], place: usize) -> u32
    ensures { result ≡ slice_index codes.now place }
{
    match codes.get(place) {
        Some(code) => *code,
        None => 0,
    }
}

// How a number compares with all after one more bit.
fn next_codes(
    alloc: Global,
    comparisons: &[Comparison],
    codes: &[u32],
    left: u32,
    bit: u64,
) -> Result<Vec<u32>, NoMemory>
    requires left { left < 64 }
    requires bit { bit < 2 }
    ensures { IfOk result (λ next. (v : ℕ) → codes.now ≡ codes_of comparisons.now (left + 1) v → next.items ≡ codes_of comparisons.now left (v * 2 + bit)) }
{
    let mut next = Vec::new(alloc);
    for (place, comparison) in comparisons.iter().enumerate() {
        next.push(next_code(code_at(codes, place), *comparison, left, bit))?;
    }
    Ok(next)
}

// The bits from a place on.
#[tactic(auto, using(crate::proofs::BitLemmas::none_high))]
fn high_bits(number: u64, place: u32) -> u64
    requires { place ≤ 64 }
    ensures { result ≡ number / 2 ^ place }
{
    if place == 64 {
        return 0;
    }
    number >> place
}

// How a number compares before its first bit.
#[tactic(auto, using(crate::proofs::BitLemmas::first_is))]
fn first_code(comparison: Comparison, width: u32) -> u32
    requires { width ≤ 64 }
    ensures { result ≡ code_of width 0 comparison }
{
    compare(0, high_bits(comparison.bound, width))
}

fn first_codes(alloc: Global, comparisons: &[Comparison], width: u32) -> Result<Vec<u32>, NoMemory>
    requires { width ≤ 64 }
    ensures { IfOk result (λ codes. codes.items ≡ codes_of comparisons.now width 0) }
{
    let mut codes = Vec::new(alloc);
    for comparison in comparisons {
        codes.push(first_code(*comparison, width))?;
    }
    Ok(codes)
}

// The state of the number of bits that are left, and codes.
fn state_of(alloc: Global, left: u32, codes: &[u32]) -> Result<State, NoMemory>
    ensures { IfOk result (λ state. state ≡ left ∷ codes.now) }
{
    let mut numbers = Vec::new(alloc);
    numbers.push(left)?;
    numbers.extend_from_slice(codes)?;
    Ok(State::new(numbers))
}

// The state after one more bit.
#[tactic(auto, using(crate::proofs::BitLemmas::read_full, crate::proofs::BitLemmas::read_wide))]
fn read(
    alloc: Global,
    comparisons: &[Comparison],
    left: u32,
    codes: &[u32],
    letter: u16,
) -> Result<State, NoMemory>
    ensures { IfOk result (λ next. (width : ℕ) (word : List ℕ) → width ≤ 64 → IsRead comparisons.now width word (left ∷ codes.now)
        → IsRead comparisons.now width (word ++ letter ∷ []) next) }
{
    if left == 0 {
        let state = state_of(alloc, left, codes)?;
        return Ok(state);
    }
    if left > 64 {
        let state = state_of(alloc, left, codes)?;
        return Ok(state);
    }
    let next = next_codes(alloc, comparisons, codes, left - 1, u64::from(letter % 2))?;
    let state = state_of(alloc, left - 1, &next)?;
    Ok(state)
}

impl Machine for BitMachine {
    ghost leads_to = { λ machine word state. IsRead machine.comparisons.items machine.width word state };

    ghost stands_for = { λ machine word state. IsRead machine.comparisons.items machine.width word state };

    ghost is_like = { λ machine state unit letter. unit % 2 ≡ letter % 2 };

    fn start(&self, alloc: Global) -> Result<State, NoMemory> {
        let codes = first_codes(alloc, &self.comparisons, self.width)?;
        let state = state_of(alloc, self.width, &codes)?;
        Ok(state)
    }

    #[tactic(auto, using(crate::proofs::BitLemmas::bit_for))]
    fn letters(&self, alloc: Global, _state: &State) -> Result<Vec<u16>, NoMemory> {
        let letters = Vec::from_slice(alloc, &[0, 1])?;
        Ok(letters)
    }

    #[tactic(auto, using(crate::proofs::BitLemmas::read_nothing))]
    fn next(&self, alloc: Global, state: &State, letter: u16) -> Result<State, NoMemory> {
        match state.numbers().split_first() {
            Some((left, codes)) => {
                let next = read(alloc, &self.comparisons, *left, codes, letter)?;
                Ok(next)
            }
            None => {
                let next = state_of(alloc, 0, &[])?;
                Ok(next)
            }
        }
    }
}
