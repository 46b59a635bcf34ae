// The conditions of a rule.
ghost use Rattle.std.specs.Prelude.{◌≡◌};

use crate::patterns::Pattern;
use sb_base::{Items, Wide};
use std::alloc::AllocError;

/// The numbers of a test.
pub type Numbers = Items<u64>;

/// A test of one argument. The first three are of a number, the others of a string; a test of the other kind of argument
/// does not hold.
pub enum Test {
    /// The number is one of these.
    OneOf(Numbers),
    /// The number is from `lo` to `hi`, both included.
    Range { lo: u64, hi: u64 },
    /// The number has a bit of the mask.
    Mask(u64),
    /// The string is the same as this one after folding.
    Equal(Wide),
    /// The pattern matches the string.
    Like(Pattern),
}

impl Drop for Test {
    fn drop(self) {
        match self {
            Test::OneOf(_) => {}
            Test::Range { lo: _, hi: _ } => {}
            Test::Mask(_) => {}
            Test::Equal(_) => {}
            Test::Like(_) => {}
        }
    }
}

impl Clone for Test {
    ghost is_clone = { λ value clone. clone ≡ value };

    fn clone(&self) -> Result<Test, AllocError> {
        Ok(match self {
            Test::OneOf(numbers) => Test::OneOf(numbers.clone()?),
            Test::Range { lo, hi } => Test::Range { lo: *lo, hi: *hi },
            Test::Mask(mask) => Test::Mask(*mask),
            Test::Equal(text) => Test::Equal(text.clone()?),
            Test::Like(pattern) => Test::Like(pattern.clone()?),
        })
    }
}

/// A condition: a test of the argument of one parameter, or the opposite of it.
pub struct Cond {
    /// The parameter, numbered from 0.
    pub param: u32,
    /// Whether the condition holds if the test does not.
    pub negated: bool,
    /// The test.
    pub test: Test,
}

impl Drop for Cond {
    fn drop(self) {
        let Cond {
            param: _,
            negated: _,
            test: _,
        } = self;
    }
}

impl Clone for Cond {
    ghost is_clone = { λ value clone. clone ≡ value };

    fn clone(&self) -> Result<Cond, AllocError> {
        Ok(Cond {
            param: self.param,
            negated: self.negated,
            test: self.test.clone()?,
        })
    }
}

/// The conditions of a rule, which hold if all of them do.
pub type Conds = Items<Cond>;
