// Why a reader or a conversion gives no value.

use crate::memory::NoMemory;
use std::fmt::Display;
use thiserror::Error;

/// Why there is no value: a fault of what was read, or no memory.
#[derive(Clone, Copy, Debug, Error)]
#[error_bound(F: Display)]
pub enum Refused<F> {
    /// This fault was met, and none before it.
    #[error("{0}")]
    Fault(F),
    /// Out of memory.
    #[error("out of memory")]
    NoMemory,
}

/// No value of an enum has this number.
#[derive(Clone, Copy, Debug, PartialEq, Eq, Error)]
#[error("unknown number {0}")]
pub struct UnknownNumber(pub u64);

impl<F> From<NoMemory> for Refused<F> {
    ghost use Rattle.std.specs.Prelude.{◌≡◌};
    ghost use Rattle.sb_base.specs.declared.refusals.Refused.TheVariants.{NoMemory};

    ghost from_gives = { λ _ refused. refused ≡ NoMemory };

    fn from(_error: NoMemory) -> Refused<F> {
        Refused::NoMemory
    }
}
