// Why policies are not compared.

use sb_base::NoMemory;
use sb_call::{CallTag, ShortName};

/// Why the calls of one policy are not compared.
#[derive(Drop)]
pub(crate) enum ChangesFault {
    /// There was no memory.
    NoMemory,
    /// The calls of this tag exceed the budget.
    TooComplex(CallTag),
}

impl From<NoMemory> for ChangesFault {
    ghost use Rattle.std.specs.Prelude.{◌≡◌};
    ghost use Rattle.sb_compare.specs.declared.faults.ChangesFault.TheVariants.{NoMemory};

    ghost from_gives = { λ _ fault. fault ≡ NoMemory };

    fn from(_error: NoMemory) -> ChangesFault {
        ChangesFault::NoMemory
    }
}

/// Why two lists of policies are not compared.
pub enum CompareFault {
    /// There was no memory.
    NoMemory,
    /// The calls of a tag exceed the budget under the policies of this name.
    TooComplex { policy: ShortName, tag: CallTag },
}

impl Drop for CompareFault {
    fn drop(self) {
        match self {
            CompareFault::NoMemory => {}
            CompareFault::TooComplex { policy: _, tag: _ } => {}
        }
    }
}

impl From<NoMemory> for CompareFault {
    ghost use Rattle.std.specs.Prelude.{◌≡◌};
    ghost use Rattle.sb_compare.specs.declared.faults.CompareFault.TheVariants.{NoMemory};

    ghost from_gives = { λ _ fault. fault ≡ NoMemory };

    fn from(_error: NoMemory) -> CompareFault {
        CompareFault::NoMemory
    }
}
