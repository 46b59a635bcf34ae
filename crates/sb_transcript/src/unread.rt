// Why there is nothing read.
ghost use Rattle.sb_transcript.specs.Steps.{Becomes};

use sb_base::NoMemory;

/// Why there is nothing read.
#[derive(Clone, Copy)]
pub enum Unread {
    /// The bytes are no line.
    NotALine,
    /// Out of memory.
    NoMemory,
}

impl From<NoMemory> for Unread {
    ghost use Rattle.std.specs.Prelude.{◌≡◌};
    ghost use Rattle.sb_transcript.specs.declared.unread.Unread.TheVariants.{NoMemory};

    ghost from_gives = { λ _ unread. unread ≡ NoMemory };

    fn from(_error: NoMemory) -> Unread {
        Unread::NoMemory
    }
}

/// A value that is there.
pub fn or_unread<A: Drop>(value: Option<A>) -> Result<A, Unread>
    ensures { Becomes value result }
{
    match value {
        Some(value) => Ok(value),
        None => Err(Unread::NotALine),
    }
}
