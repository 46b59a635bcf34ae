// Why a file of moves is refused.
ghost use Rattle.std.specs.Prelude.{◌≡◌};
ghost use Rattle.sb_dup.specs.Kinds.{kind_number};

use sb_text::{LineFault, Refused, TokenFault, WordFault};
use thiserror::Error;

/// What is wrong with a line of a file of moves.
#[derive(Clone, Copy, Debug, Error)]
pub enum MoveKind {
    /// The first line with words is not `sandbox-moves 1`, a line does not begin with `move`, a word is missing or one too many, or a word
    /// has a `"` or is not UTF-8.
    #[error("unknown, missing or extra word")]
    UnknownWord(WordFault),
    /// The script has no target of the number that the word gives.
    #[error("no such target")]
    NoSuchTarget {
        /// The number named.
        target: u64,
        /// The number of targets of the script.
        targets: u32,
    },
    /// No number below 2^64.
    #[error("bad number")]
    BadNumber,
    /// An access of 2^32 or more.
    #[error("bad number")]
    WideAccess,
    /// More than 4,096 moves.
    #[error("too many moves")]
    TooMany,
}

impl MoveKind {
    /// The number of the kind, from 1 to 4.
    pub fn number(self) -> u64
        ensures { result ≡ kind_number self }
    {
        match self {
            MoveKind::UnknownWord(_) => 1,
            MoveKind::NoSuchTarget { .. } => 2,
            MoveKind::BadNumber | MoveKind::WideAccess => 3,
            MoveKind::TooMany => 4,
        }
    }
}

/// The first fault of a file of moves.
pub type MoveFault = LineFault<MoveKind>;

/// Why there are no moves of a file: its first fault, or out of memory.
pub type MovesRefused = Refused<MoveFault>;

// Why there is nothing of a line, whose number is not known here.
pub(crate) type LineRefused = Refused<TokenFault<MoveKind>>;
