// Why a text is no pattern.

use sb_base::Refused;
use thiserror::Error;

/// Why a text is no pattern. Indices count the text's units from 0.
#[derive(Clone, Copy, Debug, Error)]
pub enum PatternFault {
    /// The `*` at this index is followed by `*`.
    #[error("two stars at {0}")]
    DoubleStar(u32),
    /// The `*` at this index is followed by `?`.
    #[error("a star before a question mark at {0}")]
    StarQuestion(u32),
    /// The text has more than 256 units.
    #[error("more than 256 units")]
    TooLong,
}

/// Why there is no pattern of a text: its fault, or no memory.
pub type PatternRefused = Refused<PatternFault>;
