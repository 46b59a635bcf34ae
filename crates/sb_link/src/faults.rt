// Why a text of links is refused.
ghost use Rattle.std.specs.Prelude.{◌≡◌};
ghost use Rattle.sb_link.specs.Kinds.{kind_number};

use sb_text::{LineFault, Refused, TokenFault, WordFault};
use thiserror::Error;

/// What is wrong with a line of a text of links.
#[derive(Clone, Copy, Debug, Error)]
pub enum LinkKind {
    /// The text is not UTF-8.
    #[error("the text is not UTF-8")]
    NotUtf8,
    /// The first line that is neither blank nor a comment is not `sandbox-links 1`, a line does not begin with `link`, or a token is
    /// missing, broken, one too many, or quoted or not where it has to be otherwise.
    #[error("unknown, missing or extra word")]
    UnknownWord(WordFault),
    /// FROM or TO is no name, or has more than 256 UTF-16 units.
    #[error("bad name")]
    BadName,
    /// An earlier link has this FROM, except for the case of letters.
    #[error("an earlier link begins with this name")]
    SameName,
    /// More than 64 links.
    #[error("too many links")]
    TooMany,
}

impl LinkKind {
    /// The number of the kind, from 1 to 5.
    pub fn number(self) -> u64
        ensures { result ≡ kind_number self }
    {
        match self {
            LinkKind::NotUtf8 => 1,
            LinkKind::UnknownWord(_) => 2,
            LinkKind::BadName => 3,
            LinkKind::SameName => 4,
            LinkKind::TooMany => 5,
        }
    }
}

/// The first fault of a text of links.
pub type LinkFault = LineFault<LinkKind>;

/// Why there are no links of a text: its first fault, or no memory.
pub type LinksRefused = Refused<LinkFault>;

// Why there is nothing of a line, whose number is not known here.
pub(crate) type LineRefused = Refused<TokenFault<LinkKind>>;
