// Why a schedule text is refused.
ghost use Rattle.std.specs.Prelude.{◌≡◌};
ghost use Rattle.sb_scripttext.specs.ScheduleKinds.{kind_number};

use sb_text::{LineFault, Refused, TokenFault, WordFault};

/// What is wrong with a line of a schedule text.
#[derive(Clone, Copy, Debug)]
pub enum ScheduleKind {
    /// The first line with words is not `sandbox-schedule 1`, a line is neither `step` nor `rounds` or follows `rounds`, or
    /// a word is missing or one too many.
    UnknownWord(WordFault),
    /// The word names no actor, or one that the script does not have.
    UnknownActor,
    /// No number below 2^64.
    BadNumber,
    /// A number out of its range: steps of a line are 1 to 100,000, rounds 0 to 20,000,000.
    OutOfRange {
        /// The lowest number of the range.
        low: u32,
        /// The highest.
        high: u32,
    },
    /// More than 100,000 steps.
    TooMany,
    /// There is no line `rounds`.
    NoRounds,
}

impl ScheduleKind {
    /// The number of the kind, from 1 to 5.
    pub fn number(self) -> u64
        ensures { result ≡ kind_number self }
    {
        match self {
            ScheduleKind::UnknownWord(_) => 1,
            ScheduleKind::UnknownActor => 2,
            ScheduleKind::BadNumber | ScheduleKind::OutOfRange { .. } => 3,
            ScheduleKind::TooMany => 4,
            ScheduleKind::NoRounds => 5,
        }
    }
}

/// The first fault of a schedule text.
pub type ScheduleFault = LineFault<ScheduleKind>;

/// Why there is no schedule of a text: its first fault, or no memory.
pub type ScheduleRefused = Refused<ScheduleFault>;

// Why there is nothing of a line, whose number is not known here.
pub(crate) type LineRefused = Refused<TokenFault<ScheduleKind>>;

// Why there is nothing of a word, whose place is not known here.
pub(crate) type KindRefused = Refused<ScheduleKind>;
