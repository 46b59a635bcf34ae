// Why a script text is refused.
ghost use Rattle.std.specs.Prelude.{◌≡◌};
ghost use Rattle.sb_scripttext.specs.Kinds.{kind_number};

use sb_text::{LineFault, Refused, TokenFault, WordFault};

/// What a script text may have only a limited number of.
#[derive(Clone, Copy, Debug)]
pub enum ScriptLimit {
    /// Opening lines: at most 4,096.
    Openings,
    /// Targets: at most 8.
    Targets,
    /// Threads of a target: at most 4.
    Threads,
    /// Statements of a thread: at most 4,096.
    Statements,
}

/// Why an opening line cannot be placed after those before it. Names are compared without regard to small and capital ASCII letters.
#[derive(Clone, Copy, Debug)]
pub enum StartFault {
    /// An earlier line has its name, in the same service. Files and directories are of one service.
    NameTaken,
    /// No earlier line of the same service has the name of its parent.
    NoParent,
    /// The earlier line with the name of its parent is that of a file.
    ParentIsFile,
}

/// What is wrong with a line of a script text.
#[derive(Clone, Copy, Debug)]
pub enum ScriptKind {
    /// The text is not UTF-8.
    NotUtf8,
    /// The first line that is neither blank nor a comment is not `sandbox-script 1`, a line is out of place, or a word is not known here,
    /// missing, broken or one too many.
    UnknownWord(WordFault),
    /// There is no call of this name.
    UnknownCall,
    /// An argument of a call is missing, one too many or of the wrong kind, or another statement has too few or too many words.
    WrongArgs(WordFault),
    /// No number below 2^64.
    BadNumber,
    /// A number out of its range: a patience and the loads of a `wait` are 1 to 1,000,000, the channels of a target 1 to 8,
    /// the kind and the initial state of an event 0 or 1, attributes and the numbers of a call below 2^32.
    OutOfRange {
        /// The lowest number of the range.
        low: u64,
        /// The highest.
        high: u64,
    },
    /// The string is no name.
    BadName,
    /// There is no policy of this name.
    NoSuchPolicy,
    /// The target that a statement names is not there.
    NoSuchTarget {
        /// The number named.
        target: u64,
        /// The number of targets of the script.
        targets: usize,
    },
    /// The channel that a statement names is not there.
    NoSuchChannel {
        /// The number named.
        channel: u64,
        /// Its target.
        target: u32,
        /// The number of channels of the target.
        channels: u32,
    },
    /// A block word above 63.
    NoSuchWord,
    /// One more than the limit.
    TooMany(ScriptLimit),
    /// The block of the call would need more than 64 words.
    TooBig,
    /// An earlier target has this name.
    SameName,
    /// An opening line cannot be placed after those before it.
    BadStart(StartFault),
}

impl ScriptKind {
    /// The number of the kind, from 1 to 14.
    pub fn number(self) -> u64
        ensures { result ≡ kind_number self }
    {
        match self {
            ScriptKind::NotUtf8 => 1,
            ScriptKind::UnknownWord(_) => 2,
            ScriptKind::UnknownCall => 3,
            ScriptKind::WrongArgs(_) => 4,
            ScriptKind::BadNumber | ScriptKind::OutOfRange { .. } => 5,
            ScriptKind::BadName => 6,
            ScriptKind::NoSuchPolicy => 7,
            ScriptKind::NoSuchTarget { .. } => 8,
            ScriptKind::NoSuchChannel { .. } => 9,
            ScriptKind::NoSuchWord => 10,
            ScriptKind::TooMany(_) => 11,
            ScriptKind::TooBig => 12,
            ScriptKind::SameName => 13,
            ScriptKind::BadStart(_) => 14,
        }
    }
}

/// The first fault of a script text.
pub type ScriptFault = LineFault<ScriptKind>;

/// Why there is no script of a text: its first fault, or no memory.
pub type ScriptRefused = Refused<ScriptFault>;

// Why there is nothing of a line, whose number is not known here.
pub(crate) type LineRefused = Refused<TokenFault<ScriptKind>>;

// Why there is nothing of a part of a line, whose place is not known here.
pub(crate) type KindRefused = Refused<ScriptKind>;
