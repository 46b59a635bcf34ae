// Why a policy text is refused.
ghost use Rattle.std.specs.Prelude.{◌≡◌};
ghost use Rattle.sb_ruletext.specs.Kinds.{kind_number};

use sb_call::CallTag;
use sb_rule::PatternFault;
use sb_text::{LineFault, Refused, TokenFault, WordFault};

/// What a policy text may have only a limited number of.
#[derive(Clone, Copy, Debug)]
pub enum PolicyLimit {
    /// Policies: at most 8 of a text.
    Policies,
    /// Rules: at most 256 of a policy, those of grants included.
    Rules,
    /// Conditions: at most 8 of a rule.
    Conditions,
    /// Numbers: at most 16 of a condition.
    Numbers,
}

/// What has to stand where another word is.
#[derive(Clone, Copy, Debug)]
pub enum WordDue {
    /// The first word of a line: `policy`, `grant` or an action.
    Line,
    /// The name of a policy: a short name.
    Name,
    /// `when`, if the line does not end with its call.
    When,
    /// A grant.
    Grant,
    /// A test.
    Test,
}

/// What has to stand in place of a test or value that does not fit its parameter.
#[derive(Clone, Copy, Debug)]
pub enum FitDue {
    /// A number, which has no quotes.
    Number,
    /// A string or a pattern, between quotes.
    Text,
    /// A test of a number.
    NumberTest,
    /// A test of a string.
    TextTest,
}

/// What is wrong with a line of a policy text.
#[derive(Clone, Copy, Debug)]
pub enum PolicyFaultKind {
    /// The text is not UTF-8.
    NotUtf8,
    /// The first line that is neither blank nor a comment is neither `sandbox-policy 1` nor `sandbox-policy 2`.
    BadVersion,
    /// A token that is missing, broken, quoted or one too many, or a word that a later version of the format has.
    UnknownWord(WordFault),
    /// A word that is none of those that may stand here.
    OtherWord(WordDue),
    /// There is no call of this name.
    UnknownCall,
    /// This call has no parameter of this name.
    UnknownParam(CallTag),
    /// The test or its value does not fit the parameter, where this is due.
    WrongKind(FitDue),
    /// No number below 2^64.
    BadNumber,
    /// No range `LO..HI` in one word, of numbers below 2^64.
    NoRange,
    /// The low end of a range is above its high end.
    EmptyRange,
    /// The pattern has this fault; a string of more than 256 units is `TooLong`.
    BadPattern(PatternFault),
    /// One too many of these.
    TooMany(PolicyLimit),
    /// An earlier policy has this name.
    SameName,
    /// A rule or a grant precedes the first heading.
    NoHeading,
    /// `readonly` of a call other than `file.open`, `key.open` and `event.open`.
    NotReadOnly,
}

impl PolicyFaultKind {
    /// The number of the kind, from 1 to 13.
    pub fn number(self) -> u64
        ensures { result ≡ kind_number self }
    {
        match self {
            PolicyFaultKind::NotUtf8 => 1,
            PolicyFaultKind::BadVersion => 2,
            PolicyFaultKind::UnknownWord(_) | PolicyFaultKind::OtherWord(_) => 3,
            PolicyFaultKind::UnknownCall => 4,
            PolicyFaultKind::UnknownParam(_) => 5,
            PolicyFaultKind::WrongKind(_) => 6,
            PolicyFaultKind::BadNumber | PolicyFaultKind::NoRange => 7,
            PolicyFaultKind::EmptyRange => 8,
            PolicyFaultKind::BadPattern(_) => 9,
            PolicyFaultKind::TooMany(_) => 10,
            PolicyFaultKind::SameName => 11,
            PolicyFaultKind::NoHeading => 12,
            PolicyFaultKind::NotReadOnly => 13,
        }
    }
}

/// The first fault of a policy text.
pub type PolicyFault = LineFault<PolicyFaultKind>;

/// Why there are no policies of a text: its first fault, or no memory.
pub type TextRefused = Refused<PolicyFault>;

// Why there is nothing of a line, whose number is not known here.
pub(crate) type LineRefused = Refused<TokenFault<PolicyFaultKind>>;
