// What is due at a line at which a clause fails.
ghost use Rattle.std.specs.Prelude.{◌≡◌};
ghost use Rattle.sb_audit.specs.Dues.{clause_of};

use crate::spots::Spot;
use sb_call::CallTag;
use sb_rule::{Action, Verdict};
use sb_transcript::TotalsLine;

/// What is due by the first clause, on the form of a transcript.
#[derive(Clone, Copy)]
pub enum FormDue {
    /// The line feed that ends each line.
    LineFeed,
    /// The entry with this number, if an entry may follow, or the result of this statement, or the totals if no result is left.
    Line {
        entry: Option<u64>,
        result: Option<Spot>,
    },
    /// The end: nothing follows the totals.
    End,
}

/// What is due by the second clause, on the place of an entry.
#[derive(Clone, Copy)]
pub enum PlaceDue {
    /// One of the script's targets, of which there are this many.
    Target { targets: u32 },
    /// One of the target's channels, of which there are this many.
    Channel { channels: u32 },
}

/// What is due by the third clause, on the rule of an entry.
#[derive(Clone, Copy)]
pub enum RuleDue {
    /// Arguments that fit the call.
    FittingArgs,
    /// The policy's verdict on the call that is shown as performed.
    Decided(Verdict),
    /// A rule for this call on this line with this action. The policy has none.
    RuleOn { line: u32, action: Action },
    /// An access without these bits, which do more than read.
    Without { bits: u64 },
}

/// What is due by the fourth clause, on the reply of an entry.
#[derive(Clone, Copy)]
pub enum ReplyDue {
    /// A reply with this outcome, status, handle and number of extended words.
    Whole {
        outcome: u64,
        status: u64,
        handle: u64,
        words: usize,
    },
    /// This value of the extended word at this place, from 0. It is the first that differs, and nothing else does but extended words.
    Word {
        at: usize,
        value: u64,
    },
}

/// What is due by the fifth clause, on an entry on a clean channel.
#[derive(Clone, Copy)]
pub enum OwnDue {
    /// The mark of a call of the target.
    CallMark,
    /// The decision on the call with this mark: on a call of this tag, by this verdict of the policy.
    Decision { tag: CallTag, verdict: Verdict },
    /// A later call of the thread: an earlier entry is that of the call at this place, or of one after it.
    Later { thread: u64, place: u64 },
}

/// What is due by the sixth clause, on the result of a statement.
#[derive(Clone, Copy)]
pub enum ResultDue {
    /// A statement. There is none at this place.
    Statement,
    /// The reply of the entry on a clean channel of the target that has this mark.
    ReplyOf { mark: u64 },
    /// An entry on this channel with this mark, since the channel is clean.
    Entry { channel: u32, mark: u64 },
    /// A channel for the call, since the target has a clean one.
    Channel,
    /// The reply on this channel, since it is clean.
    CleanReply { channel: u32 },
    /// Another state than busy, for which the channel would have been taken from the call.
    OtherState,
    /// A mark other than the call's own.
    OtherMark { mark: u64 },
    /// A result of a call.
    OfCall,
    /// The result of a store.
    OfStore,
    /// The value that an exchange or a load found.
    OfLoad,
    /// A number of loads from 1 to this one if the value was met, and this one if it was not.
    OfWait { most: u32 },
}

/// What is due at a line of a transcript at which a clause fails, by that clause.
#[derive(Clone, Copy)]
pub enum Due {
    /// By the first clause.
    Form(FormDue),
    /// By the second.
    Place(PlaceDue),
    /// By the third.
    Rule(RuleDue),
    /// By the fourth.
    Reply(ReplyDue),
    /// By the fifth.
    Own(OwnDue),
    /// By the sixth.
    Result(ResultDue),
    /// By the seventh: these totals.
    Totals(TotalsLine),
}

impl Due {
    /// The number of the clause, from 1 to 7.
    pub fn clause(self) -> u32
        ensures { result ≡ clause_of self }
    {
        match self {
            Due::Form(_) => 1,
            Due::Place(_) => 2,
            Due::Rule(_) => 3,
            Due::Reply(_) => 4,
            Due::Own(_) => 5,
            Due::Result(_) => 6,
            Due::Totals(_) => 7,
        }
    }
}
