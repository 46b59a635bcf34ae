// What a line of a transcript shows.
use sb_block::BlockFault;
use sb_call::{Args, CallTag, Extended, ShortName};

/// What the line of an entry shows of its decision. Each but a refusal names its call; lines of the policy are numbered from 1.
pub enum ShownDecision {
    /// The block has this fault.
    Refused(BlockFault),
    /// No rule matched.
    NoRule(CallTag),
    /// The rule on this line denies.
    Denied { tag: CallTag, line: u32 },
    /// The rule on this line denies and raises an alarm.
    Alarmed { tag: CallTag, line: u32 },
    /// The rule on this line fakes a success.
    Faked { tag: CallTag, line: u32 },
    /// The rule on this line allows the call, which was performed with these arguments.
    Allowed { tag: CallTag, args: Args, line: u32 },
    /// The rule on this line allows the call for reading, and it was performed with these arguments.
    ReadOnly { tag: CallTag, args: Args, line: u32 },
}

// What a decision holds is dropped by one call.
impl Drop for ShownDecision {
    fn drop(self) {
        match self {
            ShownDecision::Refused(_) => {}
            ShownDecision::NoRule(_) => {}
            ShownDecision::Denied { tag: _, line: _ } => {}
            ShownDecision::Alarmed { tag: _, line: _ } => {}
            ShownDecision::Faked { tag: _, line: _ } => {}
            ShownDecision::Allowed {
                tag: _,
                args: _,
                line: _,
            } => {}
            ShownDecision::ReadOnly {
                tag: _,
                args: _,
                line: _,
            } => {}
        }
    }
}

/// What a line shows of a reply: all but the mark.
#[derive(Drop, PartialEq)]
pub struct ShownReply {
    /// 0 performed, 1 refused, 2 denied, 3 faked. Bytes in a file may show any number.
    pub outcome: u64,
    /// A Windows status code, or any number.
    pub status: u64,
    /// The handle that was granted, or 0.
    pub handle: u64,
    /// The extended words, at most seven.
    pub ext: Extended,
}

/// The line of an entry.
#[derive(Drop)]
pub struct EntryLine {
    /// The number of the entry, from 0.
    pub number: u64,
    /// The name of the target.
    pub target: ShortName,
    /// The number of the channel, from 0.
    pub channel: u32,
    /// The mark of the copy.
    pub mark: u64,
    /// What was decided.
    pub decision: ShownDecision,
    /// What was replied.
    pub reply: ShownReply,
}

/// What the line of a result shows. Channels are numbered from 0.
#[derive(Drop)]
pub enum ShownResult {
    /// A call got this reply on this channel.
    Reply { channel: u32, reply: ShownReply },
    /// No channel was free for a call.
    NoChannel,
    /// The channel of a call was taken from it while it was filled: its state held this value.
    SendLost { channel: u32, found: u64 },
    /// The reply to a call on this channel was to another mark.
    Foreign { channel: u32, mark: u64 },
    /// A call got no reply in time.
    TimedOut { channel: u32 },
    /// A value was stored.
    Stored,
    /// This value was found.
    Found(u64),
    /// A value was met at this load, from 1.
    Met { loads: u32 },
    /// A value was not met in this number of loads.
    Unmet { loads: u32 },
}

/// The line of the result of a statement.
#[derive(Drop)]
pub struct ResultLine {
    /// The name of the target.
    pub target: ShortName,
    /// The number of the thread of the target, from 0.
    pub thread: u32,
    /// The place of the statement in the thread, from 0.
    pub place: u32,
    /// What became of the statement.
    pub result: ShownResult,
}

/// The last line: how many entries there are, how many of each decision, and how many results.
#[derive(Clone, Copy, PartialEq)]
pub struct TotalsLine {
    /// How many entries there are.
    pub entries: u64,
    /// How many calls were performed.
    pub performed: u64,
    /// How many calls were faked.
    pub faked: u64,
    /// How many calls were denied.
    pub denied: u64,
    /// How many blocks were refused.
    pub refused: u64,
    /// How many results there are.
    pub results: u64,
}

/// A line of a transcript.
#[derive(Drop)]
pub enum Line {
    /// Of an entry of the history.
    Entry(EntryLine),
    /// Of the result of a statement.
    Result(ResultLine),
    /// The totals.
    Totals(TotalsLine),
}
