// What became of a statement.
use sb_call::Reply;

/// What became of a call. Channels are numbered from 0.
#[derive(Drop, PartialEq)]
pub enum CallResult {
    /// A reply came back on this channel.
    Reply { channel: u32, reply: Reply },
    /// No channel was free.
    NoChannel,
    /// The channel was taken from the thread while it was filled: its state held this value.
    SendLost { channel: u32, found: u64 },
    /// The reply on this channel was to another mark.
    Foreign { channel: u32, mark: u64 },
    /// No reply came within the script's patience.
    TimedOut { channel: u32 },
}

/// What became of a statement.
#[derive(Drop, PartialEq)]
pub enum StmtResult {
    /// Of a call.
    Call(CallResult),
    /// The value was stored.
    Stored,
    /// An exchange or a load found this value.
    Found(u64),
    /// The value was met at this load, counted from 1.
    Met { loads: u32 },
    /// None of these loads found the value.
    Unmet { loads: u32 },
}
