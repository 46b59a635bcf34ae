// How a statement ends.

/// How a statement ends. Its result is made where it is kept (`ThreadState::end`), so that no step hands on a whole result.
#[derive(Clone, Copy)]
pub(crate) enum Ending {
    /// The call got no channel.
    NoChannel,
    /// The call's channel was no longer its own.
    SendLost { channel: u32, found: u64 },
    /// The call waited no more.
    TimedOut { channel: u32 },
    /// The reply was fetched.
    Replied { channel: u32 },
    /// The value was stored.
    Stored,
    /// The exchange or the load found this value.
    Found(u64),
    /// The value was met at this load.
    Met { loads: u32 },
    /// None of these loads found the value.
    Unmet { loads: u32 },
}
