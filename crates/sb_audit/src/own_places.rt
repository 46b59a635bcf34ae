// Where the call of an entry is.

/// Where the call of an entry is whose channel is clean.
#[derive(Clone, Copy)]
pub enum OwnPlace {
    /// The channel is not clean.
    NotClean,
    /// The entry is not that of a call of a thread of its target, or not above the thread's earlier ones.
    NotOwn,
    /// It is that of the call at this place of this thread, each from 0.
    At { thread: usize, place: usize },
}
