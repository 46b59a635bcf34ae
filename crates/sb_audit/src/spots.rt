// Where a statement is.

/// Where a statement is.
#[derive(Clone, Copy)]
pub struct Spot {
    /// The number of the target, from 0.
    pub target: usize,
    /// The number of the thread of the target, from 0.
    pub thread: usize,
    /// The place in the thread, from 0.
    pub place: usize,
}
