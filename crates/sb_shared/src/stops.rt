// Why a run stops.

/// Why a run stops.
#[derive(Clone, Copy)]
pub enum Stop {
    /// Each thread of the script has ended.
    Finished,
    /// An actor ran out of memory.
    OutOfMemory,
}
