// What a run gives.

use crate::entries::Entries;
use sb_base::Items;
use sb_kernel::Kernel;
use sb_statements::StmtResult;

/// The results of a thread, by the place of their statement.
pub type ThreadResults = Items<StmtResult>;

/// The results of a target, by thread.
pub type TargetResults = Items<ThreadResults>;

/// The results of all, by target and thread.
pub type Results = Items<TargetResults>;

/// The channel words of a target: word j of channel c at `c * 65 + j`, where word 0 is the state and 1 + i block word i.
pub type WordList = Items<u64>;

/// The channel words of each target.
pub type AllWords = Items<WordList>;

/// What a run gives: the whole history, one result for each statement that ended, the channel words at its end, and the namespace
/// that the history led to.
pub struct Report {
    /// The whole history.
    pub entries: Entries,
    /// The results, by target, thread and place.
    pub results: Results,
    /// The channel words of each target: 65 for each channel.
    pub words: AllWords,
    /// The namespace, and the handles to it.
    pub kernel: Kernel,
}

impl Drop for Report {
    fn drop(self) {
        let Report {
            entries: _,
            results: _,
            words: _,
            kernel: _,
        } = self;
    }
}
