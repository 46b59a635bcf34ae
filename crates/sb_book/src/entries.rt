// The entries of the history.
ghost use Rattle.std.specs.Prelude.{◌≡◌, ◌<◌, ◌^◌, length};

use crate::decisions::Decision;
use crate::slices::EntrySlice;
use crate::stores::EntryStore;
use sb_block::BlockCopy;
use sb_call::Reply;
use std::marker::Model;

/// One answered block: whose it was, the copy that was taken of it, the decision and the reply.
pub struct Entry {
    /// The number of the target, from 0.
    pub target: u32,
    /// The number of the target's channel, from 0.
    pub channel: u32,
    /// The copy that was taken of the block.
    pub taken: BlockCopy,
    /// What was decided on the copy.
    pub decision: Decision,
    /// What was replied.
    pub reply: Reply,
}

impl Drop for Entry {
    fn drop(self) {
        let Entry {
            target: _,
            channel: _,
            taken: _,
            decision: _,
            reply: _,
        } = self;
    }
}

/// Entries, in the order in which they were answered. An entry needs memory for what its copy, its reply and its arguments have, and not for
/// the most that they may have. Contracts see the list of the entries.
pub struct Entries {
    store: EntryStore,
}

impl Drop for Entries {
    fn drop(self) {
        let Entries { store: _ } = self;
    }
}

impl Model for Entries {
    ghost use Rattle.std.specs.Prelude.{List};
    ghost use Rattle.sb_book.specs.declared.entries.Entry.{Entry};

    ghost Value = { List Entry };

    ghost view = { λ e. e.store.entries };
}

impl Entries {
    /// The entries that are stored there. Does not allocate.
    pub(crate) fn of(store: EntryStore) -> Entries
        ensures { result ≡ store.entries }
    {
        Entries { store }
    }

    /// How many entries there are, fewer than 2^63.
    pub fn len(&self) -> usize
        ensures len { result ≡ length self.now }
        ensures most { result < 2 ^ 63 }
    {
        self.store.len()
    }

    /// The entries, in order.
    pub fn as_slice(&self) -> EntrySlice<'_>
        ensures { result ≡ self.now }
    {
        self.store.as_slice()
    }
}
