// How many open handles of an object do and share what. A conflict is found from these counts, in the same time however many handles are open.
ghost use Rattle.std.specs.Prelude.{◌≡◌, ◌+◌, ◌≤◌, ◌<◌, ◌^◌};
ghost use Rattle.sb_handles.specs.Counts.{IsChangeable, counts_after, exceeds, excludes, kinds_of, no_counts, one_if, recounted, withholds};
ghost use Rattle.sb_handles.specs.Shares.{takes_part};

use crate::masks::{Access, Sharing};
use crate::objects::Share;
use bitflags::Flags;

/// Of the open handles of an object that take part in sharing, how many there are, and how many read, write, delete, and share
/// reading, writing and deleting: the fields of Windows' `SHARE_ACCESS`.
#[derive(Clone, Copy)]
pub(crate) struct Counts {
    open_count: u64,
    readers: u64,
    writers: u64,
    deleters: u64,
    shared_read: u64,
    shared_write: u64,
    shared_delete: u64,
}

/// Among which of them a handle is counted.
#[derive(Clone, Copy)]
pub(crate) struct Kinds {
    counted: bool,
    reads: bool,
    writes: bool,
    deletes: bool,
    shares_reading: bool,
    shares_writing: bool,
    shares_deleting: bool,
}

// Whether an access reads, writes or deletes: no other takes part in sharing.
fn takes_part(access: Access) -> bool
    ensures { result ≡ takes_part access.0 }
{
    access.intersects(Access::READS)
        || access.intersects(Access::WRITES)
        || access.intersects(Access::DELETES)
}

/// Among which counts a handle is by its share: none if it is not open.
pub(crate) fn kinds_of(share: Option<Share>) -> Kinds
    ensures { result ≡ kinds_of share }
{
    let Some(Share { access, sharing }) = share else {
        return Kinds {
            counted: false,
            reads: false,
            writes: false,
            deletes: false,
            shares_reading: false,
            shares_writing: false,
            shares_deleting: false,
        };
    };
    let part = takes_part(access);
    Kinds {
        counted: part,
        reads: access.intersects(Access::READS),
        writes: access.intersects(Access::WRITES),
        deletes: access.intersects(Access::DELETES),
        shares_reading: part && sharing.intersects(Sharing::READ),
        shares_writing: part && sharing.intersects(Sharing::WRITE),
        shares_deleting: part && sharing.intersects(Sharing::DELETE),
    }
}

// A count after one handle has changed.
fn recounted(count: u64, was: bool, is: bool) -> u64
    requires few { count < 2 ^ 63 }
    requires counted { one_if was ≤ count }
    ensures { result ≡ recounted count was is }
{
    count + u64::from(is) - u64::from(was)
}

impl Counts {
    /// No handle.
    pub(crate) fn new() -> Counts
        ensures { result ≡ no_counts }
    {
        Counts {
            open_count: 0,
            readers: 0,
            writers: 0,
            deleters: 0,
            shared_read: 0,
            shared_write: 0,
            shared_delete: 0,
        }
    }

    /// The counts after the share of a handle has changed.
    pub(crate) fn after(self, was: Kinds, is: Kinds) -> Counts
        requires { IsChangeable self was }
        ensures { result ≡ counts_after self was is }
    {
        Counts {
            open_count: recounted(self.open_count, was.counted, is.counted),
            readers: recounted(self.readers, was.reads, is.reads),
            writers: recounted(self.writers, was.writes, is.writes),
            deleters: recounted(self.deleters, was.deletes, is.deletes),
            shared_read: recounted(self.shared_read, was.shares_reading, is.shares_reading),
            shared_write: recounted(self.shared_write, was.shares_writing, is.shares_writing),
            shared_delete: recounted(self.shared_delete, was.shares_deleting, is.shares_deleting),
        }
    }

    // Whether a handle does not share what an access does.
    fn withholds(self, access: Access) -> bool
        ensures { result ≡ withholds self access.0 }
    {
        access.intersects(Access::READS) && self.shared_read < self.open_count
            || access.intersects(Access::WRITES) && self.shared_write < self.open_count
            || access.intersects(Access::DELETES) && self.shared_delete < self.open_count
    }

    // Whether a handle does what a sharing does not share.
    fn exceeds(self, sharing: Sharing) -> bool
        ensures { result ≡ exceeds self sharing.0 }
    {
        !sharing.intersects(Sharing::READ) && self.readers > 0
            || !sharing.intersects(Sharing::WRITE) && self.writers > 0
            || !sharing.intersects(Sharing::DELETE) && self.deleters > 0
    }

    /// Whether a new access with its sharing conflicts with one of the handles.
    pub(crate) fn excludes(self, access: Access, sharing: Sharing) -> bool
        ensures { result ≡ excludes self access.0 sharing.0 }
    {
        takes_part(access) && (self.withholds(access) || self.exceeds(sharing))
    }
}
