// Which accesses to one object may be open at the same time.
ghost use Rattle.std.specs.Prelude.{◌≡◌, ℕ, [], true, is_some, OnOk, OnErr};
ghost use Rattle.std.specs.BTreeMap.{get};
ghost use Rattle.std.specs.Ordering.{nat_cmp};
ghost use Rattle.sb_handles.specs.Counts.{AreRecounted, IsChangeable, kept, kinds_of};
ghost use Rattle.sb_handles.specs.Shares.{SharesRise, conflict_of, opened, left_on};

use crate::counts::{Counts, kinds_of};
use crate::masks::{Access, Sharing};
use crate::objects::Share;
use sb_base::NoMemory;
use std::alloc::Global;
use std::collections::BTreeMap;
use std::marker::Model;

/// The access and the sharing of each open handle of each object.
///
/// An access that reads, writes or deletes, also by a generic right, takes part in sharing; any other does not. A new access
/// conflicts with an open handle of the same object if it does what the handle does not share, or the handle does what the
/// new one does not share.
pub struct ShareTable {
    // By object and handle.
    shares: BTreeMap<(u64, u64), Share>,
    // What the handles of each object that was opened do and share.
    counts: BTreeMap<u64, Counts>,
}

// Written out, so that it is proved once and not at each place that drops one.
impl Drop for ShareTable {
    fn drop(self) {
        let ShareTable {
            shares: _,
            counts: _,
        } = self;
    }
}

impl Model for ShareTable {
    ghost use Rattle.std.specs.BTreeMap.{get};
    ghost use Rattle.std.specs.Ordering.{nat_cmp};
    ghost use Rattle.sb_handles.specs.Counts.{AreCounted};
    ghost use Rattle.sb_handles.specs.Shares.{Shares};

    ghost Value = { Shares };

    ghost view = { λ t. t.shares.entries };

    ghost invariant = { λ t. AreCounted t.shares.entries (get nat_cmp t.counts) };
}

// Counts a handle of an object by its share, and no longer by that before.
fn recount(counts: &mut BTreeMap<u64, Counts>, object: u64, was: Option<Share>, is: Option<Share>)
    requires there { is_some (get nat_cmp counts.old object) ≡ true }
    requires counted { IsChangeable (kept (get nat_cmp counts.old object)) (kinds_of was) }
    ensures { AreRecounted object (kinds_of was) (kinds_of is) (get nat_cmp counts.old) (get nat_cmp counts.new) }
{
    if let Some(counts) = counts.get_mut(&object) {
        *counts = counts.after(kinds_of(was), kinds_of(is));
    }
}

// Makes sure that counts are kept of an object.
fn keep(counts: &mut BTreeMap<u64, Counts>, object: u64) -> Result<(), NoMemory>
    ensures same { (o : ℕ) → kept (get nat_cmp counts.new o) ≡ kept (get nat_cmp counts.old o) }
    ensures there { OnOk result (is_some (get nat_cmp counts.new object) ≡ true) }
{
    if !counts.contains_key(&object) {
        counts.insert(object, Counts::new())?;
    }
    Ok(())
}

impl ShareTable {
    /// No handle is open.
    pub fn new(alloc: Global) -> ShareTable
        ensures { result ≡ [] }
    {
        ShareTable {
            shares: BTreeMap::new(alloc),
            counts: BTreeMap::new(alloc),
        }
    }

    /// Whether a new access with its sharing conflicts with an open handle of an object. The time does not depend on how many are open.
    pub fn has_conflict(&self, object: u64, access: Access, sharing: Sharing) -> bool
        ensures { result ≡ is_some (conflict_of self.now object access.0 sharing.0) }
    {
        let counts = self.counts.get(&object).copied();
        counts.unwrap_or(Counts::new()).excludes(access, sharing)
    }

    /// Opens an object with an access and its sharing, under a handle, whether or not it conflicts: `has_conflict` tells. A share
    /// that the handle had of the object is replaced.
    ///
    /// # Errors
    /// `NoMemory` if there was none for the share; then nothing is changed.
    pub fn open(
        &mut self,
        object: u64,
        handle: u64,
        access: Access,
        sharing: Sharing,
    ) -> Result<(), NoMemory>
        ensures ok { OnOk result (self.new ≡ opened self.old object handle (record { access = access; sharing = sharing })) }
        ensures err { OnErr result (self.new ≡ self.old) }
    {
        let share = Share { access, sharing };
        let _count = self.shares.len();
        keep(&mut self.counts, object)?;
        let was = self.shares.insert((object, handle), share)?;
        recount(&mut self.counts, object, was, Some(share));
        Ok(())
    }

    /// Takes out the share that a handle has of an object, if it has one.
    pub fn leave(&mut self, object: u64, handle: u64)
        ensures { self.new ≡ left_on self.old object handle }
    {
        let _count = self.shares.len();
        let was = self.shares.remove(&(object, handle));
        if self.counts.contains_key(&object) {
            recount(&mut self.counts, object, was, None);
        }
    }

    /// Establishes for a proof that the shares rise strictly, by object and then by handle. It does nothing.
    pub fn establish_order(&self)
        ensures { SharesRise self.now }
    {
        let _count = self.shares.len();
    }
}
