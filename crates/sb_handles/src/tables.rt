// The handles that targets hold.
ghost use Rattle.std.specs.Prelude.{◌≡◌, ◌<◌, ◌≤◌, ◌+◌, ◌-◌, ◌^◌, Some, None, IfOk, IfSome, OnOk, OnErr, OnSome, length};
ghost use Rattle.sb_handles.specs.Tables.{HasRoom, no_handles, held_by, with_handle, without_handle, IsTable};
ghost use Rattle.sb_handles.specs.Slots.{slot_of};

use crate::objects::{Held, NotHeld};
use sb_base::NoMemory;
use std::alloc::Global;
use std::marker::Model;

// What an open handle is open on.
#[derive(Clone, Copy)]
pub(crate) struct Slot {
    target: u32,
    held: Held,
}

/// The handles that targets hold, in the order in which they were granted, and how many were ever granted.
///
/// Handles are numbered from 1 as they are granted, over all targets. No number is granted twice.
pub struct HandleTable {
    // The handle of number n is at place n - 1, until it is closed.
    slots: Vec<Option<Slot>>,
}

impl Drop for HandleTable {
    fn drop(self) {
        let HandleTable { slots: _ } = self;
    }
}

impl Model for HandleTable {
    ghost use Rattle.std.specs.Prelude.{length};
    ghost use Rattle.std.specs.Vec.{vec_capacity};
    ghost use Rattle.sb_handles.specs.Tables.{Store};
    ghost use Rattle.sb_handles.specs.Slots.{open_from};

    ghost Value = { Store };

    ghost view = { λ t. record { table = record { handles = open_from 1 t.slots.items; granted = length t.slots.items }; capacity = vec_capacity t.slots } };
}

// The slot of a number, if it is open.
#[tactic(auto, using(crate::proofs::SlotLemmas::slot_at, crate::proofs::SlotLemmas::slot_below, crate::proofs::SlotLemmas::slot_in))]
fn slot_of(slots: &[Option<Slot>], number: u64) -> Option<Slot>
    ensures slot { result ≡ slot_of 1 slots.now number }
    ensures place { OnSome result ((1 ≤ number) × (number ≤ length slots.now)) }
{
    let place = number.checked_sub(1)?;
    match slots.get(place as usize) {
        Some(slot) => *slot,
        None => None,
    }
}

impl HandleTable {
    /// Nothing was granted.
    pub fn new(alloc: Global) -> HandleTable
        ensures { result.table ≡ no_handles }
    {
        HandleTable {
            slots: Vec::new(alloc),
        }
    }

    /// How many handles were ever granted, over all targets. They are fewer than 2^62, since each takes memory.
    pub fn granted(&self) -> u64
        ensures count { result ≡ self.now.table.granted }
        ensures few { result < 2 ^ 62 }
    {
        self.slots.as_slice().len() as u64
    }

    /// A table of the same handles.
    ///
    /// # Errors
    /// `NoMemory` if there is none for it.
    pub fn copy(&self, alloc: Global) -> Result<HandleTable, NoMemory>
        ensures { IfOk result (λ copy. copy.table ≡ self.now.table) }
    {
        Ok(HandleTable {
            slots: Vec::from_slice(alloc, &self.slots)?,
        })
    }

    /// Takes the memory for one more handle, so that `grant_reserved` can grant it. The handles stay as they are.
    ///
    /// # Errors
    /// `NoMemory` if there is none for a handle.
    pub fn reserve(&mut self) -> Result<(), NoMemory>
        ensures table { self.new.table ≡ self.old.table }
        ensures room { OnOk result (HasRoom self.new) }
    {
        self.slots.reserve(1)?;
        Ok(())
    }

    /// Grants a handle to a target, for which there is room. Its number is one more than the count of handles ever granted.
    #[tactic(auto, using(crate::proofs::SlotLemmas::one_more))]
    pub fn grant_reserved(&mut self, target: u32, held: Held) -> u64
        requires { HasRoom self.old }
        ensures number { result ≡ self.old.table.granted + 1 }
        ensures table { self.new.table ≡ with_handle self.old.table target held }
    {
        self.slots.push_reserved(Some(Slot { target, held }));
        self.slots.as_slice().len() as u64
    }

    /// Grants a handle to a target. Its number is one more than the count of handles ever granted.
    ///
    /// # Errors
    /// `NoMemory` if there is none for the handle; then the handles stay as they are.
    pub fn grant(&mut self, target: u32, held: Held) -> Result<u64, NoMemory>
        ensures number { IfOk result (λ number. number ≡ self.old.table.granted + 1) }
        ensures ok { OnOk result (self.new.table ≡ with_handle self.old.table target held) }
        ensures err { OnErr result (self.new.table ≡ self.old.table) }
    {
        self.reserve()?;
        Ok(self.grant_reserved(target, held))
    }

    /// What a target holds under a number, or None if it holds no handle of that number.
    #[tactic(auto, using(crate::proofs::SlotLemmas::found_slot))]
    pub fn lookup(&self, target: u32, number: u64) -> Option<Held>
        ensures { result ≡ held_by self.now.table target number }
    {
        let slot = slot_of(&self.slots, number)?;
        if slot.target == target {
            Some(slot.held)
        } else {
            None
        }
    }

    /// Closes a handle that a target holds, and returns what it was open on.
    ///
    /// # Errors
    /// `NotHeld` exactly if the target holds no handle of that number; then nothing is changed.
    #[tactic(auto, using(crate::proofs::SlotLemmas::found_slot, crate::proofs::SlotLemmas::emptied))]
    pub fn close(&mut self, target: u32, number: u64) -> Result<Held, NotHeld>
        ensures held { IfOk result (λ held. held_by self.old.table target number ≡ Some held) }
        ensures ok { OnOk result (self.new.table ≡ without_handle self.old.table target number) }
        ensures absent { OnErr result (held_by self.old.table target number ≡ None) }
        ensures err { OnErr result (self.new ≡ self.old) }
    {
        match slot_of(&self.slots, number) {
            Some(slot) if slot.target == target => {
                self.slots[(number - 1) as usize] = None;
                Ok(slot.held)
            }
            _ => Err(NotHeld),
        }
    }

    /// Establishes for a proof that the numbers of open handles rise strictly, from 1 to the count of handles ever granted. It
    /// does nothing.
    #[tactic(auto, using(crate::proofs::SlotLemmas::slots_rise))]
    pub fn establish_numbers(&self)
        ensures { IsTable self.now.table }
    {
        let _count = self.slots.len();
    }
}
