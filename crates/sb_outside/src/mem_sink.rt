// An output in memory.
ghost use Rattle.std.specs.Prelude.{◌≡◌, ◌≤◌, [], Some, length, not, OnOk, OnErr, IfOk, is_ok};
ghost use Rattle.sb_outside.specs.Outside.{GrowsByPrefix, GrowsUpTo};

use crate::lists::Numbers;
use crate::sink::{Sink, SinkFault};
use sb_base::NoMemory;
use std::alloc::Global;
use std::marker::Model;

/// An output in memory, of a room that is reserved once. It tells what was written, and nothing is ever pending.
///
/// The calls of `put` and `finish` are numbered together, from 1. Those whose number is in `fails` write nothing and return `Failed`. A
/// put that does not fit writes what fits and returns `Failed`. The numbers of calls and of faults stay at their last values.
pub struct MemSink {
    bytes: Vec<u8>,
    room: u64,
    fails: Numbers,
    calls: u64,
    faults: u64,
}

impl Drop for MemSink {
    fn drop(self) {
        let MemSink {
            bytes: _,
            room: _,
            fails: _,
            calls: _,
            faults: _,
        } = self;
    }
}

impl Model for MemSink {
    ghost use Rattle.std.specs.Prelude.{◌≤◌, vec_len, vec_capacity};
    ghost use Rattle.sb_outside.specs.MemSink.{Stored};

    ghost Value = { Stored };

    ghost view = { λ s. record { bytes = s.bytes.items; room = s.room; fails = s.fails; calls = s.calls; faults = s.faults } };

    ghost invariant = { λ s. (vec_len s.bytes ≤ s.room) × (s.room ≤ vec_capacity s.bytes) };
}

impl MemSink {
    ghost use Rattle.sb_outside.specs.MemSink.{after_finish, is_failing, new_sink};

    /// An empty output of `room` bytes, whose calls of the numbers in `fails` fail.
    ///
    /// # Errors
    /// `NoMemory` if there was none for the room.
    pub fn with_room(alloc: Global, room: u64, fails: Vec<u64>) -> Result<MemSink, NoMemory>
        ensures { IfOk result (λ s. s ≡ new_sink room fails.items) }
    {
        let bytes = Vec::with_capacity(alloc, room as usize)?;
        Ok(MemSink {
            bytes,
            room,
            fails: Numbers::new(fails),
            calls: 0,
            faults: 0,
        })
    }

    // Counts the next call, and the fault if it is one of those that fail.
    fn fails_next(&mut self) -> bool
        ensures after { self.new ≡ after_finish self.old }
        ensures answer { result ≡ is_failing self.old }
        ensures counted { self.old.faults ≤ self.new.faults }
        ensures room_kept { length self.new.bytes ≤ self.new.room }
    {
        self.calls = self.calls.saturating_add(1);
        if self.fails.as_slice().contains(&self.calls) {
            self.faults = self.faults.saturating_add(1);
            return true;
        }
        false
    }

    /// The bytes written so far.
    pub fn written(&self) -> &[u8]
        ensures { result.now ≡ self.now.bytes }
    {
        &self.bytes
    }
}

impl Sink for MemSink {
    ghost use Rattle.sb_outside.specs.MemSink.{after_finish, after_put, is_failing, takes_all};

    ghost written = { λ s. Some s.bytes };

    ghost pending = { λ _. [] };

    ghost faults = { λ s. s.faults };

    #[tactic(auto, using(crate::proofs::Written::grows_by_written))]
    fn put(&mut self, bytes: &[u8]) -> Result<(), SinkFault>
        // What this one is afterwards, and whether it took all.
        ensures after { self.new ≡ after_put self.old bytes.now }
        ensures answer { is_ok result ≡ takes_all self.old bytes.now }
        ensures counted { self.old.faults ≤ self.new.faults }
        ensures ok { OnOk result (GrowsUpTo (Some self.old.bytes) bytes.now (Some self.new.bytes) []) }
        ensures prefix { OnErr result (GrowsByPrefix (Some self.old.bytes) bytes.now (Some self.new.bytes)) }
        ensures room_kept { length self.new.bytes ≤ self.new.room }
    {
        if self.fails_next() {
            return Err(SinkFault::Failed);
        }
        let left = self.room as usize - self.bytes.len();
        let fitting = left.min(bytes.len());
        self.bytes.extend_from_slice(&bytes[..fitting]).unwrap();
        if fitting < bytes.len() {
            self.faults = self.faults.saturating_add(1);
            return Err(SinkFault::Failed);
        }
        Ok(())
    }

    fn finish(&mut self) -> Result<(), SinkFault>
        // What this one is afterwards, and whether it failed.
        ensures after { self.new ≡ after_finish self.old }
        ensures answer { is_ok result ≡ not (is_failing self.old) }
        ensures counted { self.old.faults ≤ self.new.faults }
        ensures prefix { OnErr result (GrowsByPrefix (Some self.old.bytes) [] (Some self.new.bytes)) }
    {
        match self.fails_next() {
            true => Err(SinkFault::Failed),
            false => Ok(()),
        }
    }
}
