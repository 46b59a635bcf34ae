// The world that all actors of a run share.
ghost use Rattle.std.specs.Prelude.{◌≡◌, true};
ghost use Rattle.sb_book.specs.Readiness.{IsReady};
ghost use Rattle.sb_shared.specs.Rooms.{AreRooms};
ghost use Rattle.sb_shared.specs.Rule.{word_count};

use crate::layout::STOP;
use crate::protocol::{Slot, World};
use crate::rooms::Rooms;
use crate::views::{Origin, View};
use atomic_table::Table;
use crossbeam_utils::CachePadded;
use std::alloc::Global;
use std::marker::Model;
use std::sync::Wait;
use std::sync::atomic::{AtomicU64, Ordering};
use std::time::Duration;

/// What all actors of a run share: the words of all channels, the turn word, the stop word, and the place of the book. The script of the
/// run is ready for its policies.
pub struct SharedWorld {
    pub(crate) table: Table<Slot, View, Origin, World, Global>,
    // What `close` fills.
    pub(crate) rooms: Rooms,
    // How many threads sleep in `doze_idle`. Each thread that serves writes it, so no other value is on its cache lines.
    pub(crate) idle: CachePadded<AtomicU64>,
}

impl Drop for SharedWorld {
    fn drop(self) {
        let SharedWorld {
            table: _,
            rooms: _,
            idle: _,
        } = self;
    }
}

impl Model for SharedWorld {
    ghost use Rattle.std.specs.Prelude.{◌≡◌, true};
    ghost use Rattle.sb_book.specs.Readiness.{IsReady};
    ghost use Rattle.sb_shared.specs.Rooms.{AreRooms};
    ghost use Rattle.sb_shared.specs.Rule.{word_count};
    ghost use Rattle.sb_shared.specs.Seats.{SharedValue};

    ghost Value = { SharedValue };

    ghost view = { λ s. record { table = s.table.shared.table_id; key = s.table.shared.key } };

    ghost invariant = { λ s. (s.table.shared.table_id.words ≡ word_count) × (s.table.shared.table_id.slots ≡ 1) × IsReady s.table.shared.key.policies.value.list s.table.shared.key.script.value
        × AreRooms s.table.shared.key.script.value.targets s.rooms };
}

impl SharedWorld {
    /// The script of the run is ready for its policies. It does nothing.
    pub fn establish_ready(&self)
        ensures { IsReady self.now.key.policies.value.list self.now.key.script.value }
    {
        let _words = &self.rooms.words;
    }

    // The table, and what `close` fills.
    pub(crate) fn into_parts(self) -> (Table<Slot, View, Origin, World, Global>, Rooms)
        ensures table { result.0.shared.table_id ≡ self.table }
        ensures key { result.0.shared.key ≡ self.key }
        ensures words { result.0.shared.table_id.words ≡ word_count }
        ensures slots { result.0.shared.table_id.slots ≡ 1 }
        ensures rooms { AreRooms self.key.script.value.targets result.1 }
    {
        let SharedWorld {
            table,
            rooms,
            idle: _,
        } = self;
        (table, rooms)
    }

    /// Sleeps while the stop word is 0, for no longer than this time. It may also return sooner.
    pub fn doze<R: Wait>(&self, rt: &R, time: Duration) {
        self.table.shared.park_timeout(rt, STOP, 0, time);
    }

    /// Sleeps as `doze` does, and is counted meanwhile by `idle_count`.
    pub fn doze_idle<R: Wait>(&self, rt: &R, time: Duration) {
        self.idle.fetch_add(1, Ordering::SeqCst);
        self.doze(rt, time);
        self.idle.fetch_sub(1, Ordering::SeqCst);
    }

    /// How many threads sleep in `doze_idle`.
    pub fn idle_count(&self) -> u64 {
        self.idle.load(Ordering::SeqCst)
    }
}
