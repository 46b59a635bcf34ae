// The seat of whoever opened the run: all seats are made of it, and it takes them in again.
ghost use Rattle.std.specs.Prelude.{◌≡◌, []};
ghost use Rattle.sb_shared.specs.Seats.{IsLook, IsStop, keeper_told};
ghost use Rattle.sb_shared.specs.declared.stops.Stop.TheVariants.{Finished, OutOfMemory};

use crate::moves::{look, set_stop};
use crate::protocol::Slot;
use crate::stops::Stop;
use crate::views::View;
use crate::worlds::SharedWorld;
use atomic_table::Seat;
use std::marker::Model;

/// The seat of whoever opened the run. Contracts see the parts that it has, and what it has seen.
pub struct Keeper {
    pub(crate) seat: Seat<Slot, View>,
}

impl Drop for Keeper {
    fn drop(self) {
        let Keeper { seat: _ } = self;
    }
}

impl Model for Keeper {
    ghost use Rattle.std.specs.Prelude.{◌≡◌, []};
    ghost use Rattle.sb_shared.specs.Seats.{KeeperValue, keeper_seat};

    ghost Value = { KeeperValue };

    ghost view = { λ s. keeper_seat s.seat.table_id s.seat.me.0 };

    ghost invariant = { λ s. s.seat.me.1 ≡ [] };
}

impl Keeper {
    /// Stops the run, since all threads have ended. If an actor ran out of memory before, the stop word keeps saying so.
    pub fn stop(&mut self, world: &SharedWorld)
        requires own { self.old.table ≡ world.now.table }
        ensures same { self.new ≡ keeper_told self.old self.new.history }
        ensures stopped { IsStop self.old.parts self.old.history Finished self.new.history }
    {
        set_stop(&world.table.shared, &mut self.seat, Stop::Finished);
    }

    /// Stops the run, out of memory: every actor that looks at the stop word ends.
    pub fn fail(&mut self, world: &SharedWorld)
        requires own { self.old.table ≡ world.now.table }
        ensures same { self.new ≡ keeper_told self.old self.new.history }
        ensures stopped { IsStop self.old.parts self.old.history OutOfMemory self.new.history }
    {
        set_stop(&world.table.shared, &mut self.seat, Stop::OutOfMemory);
    }

    /// Looks at the stop word: the stop that was set, if one was.
    pub fn stopped(&mut self, world: &SharedWorld) -> Option<Stop>
        requires own { self.old.table ≡ world.now.table }
        ensures same { self.new ≡ keeper_told self.old self.new.history }
        ensures looked { IsLook self.old.parts self.old.history result self.new.history }
    {
        look(&world.table.shared, &mut self.seat)
    }

    // The seat of the table.
    pub(crate) fn into_seat(self) -> Seat<Slot, View>
        ensures table { result.table_id ≡ self.table }
        ensures key { result.me.0.key ≡ self.key }
        ensures parts { result.me.0.parts ≡ self.parts }
        ensures taken { result.me.0.taken ≡ self.taken }
        ensures out { result.me.1 ≡ [] }
    {
        let Keeper { seat } = self;
        seat
    }
}
