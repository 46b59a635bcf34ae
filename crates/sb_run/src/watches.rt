// The caller's seat while the threads of the script may still make steps.
ghost use Rattle.std.specs.Prelude.{◌≡◌};
ghost use Rattle.sb_shared.specs.Closing.{AreFinished, AreThreads};
ghost use Rattle.sb_shared.specs.Seats.{IsLook, IsStop, keeper_told};
ghost use Rattle.sb_shared.specs.declared.stops.Stop.TheVariants.{Finished, OutOfMemory};

use sb_shared::{Keeper, SharedWorld, Stop, ThreadSeat};
use std::marker::Model;

/// The caller's seat while the threads of the script may still make steps. With it the run stops out of memory, or once the seats of all threads have
/// come back ended. Contracts see the seat.
pub(crate) struct Watch {
    keeper: Keeper,
}

impl Drop for Watch {
    fn drop(self) {
        let Watch { keeper: _ } = self;
    }
}

impl Model for Watch {
    ghost use Rattle.sb_shared.specs.Seats.{KeeperValue};

    ghost Value = { KeeperValue };

    ghost view = { λ x. x.keeper };
}

impl Watch {
    /// The watch with this seat.
    pub(crate) fn new(keeper: Keeper) -> Watch
        ensures { result ≡ keeper }
    {
        Watch { keeper }
    }

    /// Stops the run, since each thread of the script has ended: these are the seats of all of them. If an actor ran out of memory before, the stop word
    /// keeps saying so.
    pub(crate) fn stop(&mut self, world: &SharedWorld, _ended: &[ThreadSeat])
        requires own { self.old.table ≡ world.now.table }
        requires all { AreThreads world.now _ended.now }
        requires ended { AreFinished world.now.key _ended.now }
        ensures same { self.new ≡ keeper_told self.old self.new.history }
        ensures stopped { IsStop self.old.parts self.old.history Finished self.new.history }
    {
        self.keeper.stop(world);
    }

    /// Stops the run, out of memory: every actor that looks at the stop word ends.
    pub(crate) fn fail(&mut self, world: &SharedWorld)
        requires own { self.old.table ≡ world.now.table }
        ensures same { self.new ≡ keeper_told self.old self.new.history }
        ensures stopped { IsStop self.old.parts self.old.history OutOfMemory self.new.history }
    {
        self.keeper.fail(world);
    }

    /// Looks at the stop word: the stop that was set, if one was.
    pub(crate) fn stopped(&mut self, world: &SharedWorld) -> Option<Stop>
        requires own { self.old.table ≡ world.now.table }
        ensures same { self.new ≡ keeper_told self.old self.new.history }
        ensures looked { IsLook self.old.parts self.old.history result self.new.history }
    {
        self.keeper.stopped(world)
    }

    /// The seat, to take in all others.
    pub(crate) fn into_keeper(self) -> Keeper
        ensures { result ≡ self }
    {
        let Watch { keeper } = self;
        keeper
    }
}
