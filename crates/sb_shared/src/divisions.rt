// Seats are made of the keeper's seat, and taken in by it.
ghost use Rattle.std.specs.Prelude.{◌≡◌, ◌∷◌, ◌++◌, [], List};
ghost use Rattle.sb_shared.specs.Rule.{word_count};
ghost use Rattle.sb_shared.specs.Closing.{front, later_parts, taken_of};
ghost use Rattle.sb_shared.specs.Events.{longer};
ghost use Rattle.sb_shared.specs.declared.views.Part.{Part};

use crate::keepers::Keeper;
use crate::moves::Words;
use crate::protocol::{Parts, Slot};
use crate::views::View;
use atomic_table::Seat;

impl Keeper {
    // A seat with the first part.
    pub(crate) fn split(&mut self, words: &Words) -> Seat<Slot, View>
        requires own { (self.old.table ≡ words.now.table_id) × (words.now.table_id.words ≡ word_count) }
        requires key { self.old.key ≡ words.now.key }
        requires first { (p : Part) × (more : List Part) × (self.old.parts ≡ p ∷ more) }
        ensures same { self.new ≡ record self.old { parts = later_parts self.old.parts; taken = [] } }
        ensures seat { (result.table_id ≡ self.old.table) × (result.me ≡ (record { key = self.old.key; parts = front self.old.parts; found = 0; history = self.old.history; taken = [] }, [])) }
    {
        words.split_seat::<Parts>(&mut self.seat)
    }

    // Takes in the seat of an actor.
    pub(crate) fn join(&mut self, words: &Words, seat: Seat<Slot, View>)
        requires own { (self.old.table ≡ words.now.table_id) × (words.now.table_id.words ≡ word_count) }
        requires key { self.old.key ≡ words.now.key }
        requires seat { (seat.table_id ≡ words.now.table_id) × (seat.me.0.key ≡ words.now.key) × (seat.me.1 ≡ []) }
        ensures joined { self.new ≡ record self.old { parts = self.old.parts ++ seat.me.0.parts; history = longer self.old.history seat.me.0.history; taken = self.old.taken ++ taken_of seat.me.0 ∷ [] } }
    {
        words.join_seat::<Parts>(&mut self.seat, seat);
    }
}
