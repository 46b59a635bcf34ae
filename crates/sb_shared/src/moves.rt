// One atomic step of a seat of any kind: on a word of a channel, or on the stop word.
ghost use Rattle.std.specs.Prelude.{◌≡◌, ◌++◌, ◌∷◌, [], ℕ, List, true, false, MatchOption};
ghost use Rattle.atomic_table.specs.Table.{Allows, step};
ghost use mathlib.Core.Option as raw;
ghost use prog.Atomic.{either};
ghost use Rattle.sb_actor.specs.Acts.{observation};
ghost use Rattle.sb_shared.specs.Parts.{first_part, is_on_word, plan_in, seen_of, told_view, word_view};
ghost use Rattle.sb_shared.specs.Plays.{IsShown, MayStep, Stand};
ghost use Rattle.sb_shared.specs.Rule.{stop_word, word_count};
ghost use Rattle.sb_shared.specs.Seats.{IsLook, IsStop};

use crate::layout::{STOP, index_of};
use crate::protocol::{Ends, Fails, Looks, Slot, Steps, World};
use crate::stops::Stop;
use crate::views::{Origin, View};
use atomic_table::{Seat, Shared};
use sb_actor::{Act, Observed};

// The words of a world and the place of its book, as seats share them.
pub(crate) type Words = Shared<Slot, View, Origin, World>;

// One step by an actor's plan, and what it sees. A plan that is not on a word makes none.
#[inline(always)]
pub(crate) fn perform(words: &Words, seat: &mut Seat<Slot, View>, act: Act) -> Option<Observed>
    requires own { seat.old.table_id ≡ words.now.table_id }
    requires count { words.now.table_id.words ≡ word_count }
    requires may { MayStep words.now.key words.now.table_id.slots seat.old.id seat.old.me act }
    ensures own { (seat.new.table_id ≡ seat.old.table_id) × (seat.new.id ≡ seat.old.id) }
    ensures moved { MatchOption result ((is_on_word act ≡ false) × (seat.new.me ≡ seat.old.me)) (λ seen. (is_on_word act ≡ true) × Stand seat.new.me × ((n : ℕ) × (seat.new.me ≡ (word_view seat.old.me.0 n seat.new.me.0.history, seat.old.me.1)) × (observation seen ≡ seen_of act n) × IsShown seat.old.me.0 seat.new.me.0 (seen_of (plan_in seat.old.me.0.key.script.value (first_part seat.old.me.0.parts)) n))) }
{
    match act {
        Act::Load { target, word } => {
            let found = words.load::<Steps>(seat, index_of(target, word));
            Some(Observed::Value(found))
        }
        Act::Store {
            target,
            word,
            value,
        } => {
            words.store::<Steps>(seat, index_of(target, word), value);
            Some(Observed::Done)
        }
        Act::Exchange {
            target,
            word,
            from,
            to,
        } => {
            let found = words.compare_exchange::<Steps>(seat, index_of(target, word), from, to);
            Some(Observed::Value(found))
        }
        Act::Take | Act::Answer | Act::Give | Act::Idle => None,
    }
}

// What the stop word says.
pub(crate) fn look(words: &Words, seat: &mut Seat<Slot, View>) -> Option<Stop>
    requires own { (seat.old.table_id ≡ words.now.table_id) × (words.now.table_id.words ≡ word_count) }
    ensures own { (seat.new.table_id ≡ seat.old.table_id) × (seat.new.id ≡ seat.old.id) }
    ensures same { seat.new.me ≡ (told_view seat.old.me.0 seat.new.me.0.history, seat.old.me.1) }
    ensures looked { IsLook seat.old.me.0.parts seat.old.me.0.history result seat.new.me.0.history }
{
    match words.load::<Looks>(seat, STOP) {
        0 => None,
        1 => Some(Stop::Finished),
        _ => Some(Stop::OutOfMemory),
    }
}

// Sets the stop word, which only grows, and wakes all that doze.
pub(crate) fn set_stop(words: &Words, seat: &mut Seat<Slot, View>, stop: Stop)
    requires own { (seat.old.table_id ≡ words.now.table_id) × (words.now.table_id.words ≡ word_count) }
    ensures own { (seat.new.table_id ≡ seat.old.table_id) × (seat.new.id ≡ seat.old.id) }
    ensures same { seat.new.me ≡ (told_view seat.old.me.0 seat.new.me.0.history, seat.old.me.1) }
    ensures stopped { IsStop seat.old.me.0.parts seat.old.me.0.history stop seat.new.me.0.history }
{
    match stop {
        Stop::Finished => {
            words.compare_exchange::<Ends>(seat, STOP, 0, 1);
        }
        Stop::OutOfMemory => words.store::<Fails>(seat, STOP, 2),
    }
    words.wake_all(STOP);
}
