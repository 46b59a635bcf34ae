// The rule of the table, and what a step tells of it.

use crate::books::BoxedBook;
use crate::views::{Origin, View};
use atomic_table::{Join, Play, Split, TableRule};

// What the slot of the table holds.
pub(crate) type Slot = Option<BoxedBook>;

// The words, the book and the seats are those of a world that steps lead to.
pub(crate) struct World;

impl TableRule<Slot, View, Origin> for World {
    ghost use Rattle.sb_shared.specs.Rule.{Holds};
    ghost use Rattle.sb_shared.specs.Opening.{first_view};

    ghost holds = { λ key s. Holds key s };

    ghost first = { λ key. first_view key };
}

// A step on a word.
pub(crate) struct Steps;

impl Play<Slot, View> for Steps {
    ghost use Rattle.sb_shared.specs.Plays.{Stepped};

    ghost then = { Stepped };
}

// A try to take the turn.
pub(crate) struct Tries;

impl Play<Slot, View> for Tries {
    ghost use Rattle.sb_shared.specs.Plays.{Tried};

    ghost then = { Tried };
}

// The book answers.
pub(crate) struct BookAnswers;

impl Play<Slot, View> for BookAnswers {
    ghost use Rattle.sb_shared.specs.Plays.{HasAnswered};

    ghost then = { HasAnswered };
}

// The turn is given back.
pub(crate) struct Gives;

impl Play<Slot, View> for Gives {
    ghost use Rattle.sb_shared.specs.Plays.{Gave};

    ghost then = { Gave };
}

// A look at the stop word.
pub(crate) struct Looks;

impl Play<Slot, View> for Looks {
    ghost use Rattle.sb_shared.specs.Plays.{Looked};

    ghost then = { Looked };
}

// The stop word is set, since all threads have ended.
pub(crate) struct Ends;

impl Play<Slot, View> for Ends {
    ghost use Rattle.sb_shared.specs.Plays.{Ended};

    ghost then = { Ended };
}

// The stop word is set, since an actor ran out of memory.
pub(crate) struct Fails;

impl Play<Slot, View> for Fails {
    ghost use Rattle.sb_shared.specs.Plays.{Failed};

    ghost then = { Failed };
}

// The first part of a seat goes to a new one, and a seat takes in the parts of another.
pub(crate) struct Parts;

impl Split<View> for Parts {
    ghost use Rattle.sb_shared.specs.Closing.{left_view, right_view};

    ghost left = { left_view };

    ghost right = { right_view };
}

impl Join<View> for Parts {
    ghost use Rattle.sb_shared.specs.Closing.{joined_view, spent_view};

    ghost both = { joined_view };

    ghost spent = { spent_view };
}
