// The rule of the pool, over what the queue holds and what each seat knows, and what a step tells of it.
ghost use Rattle.std.specs.Prelude.{◌≡◌, ℕ};

use crossbeam_queue::protocol::{Join, Lesson, Outcome, Protocol, Split};
use std::collections::LinkedList;
use std::marker::PhantomData;

/// A work that bears a number and has a home.
pub trait Numbered: Drop {
    /// What a work is tied to, as plain data that proofs compare. No value of it is made.
    type Home;

    ghost number: { Self → ℕ };

    ghost home: { Self → Self.Home };

    /// The number of the work, from 0.
    fn number(&self) -> u32
        ensures { result ≡ number self.now };
}

/// What a seat knows. Proofs speak of it, and no value of it is made.
pub struct PoolView<H> {
    /// The seat's own number.
    pub number: u64,
    /// The home of each work, in the order of the works' numbers.
    pub homes: LinkedList<H>,
    /// The numbers of the works that are out with this seat, the one drawn last in front.
    pub out: LinkedList<u64>,
    /// The numbers of the seats that this one took in.
    pub taken: LinkedList<u64>,
    /// How many seats were made, if this seat keeps count.
    pub count: Option<u64>,
    /// Whether the seat was not yet taken in by another.
    pub live: bool,
}

// Each number occurs once.
pub(crate) struct OnceEach<W> {
    of: PhantomData<W>,
}

impl<W: Numbered> Protocol<W, PoolView<W::Home>> for OnceEach<W> {
    ghost use Rattle.sb_pool.specs.Rule.{PoolRule};
    ghost use Rattle.sb_pool.specs.Views.{first_view};

    ghost holds = { PoolRule W.number W.home };

    ghost first = { first_view };
}

// A work joins the pool at its making.
pub(crate) struct Founds<W> {
    of: PhantomData<W>,
}

impl<W: Numbered> Outcome<W, PoolView<W::Home>> for Founds<W> {
    ghost use Rattle.std.specs.Prelude.{◌≡◌};
    ghost use Rattle.sb_pool.specs.Views.{with_home};

    ghost then = { λ v x w. w ≡ with_home v (W.home x) };
}

impl<W: Numbered> Lesson<W, PoolView<W::Home>> for Founds<W> {
    ghost use Rattle.sb_pool.specs.Rule.{IsWithin};

    ghost fact = { IsWithin };
}

// A work goes out with a seat.
pub(crate) struct Draws<W> {
    of: PhantomData<W>,
}

impl<W: Numbered> Outcome<W, PoolView<W::Home>> for Draws<W> {
    ghost use Rattle.sb_pool.specs.Rule.{Drawn};

    ghost then = { Drawn W.number W.home };
}

impl<W: Numbered> Lesson<W, PoolView<W::Home>> for Draws<W> {
    ghost use Rattle.sb_pool.specs.Rule.{IsMoment};

    ghost fact = { IsMoment W.number W.home };
}

// A work comes back from a seat.
pub(crate) struct Returns<W> {
    of: PhantomData<W>,
}

impl<W: Numbered> Outcome<W, PoolView<W::Home>> for Returns<W> {
    ghost use Rattle.std.specs.Prelude.{◌≡◌};
    ghost use Rattle.sb_pool.specs.Views.{with_back};

    ghost then = { λ v x w. w ≡ with_back v (W.number x) };
}

impl<W: Numbered> Lesson<W, PoolView<W::Home>> for Returns<W> {
    ghost use Rattle.sb_pool.specs.Rule.{IsWithin};

    ghost fact = { IsWithin };
}

// Seats are made of the one that keeps count, and taken in by any.
pub(crate) struct Seats;

impl<H> Split<PoolView<H>> for Seats {
    ghost use Rattle.sb_pool.specs.Views.{counted, newcomer};

    ghost left = { counted };

    ghost right = { newcomer };
}

impl<H> Join<PoolView<H>> for Seats {
    ghost use Rattle.sb_pool.specs.Views.{with_taken, spent_view};

    ghost both = { with_taken };

    ghost spent = { spent_view };
}
