// The count of the works that are in: a semaphore, one word of an atomic table. A draw takes one from it before it takes a work
// from the queue, and a hand-back adds one once the work is in the queue, so the queue has a work for each that is counted. A
// draw that finds 0 has nothing to draw.
ghost use Rattle.std.specs.Prelude.{◌≡◌, ◌<◌, ◌≤◌, [], IfOk, MatchBool};
ghost use Rattle.atomic_table.specs.Seated.{TableId};
ghost use Rattle.sb_pool.specs.Events.{IsClosed, IsDraw, IsLook, IsPut, first_history, parted, newcomer_history, joined_history};
ghost use Rattle.sb_pool.specs.Counting.{IsPlaceOf, word_count};

use crate::events::SeatHistory;
use atomic_table::{Join, Play, Seat, Split, Table, TableRule};
use std::alloc::{AllocError, Global};
use std::sync::Wait;

// Where the count lies: 128 bytes from both ends of the block, so that it shares no cache line with anything else.
const COUNT: usize = 16;

/// How many works and seats a pool has.
#[derive(Clone, Copy)]
pub(crate) struct Stock {
    pub(crate) works: u64,
    pub(crate) seats: u64,
}

/// What a seat of the semaphore knows. It has no bytes.
pub(crate) type Place = Seat<(), SeatHistory>;

// The count is what the history says, and each seat has seen a beginning of it.
pub(crate) struct Counted;

impl TableRule<(), SeatHistory, Stock> for Counted {
    ghost use Rattle.sb_pool.specs.Counting.{Counts};
    ghost use Rattle.sb_pool.specs.Events.{first_history};

    ghost holds = { λ key s. Counts key.works key.seats s.words s.views };

    ghost first = { λ key. first_history key.works key.seats };
}

// A look at the count.
struct Looks;

impl Play<(), SeatHistory> for Looks {
    ghost use Rattle.sb_pool.specs.Counting.{Looked};

    ghost then = { λ s m n after. Looked m n after };
}

// A try to take one from the count that was seen.
struct Draws;

impl Play<(), SeatHistory> for Draws {
    ghost use Rattle.sb_pool.specs.Counting.{Tried};

    ghost then = { λ s m n after. Tried s.first m n after };
}

// One is added.
struct Puts;

impl Play<(), SeatHistory> for Puts {
    ghost use Rattle.sb_pool.specs.Counting.{Added};

    ghost then = { λ s m n after. Added m after };
}

// Seats are made of the first one, and taken in by any.
struct Places;

impl Split<SeatHistory> for Places {
    ghost use Rattle.sb_pool.specs.Events.{parted, newcomer_history};

    ghost left = { parted };

    ghost right = { newcomer_history };
}

impl Join<SeatHistory> for Places {
    ghost use Rattle.sb_pool.specs.Events.{joined_history, spent_history};

    ghost both = { joined_history };

    ghost spent = { spent_history };
}

/// The count of the works that are in.
#[derive(Drop)]
pub(crate) struct Semaphore {
    pub(crate) table: Table<(), SeatHistory, Stock, Counted, Global>,
    ghost wide: { (table.shared.table_id.words ≡ word_count) × (table.shared.table_id.slots ≡ 0) },
}

impl Semaphore {
    /// The count of these works, which are in, and the seat of which the given number can be made, this one among them.
    ///
    /// # Errors
    /// `AllocError` if there was no memory.
    pub(crate) fn new(
        alloc: Global,
        works: usize,
        seats: u32,
    ) -> Result<(Semaphore, Place), AllocError>
        requires seats { 0 < seats }
        ensures place { IfOk result (λ made. IsPlaceOf made.0.table.shared.table_id made.1) }
        ensures first { IfOk result (λ made. made.1.me.0 ≡ first_history works seats) }
        ensures key { IfOk result (λ made. (made.0.table.shared.key.works ≡ works) × (made.0.table.shared.key.seats ≡ seats)) }
    {
        let works = works as u64;
        let key = Stock {
            works,
            seats: u64::from(seats),
        };
        let mut words = [0u64; 33];
        words[COUNT] = works;
        let (table, place) = Table::of_words(alloc, &words, &key)?;
        Ok((Semaphore { table }, place))
    }

    // The count. A 0 is an event.
    fn look(&self, place: &mut Place) -> u64
        requires own { IsPlaceOf self.now.table.shared.table_id place.old }
        requires seat { 0 < place.old.me.0.seats }
        ensures own { IsPlaceOf self.now.table.shared.table_id place.new }
        ensures none { result ≡ 0 → IsLook place.old.me.0 place.new.me.0 }
        ensures some { 0 < result → place.new.me ≡ place.old.me }
    {
        self.table.shared.load::<Looks>(place, COUNT)
    }

    // Takes one from this count, if it is still that.
    fn take(&self, place: &mut Place, count: u64) -> bool
        requires own { IsPlaceOf self.now.table.shared.table_id place.old }
        requires seat { 0 < place.old.me.0.seats }
        requires some { 0 < count }
        ensures own { IsPlaceOf self.now.table.shared.table_id place.new }
        ensures taken { MatchBool result (IsDraw place.old.me.0 place.new.me.0) (place.new.me ≡ place.old.me) }
    {
        let shared = &self.table.shared;
        shared.compare_exchange::<Draws>(place, COUNT, count, count - 1) == count
    }

    /// Takes one from the count. False if it was 0.
    pub(crate) fn try_acquire<R: Wait>(&self, rt: &R, place: &mut Place) -> bool
        requires own { IsPlaceOf self.now.table.shared.table_id place.old }
        requires seat { 0 < place.old.me.0.seats }
        ensures own { IsPlaceOf self.now.table.shared.table_id place.new }
        ensures taken { MatchBool result (IsDraw place.old.me.0 place.new.me.0) (IsLook place.old.me.0 place.new.me.0) }
    {
        for _ in rt.forever() {
            let count = self.look(place);
            if count == 0 {
                return false;
            }
            if self.take(place, count) {
                return true;
            }
        }
        unreachable!()
    }

    /// Adds one that this seat has out.
    pub(crate) fn release(&self, place: &mut Place)
        requires own { IsPlaceOf self.now.table.shared.table_id place.old }
        requires seat { 0 < place.old.me.0.seats }
        requires out { 0 < place.old.me.0.out }
        ensures own { IsPlaceOf self.now.table.shared.table_id place.new }
        ensures put { IsPut place.old.me.0 place.new.me.0 }
    {
        self.table.shared.fetch_add::<Puts>(place, COUNT, 1);
    }

    /// Makes another seat.
    pub(crate) fn another(&self, place: &mut Place) -> Place
        requires own { IsPlaceOf self.now.table.shared.table_id place.old }
        requires seats { 1 < place.old.me.0.seats }
        ensures own { IsPlaceOf self.now.table.shared.table_id place.new × IsPlaceOf self.now.table.shared.table_id result }
        ensures old { place.new.me.0 ≡ parted place.old.me.0 }
        ensures new { result.me.0 ≡ newcomer_history place.old.me.0 }
    {
        self.table.shared.split_seat::<Places>(place)
    }

    /// Takes in another seat.
    pub(crate) fn join(&self, place: &mut Place, other: Place)
        requires own { IsPlaceOf self.now.table.shared.table_id place.old × IsPlaceOf self.now.table.shared.table_id other }
        requires seats { (0 < place.old.me.0.seats) × (0 < other.me.0.seats) }
        ensures own { IsPlaceOf self.now.table.shared.table_id place.new }
        ensures joined { place.new.me.0 ≡ joined_history place.old.me.0 other.me.0 }
    {
        self.table.shared.join_seat::<Places>(place, other);
    }
    /// Ends the count, with a seat that took in all others and has nothing out.
    pub(crate) fn close(self, place: Place)
        requires own { IsPlaceOf self.table.shared.table_id place }
        requires all { self.table.shared.key.seats ≤ place.me.0.seats }
        requires none { place.me.0.out ≡ 0 }
        ensures { IsClosed self.table.shared.key.works place.me.0 }
    {
        let Semaphore { table } = self;
        table.close_with(place).free();
    }
}
