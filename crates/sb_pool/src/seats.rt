// The seats of a pool. A thread draws and hands back works with a seat of its own.
ghost use Rattle.std.specs.Prelude.{◌≡◌, ◌<◌, ◌≤◌, ℕ, true, Some, None, [], length, map, max, slice_get, IfSome, IfNone};
ghost use Rattle.crossbeam_queue.specs.Fifo.{Held};
ghost use Rattle.crossbeam_queue.specs.Passes.{view, IsPassOf, ruled_capacity};
ghost use Rattle.sb_pool.specs.Counting.{IsPlaceOf};
ghost use Rattle.sb_pool.specs.Events.{IsDraw, IsLook, IsPut, joined_history, newcomer_history, parted};
ghost use Rattle.sb_pool.specs.Rule.{Drawn, IsMoment};
ghost use Rattle.sb_pool.specs.Views.{first_view, fresh_view, times, with_home, with_out, with_back, with_taken, counted, newcomer, IsLast};
ghost use Rattle.sb_pool.specs.Pools.{history_of, seen, IsSeatOf, AreNumbered};

use crate::pool::Pool;
use crate::protocol::{Draws, Founds, Numbered, OnceEach, PoolView, Returns, Seats};
use crate::rooms::Rooms;
use crate::semaphore::{Place, Semaphore};
use crossbeam_queue::{Pass, RuledArrayQueue};
use std::alloc::Global;
use std::sync::Wait;

/// The queue of a pool.
pub(crate) type Queue<W> = RuledArrayQueue<W, PoolView<<W as Numbered>::Home>, OnceEach<W>>;

/// A seat of a pool, for one thread at a time.
pub struct PoolSeat<W: Numbered> {
    pub(crate) pass: Pass<W, PoolView<W::Home>>,
    // Where the works are put in order at the end: with the seat that keeps count. Another has none.
    pub(crate) rooms: Rooms<W>,
    // What the seat knows of the history of the pool.
    pub(crate) place: Place,
}

impl<W: Numbered> Drop for PoolSeat<W> {
    fn drop(self) {
        let PoolSeat {
            pass: _,
            rooms: _,
            place: _,
        } = self;
    }
}

impl<W: Numbered> PoolSeat<W> {
    // Puts the next work into the queue, while this is the only seat.
    pub(crate) fn found<R: Wait>(&mut self, rt: &R, queue: &Queue<W>, work: W)
        requires own { IsPassOf queue.now self.old.pass }
        requires alone { ((view self.old.pass).count ≡ Some 1) × ((view self.old.pass).live ≡ true) }
        requires none { (view self.old.pass).out ≡ [] }
        requires number { W.number work ≡ length (view self.old.pass).homes }
        requires room { length (view self.old.pass).homes < ruled_capacity queue.now }
        ensures own { IsPassOf queue.now self.new.pass }
        ensures view { view self.new.pass ≡ with_home (view self.old.pass) (W.home work) }
        ensures others { (self.new.rooms ≡ self.old.rooms) × (self.new.place ≡ self.old.place) }
    {
        let pushed = queue.push_as::<Founds<W>, R>(rt, &mut self.pass, work);
        let Ok(()) = pushed else { unreachable!() };
    }

    // Puts all works into the queue, while this is the only seat.
    pub(crate) fn found_all<R: Wait>(&mut self, rt: &R, queue: &Queue<W>, works: Vec<W>)
        requires own { IsPassOf queue.now self.old.pass }
        requires first { view self.old.pass ≡ first_view }
        requires numbered { AreNumbered W.number works.items }
        requires room { length works.items ≤ ruled_capacity queue.now }
        ensures own { IsPassOf queue.now self.new.pass }
        ensures view { view self.new.pass ≡ fresh_view 0 (map W.home works.items) (Some 1) }
        ensures others { (self.new.rooms ≡ self.old.rooms) × (self.new.place ≡ self.old.place) }
    {
        for work in works {
            self.found(rt, queue, work);
        }
    }

    // Makes another seat of the one that keeps count.
    pub(crate) fn another(
        &mut self,
        alloc: Global,
        queue: &Queue<W>,
        semaphore: &Semaphore,
    ) -> PoolSeat<W>
        requires own { IsPassOf queue.now self.old.pass }
        requires place { IsPlaceOf semaphore.now.table.shared.table_id self.old.place }
        requires seats { 1 < (history_of self.old).seats }
        requires live { (view self.old.pass).live ≡ true }
        requires count { (c : ℕ) × ((view self.old.pass).count ≡ Some c) }
        ensures own { IsPassOf queue.now self.new.pass × IsPassOf queue.now result.pass }
        ensures old { view self.new.pass ≡ counted (view self.old.pass) }
        ensures new { view result.pass ≡ newcomer (view self.old.pass) }
        ensures rooms { (self.new.rooms ≡ self.old.rooms) × (result.rooms ≡ []) }
        ensures places { IsPlaceOf semaphore.now.table.shared.table_id self.new.place × IsPlaceOf semaphore.now.table.shared.table_id result.place }
        ensures histories { (history_of self.new ≡ parted (history_of self.old)) × (history_of result ≡ newcomer_history (history_of self.old)) }
    {
        PoolSeat {
            pass: queue.another::<Seats>(&mut self.pass),
            rooms: Rooms::empty(alloc),
            place: semaphore.another(&mut self.place),
        }
    }

    // Takes a work from the queue.
    pub(crate) fn take<R: Wait>(&mut self, rt: &R, queue: &Queue<W>) -> Option<W>
        requires own { IsPassOf queue.now self.old.pass }
        requires live { (view self.old.pass).live ≡ true }
        ensures own { IsPassOf queue.now self.new.pass }
        ensures drawn { IfSome result (λ work. Drawn W.number W.home (view self.old.pass) work (view self.new.pass)) }
        ensures none { IfNone result ((view self.new.pass ≡ view self.old.pass) × Held 0 (IsMoment W.number W.home (view self.old.pass))) }
        ensures others { (self.new.rooms ≡ self.old.rooms) × (self.new.place ≡ self.old.place) }
    {
        queue.pop_as::<Draws<W>, R>(rt, &mut self.pass)
    }

    // Takes the work that was counted for this seat. The queue has one for each that was counted, so the first try gives it. No
    // clause says so, since the rule of the queue cannot speak of the count.
    fn take_counted<R: Wait>(&mut self, rt: &R, queue: &Queue<W>) -> W
        requires own { IsPassOf queue.now self.old.pass }
        requires live { (view self.old.pass).live ≡ true }
        ensures own { IsPassOf queue.now self.new.pass }
        ensures drawn { Drawn W.number W.home (view self.old.pass) result (view self.new.pass) }
        ensures others { (self.new.rooms ≡ self.old.rooms) × (self.new.place ≡ self.old.place) }
    {
        for _ in rt.forever() {
            if let Some(work) = self.take(rt, queue) {
                return work;
            }
        }
        unreachable!()
    }

    // Its place in the count.
    pub(crate) fn into_place(self) -> Place
        ensures { result ≡ self.place }
    {
        let PoolSeat {
            pass: _,
            rooms: _,
            place,
        } = self;
        place
    }

    // Establishes that each number is out with this seat, which is the last one and has as many out as there are works.
    pub(crate) fn establish_all_out(&mut self, queue: &Queue<W>)
        requires own { IsPassOf queue.now self.old.pass }
        requires last { ((view self.old.pass).live ≡ true) × IsLast (view self.old.pass) }
        requires all { length (view self.old.pass).out ≡ length (view self.old.pass).homes }
        ensures place { self.new.place ≡ self.old.place }
        ensures all { (n : ℕ) → n < length (view self.old.pass).homes → 0 < times n (view self.old.pass).out }
    {
        queue.learn_as::<Draws<W>>(&mut self.pass);
    }

    /// A work that is in, with its number, which is then out with this seat, or `None` if no work was in at one step of the
    /// call. The work has the home that the work of this number had at `Pool::new`. Does not allocate. It may spin while another
    /// seat is within its step.
    pub fn draw<R: Wait>(&mut self, rt: &R, pool: &Pool<W>) -> Option<(u32, W)>
        requires own { IsSeatOf pool.now self.old }
        ensures own { IsSeatOf pool.now self.new }
        ensures number { IfSome result (λ drawn. W.number drawn.1 ≡ drawn.0) }
        ensures home { IfSome result (λ drawn. slice_get (seen self.old).homes drawn.0 ≡ Some (W.home drawn.1)) }
        ensures out { IfSome result (λ drawn. (times drawn.0 (seen self.old).out ≡ 0) × (seen self.new ≡ with_out (seen self.old) drawn.0)) }
        ensures drawn { IfSome result (λ drawn. IsDraw (history_of self.old) (history_of self.new)) }
        ensures empty { IfNone result ((seen self.new ≡ seen self.old) × IsLook (history_of self.old) (history_of self.new)) }
    {
        if !pool.semaphore.try_acquire(rt, &mut self.place) {
            return None;
        }
        let work = self.take_counted(rt, &pool.queue);
        Some((work.number(), work))
    }

    // Puts a work that is out with this seat back into the queue.
    fn put_back<R: Wait>(&mut self, rt: &R, queue: &Queue<W>, work: W)
        requires own { IsPassOf queue.now self.old.pass }
        requires live { (view self.old.pass).live ≡ true }
        requires size { length (view self.old.pass).homes ≡ ruled_capacity queue.now }
        requires out { 0 < times (W.number work) (view self.old.pass).out }
        requires home { slice_get (view self.old.pass).homes (W.number work) ≡ Some (W.home work) }
        ensures own { IsPassOf queue.now self.new.pass }
        ensures back { view self.new.pass ≡ with_back (view self.old.pass) (W.number work) }
        ensures others { (self.new.rooms ≡ self.old.rooms) × (self.new.place ≡ self.old.place) }
    {
        let pushed = queue.push_as::<Returns<W>, R>(rt, &mut self.pass, work);
        let Ok(()) = pushed else { unreachable!() };
    }

    /// Puts a work whose number is out with this seat back in. It does not allocate, since the queue has room for all works. It
    /// may spin while another seat is within its step.
    pub fn hand_back<R: Wait>(&mut self, rt: &R, pool: &Pool<W>, number: u32, work: W)
        requires own { IsSeatOf pool.now self.old }
        requires number { W.number work ≡ number }
        requires out { 0 < times number (seen self.old).out }
        requires home { slice_get (seen self.old).homes number ≡ Some (W.home work) }
        ensures own { IsSeatOf pool.now self.new }
        ensures back { seen self.new ≡ with_back (seen self.old) number }
        ensures put { IsPut (history_of self.old) (history_of self.new) }
    {
        self.put_back(rt, &pool.queue, work);
        pool.semaphore.release(&mut self.place);
    }

    /// Takes in another seat of the same pool, which has no number out, with all seats that it took in. It does not allocate and
    /// waits for nobody.
    pub fn join(&mut self, pool: &Pool<W>, other: PoolSeat<W>)
        requires own { IsSeatOf pool.now self.old }
        requires other { IsSeatOf pool.now other }
        requires none { (seen other).out ≡ [] }
        ensures own { IsSeatOf pool.now self.new }
        ensures taken { seen self.new ≡ with_taken (seen self.old) (seen other) }
        ensures joined { history_of self.new ≡ joined_history (history_of self.old) (history_of other) }
    {
        let PoolSeat { pass, rooms, place } = other;
        pool.queue.absorb::<Seats>(&mut self.pass, pass);
        pool.semaphore.join(&mut self.place, place);
        self.keep_rooms(rooms);
    }

    // The larger rooms.
    fn keep_rooms(&mut self, rooms: Rooms<W>)
        ensures others { (self.new.pass ≡ self.old.pass) × (self.new.place ≡ self.old.place) }
        ensures rooms { length self.new.rooms ≡ max (length self.old.rooms) (length rooms) }
    {
        if rooms.len() > self.rooms.len() {
            self.rooms = rooms;
        }
    }
}
