// The pool: a queue of works, the count of those that are in, and the rooms in which they are put in order at the end.
ghost use Rattle.std.specs.Prelude.{◌≡◌, ◌<◌, ◌≤◌, true, [], Some, length, map, vec_capacity, IfOk, IfErr};
ghost use Rattle.crossbeam_queue.specs.Passes.{view, IsPassOf, ruled_capacity};
ghost use Rattle.sb_pool.specs.Counting.{IsPlaceOf};
ghost use Rattle.sb_pool.specs.Events.{first_history, IsClosed};
ghost use Rattle.sb_pool.specs.Views.{first_view, fresh_view, IsLast};
ghost use Rattle.sb_pool.specs.Pools.{history_of, seen, IsSeatOf, AreNumbered, AreSeats, AreFresh, AreDivided, ArePlaced, AreAllHome};

use crate::protocol::Numbered;
use crate::rooms::Rooms;
use crate::seats::{PoolSeat, Queue};
use crate::semaphore::Semaphore;
use std::alloc::{AllocError, Global};
use std::marker::Model;
use std::mem;
use std::sync::Wait;

/// The error of `Pool::new`: out of memory. The works come back.
#[derive(Drop)]
pub struct PoolRefused<W> {
    /// The works that were to be dealt.
    pub works: Vec<W>,
}

/// A queue of works, which are numbered from 0. Threads draw and hand back works with seats.
pub struct Pool<W: Numbered> {
    pub(crate) queue: Queue<W>,
    pub(crate) semaphore: Semaphore,
    alloc: Global,
    ghost stocked: { semaphore.table.shared.key.works ≡ queue.cap },
}

impl<W: Numbered> Drop for Pool<W> {
    fn drop(self) {
        let Pool {
            queue: _,
            semaphore: _,
            alloc: _,
        } = self;
    }
}

impl<W: Numbered> Model for Pool<W> {
    ghost use Rattle.sb_pool.specs.Pools.{PoolValue};

    ghost Value = { PoolValue };

    ghost view = { λ p. record { table = p.queue.table.shared.table_id; size = p.queue.cap; semaphore = p.semaphore.table.shared.table_id; seats = p.semaphore.table.shared.key.seats } };
}

// A pool without works and its first seat, with room for all seats.
#[derive(Drop)]
struct Begun<W: Numbered> {
    queue: Queue<W>,
    semaphore: Semaphore,
    first: PoolSeat<W>,
    seats: Vec<PoolSeat<W>>,
}

fn begin<W: Numbered>(alloc: Global, works: usize, seats: u32) -> Result<Begun<W>, AllocError>
    requires works { 0 < works }
    requires seats { 0 < seats }
    ensures queue { IfOk result (λ o. IsPassOf o.queue o.first.pass × (view o.first.pass ≡ first_view)) }
    ensures key { IfOk result (λ o. (o.semaphore.table.shared.key.works ≡ works) × (o.semaphore.table.shared.key.seats ≡ seats)) }
    ensures works { IfOk result (λ o. (ruled_capacity o.queue ≡ works) × (length o.first.rooms ≡ works)) }
    ensures place { IfOk result (λ o. IsPlaceOf o.semaphore.table.shared.table_id o.first.place × (history_of o.first ≡ first_history works seats)) }
    ensures seats { IfOk result (λ o. (o.seats.items ≡ []) × (seats ≤ vec_capacity o.seats)) }
{
    let rooms = Rooms::of(alloc, works)?;
    let room = Vec::with_capacity(alloc, seats as usize)?;
    let (semaphore, place) = Semaphore::new(alloc, works, seats)?;
    let (queue, pass) = Queue::<W>::ruled(alloc, works)?;
    Ok(Begun {
        queue,
        semaphore,
        first: PoolSeat { pass, rooms, place },
        seats: room,
    })
}

// The given number of seats, made of the first one, which stays in front.
fn divided<W: Numbered>(
    alloc: Global,
    queue: &Queue<W>,
    semaphore: &Semaphore,
    first: PoolSeat<W>,
    room: Vec<PoolSeat<W>>,
    count: u32,
) -> Vec<PoolSeat<W>>
    requires own { IsPassOf queue.now first.pass }
    requires place { IsPlaceOf semaphore.now.table.shared.table_id first.place }
    requires put { history_of first ≡ first_history (length (seen first).homes) count }
    requires first { seen first ≡ fresh_view 0 (seen first).homes (Some 1) }
    requires rooms { length first.rooms ≡ length (seen first).homes }
    requires empty { room.items ≡ [] }
    requires room { count ≤ vec_capacity room }
    requires some { 0 < count }
    ensures len { length result.items ≡ count }
    ensures divided { AreDivided queue.now.table.shared.table_id (seen first).homes result.items }
    ensures placed { ArePlaced semaphore.now.table.shared.table_id (length (seen first).homes) count result.items }
{
    let mut seats = room;
    seats.push_reserved(first);
    for _seat in 1..count {
        let next = seats[0].another(alloc, queue, semaphore);
        seats.push_reserved(next);
    }
    seats
}

// Draws all works and puts each at the place of its number.
fn gather<W: Numbered, R: Wait>(
    rt: &R,
    queue: &Queue<W>,
    seat: &mut PoolSeat<W>,
    rooms: Rooms<W>,
) -> Rooms<W>
    requires own { IsPassOf queue.now seat.old.pass }
    requires last { ((seen seat.old).live ≡ true) × IsLast (seen seat.old) }
    requires none { (seen seat.old).out ≡ [] }
    requires rooms { length rooms ≡ length (seen seat.old).homes }
    ensures home { AreAllHome W.number W.home (seen seat.old).homes result }
    ensures place { seat.new.place ≡ seat.old.place }
{
    let mut rooms = rooms;
    for _work in 0..rooms.len() {
        let Some(work) = seat.take(rt, queue) else {
            unreachable!()
        };
        rooms.put(work.number() as usize, work);
    }
    seat.establish_all_out(queue);
    rooms
}

impl<W: Numbered> Pool<W> {
    /// A pool of these works, each of which bears its place as its number, and the given number of seats. The first seat
    /// keeps the count of all, and all seats have to come together in one before `close`. This is the only call of a pool
    /// that takes memory. It may spin, as `draw` does.
    ///
    /// # Errors
    /// `PoolRefused` with the works if there was no memory.
    pub fn new<R: Wait>(
        rt: &R,
        alloc: Global,
        works: Vec<W>,
        seats: u32,
    ) -> Result<(Pool<W>, Vec<PoolSeat<W>>), PoolRefused<W>>
        requires works { 0 < length works.items }
        requires numbered { AreNumbered W.number works.items }
        requires seats { 0 < seats }
        ensures size { IfOk result (λ made. made.0.size ≡ length works.items) }
        ensures count { IfOk result (λ made. length made.1.items ≡ seats) }
        ensures seats { IfOk result (λ made. AreSeats made.0 (map W.home works.items) made.1.items) }
        ensures fresh { IfOk result (λ made. AreFresh (length works.items) made.1.items) }
        ensures refused { IfErr result (λ refused. refused.works.items ≡ works.items) }
    {
        let Ok(begun) = begin(alloc, works.len(), seats) else {
            return Err(PoolRefused { works });
        };
        let Begun {
            queue,
            semaphore,
            first,
            seats: room,
        } = begun;
        let mut first = first;
        first.found_all(rt, &queue, works);
        let seats = divided(alloc, &queue, &semaphore, first, room, seats);
        let pool = Pool {
            queue,
            semaphore,
            alloc,
        };
        Ok((pool, seats))
    }

    /// The works in the order of their numbers, each with the home that it had at `new`. Every other seat was taken in, and
    /// no number is out. Does not allocate. It may spin, as `draw` does.
    pub fn close<R: Wait>(self, rt: &R, seat: PoolSeat<W>) -> Vec<W>
        requires own { IsSeatOf self seat }
        requires last { IsLast (seen seat) }
        requires none { (seen seat).out ≡ [] }
        ensures numbered { AreNumbered W.number result.items }
        ensures homes { map W.home result.items ≡ (seen seat).homes }
        ensures history { IsClosed self.size (history_of seat) }
    {
        let Pool {
            queue,
            semaphore,
            alloc,
        } = self;
        let mut seat = seat;
        let rooms = mem::replace(&mut seat.rooms, Rooms::empty(alloc));
        let rooms = gather(rt, &queue, &mut seat, rooms);
        semaphore.close(seat.into_place());
        rooms.into_works()
    }
}
