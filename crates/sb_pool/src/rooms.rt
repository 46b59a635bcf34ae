// The rooms of a pool: a place for each work by its number, and room for all works in order. They are taken when the pool is
// made, so that its close does not allocate. They are with the seat that keeps count, since what all threads share holds no work.
ghost use Rattle.std.specs.Prelude.{◌≡◌, ◌<◌, ◌≤◌, [], Some, length, slice_set, vec_capacity, IfOk};
ghost use Rattle.sb_pool.specs.Rooms.{filled};

use std::alloc::{AllocError, Global};
use std::marker::Model;

/// Places for works by their numbers.
#[derive(Drop)]
pub(crate) struct Rooms<W> {
    slots: Vec<Option<W>>,
    works: Vec<W>,
}

impl<W> Model for Rooms<W> {
    ghost use Rattle.std.specs.Prelude.{◌≡◌, ◌≤◌, List, Option, [], length, vec_capacity};
    ghost use Rattle.std.specs.Coded.{coded_list, coded_option};

    ghost Value = { List (Option W) };

    ghost coded = { coded_list (coded_option W.code) };

    ghost view = { λ r. r.slots.items };

    ghost invariant = { λ r. (r.works.items ≡ []) × (length r.slots.items ≤ vec_capacity r.works) };
}

impl<W: Drop> Rooms<W> {
    /// The given number of empty places.
    pub(crate) fn of(alloc: Global, count: usize) -> Result<Rooms<W>, AllocError>
        ensures { IfOk result (λ r. length r ≡ count) }
    {
        let works = Vec::with_capacity(alloc, count)?;
        let mut slots = Vec::with_capacity(alloc, count)?;
        for _slot in 0..count {
            slots.push(None)?;
        }
        Ok(Rooms { slots, works })
    }

    /// No places. Does not allocate.
    pub(crate) fn empty(alloc: Global) -> Rooms<W>
        ensures { result ≡ [] }
    {
        Rooms {
            slots: Vec::new(alloc),
            works: Vec::new(alloc),
        }
    }

    /// How many places there are.
    pub(crate) fn len(&self) -> usize
        ensures { result ≡ length self.now }
    {
        self.slots.len()
    }

    /// Puts a work at a place.
    pub(crate) fn put(&mut self, at: usize, work: W)
        requires { at < length self.old }
        ensures { self.new ≡ slice_set self.old at (Some work) }
    {
        self.slots[at] = Some(work);
    }

    /// The works, in the order of their places.
    pub(crate) fn into_works(self) -> Vec<W>
        ensures { result.items ≡ filled self }
    {
        in_order(self.slots, self.works)
    }
}

// The works of the places, put into a vector that has room for them.
fn in_order<W: Drop>(slots: Vec<Option<W>>, works: Vec<W>) -> Vec<W>
    requires empty { works.items ≡ [] }
    requires room { length slots.items ≤ vec_capacity works }
    ensures { result.items ≡ filled slots.items }
{
    let mut ordered = works;
    for slot in slots {
        match slot {
            Some(work) => ordered.push_reserved(work),
            None => {}
        }
    }
    ordered
}
