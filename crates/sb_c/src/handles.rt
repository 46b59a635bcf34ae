// Handles: values of Rattle go into a handle and out of it as boxes. This file and `parcels.rt` are the only ones with raw pointers.
ghost use Rattle.std.specs.Prelude.{◌≡◌, ◌==◌, Option, true, None, Some, is_some, option_map};
ghost use Rattle.sb_c.specs.Owning.{Content, held_coded};

use crate::helds::Held;
use crate::parcels::Parcel;
use std::alloc::Global;
use std::marker::Model;
use std::mem;

/// Where a value of Rattle is, if one is there. A place that is dropped while a value is there forgets it: `Handle` takes it out before.
#[repr(C)]
#[derive(Drop)]
pub struct Place {
    at: *mut u8,
    alloc: Global,
    pub ghost held: { Option Content } by { held_coded },
}

impl Model for Place {
    ghost use Rattle.sb_c.specs.Owning.{place_owns};

    ghost also_owns = { λ p. place_owns p.alloc p.at p.held };
}

/// A handle: its first word is 1 exactly if a value is at its place. All zeros is a handle that holds nothing.
///
/// C must not copy a handle that holds something, and changes it by the functions of this library alone.
#[repr(C)]
pub struct Handle {
    live: u64,
    place: Place,
    pub ghost live_if_full: { is_some place.held ≡ (live == 1) },
}

impl Place {
    // A place at which nothing is.
    fn empty(alloc: Global) -> Place
        ensures { result.held ≡ None }
    {
        Place {
            at: std::ptr::null_mut(),
            alloc,
        }
    }

    // The place of what is in a parcel.
    fn of(parcel: Parcel<Held, Global>) -> Place
        ensures { result.held ≡ Some parcel.value }
    {
        let Parcel { at, alloc } = parcel;
        Place {
            at: at as *mut u8,
            alloc,
        }
    }

    // The parcel of what is at a place.
    fn into_parcel(self) -> Parcel<Held, Global>
        requires { is_some self.held ≡ true }
        ensures { Some result.value ≡ self.held }
    {
        let Place { at, alloc } = self;
        Parcel {
            at: at as *mut Held,
            alloc,
        }
    }
}

impl Drop for Handle {
    fn drop(self) {
        drop(self.into_box());
    }
}

impl Handle {
    /// A handle that holds nothing.
    pub(crate) fn empty(alloc: Global) -> Handle
        ensures { result.place.held ≡ None }
    {
        Handle {
            live: 0,
            place: Place::empty(alloc),
        }
    }

    // The handle of what is in a box.
    fn full(held: Box<Held, Global>) -> Handle
        ensures { result.place.held ≡ Some held.value }
    {
        Handle {
            live: 1,
            place: Place::of(Parcel::of(held)),
        }
    }

    // The box of what it holds.
    fn into_box(self) -> Option<Box<Held, Global>>
        ensures { option_map (λ held. held.value) result ≡ self.place.held }
    {
        let Handle { live, place } = self;
        if live == 1 {
            Some(place.into_parcel().into_box())
        } else {
            None
        }
    }

    /// Takes out what the handle holds, which then holds nothing.
    pub(crate) fn take(&mut self, alloc: Global) -> Option<Box<Held, Global>>
        ensures held { option_map (λ held. held.value) result ≡ self.old.place.held }
        ensures empty { self.new.place.held ≡ None }
    {
        mem::replace(self, Handle::empty(alloc)).into_box()
    }

    /// Puts something into the handle, in place of what it held.
    pub(crate) fn put(&mut self, held: Box<Held, Global>)
        ensures { self.new.place.held ≡ Some held.value }
    {
        *self = Handle::full(held);
    }

    /// Whether it holds something.
    pub(crate) fn holds(&self) -> bool
        ensures { result ≡ is_some self.now.place.held }
    {
        self.live == 1
    }
}
