// The events by their names, and the calls on them.
ghost use Rattle.std.specs.Prelude.{◌≡◌, ◌+◌, ◌-◌, ◌<◌, ◌^◌, ◌∷◌, [], true, false, Some, None, IfSome, IfNone, IfOk, OnOk, OnErr, length};
ghost use Rattle.std.specs.List.{slice_get};
ghost use Rattle.sb_base.specs.Names.{is_name_of};
ghost use Rattle.sb_handles.specs.Effects.{IsDone, is_done};
ghost use Rattle.sb_call.specs.Statuses.{granting};
ghost use Rattle.sb_names.specs.Maps.{found};
ghost use Rattle.sb_names.specs.Numbers.{is_given};
ghost use Rattle.sb_names.specs.Objects.{IsNameBy};
ghost use Rattle.sb_services.specs.EventKinds.{kind_number, state_number};
ghost use Rattle.sb_services.specs.Events.{AreEvents, no_events, number_of, on_event, create, create_by, open_by_name, can_start, started, with_event};

use crate::event_kinds::EventKind;
use crate::event_rows::EventRow;
use bitflags::Flags;
use sb_base::{NoMemory, Wide};
use sb_call::{Answer, NAME_EXISTS, NAME_NOT_FOUND, SUCCESS, TYPE_MISMATCH};
use sb_handles::{Access, HandleTable, Held, Service, Sharing};
use sb_names::{NameMap, fold_name, names_fold, numbers_are_kept, puts_are_found, puts_keep_rows};
use std::alloc::Global;
use std::marker::Model;

/// The events that were ever made, each under its name. Names are compared folded, and have no parents.
pub struct EventService {
    rows: NameMap<EventRow>,
    // The folded name of each event: that of event n at place n - 1.
    names: Vec<Wide>,
}

impl Drop for EventService {
    fn drop(self) {
        let EventService { rows: _, names: _ } = self;
    }
}

impl Model for EventService {
    ghost use Rattle.std.specs.Prelude.{length};
    ghost use Rattle.sb_services.specs.Events.{Events, AreKept};

    ghost Value = { Events };

    ghost view = { λ s. record { rows = s.rows; made = length s.names.items } };

    ghost invariant = { λ s. AreKept s.rows s.names.items };
}

// A handle on the event of this number, with this access.
fn on_event(number: u64, access: Access) -> Held
    ensures { result ≡ on_event number access.0 }
{
    Held::new(Service::Event, number, access, Sharing::empty())
}

// The name at the place of a number, or None if there is no such place.
fn name_at(names: &[Wide], number: u64) -> Option<&[u16]>
    ensures some { IfSome result (λ name. (number - 1 + 1 ≡ number) × (slice_get names.now (number - 1) ≡ Some name.now)) }
    ensures none { IfNone result (is_given (length names.now) number ≡ false) }
{
    let place = number.checked_sub(1)?;
    match names.get(place as usize) {
        Some(name) => Some(name.as_units()),
        None => None,
    }
}

// The answer with this status and handle, which shows what an event was made with.
fn showing(status: u32, handle: u64, kind: EventKind, initial: bool) -> Answer
    ensures { result ≡ granting status handle (kind_number kind ∷ state_number initial ∷ []) }
{
    Answer::with_words(status, handle, kind as u64, u64::from(initial))
}

impl EventService {
    /// No event was made.
    pub fn new(alloc: Global) -> EventService
        ensures { result ≡ no_events }
    {
        EventService {
            rows: NameMap::new(alloc),
            names: Vec::new(alloc),
        }
    }

    /// How many events were ever made.
    pub fn made(&self) -> u64
        ensures { result ≡ self.now.made }
    {
        self.names.len() as u64
    }

    /// Establishes for a proof that each name is well-formed and leads to an event that was made, no two to one, and that
    /// names are in rising order. It does nothing.
    pub fn establish_events(&self)
        ensures { AreEvents self.now }
    {
        self.rows.establish_order();
    }

    /// The folded name of the event of this number, or None if no event of this number was made. It takes the time of the
    /// name, however many events there are.
    ///
    /// # Errors
    /// `NoMemory` if there was none for the name.
    #[tactic(auto, using(crate::proofs::KeptEvents::none_of_number))]
    pub fn name_of(&self, number: u64) -> Result<Option<Wide>, NoMemory>
        ensures { IfOk result (λ name. IsNameBy number_of self.now.rows number name) }
    {
        match name_at(&self.names, number) {
            Some(name) => Ok(Some(Wide::from_units(*self.names.allocator(), name)?)),
            None => Ok(None),
        }
    }

    // Puts a new event under a name that is free, and returns its number, which is one more than the count of events made before.
    fn put_new(&mut self, name: &[u16], kind: EventKind, initial: bool) -> Result<u64, NoMemory>
        requires name { is_name_of name.now ≡ true }
        requires absent { found self.old.rows name.now ≡ None }
        requires made { self.old.made < 2 ^ 63 }
        ensures number { IfOk result (λ number. number ≡ self.old.made + 1) }
        ensures service { OnOk result (self.new ≡ with_event self.old name.now kind initial) }
        ensures err { OnErr result (self.new ≡ self.old) }
    {
        names_fold();
        numbers_are_kept::<EventRow>();
        puts_are_found::<EventRow>();
        puts_keep_rows::<EventRow>();
        let alloc = *self.names.allocator();
        let key = fold_name(alloc, name)?;
        let kept = Wide::from_units(alloc, key.as_units())?;
        self.names.reserve(1)?;
        let number = self.made() + 1;
        let row = EventRow {
            number,
            kind,
            initial,
        };
        self.rows.add(name, key, row)?;
        self.names.push_reserved(kept);
        Ok(number)
    }

    // Makes an event under a name that is free, and grants a handle on it.
    fn create_new(
        &mut self,
        handles: &mut HandleTable,
        target: u32,
        name: &[u16],
        kind: EventKind,
        initial: bool,
    ) -> Result<Answer, NoMemory>
        requires name { is_name_of name.now ≡ true }
        requires absent { found self.old.rows name.now ≡ None }
        requires made { self.old.made < 2 ^ 63 }
        ensures effect { IfOk result (λ a. IsDone (create_by None self.old handles.old.table target name.now kind initial) self.new handles.new.table a) }
        ensures err { OnErr result ((self.new ≡ self.old) × (handles.new.table ≡ handles.old.table)) }
    {
        handles.reserve()?;
        let number = self.put_new(name, kind, initial)?;
        let handle = handles.grant_reserved(target, on_event(number, Access::empty()));
        Ok(showing(SUCCESS, handle, kind, initial))
    }

    /// Makes an event, or opens the one that is there, and grants the target a handle on it with access 0. The first of
    /// these that applies is the answer:
    /// - `TYPE_MISMATCH` if an event of another kind is there;
    /// - `NAME_EXISTS` with a handle if one of this kind is there;
    /// - `SUCCESS` with a handle on a new event.
    ///
    /// With a handle come the kind and the initial state of the event, as two extended words.
    ///
    /// # Errors
    /// `NoMemory` if there was none for a name or a handle; then nothing is changed.
    pub fn create(
        &mut self,
        handles: &mut HandleTable,
        target: u32,
        name: &[u16],
        kind: EventKind,
        initial: bool,
    ) -> Result<Answer, NoMemory>
        requires name { is_name_of name.now ≡ true }
        requires made { self.old.made < 2 ^ 63 }
        ensures effect { IfOk result (λ a. IsDone (create self.old handles.old.table target name.now kind initial) self.new handles.new.table a) }
        ensures memory { OnErr result (is_done (create self.old handles.old.table target name.now kind initial).answer.status ≡ true) }
        ensures err { OnErr result ((self.new ≡ self.old) × (handles.new.table ≡ handles.old.table)) }
    {
        match self.rows.find(name) {
            Some(row) if row.kind != kind => Ok(Answer::refusal(TYPE_MISMATCH)),
            Some(row) => {
                let handle = handles.grant(target, on_event(row.number, Access::empty()))?;
                Ok(showing(NAME_EXISTS, handle, row.kind, row.initial))
            }
            None => self.create_new(handles, target, name, kind, initial),
        }
    }

    /// Opens the event of a name, and grants the target a handle on it with this access. The answer is `NAME_NOT_FOUND`
    /// if there is none, and else `SUCCESS` with the handle and the kind and initial state of the event, as two
    /// extended words.
    ///
    /// # Errors
    /// `NoMemory` if there was none for the handle; then nothing is changed.
    pub fn open_by_name(
        &mut self,
        handles: &mut HandleTable,
        target: u32,
        name: &[u16],
        access: Access,
    ) -> Result<Answer, NoMemory>
        requires name { is_name_of name.now ≡ true }
        ensures effect { IfOk result (λ a. IsDone (open_by_name self.old handles.old.table target name.now access.0) self.new handles.new.table a) }
        ensures memory { OnErr result (is_done (open_by_name self.old handles.old.table target name.now access.0).answer.status ≡ true) }
        ensures service { self.new ≡ self.old }
        ensures err { OnErr result (handles.new.table ≡ handles.old.table) }
    {
        match self.rows.find(name) {
            None => Ok(Answer::refusal(NAME_NOT_FOUND)),
            Some(row) => {
                let handle = handles.grant(target, on_event(row.number, access))?;
                Ok(showing(SUCCESS, handle, row.kind, row.initial))
            }
        }
    }

    /// Whether `start` can place an event of this name: the name is free.
    pub fn can_start(&self, name: &[u16]) -> bool
        ensures { result ≡ can_start self.now name.now }
    {
        self.rows.find(name).is_none()
    }

    /// Places an event of the opening namespace. It answers false, and changes nothing, exactly if an event of that
    /// name is there.
    ///
    /// # Errors
    /// `NoMemory` if there was none for the name; then nothing is changed.
    pub fn start(&mut self, name: &[u16], kind: EventKind, initial: bool) -> Result<bool, NoMemory>
        requires name { is_name_of name.now ≡ true }
        requires made { self.old.made < 2 ^ 63 }
        ensures answer { IfOk result (λ b. b ≡ can_start self.old name.now) }
        ensures service { OnOk result (self.new ≡ started self.old name.now kind initial) }
        ensures memory { OnErr result (can_start self.old name.now ≡ true) }
        ensures err { OnErr result (self.new ≡ self.old) }
    {
        if !self.can_start(name) {
            return Ok(false);
        }
        self.put_new(name, kind, initial)?;
        Ok(true)
    }
}
