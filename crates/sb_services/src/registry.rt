// The keys by their names, and the calls on them.
ghost use Rattle.std.specs.Prelude.{◌≡◌, ◌<◌, ◌^◌, true, IfOk, OnOk, OnErr};
ghost use Rattle.sb_base.specs.Names.{is_name_of};
ghost use Rattle.sb_call.specs.Statuses.{success};
ghost use Rattle.sb_handles.specs.Effects.{IsDone};
ghost use Rattle.sb_names.specs.Objects.{IsNameOf};
ghost use Rattle.sb_services.specs.Registry.{AreKeys, no_keys, on_key, create, open_by_name, can_start, started};

use bitflags::Flags;
use sb_base::{NoMemory, Wide};
use sb_call::{Answer, Extended, NAME_NOT_FOUND, PATH_NOT_FOUND, SUCCESS};
use sb_handles::{Access, HandleTable, Held, Service, Sharing};
use sb_names::{Lookup, NameTree, numbers_are_kept};
use std::alloc::Global;
use std::marker::Model;

// The extended word of a key that was made.
const CREATED_NEW_KEY: u64 = 1;

// The extended word of a key that was there.
const OPENED_EXISTING_KEY: u64 = 2;

/// The keys that were ever made, each under its name. Names are compared folded; a key of one component is below the root,
/// which is always there and is no key.
pub struct KeyService {
    names: NameTree,
    made: u64,
}

impl Drop for KeyService {
    fn drop(self) {
        let KeyService { names: _, made: _ } = self;
    }
}

impl Model for KeyService {
    ghost use Rattle.sb_names.specs.Nodes.{rows_of};
    ghost use Rattle.sb_services.specs.Registry.{Keys, AreMade};

    ghost Value = { Keys };

    ghost view = { λ s. record { names = rows_of s.names.nodes; made = s.made } };

    ghost invariant = { λ s. AreMade (record { names = rows_of s.names.nodes; made = s.made }) };
}

// A handle on the key of this number, with this access.
fn on_key(number: u64, access: Access) -> Held
    ensures { result ≡ on_key number access.0 }
{
    Held::new(Service::Key, number, access, Sharing::empty())
}

impl KeyService {
    /// No key was made.
    pub fn new(alloc: Global) -> KeyService
        ensures { result ≡ no_keys }
    {
        KeyService {
            names: NameTree::new(alloc),
            made: 0,
        }
    }

    /// How many keys were ever made.
    pub fn made(&self) -> u64
        ensures { result ≡ self.now.made }
    {
        self.made
    }

    /// Establishes for a proof that each name leads to a key that was made, no two to one, and is below a key that is there or
    /// below the root, and that names are folded and in rising order. It does nothing.
    pub fn establish_keys(&self)
        ensures { AreKeys self.now }
    {
        self.names.establish_tree();
    }

    /// The folded name of the key of this number, or None if no key of this number was made. It takes the time of the name,
    /// however many keys there are.
    ///
    /// # Errors
    /// `NoMemory` if there was none for the name.
    pub fn name_of(&self, number: u64) -> Result<Option<Wide>, NoMemory>
        ensures { IfOk result (λ name. IsNameOf self.now.names number name) }
    {
        self.names.name_of(number)
    }

    /// Makes a key, or opens the one that is there, and grants the target a handle on it with this access. The first of
    /// these that applies is the answer:
    /// - `PATH_NOT_FOUND` if the parent is not there;
    /// - `SUCCESS` with a handle on the key that is there, and the extended word 2;
    /// - `SUCCESS` with a handle on a new key, and the extended word 1.
    ///
    /// # Errors
    /// `NoMemory` if there was none for a name or a handle; then nothing is changed.
    pub fn create(
        &mut self,
        handles: &mut HandleTable,
        target: u32,
        name: &[u16],
        access: Access,
    ) -> Result<Answer, NoMemory>
        requires name { is_name_of name.now ≡ true }
        requires made { self.old.made < 2 ^ 63 }
        ensures effect { IfOk result (λ a. IsDone (create self.old handles.old.table target name.now access.0) self.new handles.new.table a) }
        ensures memory { OnErr result ((create self.old handles.old.table target name.now access.0).answer.status ≡ success) }
        ensures err { OnErr result ((self.new ≡ self.old) × (handles.new.table ≡ handles.old.table)) }
    {
        numbers_are_kept::<u64>();
        match self.names.seek(name) {
            Lookup::NoDirectory => Ok(Answer::refusal(PATH_NOT_FOUND)),
            Lookup::There { object, .. } => {
                let handle = handles.grant(target, on_key(object, access))?;
                Ok(Answer::with_word(SUCCESS, handle, OPENED_EXISTING_KEY))
            }
            Lookup::Absent { directory, .. } => {
                handles.reserve()?;
                let number = self.made + 1;
                self.names.add_at(directory, name, number)?;
                self.made = number;
                let handle = handles.grant_reserved(target, on_key(number, access));
                Ok(Answer::with_word(SUCCESS, handle, CREATED_NEW_KEY))
            }
        }
    }

    /// Opens the key of a name, and grants the target a handle on it with this access. The first of these that applies is
    /// the answer:
    /// - `PATH_NOT_FOUND` if the parent is not there;
    /// - `NAME_NOT_FOUND` if the key is not there;
    /// - `SUCCESS` with the handle.
    ///
    /// # Errors
    /// `NoMemory` if there was none for the handle; then nothing is changed.
    pub fn open_by_name(
        &mut self,
        handles: &mut HandleTable,
        target: u32,
        name: &[u16],
        access: Access,
    ) -> Result<Answer, NoMemory>
        requires name { is_name_of name.now ≡ true }
        ensures effect { IfOk result (λ a. IsDone (open_by_name self.old handles.old.table target name.now access.0) self.new handles.new.table a) }
        ensures memory { OnErr result ((open_by_name self.old handles.old.table target name.now access.0).answer.status ≡ success) }
        ensures service { self.new ≡ self.old }
        ensures err { OnErr result (handles.new.table ≡ handles.old.table) }
    {
        match self.names.seek(name) {
            Lookup::NoDirectory => Ok(Answer::refusal(PATH_NOT_FOUND)),
            Lookup::Absent { .. } => Ok(Answer::refusal(NAME_NOT_FOUND)),
            Lookup::There { object, .. } => {
                let handle = handles.grant(target, on_key(object, access))?;
                Ok(Answer {
                    status: SUCCESS,
                    handle,
                    ext: Extended::empty(),
                })
            }
        }
    }

    /// Whether `start` can place a key of this name: its parent is there, and the name is free.
    pub fn can_start(&self, name: &[u16]) -> bool
        requires name { is_name_of name.now ≡ true }
        ensures { result ≡ can_start self.now name.now }
    {
        matches!(self.names.seek(name), Lookup::Absent { .. })
    }

    /// Places a key of the opening namespace. It answers false, and changes nothing, exactly if the parent is not
    /// there or the key is.
    ///
    /// # Errors
    /// `NoMemory` if there was none for the name; then nothing is changed.
    pub fn start(&mut self, name: &[u16]) -> Result<bool, NoMemory>
        requires name { is_name_of name.now ≡ true }
        requires made { self.old.made < 2 ^ 63 }
        ensures answer { IfOk result (λ b. b ≡ can_start self.old name.now) }
        ensures service { OnOk result (self.new ≡ started self.old name.now) }
        ensures memory { OnErr result (can_start self.old name.now ≡ true) }
        ensures err { OnErr result (self.new ≡ self.old) }
    {
        numbers_are_kept::<u64>();
        let Lookup::Absent { directory, .. } = self.names.seek(name) else {
            return Ok(false);
        };
        let number = self.made + 1;
        self.names.add_at(directory, name, number)?;
        self.made = number;
        Ok(true)
    }
}
