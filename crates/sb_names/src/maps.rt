// A map from names, compared folded, to values.
ghost use Rattle.std.specs.Prelude.{◌≡◌, [], None, OnOk, OnErr};
ghost use Rattle.std.specs.BTreeMap.{IsUnchanged, get};
ghost use Rattle.sb_names.specs.Entries.{AreHashed, IsKept, place_of, rows_in, value_by};
ghost use Rattle.sb_names.specs.Hashes.{hash_of};
ghost use Rattle.sb_names.specs.Keys.{key_of};
ghost use Rattle.sb_names.specs.Maps.{Rises, found, put, replaced, without};
ghost use Rattle.sb_base.specs.Orders.{by_pair};

use crate::keys::{hash_of, is_key};
use sb_base::{NoMemory, Wide};
use std::alloc::Global;
use std::collections::BTreeMap;
use std::marker::Model;

/// A map from names to values. Names are compared folded, and no spelling is kept. Each call finds a name by an index, so that
/// its time does not depend on the order in which names came.
///
/// The index has a hash of 64 bits that anybody can compute. Names that were made to have one hash are compared one after the
/// other, so that a call takes time in the number of these, and k of them take time in the square of k.
pub struct NameMap<V> {
    // Each folded name with its value, under its hash and a number among the names with that hash.
    index: BTreeMap<(u64, u64), (Wide, V)>,
}

impl<V: Drop> Drop for NameMap<V> {
    fn drop(self) {
        let NameMap { index: _ } = self;
    }
}

impl<V> Model for NameMap<V> {
    ghost use Rattle.sb_names.specs.Entries.{IsKept, rows_in};
    ghost use Rattle.sb_names.specs.Maps.{Rows};

    ghost Value = { Rows V };

    ghost view = { λ m. rows_in m.index.entries };

    ghost invariant = { λ m. IsKept m.index.entries };
}

// The number of a name among those with its hash, and its value.
fn place<V: Copy>(
    index: &BTreeMap<(u64, u64), (Wide, V)>,
    hash: u64,
    name: &[u16],
) -> Option<(u64, V)>
    requires hashed { AreHashed index.now.entries }
    requires hash { hash ≡ hash_of None (key_of name.now) }
    ensures { result ≡ place_of (key_of name.now) index.now.entries }
{
    for ((_, number), row) in index.range((hash, 0)..=(hash, u64::MAX)) {
        if is_key(row.0.as_units(), name) {
            return Some((*number, row.1));
        }
    }
    None
}

// A number that no name with this hash has: the first from the count of names on. While no name was removed, the count itself is
// free, since each number is below the count that it was given at.
fn free_number<V>(index: &BTreeMap<(u64, u64), (Wide, V)>, hash: u64) -> u64
    ensures { get by_pair index.now (hash, result) ≡ None }
{
    let mut number = index.len() as u64;
    while index.contains_key(&(hash, number)) {
        number += 1;
    }
    number
}

// Puts a value under a name that is not there.
fn add_row<V: Copy>(
    index: &mut BTreeMap<(u64, u64), (Wide, V)>,
    hash: u64,
    name: &[u16],
    key: Wide,
    value: V,
) -> Result<(), NoMemory>
    requires kept { IsKept index.old.entries }
    requires hash { hash ≡ hash_of None (key_of name.now) }
    requires key { key ≡ key_of name.now }
    requires absent { place_of (key_of name.now) index.old.entries ≡ None }
    ensures kept { OnOk result (IsKept index.new.entries) }
    ensures rows { OnOk result (rows_in index.new.entries ≡ put (rows_in index.old.entries) name.now value) }
    ensures err { OnErr result (IsUnchanged index.old index.new) }
{
    let number = free_number(index, hash);
    index.insert((hash, number), (key, value))?;
    Ok(())
}

// Gives the row of a name another value. If there is no such row nothing is changed.
fn set_row<V: Copy>(index: &mut BTreeMap<(u64, u64), (Wide, V)>, hash: u64, name: &[u16], value: V)
    requires kept { IsKept index.old.entries }
    requires hash { hash ≡ hash_of None (key_of name.now) }
    ensures kept { IsKept index.new.entries }
    ensures rows { rows_in index.new.entries ≡ replaced (rows_in index.old.entries) name.now value }
{
    let Some((number, _)) = place(index, hash, name) else {
        return;
    };
    if let Some(row) = index.get_mut(&(hash, number)) {
        row.1 = value;
    }
}

// Removes the row of a name, and returns its value.
fn take_row<V: Copy>(
    index: &mut BTreeMap<(u64, u64), (Wide, V)>,
    hash: u64,
    name: &[u16],
) -> Option<V>
    requires kept { IsKept index.old.entries }
    requires hash { hash ≡ hash_of None (key_of name.now) }
    ensures value { result ≡ value_by (place_of (key_of name.now) index.old.entries) }
    ensures kept { IsKept index.new.entries }
    ensures rows { rows_in index.new.entries ≡ without (rows_in index.old.entries) name.now }
{
    let (number, value) = place(index, hash, name)?;
    index.remove(&(hash, number));
    Some(value)
}

impl<V: Copy> NameMap<V> {
    /// A map without names.
    pub fn new(alloc: Global) -> NameMap<V>
        ensures { result ≡ [] }
    {
        NameMap {
            index: BTreeMap::new(alloc),
        }
    }

    /// The value of a name.
    #[tactic(auto, using(crate::proofs::EntryLemmas::found_by_place))]
    pub fn find(&self, name: &[u16]) -> Option<V>
        ensures { result ≡ found self.now name.now }
    {
        match place(&self.index, hash_of(None, name), name) {
            Some((_, value)) => Some(value),
            None => None,
        }
    }

    /// Puts a value under a name that has none, with the name folded by the caller.
    ///
    /// # Errors
    /// `NoMemory` if there is none for the row; then nothing is changed.
    #[tactic(auto, using(crate::proofs::EntryLemmas::no_place))]
    pub fn add(&mut self, name: &[u16], key: Wide, value: V) -> Result<(), NoMemory>
        requires key { key ≡ key_of name.now }
        requires absent { found self.old name.now ≡ None }
        ensures ok { OnOk result (self.new ≡ put self.old name.now value) }
        ensures err { OnErr result (self.new ≡ self.old) }
    {
        add_row(&mut self.index, hash_of(None, name), name, key, value)
    }

    /// Gives the row of a name another value. If there is no such row nothing is changed.
    pub fn replace(&mut self, name: &[u16], value: V)
        ensures { self.new ≡ replaced self.old name.now value }
    {
        set_row(&mut self.index, hash_of(None, name), name, value);
    }

    /// Removes the row of a name, and returns its value.
    #[tactic(auto, using(crate::proofs::EntryLemmas::found_by_place))]
    pub fn remove(&mut self, name: &[u16]) -> Option<V>
        ensures value { result ≡ found self.old name.now }
        ensures rows { self.new ≡ without self.old name.now }
    {
        take_row(&mut self.index, hash_of(None, name), name)
    }

    /// Establishes for a proof that the rows rise strictly, so that equal maps are equal lists. It does nothing.
    #[tactic(auto, using(crate::proofs::EntryLemmas::rows_in_rise))]
    pub fn establish_order(&self)
        ensures { Rises self.now }
    {
        let _count = self.index.len();
    }
}
