// How entries are stored: a row for each, one buffer with the words of all copies, one with all arguments, and one with the units of their
// strings.
ghost use Rattle.std.specs.Prelude.{◌≡◌, ◌<◌, ◌++◌, ◌∷◌, ◌^◌, [], true, length, OnOk};
ghost use Rattle.sb_book.specs.Rulings.{args_of};
ghost use Rattle.sb_book.specs.Stores.{entry_with, is_room};

use crate::decisions::Decision;
use crate::rulings::Ruling;
use crate::slices::EntrySlice;
use crate::stored_args::{ArgRow, put_args, unit_count};
use sb_base::NoMemory;
use sb_block::{BlockCopy, MAX_WORDS};
use sb_call::{Arg, Reply};
use std::alloc::Global;
use std::marker::Model;

/// What is stored of an entry beside the words of its copy and its arguments.
pub(crate) struct EntryRow {
    pub(crate) target: u32,
    pub(crate) channel: u32,
    pub(crate) ruling: Ruling,
    pub(crate) reply: Reply,
    // The count and the end that were loaded before the copy.
    pub(crate) count: u64,
    pub(crate) end: u64,
    // Where the words of the copy begin in their buffer, and how many they are, at most 64.
    pub(crate) first_word: usize,
    pub(crate) word_count: usize,
    // Where the arguments begin in theirs, and how many they are.
    pub(crate) first_arg: usize,
    pub(crate) arg_count: usize,
}

impl Drop for EntryRow {
    fn drop(self) {
        let EntryRow {
            target: _,
            channel: _,
            ruling: _,
            reply: _,
            count: _,
            end: _,
            first_word: _,
            word_count: _,
            first_arg: _,
            arg_count: _,
        } = self;
    }
}

/// Stored entries. Contracts see the entries and the room beside them.
pub(crate) struct EntryStore {
    rows: Vec<EntryRow>,
    words: Vec<u64>,
    args: Vec<ArgRow>,
    units: Vec<u16>,
}

impl Drop for EntryStore {
    fn drop(self) {
        let EntryStore {
            rows: _,
            words: _,
            args: _,
            units: _,
        } = self;
    }
}

impl Model for EntryStore {
    ghost use Rattle.std.specs.Prelude.{map, vec_len, vec_capacity};
    ghost use Rattle.std.specs.List.{All};
    ghost use Rattle.sb_book.specs.Stores.{IsCut, StoreAt, buffers, stored_entry};

    ghost Value = { StoreAt };

    ghost view = { λ s. record {
      entries = map (stored_entry (buffers s.words.items s.args.items s.units.items)) s.rows.items;
      room = record {
        rows = vec_len s.rows;
        rows_capacity = vec_capacity s.rows;
        words = vec_len s.words;
        words_capacity = vec_capacity s.words;
        args = vec_len s.args;
        args_capacity = vec_capacity s.args;
        units = vec_len s.units;
        units_capacity = vec_capacity s.units;
      };
    } };

    ghost invariant = { λ s. All (IsCut (buffers s.words.items s.args.items s.units.items)) s.rows.items };
}

impl EntryStore {
    /// No entries. Does not allocate.
    pub(crate) fn new(alloc: Global) -> EntryStore
        ensures { result.entries ≡ [] }
    {
        EntryStore {
            rows: Vec::new(alloc),
            words: Vec::new(alloc),
            args: Vec::new(alloc),
            units: Vec::new(alloc),
        }
    }

    /// Makes room for one more entry, with these arguments. Whatever the result, the entries stay.
    ///
    /// # Errors
    /// `NoMemory` if there is none for an entry.
    #[tactic(auto, using(crate::proofs::Storing::room_made))]
    pub(crate) fn reserve(&mut self, args: &[Arg]) -> Result<(), NoMemory>
        ensures entries { self.new.entries ≡ self.old.entries }
        ensures room { OnOk result (is_room args.now self.new.room ≡ true) }
    {
        let units = unit_count(args).ok_or(NoMemory)?;
        self.rows.reserve(1)?;
        self.words.reserve(MAX_WORDS as usize)?;
        self.args.reserve(args.len())?;
        self.units.reserve(units)?;
        Ok(())
    }

    /// Appends an entry, for which there must be room. Does not allocate.
    #[tactic(auto, using(crate::proofs::Storing::room_for_row, crate::proofs::Storing::room_for_words, crate::proofs::Storing::room_for_args, crate::proofs::Storing::room_for_units))]
    pub(crate) fn push_reserved(
        &mut self,
        target: u32,
        channel: u32,
        taken: &BlockCopy,
        decision: &Decision,
        reply: &Reply,
    )
        requires room { is_room (args_of decision.now) self.old.room ≡ true }
        ensures entries { self.new.entries ≡ self.old.entries ++ entry_with target channel taken.now decision.now reply.now ∷ [] }
    {
        let copy = taken.words();
        let args = decision.args();
        let row = EntryRow {
            target,
            channel,
            ruling: decision.ruling(),
            reply: reply.copy(),
            count: taken.count_seen(),
            end: taken.end_seen(),
            first_word: self.words.len(),
            word_count: copy.len(),
            first_arg: self.args.len(),
            arg_count: args.len(),
        };
        let _fits = self.words.extend_from_slice(copy);
        put_args(&mut self.args, &mut self.units, args);
        self.rows.push_reserved(row);
    }

    /// How many entries there are, fewer than 2^63.
    #[tactic(auto, using(crate::proofs::Storing::as_many))]
    pub(crate) fn len(&self) -> usize
        ensures len { result ≡ length self.now.entries }
        ensures most { result < 2 ^ 63 }
    {
        self.rows.as_slice().len()
    }

    /// The entries, in order.
    pub(crate) fn as_slice(&self) -> EntrySlice<'_>
        ensures { result ≡ self.now.entries }
    {
        EntrySlice {
            rows: &self.rows,
            words: &self.words,
            args: &self.args,
            units: &self.units,
        }
    }
}
