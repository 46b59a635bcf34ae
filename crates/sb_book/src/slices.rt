// Entries, borrowed from what stores them.
ghost use Rattle.std.specs.Prelude.{◌≡◌, ◌∷◌, [], length, slice_get, take, MatchOption};
ghost use Rattle.sb_book.specs.Stores.{IsCut, buffers, stored_entry};

use crate::stored_args::ArgRow;
use crate::stores::EntryRow;
use crate::views::EntryView;
use std::marker::Model;

/// Entries that are borrowed from what stores them. Contracts see the list of the entries.
pub struct EntrySlice<'a> {
    pub(crate) rows: &'a [EntryRow],
    pub(crate) words: &'a [u64],
    pub(crate) args: &'a [ArgRow],
    pub(crate) units: &'a [u16],
}

impl<'a> Drop for EntrySlice<'a> {
    fn drop(self) {
        let EntrySlice {
            rows: _,
            words: _,
            args: _,
            units: _,
        } = self;
    }
}

impl<'a> Model for EntrySlice<'a> {
    ghost use Rattle.std.specs.Prelude.{List, map};
    ghost use Rattle.std.specs.List.{All};
    ghost use Rattle.sb_book.specs.Stores.{IsCut, buffers, stored_entry};
    ghost use Rattle.sb_book.specs.declared.entries.Entry.{Entry};

    ghost Value = { List Entry };

    ghost view = { λ e. map (stored_entry (buffers e.words.now e.args.now e.units.now)) e.rows.now };

    ghost invariant = { λ e. All (IsCut (buffers e.words.now e.args.now e.units.now)) e.rows.now };
}

// The entry of a row.
fn view_of<'a>(
    words: &'a [u64],
    args: &'a [ArgRow],
    units: &'a [u16],
    row: &'a EntryRow,
) -> EntryView<'a>
    requires { IsCut (buffers words.now args.now units.now) row.now }
    ensures { result ≡ stored_entry (buffers words.now args.now units.now) row.now }
{
    EntryView {
        row,
        words,
        args,
        units,
    }
}

// The rows before a place, or all if there are not that many.
#[tactic(auto, using(crate::proofs::Storing::front_is_all))]
fn front(rows: &[EntryRow], place: usize) -> &[EntryRow]
    ensures { result.now ≡ take place rows.now }
{
    if place >= rows.len() {
        return rows;
    }
    let (front, _) = rows.split_at(place);
    front
}

impl<'a> EntrySlice<'a> {
    /// How many entries there are.
    #[tactic(auto, using(crate::proofs::Storing::as_many))]
    pub fn len(&self) -> usize
        ensures { result ≡ length self.now }
    {
        self.rows.len()
    }

    /// The entry at a place, from 0, or None if there are not that many.
    #[tactic(auto, using(crate::proofs::Storing::stored_at))]
    pub fn get(&self, place: usize) -> Option<EntryView<'a>>
        ensures { result ≡ slice_get self.now place }
    {
        match self.rows.get(place) {
            Some(row) => Some(view_of(self.words, self.args, self.units, row)),
            None => None,
        }
    }

    /// The first entry and those after it, or None if there are none.
    #[tactic(auto, using(crate::proofs::Storing::first_is_cut))]
    pub fn split_first(&self) -> Option<(EntryView<'a>, EntrySlice<'a>)>
        ensures { MatchOption result (self.now ≡ []) (λ parts. self.now ≡ parts.0 ∷ parts.1) }
    {
        match self.rows.split_first() {
            Some((row, rows)) => Some((
                view_of(self.words, self.args, self.units, row),
                EntrySlice {
                    rows,
                    words: self.words,
                    args: self.args,
                    units: self.units,
                },
            )),
            None => None,
        }
    }

    /// The entries before a place, from 0, or all if there are not that many.
    #[tactic(auto, using(crate::proofs::Storing::front_is_cut, crate::proofs::Storing::front_stored))]
    pub fn before(&self, place: usize) -> EntrySlice<'a>
        ensures { result ≡ take place self.now }
    {
        EntrySlice {
            rows: front(self.rows, place),
            words: self.words,
            args: self.args,
            units: self.units,
        }
    }
}
