// An entry, borrowed from those that store it.
ghost use Rattle.std.specs.Prelude.{◌≡◌, ◌≤◌, length, true};
ghost use Rattle.sb_block.specs.Copies.{is_copy, mark_of};
ghost use Rattle.sb_block.specs.Layout.{most_words};
ghost use Rattle.sb_book.specs.Rulings.{args_of, decision_with, ruling_of};

use crate::rulings::Ruling;
use crate::stored_args::{ArgRow, StoredArgs};
use crate::stores::EntryRow;
use sb_block::{BlockCopy, Words};
use sb_call::Reply;
use std::marker::Model;

/// An entry that is borrowed from those that store it. Contracts see the entry.
pub struct EntryView<'a> {
    pub(crate) row: &'a EntryRow,
    pub(crate) words: &'a [u64],
    pub(crate) args: &'a [ArgRow],
    pub(crate) units: &'a [u16],
}

impl<'a> Drop for EntryView<'a> {
    fn drop(self) {
        let EntryView {
            row: _,
            words: _,
            args: _,
            units: _,
        } = self;
    }
}

impl<'a> Model for EntryView<'a> {
    ghost use Rattle.sb_book.specs.Stores.{IsCut, buffers, stored_entry};
    ghost use Rattle.sb_book.specs.declared.entries.Entry.{Entry};

    ghost Value = { Entry };

    ghost view = { λ v. stored_entry (buffers v.words.now v.args.now v.units.now) v.row.now };

    ghost invariant = { λ v. IsCut (buffers v.words.now v.args.now v.units.now) v.row.now };
}

impl<'a> EntryView<'a> {
    /// The number of the target, from 0.
    pub fn target(&self) -> u32
        ensures { result ≡ self.now.target }
    {
        self.row.target
    }

    /// The number of the target's channel, from 0.
    pub fn channel(&self) -> u32
        ensures { result ≡ self.now.channel }
    {
        self.row.channel
    }

    /// The number of parameters that was loaded before the copy.
    pub fn count_seen(&self) -> u64
        ensures { result ≡ self.now.taken.count_seen }
    {
        self.row.count
    }

    /// The end, in words, that was loaded before the copy, or 0 if it was not loaded.
    pub fn end_seen(&self) -> u64
        ensures { result ≡ self.now.taken.end_seen }
    {
        self.row.end
    }

    /// The words of the copy, at most 64.
    pub fn words(&self) -> &'a [u64]
        ensures value { result.now ≡ self.now.taken.words }
        ensures most { length result.now ≤ most_words }
        ensures rule { is_copy self.now.taken ≡ true }
    {
        let (_, words) = self.words.split_at(self.row.first_word);
        let (words, _) = words.split_at(self.row.word_count);
        words
    }

    /// The caller's mark: word 1 of the copy, or 0 if the copy is empty.
    pub fn mark(&self) -> u64
        ensures { result ≡ mark_of self.now.taken }
    {
        match self.words() {
            [_, mark, ..] => *mark,
            _ => 0,
        }
    }

    /// The copy that was taken of the block. Does not allocate.
    pub fn taken(&self) -> BlockCopy
        ensures { result ≡ self.now.taken }
    {
        let mut words = Words::empty();
        words.extend(self.words());
        BlockCopy::of(self.row.count, self.row.end, words).unwrap()
    }

    /// What was decided on the copy, without the arguments.
    pub fn ruling(&self) -> Ruling
        ensures { result ≡ ruling_of self.now.decision }
    {
        self.row.ruling
    }

    /// The arguments that were granted. Only a call that was performed has any.
    pub fn args(&self) -> StoredArgs<'a>
        ensures args { result ≡ args_of self.now.decision }
        ensures decision { decision_with (ruling_of self.now.decision) result ≡ self.now.decision }
    {
        if !matches!(self.row.ruling, Ruling::Performed { .. }) {
            return StoredArgs {
                rows: &[],
                units: &[],
            };
        }
        let (_, rows) = self.args.split_at(self.row.first_arg);
        let (rows, _) = rows.split_at(self.row.arg_count);
        StoredArgs {
            rows,
            units: self.units,
        }
    }

    /// What was replied.
    pub fn reply(&self) -> &'a Reply
        ensures { result.now ≡ self.now.reply }
    {
        &self.row.reply
    }
}
