// A copy of a block, as a worker takes it.
ghost use Rattle.std.specs.Prelude.{◌≡◌, ◌≤◌, length, true, Option, None, Some, if◌then◌else◌};
ghost use Rattle.sb_block.specs.Copies.{Copied, copied, is_copy, mark_of};
ghost use Rattle.sb_block.specs.Layout.{most_words};

use crate::layout::{MAX_PARAMETERS, is_end};
use crate::words::Words;
use std::marker::Model;

/// A copy of a block, with the count and the end that were loaded before it.
///
/// A count above 9 ends the copying at once: the end is then 0 and there are no words. An end
/// below `16 + count` or above 64 ends it too, and there are no words. Otherwise there are as many
/// words as the end says. Contracts see a record of count, end and the list of words.
#[derive(Drop, PartialEq)]
pub struct BlockCopy {
    count: u64,
    end: u64,
    words: Words,
}

impl Model for BlockCopy {
    ghost use Rattle.sb_block.specs.Copies.{Copied, copied, is_copy};
    ghost use Rattle.std.specs.Prelude.{◌≡◌, true};

    ghost Value = { Copied };

    ghost view = { λ t. copied t.count t.end t.words };

    ghost inverse = { λ c. record { count = c.count_seen; end = c.end_seen; words = c.words } };

    ghost invariant = { λ t. is_copy (copied t.count t.end t.words) ≡ true };
}

impl BlockCopy {
    /// The copy with this count, end and words. None exactly if they break the rule of a copy.
    pub fn of(count: u64, end: u64, words: Words) -> Option<BlockCopy>
        ensures { result ≡ (if is_copy (copied count end words) then Some (copied count end words)
            else None) }
    {
        let len = words.len() as u64;
        let right = if count > MAX_PARAMETERS {
            end == 0 && len == 0
        } else if is_end(count, end) {
            len == end
        } else {
            len == 0
        };
        if !right {
            return None;
        }
        Some(BlockCopy { count, end, words })
    }

    /// Becomes the copy with this count, end and words, which keep the rule of a copy. The words are copied.
    #[inline(never)]
    pub fn assign(&mut self, count: u64, end: u64, words: &Words)
        requires { is_copy (copied count end words.now) ≡ true }
        ensures { self.new ≡ copied count end words.now }
    {
        self.count = count;
        self.end = end;
        self.words.clear();
        self.words.extend(words.as_slice());
    }

    /// The number of parameters that was loaded before the copy.
    pub fn count_seen(&self) -> u64
        ensures { result ≡ self.now.count_seen }
    {
        self.count
    }

    /// The end, in words, that was loaded before the copy, or 0 if it was not loaded.
    pub fn end_seen(&self) -> u64
        ensures { result ≡ self.now.end_seen }
    {
        self.end
    }

    /// The words of the copy, at most 64.
    pub fn words(&self) -> &[u64]
        ensures value { result.now ≡ self.now.words }
        ensures most { length result.now ≤ most_words }
        ensures rule { is_copy self.now ≡ true }
    {
        self.words.as_slice()
    }

    /// The caller's mark: word 1 of the copy, or 0 if the copy is empty.
    pub fn mark(&self) -> u64
        ensures { result ≡ mark_of self.now }
    {
        match self.words.as_slice() {
            [_, mark, ..] => *mark,
            _ => 0,
        }
    }

    /// An equal copy. Does not allocate.
    pub fn copy(&self) -> BlockCopy
        ensures { result ≡ self.now }
    {
        BlockCopy {
            count: self.count,
            end: self.end,
            words: self.words.copy(),
        }
    }
}
