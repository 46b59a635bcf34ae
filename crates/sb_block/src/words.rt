// The words of a block, in an array of fixed room.
ghost use Rattle.std.specs.Prelude.{◌≡◌, ◌<◌, ◌≤◌, ◌+◌, ◌++◌, ◌∷◌, [], length};
ghost use Rattle.sb_block.specs.Layout.{most_words};

use arrayvec::ArrayVec;
use std::marker::Model;

/// At most 64 words of a block. Contracts see the list of the words.
#[derive(Drop)]
pub struct Words {
    items: ArrayVec<u64, 64>,
}

impl Model for Words {
    ghost use Rattle.std.specs.Prelude.{List, ℕ, length, ◌≤◌};

    ghost Value = { List ℕ };

    ghost view = { λ w. w.items.items };

    ghost inverse = { λ w. record { items = record { items = w } } };

    ghost use Rattle.sb_block.specs.Layout.{most_words};

    ghost invariant = { λ w. length w.items.items ≤ most_words };
}

impl Words {
    /// No words.
    pub fn empty() -> Words
        ensures { result ≡ [] }
    {
        Words {
            items: ArrayVec::new(),
        }
    }

    /// The words of an array of fixed room.
    pub fn new(items: ArrayVec<u64, 64>) -> Words
        ensures { result ≡ items.items }
    {
        Words { items }
    }

    /// The words in an array of fixed room.
    pub fn into_items(self) -> ArrayVec<u64, 64>
        ensures { result.items ≡ self }
    {
        self.items
    }

    /// The number of words, at most 64.
    pub fn len(&self) -> usize
        ensures len { result ≡ length self.now }
        ensures most { result ≤ most_words }
    {
        self.items.len()
    }

    /// The words.
    pub fn as_slice(&self) -> &[u64]
        ensures value { result.now ≡ self.now }
        ensures most { length result.now ≤ most_words }
    {
        self.items.as_slice()
    }

    /// Appends a word. There must be fewer than 64.
    pub fn push(&mut self, word: u64)
        requires { length self.old < most_words }
        ensures { self.new ≡ self.old ++ word ∷ [] }
    {
        self.items.push(word);
    }

    /// Appends words. There must be room for all of them.
    pub fn extend(&mut self, words: &[u64])
        requires { length self.old + length words.now ≤ most_words }
        ensures { self.new ≡ self.old ++ words.now }
    {
        let _fits = self.items.try_extend_from_slice(words);
    }

    /// Removes all words.
    pub fn clear(&mut self)
        ensures { self.new ≡ [] }
    {
        self.items.clear();
    }

    /// An equal list of words. Does not allocate.
    pub fn copy(&self) -> Words
        ensures { result ≡ self.now }
    {
        let mut copy = Words::empty();
        copy.extend(self.as_slice());
        copy
    }
}

impl PartialEq for Words {
    ghost use Rattle.std.specs.Prelude.{nat_eq};
    ghost use Rattle.std.specs.Cmp.Lexicographic.{pointwise};
    ghost use Rattle.std.specs.Cmp.Rules.{comparing};
    ghost use Rattle.std.proofs.Common.{rules};

    ghost eq = { pointwise nat_eq };

    ghost laws = { Prim.search (comparing, rules) };

    fn eq(&self, other: &Words) -> bool {
        self.items.as_slice() == other.items.as_slice()
    }
}
