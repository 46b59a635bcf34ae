// What a service answers, and what a target is replied.
ghost use Rattle.std.specs.Prelude.{◌≡◌, ◌<◌, ◌≤◌, ◌++◌, ◌∷◌, [], length};

use arrayvec::ArrayVec;
use std::marker::Model;

/// The extended words of an answer, at most seven.
#[derive(Drop)]
pub struct Extended {
    items: ArrayVec<u64, 7>,
}

impl Model for Extended {
    ghost use Rattle.std.specs.Prelude.{List, ℕ, length, ◌≤◌};

    ghost Value = { List ℕ };

    ghost view = { λ e. e.items.items };

    ghost invariant = { λ e. length e.items.items ≤ 7 };
}

impl Extended {
    /// The list of these words.
    pub fn new(items: ArrayVec<u64, 7>) -> Extended
        ensures { result ≡ items.items }
    {
        Extended { items }
    }

    /// No words.
    pub fn empty() -> Extended
        ensures { result ≡ [] }
    {
        Extended {
            items: ArrayVec::new(),
        }
    }

    /// The words.
    pub fn into_items(self) -> ArrayVec<u64, 7>
        ensures items { result.items ≡ self }
        ensures most { length result.items ≤ 7 }
    {
        self.items
    }

    /// The words, in order.
    pub fn as_slice(&self) -> &[u64]
        ensures words { result.now ≡ self.now }
        ensures most { length self.now ≤ 7 }
    {
        self.items.as_slice()
    }

    /// How many words there are, at most 7.
    pub fn len(&self) -> usize
        ensures len { result ≡ length self.now }
        ensures most { result ≤ 7 }
    {
        self.items.len()
    }

    /// Appends a word. There must be fewer than seven.
    pub fn push(&mut self, word: u64)
        requires { length self.old < 7 }
        ensures { self.new ≡ self.old ++ word ∷ [] }
    {
        self.items.push(word);
    }

    /// An equal list.
    pub fn copy(&self) -> Extended
        ensures { result ≡ self.now }
    {
        let mut items = ArrayVec::new();
        let _fits = items.try_extend_from_slice(self.items.as_slice());
        Extended { items }
    }
}

impl PartialEq for Extended {
    ghost use Rattle.std.specs.Prelude.{nat_eq};
    ghost use Rattle.std.specs.Cmp.Lexicographic.{pointwise};
    ghost use Rattle.std.specs.Cmp.Rules.{comparing};
    ghost use Rattle.std.proofs.Common.{rules};

    ghost eq = { pointwise nat_eq };

    ghost laws = { Prim.search (comparing, rules) };

    fn eq(&self, other: &Extended) -> bool {
        self.items.as_slice() == other.items.as_slice()
    }
}

/// What a service answers to a call that it performed.
#[derive(Drop, PartialEq)]
pub struct Answer {
    /// A Windows status code.
    pub status: u32,
    /// The handle that was granted, or 0.
    pub handle: u64,
    /// The extended words.
    pub ext: Extended,
}

/// What a target is replied to a call. The words are as they are in the channel, so a reply that
/// was stored directly may have any.
#[derive(Drop, PartialEq)]
pub struct Reply {
    /// The mark of the call that is answered.
    pub mark: u64,
    /// 0 performed, 1 refused, 2 denied, 3 faked.
    pub outcome: u64,
    /// A Windows status code.
    pub status: u64,
    /// The handle that was granted, or 0.
    pub handle: u64,
    /// The extended words.
    pub ext: Extended,
}

impl Answer {
    /// An equal answer.
    pub fn copy(&self) -> Answer
        ensures { result ≡ self.now }
    {
        Answer {
            status: self.status,
            handle: self.handle,
            ext: self.ext.copy(),
        }
    }
}

impl Reply {
    /// An equal reply.
    pub fn copy(&self) -> Reply
        ensures { result ≡ self.now }
    {
        Reply {
            mark: self.mark,
            outcome: self.outcome,
            status: self.status,
            handle: self.handle,
            ext: self.ext.copy(),
        }
    }
}
