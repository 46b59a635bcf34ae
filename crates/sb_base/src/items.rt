// A list of values.
ghost use Rattle.std.specs.Prelude.{◌≡◌, ◌++◌, ◌∷◌, [], length, MatchOption, OnOk, OnErr};
ghost use Rattle.std.specs.Slice.Iter.{iter_rest};

use crate::memory::NoMemory;
use std::alloc::{AllocError, Global};
use std::marker::Model;
use std::ops::DerefSlice;
use std::slice;

/// A list of values, which is a slice of them. Contracts see it as the list of what the values are.
pub struct Items<T> {
    items: Vec<T>,
}

impl<T: Drop> Drop for Items<T> {
    fn drop(self) {
        let Items { items: _ } = self;
    }
}

impl<T> Model for Items<T> {
    ghost use Rattle.std.specs.Prelude.{List};
    ghost use Rattle.std.specs.Coded.{coded_list};

    ghost Value = { List T };

    ghost coded = { coded_list T.code };

    ghost view = { λ list. list.items.items };
}

impl<T> Items<T> {
    /// The list of these items. Does not allocate.
    pub fn new(items: Vec<T>) -> Items<T>
        ensures { result ≡ items.items }
    {
        Items { items }
    }

    /// The items, given back. Does not allocate.
    pub fn into_items(self) -> Vec<T>
        ensures { result.items ≡ self }
    {
        let Items { items } = self;
        items
    }

    /// The items, in order.
    pub fn as_slice(&self) -> &[T]
        ensures { result.now ≡ self.now }
    {
        self.items.as_slice()
    }

    /// The number of items.
    pub fn len(&self) -> usize
        ensures { result ≡ length self.now }
    {
        self.items.len()
    }
}

impl<T: Drop> Items<T> {
    /// The list of no items, which grows in the memory of `alloc`. Does not allocate.
    pub fn empty(alloc: Global) -> Items<T>
        ensures { result ≡ [] }
    {
        Items {
            items: Vec::new(alloc),
        }
    }

    /// Appends an item. After an error the list is as it was.
    ///
    /// # Errors
    /// `NoMemory` if there is none for the item.
    pub fn push(&mut self, item: T) -> Result<(), NoMemory>
        ensures ok { OnOk result (self.new ≡ self.old ++ item ∷ []) }
        ensures err { OnErr result (self.new ≡ self.old) }
    {
        self.items.push(item)?;
        Ok(())
    }

    /// Appends the items of another list. After an error the list is as it was.
    ///
    /// # Errors
    /// `NoMemory` if there is none for them.
    pub fn append(&mut self, items: Items<T>) -> Result<(), NoMemory>
        ensures ok { OnOk result (self.new ≡ self.old ++ items) }
        ensures err { OnErr result (self.new ≡ self.old) }
    {
        let mut items = items.into_items();
        self.items.append(&mut items)?;
        Ok(())
    }

    /// Takes out the last item. None exactly if there is none.
    pub fn pop(&mut self) -> Option<T>
        ensures { MatchOption result ((self.old ≡ []) × (self.new ≡ [])) (λ last. self.old ≡ self.new ++ last ∷ []) }
    {
        self.items.pop()
    }
}

impl<T> DerefSlice for Items<T> {
    type Elem = T;

    ghost deref_gives = { λ list items. items ≡ list };

    fn deref(&self) -> &[T] {
        self.items.as_slice()
    }
}

impl<'a, T> IntoIterator for &'a Items<T> {
    type Item = &'a T;

    type IntoIter = slice::Iter<'a, T>;

    ghost into_iter_gives = { λ list iter. iter_rest iter ≡ list.now };

    fn into_iter(self) -> slice::Iter<'a, T> {
        self.items.iter()
    }
}

impl<T: Clone> Clone for Items<T> {
    ghost use Rattle.std.specs.List.{AllZip};

    ghost is_clone = { AllZip T.is_clone };

    fn clone(&self) -> Result<Items<T>, AllocError> {
        Ok(Items {
            items: self.items.clone()?,
        })
    }
}

impl<T: PartialEq> PartialEq for Items<T> {
    ghost use Rattle.std.specs.Cmp.Lexicographic.{pointwise, lists_per};

    ghost eq = { pointwise T.eq };

    ghost laws = { lists_per T.laws };

    fn eq(&self, other: &Items<T>) -> bool {
        self.items == other.items
    }
}
