// The book in a box, so that handing it over moves one pointer.
ghost use Rattle.std.specs.Prelude.{◌≡◌, ◌<◌, length, slice_index, IfOk, OnOk, OnErr};
ghost use Rattle.sb_block.specs.Copies.{mark_of};
ghost use Rattle.sb_book.specs.Decisions.{decision_of};
ghost use Rattle.sb_book.specs.Histories.{answered, reply_of};
ghost use Rattle.sb_rule.specs.Verdicts.{policy_at};

use sb_base::NoMemory;
use sb_block::BlockCopy;
use sb_book::{Book, Decision};
use sb_call::Reply;
use std::alloc::Global;
use std::marker::Model;

/// A book in a box. Contracts see its history.
pub(crate) struct BoxedBook {
    pub(crate) book: Box<Book>,
}

impl Drop for BoxedBook {
    fn drop(self) {
        let BoxedBook { book: _ } = self;
    }
}

impl Model for BoxedBook {
    ghost use Rattle.sb_book.specs.Histories.{History};

    ghost Value = { History };

    ghost view = { λ b. b.book.value };
}

impl BoxedBook {
    /// Puts a book into a box.
    ///
    /// # Errors
    /// `NoMemory` if there is none for the box.
    pub(crate) fn new(alloc: Global, book: Book) -> Result<BoxedBook, NoMemory>
        ensures { IfOk result (λ boxed. boxed ≡ book) }
    {
        Ok(BoxedBook {
            book: Box::new(alloc, book)?,
        })
    }

    /// Appends the entry of a copy and its decision, as `Book::answer` does.
    ///
    /// # Errors
    /// `NoMemory` if there is none for the entry or for what the call makes; then the book is as it was.
    pub(crate) fn answer(
        &mut self,
        target: u32,
        channel: u32,
        taken: &BlockCopy,
        decision: Decision,
    ) -> Result<Reply, NoMemory>
        requires target_there { target < length self.old.setting.policies }
        requires channel_there { channel < slice_index self.old.setting.channels target }
        requires decided { decision ≡ decision_of (policy_at self.old.setting.policies target) taken.now }
        ensures reply { IfOk result (λ r. r ≡ reply_of self.old.space target (mark_of taken.now) decision) }
        ensures ok { OnOk result (self.new ≡ answered self.old target channel taken.now decision) }
        ensures err { OnErr result (self.new ≡ self.old) }
    {
        self.book.answer(target, channel, taken, decision)
    }

    /// Takes the book out of its box.
    pub(crate) fn into_book(self) -> Book
        ensures { result ≡ self }
    {
        let BoxedBook { book } = self;
        Box::into_inner(book)
    }
}
