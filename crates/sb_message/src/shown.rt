// What of a text is shown with an outcome.
ghost use Rattle.std.specs.Prelude.{◌≡◌, IfOk};
ghost use Rattle.sb_ruletext.specs.Notes.{notes_of};

use sb_base::NoMemory;
use sb_ruletext::{Note, read_notes};
use sb_text::TextPart;
use std::alloc::Global;
use std::marker::Model;

/// What of a text is shown: a line of it, or a policy text with its notes, which are read already. Contracts see its bytes.
pub struct Shown {
    part: TextPart,
    notes: Option<Vec<Note>>,
}

impl Drop for Shown {
    fn drop(self) {
        let Shown { part: _, notes: _ } = self;
    }
}

impl Model for Shown {
    ghost use Rattle.std.specs.Prelude.{◌≡◌, List, ℕ, IfSome};
    ghost use Rattle.sb_ruletext.specs.Notes.{notes_of};

    ghost Value = { List ℕ };

    ghost view = { λ shown. shown.part };

    ghost invariant = { λ shown. IfSome shown.notes (λ notes. notes.items ≡ notes_of shown.part) };
}

impl Shown {
    /// A line of a text.
    pub fn line(part: TextPart) -> Shown
        ensures { result ≡ part }
    {
        Shown { part, notes: None }
    }

    /// A policy text with its notes.
    pub fn noted(text: Vec<u8>, notes: Vec<Note>) -> Shown
        requires { notes.items ≡ notes_of text.items }
        ensures { result ≡ text.items }
    {
        Shown {
            part: TextPart::whole(text),
            notes: Some(notes),
        }
    }

    /// The bytes that are shown.
    pub fn as_slice(&self) -> &[u8]
        ensures { result.now ≡ self.now }
    {
        self.part.as_slice()
    }

    /// The notes that the bytes have as a policy text. Those that were read with the text are copied.
    ///
    /// # Errors
    /// `NoMemory` if there was none for them.
    pub fn notes(&self, alloc: Global) -> Result<Vec<Note>, NoMemory>
        ensures { IfOk result (λ notes. notes.items ≡ notes_of self.now) }
    {
        match &self.notes {
            Some(notes) => Ok(Vec::from_slice(alloc, notes)?),
            None => read_notes(alloc, self.part.as_slice()),
        }
    }
}
