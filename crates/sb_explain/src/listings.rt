// Lines that are put one after another, up to a limit.
ghost use Rattle.std.specs.Prelude.{◌≡◌, IfOk, OnOk};
ghost use Rattle.sb_explain.specs.Listings.{most_lines, nothing_listed, text_of, with_line};

use sb_base::NoMemory;
use std::alloc::Global;
use std::marker::Model;

/// The most lines of a listing. If there are more, a last line `more` follows these.
pub const MAX_LINES: u32 = 4_000_000;

/// Lines that are put one after another. Those after the first 4,000,000 are left out. Contracts see the text, how many lines it has, and whether some were left out.
#[derive(Drop)]
pub struct Listing {
    text: Vec<u8>,
    count: u32,
    more: bool,
}

impl Model for Listing {
    ghost use Rattle.sb_explain.specs.Listings.{Listed};

    ghost Value = { Listed };

    ghost view = { λ l. record { text = l.text.items; count = l.count; more = l.more } };
}

impl Listing {
    /// No line.
    pub fn new(alloc: Global) -> Listing
        ensures { result ≡ nothing_listed }
    {
        Listing {
            text: Vec::new(alloc),
            count: 0,
            more: false,
        }
    }

    /// One more line, with its LF.
    ///
    /// # Errors
    /// `NoMemory` if there was none for it.
    pub fn push(&mut self, line: &[u8]) -> Result<(), NoMemory>
        ensures { OnOk result (self.new ≡ with_line most_lines self.old line.now) }
    {
        if self.count < MAX_LINES {
            self.text.extend_from_slice(line)?;
            self.count += 1;
        } else {
            self.more = true;
        }
        Ok(())
    }

    /// The lines as one text, with `more` after them if some were left out.
    ///
    /// # Errors
    /// `NoMemory` if there was none for the last line.
    pub fn into_text(self) -> Result<Vec<u8>, NoMemory>
        ensures { IfOk result (λ text. text.items ≡ text_of self) }
    {
        let Listing { mut text, more, .. } = self;
        if more {
            text.extend_from_slice(b"more\n")?;
        }
        Ok(text)
    }
}
