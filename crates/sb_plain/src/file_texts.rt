// The text of a file of a command, and how it is refused.
ghost use Rattle.std.specs.Prelude.{◌≡◌, ◌<◌, ◌+◌, ◌^◌, length};
ghost use Rattle.sb_message.specs.declared.statuses.Refusal.TheVariants.{Text};
ghost use Rattle.sb_plain.specs.Contents.{fault_refusal};
ghost use Rattle.sb_plain.specs.Readings.{IsOfText};

use crate::refusals::Refused;
use sb_base::{NoMemory, Refused as TextRefused};
use sb_message::{TextFault, TextFaultKind};
use sb_text::{LineFault, TextPart};
use std::marker::Model;

/// The text of a file, with the number of the file among those of its command, from 1. A text has fewer than 2^32 - 1 bytes.
#[derive(Drop)]
pub struct FileText {
    which: u8,
    bytes: Vec<u8>,
}

impl Model for FileText {
    ghost use Rattle.std.specs.Prelude.{◌<◌, ◌+◌, ◌^◌, length};
    ghost use Rattle.sb_plain.specs.Contents.{FileContent};

    ghost Value = { FileContent };

    ghost view = { λ text. record { which = text.which; bytes = text.bytes.items } };

    ghost invariant = { λ text. length text.bytes.items + 1 < 2 ^ 32 };
}

impl FileText {
    /// The text of file `which`.
    pub(crate) fn new(which: u8, bytes: Vec<u8>) -> FileText
        requires { length bytes.items + 1 < 2 ^ 32 }
        ensures { result ≡ record { which = which; bytes = bytes.items } }
    {
        FileText { which, bytes }
    }

    /// Its bytes.
    pub fn bytes(&self) -> &[u8]
        ensures bytes { result.now ≡ self.now.bytes }
        ensures short { length result.now + 1 < 2 ^ 32 }
    {
        &self.bytes
    }

    /// Its bytes, without the file.
    pub fn into_bytes(self) -> Vec<u8>
        ensures { result.items ≡ self.bytes }
    {
        let FileText { which: _, bytes } = self;
        bytes
    }

    /// Why nothing was read of it: its fault, whose line is shown, or out of memory. Does not allocate: the line stays in the memory of the text.
    pub fn refused<K: TextFaultKind>(self, refused: TextRefused<LineFault<K>>) -> Refused
        ensures refusal { result ≡ fault_refusal K.told self refused }
        ensures of_text { IsOfText result.why }
    {
        match refused {
            TextRefused::Fault(fault) => {
                let FileText { which, bytes } = self;
                let line = fault.line;
                Refused::of_text(which, K::told(fault), TextPart::line(line, bytes))
            }
            TextRefused::NoMemory => Refused::from(NoMemory),
        }
    }

    /// It has this fault, which shows this part of it.
    pub(crate) fn refused_with(self, fault: TextFault, shown: Option<TextPart>) -> Refused
        ensures refusal { result ≡ record { why = Text self.which fault; shown = shown } }
        ensures of_text { IsOfText result.why }
    {
        let FileText { which, bytes: _ } = self;
        Refused::of_text(which, fault, shown)
    }
}
