// Why commands are not carried out.
ghost use Rattle.std.specs.Prelude.{◌≡◌, None};
ghost use Rattle.sb_message.specs.declared.statuses.Refusal.TheVariants.{Text};
ghost use Rattle.sb_plain.specs.Contents.{missing, refused};
ghost use Rattle.sb_plain.specs.Readings.{IsOfText};

use crate::outcomes::Outcome;
use sb_base::NoMemory;
use sb_commands::FileNames;
use sb_message::{FileRefusal, Refusal, Shown, Status, TextFault};
use sb_text::TextPart;
use std::marker::Model;

/// Why a command is not carried out, and the line of a text that is shown with it.
#[derive(Drop)]
pub struct Refused {
    refusal: Refusal,
    shown: Option<TextPart>,
}

impl Model for Refused {
    ghost use Rattle.sb_plain.specs.Contents.{ShownRefusal};

    ghost Value = { ShownRefusal };

    ghost view = { λ r. record { why = r.refusal; shown = r.shown } };
}

impl Refused {
    /// A refusal that shows no line.
    pub fn new(refusal: Refusal) -> Refused
        ensures { result ≡ refused refusal }
    {
        Refused {
            refusal,
            shown: None,
        }
    }

    /// File `which` is not there.
    pub(crate) fn missing(which: u8) -> Refused
        ensures { result ≡ missing which }
    {
        Refused::new(Refusal::File {
            which,
            why: FileRefusal::Missing,
        })
    }

    /// The text of file `which` has this fault, which shows this part of it.
    pub(crate) fn of_text(which: u8, fault: TextFault, shown: Option<TextPart>) -> Refused
        ensures refusal { result ≡ record { why = Text which fault; shown = shown } }
        ensures of_text { IsOfText result.why }
    {
        Refused {
            refusal: Refusal::Text { which, fault },
            shown,
        }
    }

    /// The outcome of a command with these files that is refused for this: it has no report.
    pub fn into_outcome<'a>(self, files: FileNames<'a>) -> Outcome<'a>
        ensures { result ≡ record { status = Status.Refused self.why; files = files.entry; shown = self.shown; report = None } }
    {
        let Refused { refusal, shown } = self;
        let shown = match shown {
            Some(line) => Some(Shown::line(line)),
            None => None,
        };
        Outcome {
            status: Status::Refused(refusal),
            files,
            shown,
            report: None,
        }
    }
}

impl From<NoMemory> for Refused {
    ghost use Rattle.std.specs.Prelude.{◌≡◌};
    ghost use Rattle.sb_message.specs.declared.statuses.Refusal.TheVariants.{NoMemory};
    ghost use Rattle.sb_plain.specs.Contents.{refused};

    ghost from_gives = { λ _ r. r ≡ refused NoMemory };

    fn from(_error: NoMemory) -> Refused {
        Refused::new(Refusal::NoMemory)
    }
}
