// How a command ended.
ghost use Rattle.std.specs.Prelude.{◌≡◌, [], None};

use sb_book::Report;
use sb_commands::FileNames;
use sb_message::{Shown, Status};

/// The status of a command, with the names of its files, what of a text is shown with it, and the report of its run.
pub struct Outcome<'a> {
    /// How the command ended.
    pub status: Status,
    /// The names of its files; none if the arguments are no command, or were not read.
    pub files: FileNames<'a>,
    /// The line of a refused text that has the fault, without its line end; or the policy text whose notes are told, if the command has an end.
    pub shown: Option<Shown>,
    /// What its run gave, if the command has an end.
    pub report: Option<Report>,
}

impl<'a> Drop for Outcome<'a> {
    fn drop(self) {
        let Outcome {
            status: _,
            files: _,
            shown: _,
            report: _,
        } = self;
    }
}

impl<'a> Outcome<'a> {
    /// The outcome of arguments of which no file was read: it shows nothing, and has no report.
    pub fn bare(status: Status) -> Outcome<'a>
        ensures status { result.status ≡ status }
        ensures files { result.files ≡ [] }
        ensures shown { result.shown ≡ None }
        ensures report { result.report ≡ None }
    {
        Outcome {
            status,
            files: FileNames::none(),
            shown: None,
            report: None,
        }
    }
}
