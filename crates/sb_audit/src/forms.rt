// What is due by the form of a transcript.
ghost use Rattle.std.specs.Prelude.{◌≡◌};
ghost use Rattle.sb_audit.specs.Dues.{due_form};

use crate::dues::FormDue;
use crate::places::due_spot;
use sb_statements::SoundScript;

/// What is due after this many entries and results, and maybe the totals.
pub(crate) fn due_form(
    script: &SoundScript,
    has_totals: bool,
    entries: u64,
    results: u64,
) -> FormDue
    ensures { result ≡ due_form script.now has_totals entries results }
{
    if has_totals {
        return FormDue::End;
    }
    FormDue::Line {
        entry: if results == 0 { Some(entries) } else { None },
        result: due_spot(script, results as usize),
    }
}
