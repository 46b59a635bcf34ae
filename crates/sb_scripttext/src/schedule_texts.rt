// Reading schedule texts.
ghost use Rattle.std.specs.Prelude.{◌≡◌, ◌+◌, ◌<◌, ◌≤◌, ◌^◌, length, true, IfOk};
ghost use Rattle.std.specs.List.{list_all};
ghost use Rattle.sb_statements.specs.Actors.{is_step_there};
ghost use Rattle.sb_scripttext.specs.ScheduleDrafts.{nothing, step_count};
ghost use Rattle.sb_scripttext.specs.ScheduleLimits.{most_steps, most_rounds};
ghost use Rattle.sb_scripttext.specs.ScheduleTexts.{grammar, reading};
ghost use Rattle.sb_scripttext.specs.declared.schedule_faults.ScheduleKind.TheVariants.{UnknownWord};
ghost use Rattle.sb_base.specs.Refusals.{Gives};
ghost use Rattle.sb_text.specs.Tokens.{by_words};
ghost use Rattle.sb_text.specs.declared.refusals.WordFault.TheVariants.{NoVersion};

use crate::schedule_drafts::Draft;
use crate::schedule_faults::{LineRefused, ScheduleKind, ScheduleRefused};
use crate::schedule_laws::read_schedules_are_bounded;
use crate::schedule_lines::line_of;
use sb_statements::{Schedule, Script};
use sb_text::{
    ByteLine, ByteLines, Layout, TextGrammar, WordFault, line_count, read_by, version_in_words,
};
use std::alloc::Global;

// Schedule texts, for the actors of a script.
#[derive(Drop)]
struct ScheduleGrammar<'a> {
    alloc: Global,
    script: &'a Script,
}

impl<'a, 'b> TextGrammar<ByteLines<'b>> for ScheduleGrammar<'a> {
    type Draft = Draft;

    type Kind = ScheduleKind;

    ghost grammar = { λ texts. grammar texts.script.now.targets };

    fn layout(&self) -> Layout
        ensures { result ≡ by_words }
    {
        Layout::Bytes
    }

    fn version(&self, line: &ByteLine<'b>) -> Result<u32, LineRefused> {
        version_in_words(
            ScheduleKind::UnknownWord(WordFault::NoVersion),
            b"sandbox-schedule",
            &line.words(),
        )
    }

    fn no_version(&self) -> ScheduleKind
        ensures { result ≡ UnknownWord NoVersion }
    {
        ScheduleKind::UnknownWord(WordFault::NoVersion)
    }

    fn start(&self) -> Draft
        ensures { result ≡ nothing }
    {
        Draft::new(self.alloc)
    }

    fn add(
        &self,
        _version: u32,
        draft: &mut Draft,
        line: &ByteLine<'b>,
    ) -> Result<(), LineRefused> {
        line_of(self.script, draft, &line.words())
    }
}

/// The schedule of a text, for the actors of a script, or its first fault. The text has fewer than 2^32 - 1 bytes, which need not be
/// UTF-8. Each actor of the schedule is there, its steps are at most 100,000 in all, and its rounds at most 20,000,000.
///
/// The grammar of schedule texts is that of this project.
///
/// # Errors
/// `Fault` exactly if the text has a fault: the first one, by lines from the top and within a line from the left, with its line and column, except that
/// a line with too many steps has its other faults first. If no line tells the rounds, `NoRounds` comes on the last line.
/// `NoMemory` if there was none for the schedule.
pub fn read_schedule(
    alloc: Global,
    text: &[u8],
    script: &Script,
) -> Result<Schedule, ScheduleRefused>
    requires short { length text.now + 1 < 2 ^ 32 }
    ensures exactly { Gives (reading script.now.targets text.now) result }
    ensures there { IfOk result (λ s. list_all (is_step_there script.now.targets) s.steps ≡ true) }
    ensures steps { IfOk result (λ s. step_count s.steps ≤ most_steps) }
    ensures rounds { IfOk result (λ s. s.rounds ≤ most_rounds) }
{
    read_schedules_are_bounded();
    let draft = read_by(&ScheduleGrammar { alloc, script }, ByteLines::new(text))?;
    draft.finished(line_count(text))
}
