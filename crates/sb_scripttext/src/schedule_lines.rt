// Reading the lines below the first.
ghost use Rattle.std.specs.Prelude.{◌≡◌, ◌≤◌, IfOk};
ghost use Rattle.sb_scripttext.specs.ScheduleDrafts.{has_rounds};
ghost use Rattle.sb_scripttext.specs.ScheduleLimits.{most_steps};
ghost use Rattle.sb_scripttext.specs.ScheduleLines.{any_word_at, within, last_number, count_at, step, last_word, add_steps, line_by, line_of};
ghost use Rattle.sb_base.specs.Refusals.{Gives};
ghost use Rattle.sb_text.specs.Steps.{Becomes, ReadsAs, end_at};
ghost use Rattle.sb_scripttext.specs.declared.schedule_faults.ScheduleKind.TheVariants.{UnknownWord};
ghost use Rattle.sb_text.specs.declared.refusals.WordFault.TheVariants.{Broken, Extra};

use crate::actors::actor_of;
use crate::schedule_drafts::Draft;
use crate::schedule_faults::ScheduleKind::{BadNumber, OutOfRange, UnknownActor, UnknownWord};
use crate::schedule_faults::{KindRefused, LineRefused};
use sb_statements::{Actor, Script};
use sb_text::{WordFault, Words, number_of};

/// The most steps of a schedule.
pub const MAX_STEPS: u32 = 100_000;

/// The most rounds of a schedule.
pub const MAX_ROUNDS: u32 = 20_000_000;

// N from `lo` to `hi`.
fn within(lo: u32, hi: u32, word: &[u8]) -> Result<u32, KindRefused>
    ensures number { Gives (within lo hi word.now) result }
    ensures most { IfOk result (λ n. n ≤ hi) }
{
    match number_of(word) {
        Some(number) if u64::from(lo) <= number && number <= u64::from(hi) => Ok(number as u32),
        Some(_) => Err(KindRefused::Fault(OutOfRange { low: lo, high: hi })),
        None => Err(KindRefused::Fault(BadNumber)),
    }
}

// A word.
fn any_word<'a>(words: &mut Words<'a>) -> Result<&'a [u8], LineRefused>
    ensures { ReadsAs (λ word. word.now) (any_word_at words.old) result words.new }
{
    words.word(UnknownWord(WordFault::Missing))
}

// The line ends here.
fn line_end(words: &Words) -> Result<(), LineRefused>
    ensures { Gives (end_at (UnknownWord Extra) (UnknownWord Broken) words.now) result }
{
    words.expect_end(UnknownWord(WordFault::Extra))
}

// N from `lo` to `hi`, the last word of its line.
fn last_number(lo: u32, hi: u32, due: &Words) -> Result<u32, LineRefused>
    ensures number { Gives (last_number lo hi due.now) result }
    ensures most { IfOk result (λ n. n ≤ hi) }
{
    let mut words = due.copy();
    let word = any_word(&mut words)?;
    match within(lo, hi, word) {
        Ok(count) => {
            line_end(&words)?;
            Ok(count)
        }
        Err(refused) => Err(due.refuse(refused)),
    }
}

// How many steps, after the actor: one if the line does not say.
fn count_at(due: &Words) -> Result<u32, LineRefused>
    ensures count { Gives (count_at due.now) result }
    ensures most { IfOk result (λ n. n ≤ most_steps) }
{
    if due.is_end() {
        return Ok(1);
    }
    last_number(1, MAX_STEPS, due)
}

// `step ACTOR` or `step ACTOR N`, after its first word.
fn step(script: &Script, due: &Words) -> Result<(Actor, u32), LineRefused>
    ensures step { Gives (step script.now.targets due.now) result }
    ensures most { IfOk result (λ s. s.1 ≤ most_steps) }
{
    let mut words = due.copy();
    let word = any_word(&mut words)?;
    let Some(actor) = actor_of(script, word) else {
        return Err(due.fail(UnknownActor));
    };
    let count = count_at(&words)?;
    Ok((actor, count))
}

// The last word of such a line, N or the actor.
fn last_word<'a>(words: &Words<'a>) -> Words<'a>
    ensures { result ≡ last_word words.now }
{
    let mut later = words.copy();
    later.pass();
    if later.is_end() { words.copy() } else { later }
}

// The draft with such steps. That they are too many is told at the last word of the line.
fn add_steps(script: &Script, draft: &mut Draft, words: &Words) -> Result<(), LineRefused>
    ensures { Becomes (add_steps script.now.targets draft.old words.now) result draft.new }
{
    let (actor, count) = step(script, words)?;
    match draft.add_step(actor, count) {
        Ok(()) => Ok(()),
        Err(refused) => Err(last_word(words).refuse(refused)),
    }
}

// What a line that begins with this word adds.
#[tactic(auto, unfolding(crate::specs::ScheduleLines::line_by))]
fn line_by(
    script: &Script,
    draft: &mut Draft,
    first: &[u8],
    line: &Words,
    words: &Words,
) -> Result<(), LineRefused>
    ensures { Becomes (line_by script.now.targets draft.old first.now line.now words.now) result draft.new }
{
    if first == b"step".as_slice() {
        return add_steps(script, draft, words);
    }
    if first == b"rounds".as_slice() {
        let count = last_number(0, MAX_ROUNDS, words)?;
        draft.set_rounds(count);
        return Ok(());
    }
    Err(line.fail(UnknownWord(WordFault::Unknown)))
}

/// What a line adds to what was read so far. After an error the draft is unspecified.
#[tactic(auto, unfolding(crate::specs::ScheduleLines::line_of))]
pub(crate) fn line_of(script: &Script, draft: &mut Draft, line: &Words) -> Result<(), LineRefused>
    ensures { Becomes (line_of script.now.targets draft.old line.now) result draft.new }
{
    if draft.has_rounds() {
        return Err(line.fail(UnknownWord(WordFault::Misplaced)));
    }
    let mut words = line.copy();
    let first = any_word(&mut words)?;
    line_by(script, draft, first, line, &words)
}
