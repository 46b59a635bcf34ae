// The messages of schedule texts.
ghost use Rattle.std.specs.Prelude.{◌≡◌, true, IfOk, string_bytes};
ghost use Rattle.sb_message.specs.Causes.{HasNumbers, are_words};
ghost use Rattle.sb_message.specs.ScheduleMessages.{IsScheduleMessage, schedule_names, schedule_numbers};

use crate::causes::{alone, cause_text, names_word, not_in_range, word_words};
use crate::hints::{mark_hint, schedule_lines};
use crate::messages::{FaultyText, NumberedFault, text_message};
use crate::places::shown_place;
use sb_base::NoMemory;
use sb_scripttext::{ScheduleFault, ScheduleKind};
use sb_text::WordFault;
use std::alloc::Global;

fn plain_words(kind: ScheduleKind) -> &'static str
    ensures { are_words result.now ≡ true }
{
    match kind {
        ScheduleKind::UnknownWord(WordFault::Misplaced) => "no line may follow the rounds",
        ScheduleKind::UnknownWord(WordFault::NoVersion) => {
            "the first line has to be sandbox-schedule 1"
        }
        ScheduleKind::UnknownWord(fault) => word_words(fault),
        ScheduleKind::UnknownActor => "no such actor ",
        ScheduleKind::BadNumber | ScheduleKind::OutOfRange { .. } => "bad number ",
        ScheduleKind::TooMany => "more than 100000 steps",
        ScheduleKind::NoRounds => "there is no line rounds",
    }
}

fn schedule_words(alloc: Global, kind: ScheduleKind) -> Result<String, NoMemory>
    ensures { IfOk result (λ words. HasNumbers (schedule_numbers kind) (string_bytes words)) }
{
    match kind {
        ScheduleKind::OutOfRange { low, high } => {
            not_in_range(alloc, u64::from(low), u64::from(high))
        }
        ScheduleKind::UnknownWord(_)
        | ScheduleKind::UnknownActor
        | ScheduleKind::BadNumber
        | ScheduleKind::TooMany
        | ScheduleKind::NoRounds => alone(alloc, plain_words(kind)),
    }
}

fn schedule_names(kind: ScheduleKind) -> bool
    ensures { result ≡ schedule_names kind }
{
    match kind {
        ScheduleKind::UnknownWord(WordFault::Misplaced)
        | ScheduleKind::TooMany
        | ScheduleKind::NoRounds => false,
        ScheduleKind::UnknownWord(fault) => names_word(fault),
        ScheduleKind::UnknownActor | ScheduleKind::BadNumber | ScheduleKind::OutOfRange { .. } =>
            true,
    }
}

// That a byte order mark precedes the first line, if this is its first token.
fn schedule_hint(kind: ScheduleKind, named: &str) -> &'static str
    ensures { are_words result.now ≡ true }
{
    match kind {
        ScheduleKind::UnknownWord(WordFault::NoVersion) => mark_hint(named),
        ScheduleKind::UnknownWord(WordFault::Unknown | WordFault::Missing | WordFault::Extra) => {
            schedule_lines()
        }
        _ => "",
    }
}

/// The message of the fault of a schedule file: what is wrong, the place in the file, whose name is as the user gave it, and the line that has the
/// fault with a caret under its column. `line` is that line without its line end; it may be empty if the column is 0.
///
/// # Errors
/// `NoMemory` if there was none for the message.
#[tactic(auto, using(crate::proofs::Numbered::told))]
pub fn schedule_message(
    alloc: Global,
    file: &[u8],
    fault: ScheduleFault,
    line: &[u8],
) -> Result<String, NoMemory>
    ensures { IfOk result (λ message. IsScheduleMessage file.now fault line.now (string_bytes message)) }
{
    let place = NumberedFault {
        text: FaultyText::Schedule,
        line: fault.line,
        column: fault.column,
        kind: fault.kind.number(),
    };
    let shown = shown_place(alloc, place.text, place.column, line)?;
    let named = shown.named.as_str();
    let words = schedule_words(alloc, fault.kind)?;
    let hint = schedule_hint(fault.kind, named);
    let cause = cause_text(
        alloc,
        words.as_str(),
        schedule_names(fault.kind),
        named,
        hint,
    )?;
    let message = text_message(alloc, place, cause.as_str(), file, shown.lines.as_str())?;
    Ok(message)
}
