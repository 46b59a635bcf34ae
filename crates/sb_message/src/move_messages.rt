// The messages of files of moves.
ghost use Rattle.std.specs.Prelude.{◌≡◌, true, IfOk, string_bytes};
ghost use Rattle.sb_message.specs.Causes.{HasNumbers, are_words};
ghost use Rattle.sb_message.specs.MoveMessages.{IsMoveMessage, move_names, move_numbers};

use crate::causes::{alone, cause_text, names_word, no_target, not_in_range, word_words};
use crate::hints::{mark_hint, move_lines};
use crate::messages::{FaultyText, NumberedFault, text_message};
use crate::places::shown_place;
use sb_base::NoMemory;
use sb_dup::{MoveFault, MoveKind};
use sb_text::WordFault;
use std::alloc::Global;

fn plain_words(kind: MoveKind) -> &'static str
    ensures { are_words result.now ≡ true }
{
    match kind {
        MoveKind::UnknownWord(WordFault::NoVersion) => "the first line has to be sandbox-moves 1",
        MoveKind::UnknownWord(fault) => word_words(fault),
        MoveKind::NoSuchTarget { .. } => "no such target",
        MoveKind::BadNumber | MoveKind::WideAccess => "bad number ",
        MoveKind::TooMany => "more than 4096 moves",
    }
}

fn move_words(alloc: Global, kind: MoveKind) -> Result<String, NoMemory>
    ensures { IfOk result (λ words. HasNumbers (move_numbers kind) (string_bytes words)) }
{
    match kind {
        MoveKind::NoSuchTarget { target, targets } => no_target(alloc, target, u64::from(targets)),
        MoveKind::WideAccess => not_in_range(alloc, 0, u64::from(u32::MAX)),
        MoveKind::UnknownWord(_) | MoveKind::BadNumber | MoveKind::TooMany => {
            alone(alloc, plain_words(kind))
        }
    }
}

fn move_names(kind: MoveKind) -> bool
    ensures { result ≡ move_names kind }
{
    match kind {
        MoveKind::UnknownWord(fault) => names_word(fault),
        MoveKind::NoSuchTarget { .. } | MoveKind::TooMany => false,
        MoveKind::BadNumber | MoveKind::WideAccess => true,
    }
}

// That a byte order mark precedes the first line, if this is its first token.
fn move_hint(kind: MoveKind, named: &str) -> &'static str
    ensures { are_words result.now ≡ true }
{
    match kind {
        MoveKind::UnknownWord(WordFault::NoVersion) => mark_hint(named),
        MoveKind::UnknownWord(WordFault::Unknown | WordFault::Missing | WordFault::Extra) => {
            move_lines()
        }
        _ => "",
    }
}

/// The message of the fault of a file of moves: what is wrong, the place in the file, whose name is as the user gave it, and the line that has the
/// fault with a caret under its column. `line` is that line without its line end; it may be empty if the column is 0.
///
/// # Errors
/// `NoMemory` if there was none for the message.
#[tactic(auto, using(crate::proofs::Numbered::told))]
pub fn move_message(
    alloc: Global,
    file: &[u8],
    fault: MoveFault,
    line: &[u8],
) -> Result<String, NoMemory>
    ensures { IfOk result (λ message. IsMoveMessage file.now fault line.now (string_bytes message)) }
{
    let place = NumberedFault {
        text: FaultyText::Moves,
        line: fault.line,
        column: fault.column,
        kind: fault.kind.number(),
    };
    let shown = shown_place(alloc, place.text, place.column, line)?;
    let named = shown.named.as_str();
    let words = move_words(alloc, fault.kind)?;
    let hint = move_hint(fault.kind, named);
    let cause = cause_text(alloc, words.as_str(), move_names(fault.kind), named, hint)?;
    let message = text_message(alloc, place, cause.as_str(), file, shown.lines.as_str())?;
    Ok(message)
}
