// What is written on standard error for the end of a command.
ghost use Rattle.std.specs.Prelude.{◌≡◌, IfOk, option_map, string_bytes};
ghost use Rattle.sb_commands.specs.Commands.{name_at};
ghost use Rattle.sb_commands.specs.Usage.{texts};
ghost use Rattle.sb_message.specs.StatusMessages.{IsFaultMessage, IsMessageOf, IsRefusalMessage, cause_words, file_words, length_words, line_message, notes_by, write_message};
ghost use Rattle.sb_text.specs.MissingTexts.{or_empty};

use crate::audit_messages::audit_message;
use crate::link_messages::link_message;
use crate::move_messages::move_message;
use crate::note_messages::notes_text;
use crate::policy_messages::policy_message;
use crate::schedule_messages::schedule_message;
use crate::script_messages::script_message;
use crate::shown::Shown;
use crate::statuses::{FileRefusal, Refusal, Status};
use crate::text_faults::TextFault;
use sb_base::NoMemory;
use sb_commands::{FileNames, usage_message};
use sb_glyphs::put_shown;
use sb_outside::{ReadCause, SinkFault};
use std::alloc::Global;

// The bytes that are shown, if any are.
fn shown_bytes(shown: Option<&Shown>) -> Option<&[u8]>
    ensures { option_map (λ bytes. bytes.now) result ≡ option_map (λ s. s.now) shown.entry }
{
    match shown {
        Some(shown) => Some(shown.as_slice()),
        None => None,
    }
}

// The same, and no bytes if none are.
fn shown_line(shown: Option<&Shown>) -> &[u8]
    ensures { result.now ≡ or_empty (option_map (λ s. s.now) shown.entry) }
{
    match shown {
        Some(shown) => shown.as_slice(),
        None => &[],
    }
}

// The message of a status that is one line: what is told of it, words around some bytes, and a line feed.
fn line_message(
    alloc: Global,
    status: Status,
    before: &str,
    named: &[u8],
    after: &str,
) -> Result<String, NoMemory>
    ensures { IfOk result (λ text. string_bytes text ≡ line_message status before.now named.now after.now) }
{
    let mut message = format!(in alloc; "sandbox: {status}")?;
    message.push_str(before)?;
    put_shown(&mut message, named)?;
    message.push_str(after)?;
    message.push('\n')?;
    Ok(message)
}

// The message of a fault of the text of a file of this name.
fn fault_message(
    alloc: Global,
    fault: TextFault,
    file: &[u8],
    shown: Option<&Shown>,
) -> Result<String, NoMemory>
    ensures { IfOk result (λ text. IsFaultMessage file.now fault (option_map (λ s. s.now) shown.entry) (string_bytes text)) }
{
    let line = shown_line(shown);
    match fault {
        TextFault::Policy(fault) => policy_message(alloc, file, fault, line),
        TextFault::Script(fault) => script_message(alloc, file, fault, line),
        TextFault::Schedule(fault) => schedule_message(alloc, file, fault, line),
        TextFault::Links(fault) => link_message(alloc, file, fault, line),
        TextFault::Moves(fault) => move_message(alloc, file, fault, line),
        TextFault::Transcript(refuted) => audit_message(alloc, file, refuted, shown_bytes(shown)),
    }
}

// What the system says of a file that cannot be read.
fn cause_words(cause: ReadCause) -> &'static str
    ensures { result.now ≡ cause_words cause }
{
    match cause {
        ReadCause::Directory => " cannot be read: it is a directory",
        ReadCause::Denied => " cannot be read: permission denied",
        ReadCause::NoDirectory => " cannot be read: a part of its path is no directory",
        ReadCause::Loop => " cannot be read: its path has too many links",
        ReadCause::Other => " cannot be read",
    }
}

// How many bytes a file may have: the third of a command may be a transcript.
fn length_words(which: u8) -> &'static str
    ensures { result.now ≡ length_words which }
{
    if which < 3 {
        " has more than 4194304 bytes"
    } else {
        " has more than 4194304 bytes, or as a transcript more than 536870912"
    }
}

// What is wrong with a file of this number that was not read.
fn file_words(which: u8, why: FileRefusal) -> &'static str
    ensures { result.now ≡ file_words which why }
{
    match why {
        FileRefusal::Missing => " does not exist",
        FileRefusal::TooLong => length_words(which),
        FileRefusal::ReadFault(cause) => cause_words(cause),
    }
}

// The message of a refusal.
fn refusal_message(
    alloc: Global,
    words: &[String],
    files: &FileNames<'_>,
    refusal: Refusal,
    shown: Option<&Shown>,
) -> Result<String, NoMemory>
    ensures { IfOk result (λ text. IsRefusalMessage (texts words.now) files.now refusal (option_map (λ s. s.now) shown.entry) (string_bytes text)) }
{
    let status = Status::Refused(refusal);
    match refusal {
        Refusal::Usage(fault) => usage_message(alloc, fault, words),
        Refusal::File { which, why } => {
            let name = files.name(which).as_bytes();
            line_message(alloc, status, ": ", name, file_words(which, why))
        }
        Refusal::Text { which, fault } => {
            fault_message(alloc, fault, files.name(which).as_bytes(), shown)
        }
        Refusal::TooComplex(_) => line_message(alloc, status, " of ", shown_line(shown), ""),
        Refusal::NoMemory => line_message(alloc, status, ": out of memory", b"", ""),
    }
}

// Why the output was not written; nothing if its reader has closed it, since that is how a reader says that it has enough.
fn write_message(alloc: Global, fault: SinkFault) -> Result<String, NoMemory>
    ensures { IfOk result (λ text. string_bytes text ≡ write_message fault) }
{
    let status = Status::WriteFault(fault);
    match fault {
        SinkFault::Closed => Ok(String::new(alloc)),
        SinkFault::Full => {
            line_message(
                alloc,
                status,
                ": standard output is full, and does not wait",
                b"",
                "",
            )
        }
        SinkFault::Failed => {
            line_message(
                alloc,
                status,
                ": standard output cannot be written",
                b"",
                "",
            )
        }
    }
}

// The notes of the policy text that is shown, if one is.
fn notes_message(
    alloc: Global,
    files: &FileNames<'_>,
    shown: Option<&Shown>,
) -> Result<String, NoMemory>
    ensures { IfOk result (λ text. string_bytes text ≡ notes_by (name_at 1 files.now) (option_map (λ s. s.now) shown.entry)) }
{
    match shown {
        Some(shown) => {
            let notes = shown.notes(alloc)?;
            notes_text(alloc, files.name(1).as_bytes(), shown.as_slice(), &notes)
        }
        None => Ok(String::new(alloc)),
    }
}

/// What is written on standard error for a status of a command with these files: the line of the status with what was wrong in words; for the fault of a text its
/// place and the line that is shown, with a caret; for a usage fault what was wrong with the arguments, and the usage line. Done has no message, but the notes of
/// the policy text of `check`, and neither has WriteFault if the reader of the output has closed it.
///
/// # Errors
/// `NoMemory` if there was none for the message.
pub fn message(
    alloc: Global,
    words: &[String],
    files: &FileNames<'_>,
    status: Status,
    shown: Option<&Shown>,
) -> Result<String, NoMemory>
    ensures { IfOk result (λ text. IsMessageOf (texts words.now) files.now status (option_map (λ s. s.now) shown.entry) (string_bytes text)) }
{
    match status {
        Status::Done => notes_message(alloc, files, shown),
        Status::Differs(_) => line_message(alloc, status, "", b"", ""),
        Status::Unfinished { .. } => {
            line_message(alloc, status, ": the thread did not end", b"", "")
        }
        Status::WriteFault(fault) => write_message(alloc, fault),
        Status::Refused(refusal) => refusal_message(alloc, words, files, refusal, shown),
    }
}
