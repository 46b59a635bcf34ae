// What is told on standard error of an outcome: its message, or less if memory runs out.
ghost use Rattle.std.specs.Prelude.{◌≡◌, ◌≢◌, ◌++◌, ◌∷◌, [], IfOk, OnErr, string_bytes};
ghost use Rattle.sb_commands.specs.Usage.{texts};
ghost use Rattle.sb_main.specs.Program.{IsComplaint, IsMessage, IsPutOnce, output, short_message};

use sb_base::NoMemory;
use sb_message::{Status, message};
use sb_outside::{Sink, put_text};
use sb_plain::Outcome;
use std::alloc::Global;

// What is told if there is no memory for any other text.
const NO_MEMORY: &[u8] = b"sandbox: no memory\n";

// Tells what went wrong, if anything did, and the notes of `check`. What is not written there changes nothing.
pub(crate) fn complain<E: Sink>(
    alloc: Global,
    words: &[String],
    outcome: &Outcome<'_>,
    errors: &mut E,
)
    ensures { IsComplaint (texts words.now) outcome.now (output E.written E.pending E.faults errors.old) (output E.written E.pending E.faults errors.new) }
{
    match told(alloc, words, outcome) {
        Ok(text) => put_once(text.as_bytes(), errors),
        Err(NoMemory) => put_once(NO_MEMORY, errors),
    }
}

// The message of an outcome, or the line of its status if there is no memory for that.
fn told(alloc: Global, words: &[String], outcome: &Outcome<'_>) -> Result<String, NoMemory>
    ensures message { IfOk result (λ text. IsMessage (texts words.now) outcome.now (string_bytes text)) }
    ensures refused { OnErr result (outcome.now.status ≢ Status.Done) }
{
    let shown = outcome.shown.as_ref();
    match message(alloc, words, &outcome.files, outcome.status, shown) {
        Ok(text) => Ok(text),
        Err(NoMemory) => status_line(alloc, outcome.status),
    }
}

// The line of a status; of Done nothing is told.
fn status_line(alloc: Global, status: Status) -> Result<String, NoMemory>
    ensures line { IfOk result (λ text. string_bytes text ≡ short_message status) }
    ensures refused { OnErr result (status ≢ Status.Done) }
{
    match status {
        Status::Done => Ok(String::new(alloc)),
        _ => Ok(format!(in alloc; "sandbox: {status}\n")?),
    }
}

// Puts a text, and finishes, whether the output fails or not.
fn put_once<E: Sink>(text: &[u8], errors: &mut E)
    ensures { IsPutOnce text.now (output E.written E.pending E.faults errors.old) (output E.written E.pending E.faults errors.new) }
{
    match put_text(errors, text) {
        Ok(()) => {}
        Err(_) => {}
    }
}
