// The messages of script texts.
ghost use Rattle.std.specs.Prelude.{◌≡◌, ◌∷◌, [], true, IfOk, string_bytes};
ghost use Rattle.sb_message.specs.Causes.{HasNumbers, are_words};
ghost use Rattle.sb_message.specs.ScriptMessages.{IsScriptMessage, script_names, script_numbers};

use crate::causes::{alone, cause_text, names_word, no_target, not_in_range, put_two, word_words};
use crate::hints::{
    block_hint, call_hint, form_hint, mark_hint, name_hint, script_word_hint, token_hint,
};
use crate::messages::{FaultyText, NumberedFault, text_message};
use crate::places::shown_place;
use sb_base::NoMemory;
use sb_glyphs::put_decimal_text;
use sb_scripttext::{ScriptFault, ScriptKind, ScriptLimit, StartFault};
use sb_text::WordFault;
use std::alloc::Global;

fn limit_words(limit: ScriptLimit) -> &'static str
    ensures { are_words result.now ≡ true }
{
    match limit {
        ScriptLimit::Openings => "more than 4096 opening lines",
        ScriptLimit::Targets => "more than 8 targets",
        ScriptLimit::Threads => "more than 4 threads of a target",
        ScriptLimit::Statements => "more than 4096 statements of a thread",
    }
}

// Where a line that begins with this word may be; the word is between quotes.
fn place_words(word: &str) -> &'static str
    ensures { are_words result.now ≡ true }
{
    match word {
        "\"thread\"" => "only after a target line: ",
        "\"call\"" | "\"store\"" | "\"exchange\"" | "\"load\"" | "\"wait\"" => {
            "only after a thread line: "
        }
        _ => "only before the first target line: ",
    }
}

fn argument_words(fault: WordFault) -> &'static str
    ensures { are_words result.now ≡ true }
{
    match fault {
        WordFault::Missing => "an argument is missing",
        _ => word_words(fault),
    }
}

// Why an opening line cannot be placed.
fn start_words(fault: StartFault) -> &'static str
    ensures { are_words result.now ≡ true }
{
    match fault {
        StartFault::NameTaken => "an earlier line has this name: ",
        StartFault::NoParent => "no earlier line has the parent of ",
        StartFault::ParentIsFile => "a file is the parent of ",
    }
}

// That a target does not have this channel, and how many it has.
fn no_channel(alloc: Global, channel: u64, target: u64, channels: u64) -> Result<String, NoMemory>
    ensures { IfOk result (λ words. HasNumbers (channel ∷ target ∷ channels ∷ []) (string_bytes words)) }
{
    let mut words = String::new(alloc);
    put_two(&mut words, "no such channel ", channel, ": target ", target)?;
    words.push_str(" has ")?;
    put_decimal_text(&mut words, channels)?;
    Ok(words)
}

// What is wrong, of a fault at this token, if no number is told.
fn plain_words(kind: ScriptKind, named: &str) -> &'static str
    ensures { are_words result.now ≡ true }
{
    match kind {
        ScriptKind::NotUtf8 => "the text is not UTF-8",
        ScriptKind::UnknownWord(WordFault::NoVersion) => {
            "the first line has to be sandbox-script 1"
        }
        ScriptKind::UnknownWord(WordFault::Misplaced) => place_words(named),
        ScriptKind::UnknownWord(fault) => word_words(fault),
        ScriptKind::UnknownCall => "unknown call ",
        ScriptKind::WrongArgs(fault) => argument_words(fault),
        ScriptKind::BadNumber | ScriptKind::OutOfRange { .. } => "bad number ",
        ScriptKind::BadName => "bad name ",
        ScriptKind::NoSuchPolicy => "no such policy ",
        ScriptKind::NoSuchTarget { .. } => "no such target",
        ScriptKind::NoSuchChannel { .. } => "no such channel",
        ScriptKind::NoSuchWord => "a channel has words 0 to 63, not ",
        ScriptKind::TooMany(limit) => limit_words(limit),
        ScriptKind::TooBig => "the call needs more than 64 words",
        ScriptKind::SameName => "there is a target before this line with the name ",
        ScriptKind::BadStart(fault) => start_words(fault),
    }
}

fn script_words(alloc: Global, kind: ScriptKind, named: &str) -> Result<String, NoMemory>
    ensures { IfOk result (λ words. HasNumbers (script_numbers kind) (string_bytes words)) }
{
    match kind {
        ScriptKind::OutOfRange { low, high } => not_in_range(alloc, low, high),
        ScriptKind::NoSuchTarget { target, targets } => no_target(alloc, target, targets as u64),
        ScriptKind::NoSuchChannel {
            channel,
            target,
            channels,
        } => no_channel(alloc, channel, u64::from(target), u64::from(channels)),
        ScriptKind::NotUtf8
        | ScriptKind::UnknownWord(_)
        | ScriptKind::UnknownCall
        | ScriptKind::WrongArgs(_)
        | ScriptKind::BadNumber
        | ScriptKind::BadName
        | ScriptKind::NoSuchPolicy
        | ScriptKind::NoSuchWord
        | ScriptKind::TooMany(_)
        | ScriptKind::TooBig
        | ScriptKind::SameName
        | ScriptKind::BadStart(_) => alone(alloc, plain_words(kind, named)),
    }
}

fn script_names(kind: ScriptKind) -> bool
    ensures { result ≡ script_names kind }
{
    match kind {
        ScriptKind::NotUtf8
        | ScriptKind::NoSuchTarget { .. }
        | ScriptKind::NoSuchChannel { .. }
        | ScriptKind::TooMany(_)
        | ScriptKind::TooBig => false,
        ScriptKind::UnknownWord(fault) | ScriptKind::WrongArgs(fault) => names_word(fault),
        ScriptKind::UnknownCall
        | ScriptKind::BadNumber
        | ScriptKind::OutOfRange { .. }
        | ScriptKind::BadName
        | ScriptKind::NoSuchPolicy
        | ScriptKind::NoSuchWord
        | ScriptKind::SameName
        | ScriptKind::BadStart(_) => true,
    }
}

// That a policy is in place of a script, or that a byte order mark precedes it, if this is its first token.
fn exchanged_script(named: &str) -> &'static str
    ensures { are_words result.now ≡ true }
{
    match named {
        "\"sandbox-policy\"" => ": this is a policy, and the script comes after it",
        _ => mark_hint(named),
    }
}

// What may stand there.
fn script_hint(kind: ScriptKind, named: &str, line: &[u8]) -> &'static str
    ensures { are_words result.now ≡ true }
{
    match kind {
        ScriptKind::UnknownWord(WordFault::NoVersion) => exchanged_script(named),
        ScriptKind::UnknownWord(WordFault::Unknown) => script_word_hint(line),
        ScriptKind::UnknownWord(WordFault::Missing | WordFault::Extra)
        | ScriptKind::WrongArgs(WordFault::Missing | WordFault::Extra) => form_hint(line),
        ScriptKind::UnknownWord(fault) => token_hint(fault),
        ScriptKind::UnknownCall => call_hint(),
        ScriptKind::BadName => name_hint(named),
        ScriptKind::TooBig => block_hint(line),
        ScriptKind::NotUtf8
        | ScriptKind::WrongArgs(_)
        | ScriptKind::BadNumber
        | ScriptKind::OutOfRange { .. }
        | ScriptKind::NoSuchPolicy
        | ScriptKind::NoSuchTarget { .. }
        | ScriptKind::NoSuchChannel { .. }
        | ScriptKind::NoSuchWord
        | ScriptKind::TooMany(_)
        | ScriptKind::SameName
        | ScriptKind::BadStart(_) => "",
    }
}

/// The message of the fault of a script file: what is wrong, the place in the file, whose name is as the user gave it, and the line that has the fault
/// with a caret under its column. `line` is that line without its line end; it may be empty if the column is 0.
///
/// # Errors
/// `NoMemory` if there was none for the message.
#[tactic(auto, using(crate::proofs::Numbered::told))]
pub fn script_message(
    alloc: Global,
    file: &[u8],
    fault: ScriptFault,
    line: &[u8],
) -> Result<String, NoMemory>
    ensures { IfOk result (λ message. IsScriptMessage file.now fault line.now (string_bytes message)) }
{
    let place = NumberedFault {
        text: FaultyText::Script,
        line: fault.line,
        column: fault.column,
        kind: fault.kind.number(),
    };
    let shown = shown_place(alloc, place.text, place.column, line)?;
    let named = shown.named.as_str();
    let words = script_words(alloc, fault.kind, named)?;
    let hint = script_hint(fault.kind, named, line);
    let cause = cause_text(alloc, words.as_str(), script_names(fault.kind), named, hint)?;
    let message = text_message(alloc, place, cause.as_str(), file, shown.lines.as_str())?;
    Ok(message)
}
