// The lines of changes.
ghost use Rattle.std.specs.Prelude.{◌≡◌, ◌++◌, OnOk, codes};
ghost use Rattle.std.specs.List.{flat_map};
ghost use Rattle.sb_text.specs.Tokens.{utf8_of};
ghost use Rattle.sb_compare.specs.ChangeLines.{argument_text, call_text, change_head, change_line, length_text, outcome_word, rule_text, verdict_words, verdicts_text};

use crate::changes::{Change, ShownChange};
use sb_base::{NoMemory, put_hexadecimal, put_named};
use sb_call::{Arg, CallTag, call_word};
use sb_cover::is_sendable;
use sb_rule::{Action, Verdict};
use sb_transcript::put_verdict;

// Each of these appends to the text. After an error the text may end anywhere.

// What is done with a call.
fn outcome_word(verdict: Verdict) -> &'static [u8]
    ensures { result.now ≡ outcome_word verdict }
{
    match verdict {
        Verdict::NoRule => b"denied",
        Verdict::Rule { line: _, action } => match action {
            Action::Allow | Action::ReadOnly => b"performed",
            Action::Fake => b"faked",
            Action::Deny | Action::Alarm => b"denied",
        },
    }
}

// The rule that decides. One that fakes a call is shown as `rule`.
fn put_rule(text: &mut Vec<u8>, verdict: Verdict) -> Result<(), NoMemory>
    ensures { OnOk result (text.new.items ≡ text.old.items ++ rule_text verdict) }
{
    match verdict {
        Verdict::Rule {
            line,
            action: Action::Fake,
        } => put_named(text, b" rule ", u64::from(line)),
        _ => put_verdict(text, verdict),
    }
}

/// Appends a verdict, as a transcript has it: for instance `performed rule 3` or `denied norule`.
///
/// # Errors
/// `NoMemory` if there was none for it; then a part may have been appended.
pub(crate) fn put_verdict_words(text: &mut Vec<u8>, verdict: Verdict) -> Result<(), NoMemory>
    ensures { OnOk result (text.new.items ≡ text.old.items ++ verdict_words verdict) }
{
    text.extend_from_slice(outcome_word(verdict))?;
    put_rule(text, verdict)
}

fn put_quoted(text: &mut Vec<u8>, units: &[u16]) -> Result<(), NoMemory>
    ensures { OnOk result (text.new.items ≡ text.old.items ++ (codes " \"" ++ utf8_of units.now ++ codes "\"")) }
{
    let characters = String::from_utf16_lossy(*text.allocator(), units)?;
    text.extend_from_slice(b" \"")?;
    text.extend_from_slice(characters.as_bytes())?;
    text.push(b'"')?;
    Ok(())
}

fn put_argument(text: &mut Vec<u8>, arg: &Arg) -> Result<(), NoMemory>
    ensures { OnOk result (text.new.items ≡ text.old.items ++ argument_text arg.now) }
{
    match arg {
        Arg::Num(number) => {
            text.extend_from_slice(b" 0x")?;
            put_hexadecimal(text, *number)
        }
        Arg::Str(string) => put_quoted(text, string.as_units()),
    }
}

fn put_arguments(text: &mut Vec<u8>, args: &[Arg]) -> Result<(), NoMemory>
    ensures { OnOk result (text.new.items ≡ text.old.items ++ flat_map argument_text args.now) }
{
    for arg in args {
        put_argument(text, arg)?;
    }
    Ok(())
}

/// Appends a call, as a script has it: `call CALL ARG ..`, its numbers in hexadecimal after `0x`.
///
/// # Errors
/// `NoMemory` if there was none for it; then a part may have been appended.
pub(crate) fn put_call(text: &mut Vec<u8>, tag: CallTag, args: &[Arg]) -> Result<(), NoMemory>
    ensures { OnOk result (text.new.items ≡ text.old.items ++ call_text tag args.now) }
{
    text.extend_from_slice(b"call ")?;
    text.extend_from_slice(call_word(tag).as_bytes())?;
    put_arguments(text, args)
}

// What follows a call that cannot be sent.
fn put_length(text: &mut Vec<u8>, args: &[Arg]) -> Result<(), NoMemory>
    ensures { OnOk result (text.new.items ≡ text.old.items ++ length_text args.now) }
{
    if is_sendable(args) {
        return Ok(());
    }
    text.extend_from_slice(b" (longer than a block)")?;
    Ok(())
}

fn put_verdicts(text: &mut Vec<u8>, change: Change) -> Result<(), NoMemory>
    ensures { OnOk result (text.new.items ≡ text.old.items ++ verdicts_text change) }
{
    put_verdict_words(text, change.old)?;
    text.extend_from_slice(b" -> ")?;
    put_verdict_words(text, change.new)
}

// What comes before the call: `changed POLICY OLD -> NEW: `.
fn put_change_head(text: &mut Vec<u8>, shown: &ShownChange) -> Result<(), NoMemory>
    ensures { OnOk result (text.new.items ≡ text.old.items ++ change_head shown.now) }
{
    text.extend_from_slice(b"changed ")?;
    text.extend_from_slice(shown.policy.bytes())?;
    text.push(b' ')?;
    put_verdicts(text, shown.change)?;
    text.extend_from_slice(b": ")?;
    Ok(())
}

/// Appends the line of a change: `changed POLICY OLD -> NEW: call CALL ARG ..`, and whether the call is longer than a block.
///
/// # Errors
/// `NoMemory` if there was none for it; then a part may have been appended.
pub(crate) fn put_change(text: &mut Vec<u8>, shown: &ShownChange) -> Result<(), NoMemory>
    ensures { OnOk result (text.new.items ≡ text.old.items ++ change_line shown.now) }
{
    put_change_head(text, shown)?;
    put_call(text, shown.tag, &shown.call)?;
    put_length(text, &shown.call)?;
    text.push(b'\n')?;
    Ok(())
}
