// The messages of policy texts.
ghost use Rattle.std.specs.Prelude.{◌≡◌, true, IfOk, string_bytes};
ghost use Rattle.sb_message.specs.Causes.{are_words};
ghost use Rattle.sb_message.specs.PolicyMessages.{IsPolicyMessage, policy_names};

use crate::causes::{cause_text, names_word, pattern_words, word_words};
use crate::hints::{
    call_hint, fit_hint, mark_hint, missing_hint, parameter_hint, token_hint, word_hint,
};
use crate::messages::{FaultyText, NumberedFault, text_message};
use crate::places::shown_place;
use sb_base::NoMemory;
use sb_ruletext::{FitDue, PolicyFault, PolicyFaultKind, PolicyLimit};
use sb_text::WordFault;
use std::alloc::Global;

fn limit_words(limit: PolicyLimit) -> &'static str
    ensures { are_words result.now ≡ true }
{
    match limit {
        PolicyLimit::Policies => "more than 8 policies",
        PolicyLimit::Rules => "more than 256 rules of a policy",
        PolicyLimit::Conditions => "more than 8 conditions of a rule",
        PolicyLimit::Numbers => "more than 16 numbers of a condition",
    }
}

fn policy_words(kind: PolicyFaultKind) -> &'static str
    ensures { are_words result.now ≡ true }
{
    match kind {
        PolicyFaultKind::NotUtf8 => "the text is not UTF-8",
        PolicyFaultKind::BadVersion => {
            "the first line has to be sandbox-policy 1 or sandbox-policy 2"
        }
        PolicyFaultKind::UnknownWord(WordFault::Misplaced) => "readonly needs sandbox-policy 2",
        PolicyFaultKind::UnknownWord(fault) => word_words(fault),
        PolicyFaultKind::OtherWord(_) => "unknown word ",
        PolicyFaultKind::UnknownCall => "unknown call ",
        PolicyFaultKind::UnknownParam(_) => "the call has no parameter ",
        PolicyFaultKind::WrongKind(FitDue::Number) => "a number takes no quotes: ",
        PolicyFaultKind::WrongKind(FitDue::Text) => "a string needs quotes: ",
        PolicyFaultKind::WrongKind(FitDue::NumberTest | FitDue::TextTest) => {
            "does not fit the parameter: "
        }
        PolicyFaultKind::BadNumber => "bad number ",
        PolicyFaultKind::NoRange => "no range LO..HI in one word: ",
        PolicyFaultKind::EmptyRange => "empty range ",
        PolicyFaultKind::BadPattern(fault) => pattern_words(fault),
        PolicyFaultKind::TooMany(limit) => limit_words(limit),
        PolicyFaultKind::SameName => "there is a policy before this line with the name ",
        PolicyFaultKind::NoHeading => "no policy line is before this line",
        PolicyFaultKind::NotReadOnly => {
            "readonly is for file.open, key.open and event.open alone, not for "
        }
    }
}

fn policy_names(kind: PolicyFaultKind) -> bool
    ensures { result ≡ policy_names kind }
{
    match kind {
        PolicyFaultKind::NotUtf8
        | PolicyFaultKind::BadVersion
        | PolicyFaultKind::UnknownWord(WordFault::Misplaced)
        | PolicyFaultKind::BadPattern(_)
        | PolicyFaultKind::TooMany(_)
        | PolicyFaultKind::NoHeading => false,
        PolicyFaultKind::UnknownWord(fault) => names_word(fault),
        PolicyFaultKind::OtherWord(_)
        | PolicyFaultKind::UnknownCall
        | PolicyFaultKind::UnknownParam(_)
        | PolicyFaultKind::WrongKind(_)
        | PolicyFaultKind::BadNumber
        | PolicyFaultKind::NoRange
        | PolicyFaultKind::EmptyRange
        | PolicyFaultKind::SameName
        | PolicyFaultKind::NotReadOnly => true,
    }
}

// That a script is in place of a policy, or that a byte order mark precedes it, if this is its first token.
fn exchanged_policy(named: &str) -> &'static str
    ensures { are_words result.now ≡ true }
{
    match named {
        "\"sandbox-script\"" => ": this is a script, and the policy comes before it",
        _ => mark_hint(named),
    }
}

// What may stand there.
fn policy_hint(kind: PolicyFaultKind, named: &str, line: &[u8]) -> &'static str
    ensures { are_words result.now ≡ true }
{
    match kind {
        PolicyFaultKind::BadVersion => exchanged_policy(named),
        PolicyFaultKind::UnknownWord(WordFault::Missing) => missing_hint(line),
        PolicyFaultKind::UnknownWord(fault) => token_hint(fault),
        PolicyFaultKind::OtherWord(due) => word_hint(due),
        PolicyFaultKind::UnknownCall => call_hint(),
        PolicyFaultKind::UnknownParam(tag) => parameter_hint(tag),
        PolicyFaultKind::WrongKind(due) => fit_hint(due),
        PolicyFaultKind::NotUtf8
        | PolicyFaultKind::BadNumber
        | PolicyFaultKind::NoRange
        | PolicyFaultKind::EmptyRange
        | PolicyFaultKind::BadPattern(_)
        | PolicyFaultKind::TooMany(_)
        | PolicyFaultKind::SameName
        | PolicyFaultKind::NoHeading
        | PolicyFaultKind::NotReadOnly => "",
    }
}

/// The message of the fault of a policy file: what is wrong, the place in the file, whose name is as the user gave it, and the line that has the fault
/// with a caret under its column. `line` is that line without its line end; it may be empty if the column is 0.
///
/// # Errors
/// `NoMemory` if there was none for the message.
#[tactic(auto, using(crate::proofs::Numbered::told))]
pub fn policy_message(
    alloc: Global,
    file: &[u8],
    fault: PolicyFault,
    line: &[u8],
) -> Result<String, NoMemory>
    ensures { IfOk result (λ message. IsPolicyMessage file.now fault line.now (string_bytes message)) }
{
    let place = NumberedFault {
        text: FaultyText::Policy,
        line: fault.line,
        column: fault.column,
        kind: fault.kind.number(),
    };
    let shown = shown_place(alloc, place.text, place.column, line)?;
    let named = shown.named.as_str();
    let hint = policy_hint(fault.kind, named, line);
    let cause = cause_text(
        alloc,
        policy_words(fault.kind),
        policy_names(fault.kind),
        named,
        hint,
    )?;
    let message = text_message(alloc, place, cause.as_str(), file, shown.lines.as_str())?;
    Ok(message)
}
