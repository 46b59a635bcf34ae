// What may stand where a fault is, as messages list it after the token: the words of a table in its order.
ghost use Rattle.std.specs.Prelude.{◌≡◌, true};
ghost use Rattle.sb_message.specs.Causes.{are_words};

use sb_call::{CallTag, tag_of_word};
use sb_ruletext::{FitDue, WordDue};
use sb_text::{WordFault, Words};

/// How many bytes a token with its quotes has at most of which nothing may have been left out as it is shown.
const MAX_WHOLE: usize = 42;

/// The calls.
pub(crate) fn call_hint() -> &'static str
    ensures { are_words result.now ≡ true }
{
    ": calls are ping, file.create, file.open, file.query, file.rename, pipe.create, key.create, key.open, event.create, event.open, handle.close"
}

/// The rule for tokens, if one breaks it.
pub(crate) fn token_hint(fault: WordFault) -> &'static str
    ensures { are_words result.now ≡ true }
{
    match fault {
        WordFault::Broken => {
            ": what is quoted ends with a quote before a blank, on its line, and has no control character; a word has no quote"
        }
        _ => "",
    }
}

/// That a file begins with a byte order mark, if this is the first token of a file whose first line is wrong, as it is shown.
pub(crate) fn mark_hint(named: &str) -> &'static str
    ensures { are_words result.now ≡ true }
{
    if named.starts_with("\"\\u{feff}") {
        ": the file begins with a byte order mark, U+FEFF, which has to go"
    } else {
        ""
    }
}

/// How long the strings of a call may be in its block.
fn room_hint(tag: CallTag) -> &'static str
    ensures { are_words result.now ≡ true }
{
    match tag {
        CallTag::Ping => ": there is room for a text of 180 UTF-16 units",
        CallTag::FileCreate => ": there is room for a name of 148 UTF-16 units",
        CallTag::FileOpen | CallTag::PipeCreate => ": there is room for a name of 164 UTF-16 units",
        CallTag::FileQuery => ": there is room for a name of 188 UTF-16 units",
        CallTag::FileRename => {
            ": there is room for two names of 184 UTF-16 units in all, each counted as a multiple of 4"
        },
        CallTag::KeyCreate | CallTag::KeyOpen | CallTag::EventOpen => {
            ": there is room for a name of 180 UTF-16 units"
        }
        CallTag::EventCreate => ": there is room for a name of 172 UTF-16 units",
        CallTag::HandleClose => "",
    }
}

/// How long the strings of the call on this line of a script may be in its block.
pub(crate) fn block_hint(line: &[u8]) -> &'static str
    ensures { are_words result.now ≡ true }
{
    let mut words = Words::new(line);
    words.pass();
    match words.next_word() {
        Some(word) => match tag_of_word(word) {
            Some(tag) => room_hint(tag),
            None => "",
        },
        None => "",
    }
}

/// The rules for names.
fn name_rules() -> &'static str
    ensures { are_words result.now ≡ true }
{
    ": a name is parts, each after a \\; a part is not empty, has no *, / or control character, and does not end with a space or ."
}

/// The rule that a name breaks, which is shown between quotes. All rules if it is too long, or has characters that are not shown as they are.
pub(crate) fn name_hint(named: &str) -> &'static str
    ensures { are_words result.now ≡ true }
{
    if named.len() > MAX_WHOLE || named.find("\\u{").is_some() {
        name_rules()
    } else if !named.starts_with("\"\\") {
        ": a name begins with \\"
    } else if named.find("\\\\").is_some() || named.find("\\\"").is_some() {
        ": a part of a name is not empty"
    } else if named.find("*").is_some() || named.find("/").is_some() {
        ": a name has no * and no /"
    } else {
        ": a part of a name does not end with a space or ."
    }
}

/// The rule that a name of a link breaks, which is shown between quotes. All rules if it is too long, or has characters that are not shown as they are.
pub(crate) fn link_name_hint(named: &str) -> &'static str
    ensures { are_words result.now ≡ true }
{
    if named.len() > MAX_WHOLE {
        ": a name is parts, each after a \\; a part is not empty, has no *, / or control character, and does not end with a space or .; those of links have at most 256 UTF-16 units"
    } else {
        name_hint(named)
    }
}

/// The parameters of a call.
pub(crate) fn parameter_hint(tag: CallTag) -> &'static str
    ensures { are_words result.now ≡ true }
{
    match tag {
        CallTag::Ping => ": parameters of ping are cookie, text",
        CallTag::FileCreate => {
            ": parameters of file.create are name, attributes, access, sharing, disposition, options"
        }
        CallTag::FileOpen => ": parameters of file.open are name, access, sharing, options",
        CallTag::FileQuery => ": the parameter of file.query is name",
        CallTag::FileRename => ": parameters of file.rename are name, to",
        CallTag::PipeCreate => ": parameters of pipe.create are name, mode, form, instances",
        CallTag::KeyCreate => ": parameters of key.create are name, access",
        CallTag::KeyOpen => ": parameters of key.open are name, access",
        CallTag::EventCreate => ": parameters of event.create are name, kind, initial",
        CallTag::EventOpen => ": parameters of event.open are name, access",
        CallTag::HandleClose => ": the parameter of handle.close is handle",
    }
}

/// The words that may stand at a place of a policy text.
pub(crate) fn word_hint(due: WordDue) -> &'static str
    ensures { are_words result.now ≡ true }
{
    match due {
        WordDue::Line => ": lines begin with policy, grant, allow, deny, alarm, fake, readonly",
        WordDue::Name => ": a short name has 1 to 32 characters of a to z, 0 to 9 and _",
        WordDue::When => ": when may follow a call",
        WordDue::Grant =>
            ": grants are files_any, files_readonly, files_query, pipes_any, registry_any, registry_readonly, events_any, events_readonly",
        WordDue::Test => ": tests are is, in, has, like",
    }
}

/// The tests that fit a parameter.
pub(crate) fn fit_hint(due: FitDue) -> &'static str
    ensures { are_words result.now ≡ true }
{
    match due {
        FitDue::Number => "",
        FitDue::Text => "",
        FitDue::NumberTest => ": tests of a number are is, in, has",
        FitDue::TextTest => ": tests of a string are is, like",
    }
}

// What follows the first word of a line of a policy.
fn second_hint(first: &[u8]) -> &'static str
    ensures { are_words result.now ≡ true }
{
    if first == b"policy".as_slice() {
        word_hint(WordDue::Name)
    } else if first == b"grant".as_slice() {
        word_hint(WordDue::Grant)
    } else {
        call_hint()
    }
}

/// What is missing on a line of a policy.
pub(crate) fn missing_hint(line: &[u8]) -> &'static str
    ensures { are_words result.now ≡ true }
{
    let mut words = Words::new(line);
    let Some(first) = words.next_word() else {
        return "";
    };
    if words.next_word().is_none() {
        second_hint(first)
    } else if first == b"grant".as_slice() {
        ": a grant has a pattern in quotes"
    } else {
        ": a condition is PARAMETER TEST VALUE, with not before it if the test must not hold"
    }
}

/// What a word may be that a script does not know: the name of a target, or the first word of a line.
pub(crate) fn script_word_hint(line: &[u8]) -> &'static str
    ensures { are_words result.now ≡ true }
{
    match Words::new(line).next_word() {
        Some(first) if first == b"target".as_slice() => word_hint(WordDue::Name),
        _ =>
            ": lines begin with patience, dir, file, key, event, target, thread, call, store, exchange, load, wait",
    }
}

// The form of a line of a script that begins with this word, except of calls.
fn line_form(first: &[u8]) -> &'static str
    ensures { are_words result.now ≡ true }
{
    if first == b"patience".as_slice() {
        ": the line is patience N"
    } else if first == b"dir".as_slice() {
        ": the line is dir \"NAME\""
    } else if first == b"file".as_slice() {
        ": the line is file \"NAME\" ATTR"
    } else if first == b"key".as_slice() {
        ": the line is key \"NAME\""
    } else if first == b"event".as_slice() {
        ": the line is event \"NAME\" KIND INITIAL"
    } else if first == b"target".as_slice() {
        ": the line is target NAME POLICY CHANNELS"
    } else if first == b"store".as_slice() {
        ": the line is store T C W V"
    } else if first == b"exchange".as_slice() {
        ": the line is exchange T C W FROM TO"
    } else if first == b"load".as_slice() {
        ": the line is load T C W"
    } else if first == b"wait".as_slice() {
        ": the line is wait T C W V N"
    } else {
        ""
    }
}

/// The form of a line of a script with a word too few or too many, and of a call its parameters.
pub(crate) fn form_hint(line: &[u8]) -> &'static str
    ensures { are_words result.now ≡ true }
{
    let mut words = Words::new(line);
    let Some(first) = words.next_word() else {
        return "";
    };
    if first != b"call".as_slice() {
        return line_form(first);
    }
    match words.next_word() {
        Some(word) => match tag_of_word(word) {
            Some(tag) => parameter_hint(tag),
            None => "",
        },
        None => call_hint(),
    }
}

/// The lines of a schedule.
pub(crate) fn schedule_lines() -> &'static str
    ensures { are_words result.now ≡ true }
{
    ": lines are step ACTOR, step ACTOR N, rounds N"
}

/// The lines of a file of links.
pub(crate) fn link_lines() -> &'static str
    ensures { are_words result.now ≡ true }
{
    ": lines are link \"FROM\" \"TO\""
}

/// The lines of a file of moves.
pub(crate) fn move_lines() -> &'static str
    ensures { are_words result.now ≡ true }
{
    ": lines are move FROM HANDLE TO ACCESS"
}
