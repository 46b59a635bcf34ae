// The messages of files of links.
ghost use Rattle.std.specs.Prelude.{◌≡◌, true, IfOk, string_bytes};
ghost use Rattle.sb_message.specs.Causes.{are_words};
ghost use Rattle.sb_message.specs.LinkMessages.{IsLinkMessage, link_names};

use crate::causes::{cause_text, names_word, word_words};
use crate::hints::{link_lines, link_name_hint, mark_hint, token_hint};
use crate::messages::{FaultyText, NumberedFault, text_message};
use crate::places::shown_place;
use sb_base::NoMemory;
use sb_link::{LinkFault, LinkKind};
use sb_text::WordFault;
use std::alloc::Global;

fn link_words(kind: LinkKind) -> &'static str
    ensures { are_words result.now ≡ true }
{
    match kind {
        LinkKind::NotUtf8 => "the text is not UTF-8",
        LinkKind::UnknownWord(WordFault::NoVersion) => "the first line has to be sandbox-links 1",
        LinkKind::UnknownWord(fault) => word_words(fault),
        LinkKind::BadName => "bad name ",
        LinkKind::SameName => "there is a link before this line from the name ",
        LinkKind::TooMany => "more than 64 links",
    }
}

fn link_names(kind: LinkKind) -> bool
    ensures { result ≡ link_names kind }
{
    match kind {
        LinkKind::NotUtf8 | LinkKind::TooMany => false,
        LinkKind::UnknownWord(fault) => names_word(fault),
        LinkKind::BadName | LinkKind::SameName => true,
    }
}

// What may stand there.
fn link_hint(kind: LinkKind, named: &str) -> &'static str
    ensures { are_words result.now ≡ true }
{
    match kind {
        LinkKind::UnknownWord(WordFault::NoVersion) => mark_hint(named),
        LinkKind::UnknownWord(WordFault::Unknown | WordFault::Missing | WordFault::Extra) => {
            link_lines()
        }
        LinkKind::UnknownWord(fault) => token_hint(fault),
        LinkKind::BadName => link_name_hint(named),
        LinkKind::NotUtf8 | LinkKind::SameName | LinkKind::TooMany => "",
    }
}

/// The message of the fault of a file of links: what is wrong, the place in the file, whose name is as the user gave it, and the line that has the
/// fault with a caret under its column. `line` is that line without its line end; it may be empty if the column is 0.
///
/// # Errors
/// `NoMemory` if there was none for the message.
#[tactic(auto, using(crate::proofs::Numbered::told))]
pub fn link_message(
    alloc: Global,
    file: &[u8],
    fault: LinkFault,
    line: &[u8],
) -> Result<String, NoMemory>
    ensures { IfOk result (λ message. IsLinkMessage file.now fault line.now (string_bytes message)) }
{
    let place = NumberedFault {
        text: FaultyText::Links,
        line: fault.line,
        column: fault.column,
        kind: fault.kind.number(),
    };
    let shown = shown_place(alloc, place.text, place.column, line)?;
    let named = shown.named.as_str();
    let hint = link_hint(fault.kind, named);
    let cause = cause_text(
        alloc,
        link_words(fault.kind),
        link_names(fault.kind),
        named,
        hint,
    )?;
    let message = text_message(alloc, place, cause.as_str(), file, shown.lines.as_str())?;
    Ok(message)
}
