// Opening lines: what is there at the start.
ghost use Rattle.sb_scripttext.specs.Openings.{dir, file, key, event};
ghost use Rattle.sb_base.specs.Refusals.{Gives};

use crate::arguments::MAX_32;
use crate::faults::ScriptKind::{BadNumber, UnknownWord};
use crate::faults::{LineRefused, ScriptKind};
use crate::steps::{at_line_end, name_at, number_within};
use sb_statements::StartLine;
use sb_text::{Tokens, WordFault};
use std::alloc::Global;

// The faults of a word in place of a name, of a token that is not there, and of an extra one.
const UNQUOTED: ScriptKind = UnknownWord(WordFault::Unquoted);

const MISSING: ScriptKind = UnknownWord(WordFault::Missing);

const EXTRA: ScriptKind = UnknownWord(WordFault::Extra);

/// `dir "NAME"`, after its first word.
#[tactic(auto, unfolding(crate::specs::Openings::dir))]
pub(crate) fn dir(alloc: Global, tokens: &mut Tokens) -> Result<StartLine, LineRefused>
    ensures { Gives (dir tokens.old) result }
{
    let name = name_at(alloc, UNQUOTED, MISSING, tokens)?;
    at_line_end(EXTRA, StartLine::Dir { name }, tokens)
}

/// `file "NAME" ATTR`, after its first word.
#[tactic(auto, unfolding(crate::specs::Openings::file))]
pub(crate) fn file(alloc: Global, tokens: &mut Tokens) -> Result<StartLine, LineRefused>
    ensures { Gives (file tokens.old) result }
{
    let name = name_at(alloc, UNQUOTED, MISSING, tokens)?;
    let attributes = number_within(0, MAX_32, BadNumber, MISSING, tokens)?;
    at_line_end(EXTRA, StartLine::File { name, attributes }, tokens)
}

/// `key "NAME"`, after its first word.
#[tactic(auto, unfolding(crate::specs::Openings::key))]
pub(crate) fn key(alloc: Global, tokens: &mut Tokens) -> Result<StartLine, LineRefused>
    ensures { Gives (key tokens.old) result }
{
    let name = name_at(alloc, UNQUOTED, MISSING, tokens)?;
    at_line_end(EXTRA, StartLine::Key { name }, tokens)
}

/// `event "NAME" KIND INITIAL`, after its first word.
#[tactic(auto, unfolding(crate::specs::Openings::event))]
pub(crate) fn event(alloc: Global, tokens: &mut Tokens) -> Result<StartLine, LineRefused>
    ensures { Gives (event tokens.old) result }
{
    let name = name_at(alloc, UNQUOTED, MISSING, tokens)?;
    let kind = number_within(0, 1, BadNumber, MISSING, tokens)?;
    let initial = number_within(0, 1, BadNumber, MISSING, tokens)?;
    let event = StartLine::Event {
        name,
        kind,
        initial,
    };
    at_line_end(EXTRA, event, tokens)
}
