// `call CALL ARG ..`: a call with its arguments.
ghost use Rattle.sb_scripttext.specs.Arguments.{tag_at, arg_at, args_at, call};
ghost use Rattle.sb_base.specs.Refusals.{Gives};
ghost use Rattle.sb_text.specs.Steps.{Reads};

use crate::faults::ScriptKind::{TooBig, UnknownCall, UnknownWord, WrongArgs};
use crate::faults::{LineRefused, ScriptKind};
use crate::steps::{BROKEN, name_at, number_at, number_within, string_at};
use sb_block::has_small_block;
use sb_call::{Arg, Args, CallTag, ParamKind, shape, tag_of_word};
use sb_statements::Statement;
use sb_text::{Tokens, WordFault, end_at, or_fails, word_due};
use std::alloc::Global;

/// The greatest number of 32 bits.
pub(crate) const MAX_32: u64 = 0xFFFF_FFFF;

// The faults of an argument that is not a string, that is one, and that is not there.
const UNQUOTED: ScriptKind = WrongArgs(WordFault::Unquoted);

const QUOTED: ScriptKind = WrongArgs(WordFault::Quoted);

const MISSING: ScriptKind = WrongArgs(WordFault::Missing);

// CALL: the word of a call.
#[tactic(auto, unfolding(crate::specs::Arguments::tag_at))]
fn tag_at(tokens: &mut Tokens) -> Result<CallTag, LineRefused>
    ensures { Reads (tag_at tokens.old) result tokens.new }
{
    let word = word_due(UnknownCall, BROKEN, UnknownWord(WordFault::Missing), tokens)?;
    let tag = or_fails(tokens, UnknownCall, tag_of_word(word))?;
    tokens.pass();
    Ok(tag)
}

// ARG: an argument of this kind.
#[tactic(auto, unfolding(crate::specs::Arguments::arg_at))]
fn arg_at(alloc: Global, kind: ParamKind, tokens: &mut Tokens) -> Result<Arg, LineRefused>
    ensures { Reads (arg_at kind tokens.old) result tokens.new }
{
    match kind {
        ParamKind::Text => Ok(Arg::Str(string_at(alloc, UNQUOTED, MISSING, tokens)?)),
        ParamKind::Name => Ok(Arg::Str(name_at(alloc, UNQUOTED, MISSING, tokens)?)),
        ParamKind::Num => Ok(Arg::Num(number_within(0, MAX_32, QUOTED, MISSING, tokens)?)),
        ParamKind::Handle => Ok(Arg::Num(number_at(QUOTED, MISSING, tokens)?)),
    }
}

// An argument of each of these kinds.
fn args_at(alloc: Global, kinds: &[ParamKind], tokens: &mut Tokens) -> Result<Args, LineRefused>
    ensures { Reads (args_at kinds.now tokens.old) result tokens.new }
{
    let Ok(room) = Vec::with_capacity(alloc, kinds.len()) else {
        return Err(LineRefused::NoMemory);
    };
    let mut args = Args::new(room);
    let mut left = kinds;
    while let Some((kind, more)) = left.split_first() {
        args.push(arg_at(alloc, *kind, tokens)?)?;
        left = more;
    }
    Ok(args)
}

/// `call CALL ARG ..`, after its first word.
#[tactic(auto, unfolding(crate::specs::Arguments::call))]
pub(crate) fn call(
    alloc: Global,
    line: &Tokens,
    tokens: &mut Tokens,
) -> Result<Statement, LineRefused>
    ensures { Gives (call line.now tokens.old) result }
{
    let tag = tag_at(tokens)?;
    let args = args_at(alloc, shape(tag), tokens)?;
    end_at(WrongArgs(WordFault::Extra), BROKEN, tokens)?;
    if has_small_block(tag, args.as_slice()) {
        Ok(Statement::Call { tag, args })
    } else {
        Err(line.fail(TooBig))
    }
}
