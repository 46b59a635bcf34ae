// Reading a line from left to right: numbers, strings and names.
ghost use Rattle.std.specs.Prelude.{◌≡◌, ◌≤◌, Ok, IfOk};
ghost use Rattle.sb_scripttext.specs.Steps.{number_at, within, number_within, string_at, name_at, at_line_end};
ghost use Rattle.sb_base.specs.Refusals.{Gives};
ghost use Rattle.sb_text.specs.Steps.{at_token, later, Reads};

use crate::faults::{LineRefused, ScriptKind};
use sb_base::{Wide, is_name};
use sb_text::{Tokens, WordFault, end_at, number_of, or_fails, quoted_due, string_of, word_due};
use std::alloc::Global;

/// The fault of a token that breaks the rules.
pub(crate) const BROKEN: ScriptKind = ScriptKind::UnknownWord(WordFault::Broken);

/// A value, or its fault at the token that was due.
pub(crate) fn at_token<A: Drop>(
    due: &Tokens,
    value: Result<A, ScriptKind>,
) -> Result<A, LineRefused>
    ensures read { Gives (at_token due.now value) result }
    ensures same { IfOk result (λ x. value ≡ Ok x) }
{
    match value {
        Ok(value) => Ok(value),
        Err(kind) => Err(due.fail(kind)),
    }
}

// N: the number at hand, which is not passed, with the faults of `number_at`.
#[tactic(auto, unfolding(crate::specs::Steps::number_at))]
fn number_due(quoted: ScriptKind, missing: ScriptKind, tokens: &Tokens) -> Result<u64, LineRefused>
    ensures { Reads (number_at quoted missing tokens.now) result (later tokens.now) }
{
    let word = word_due(quoted, BROKEN, missing, tokens)?;
    or_fails(tokens, ScriptKind::BadNumber, number_of(word))
}

/// N: a number. `quoted` is the fault of a quoted token in its place, `missing` that of none.
pub(crate) fn number_at(
    quoted: ScriptKind,
    missing: ScriptKind,
    tokens: &mut Tokens,
) -> Result<u64, LineRefused>
    ensures { Reads (number_at quoted missing tokens.old) result tokens.new }
{
    let number = number_due(quoted, missing, tokens)?;
    tokens.pass();
    Ok(number)
}

/// A number from `lo` to `hi`.
pub(crate) fn within(lo: u64, hi: u64, number: u64) -> Result<u64, ScriptKind>
    ensures number { result ≡ within lo hi number }
    ensures most { IfOk result (λ n. n ≤ hi) }
{
    if lo <= number && number <= hi {
        Ok(number)
    } else {
        Err(ScriptKind::OutOfRange { low: lo, high: hi })
    }
}

/// N: a number from `lo` to `hi`, with the faults of `number_at`.
#[tactic(auto, unfolding(crate::specs::Steps::number_within))]
pub(crate) fn number_within(
    lo: u64,
    hi: u64,
    quoted: ScriptKind,
    missing: ScriptKind,
    tokens: &mut Tokens,
) -> Result<u64, LineRefused>
    ensures read { Reads (number_within lo hi quoted missing tokens.old) result tokens.new }
    ensures most { IfOk result (λ n. n ≤ hi) }
{
    let number = number_due(quoted, missing, tokens)?;
    let number = at_token(tokens, within(lo, hi, number))?;
    tokens.pass();
    Ok(number)
}

// "S": the string at hand, which is not passed, with the faults of `string_at`.
#[tactic(auto, unfolding(crate::specs::Steps::string_at))]
fn string_due(
    alloc: Global,
    unquoted: ScriptKind,
    missing: ScriptKind,
    tokens: &Tokens,
) -> Result<Wide, LineRefused>
    ensures { Reads (string_at unquoted missing tokens.now) result (later tokens.now) }
{
    let quoted = quoted_due(unquoted, BROKEN, missing, tokens)?;
    Ok(string_of(alloc, quoted)?)
}

/// "S": a string. `unquoted` is the fault of a word in its place, `missing` that of none.
pub(crate) fn string_at(
    alloc: Global,
    unquoted: ScriptKind,
    missing: ScriptKind,
    tokens: &mut Tokens,
) -> Result<Wide, LineRefused>
    ensures { Reads (string_at unquoted missing tokens.old) result tokens.new }
{
    let string = string_due(alloc, unquoted, missing, tokens)?;
    tokens.pass();
    Ok(string)
}

/// "NAME": a name, with the faults of `string_at`.
#[tactic(auto, unfolding(crate::specs::Steps::name_at))]
pub(crate) fn name_at(
    alloc: Global,
    unquoted: ScriptKind,
    missing: ScriptKind,
    tokens: &mut Tokens,
) -> Result<Wide, LineRefused>
    ensures { Reads (name_at unquoted missing tokens.old) result tokens.new }
{
    let units = string_due(alloc, unquoted, missing, tokens)?;
    if is_name(units.as_units()) {
        tokens.pass();
        Ok(units)
    } else {
        Err(tokens.fail(ScriptKind::BadName))
    }
}

/// A value, if the line ends here. `extra` is the fault of an extra token.
pub(crate) fn at_line_end<A: Drop>(
    extra: ScriptKind,
    value: A,
    tokens: &Tokens,
) -> Result<A, LineRefused>
    ensures { Gives (at_line_end extra value tokens.now) result }
{
    end_at(extra, BROKEN, tokens)?;
    Ok(value)
}
