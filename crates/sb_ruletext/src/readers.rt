// Readers of a policy text's lines: in all of them a broken or missing token is an unknown word.
ghost use Rattle.sb_ruletext.specs.Steps.{word_or, quoted_or, line_end};
ghost use Rattle.sb_base.specs.Refusals.{Gives};
ghost use Rattle.sb_text.specs.Steps.{ReadsAs, at_token};

use crate::faults::LineRefused;
use crate::faults::PolicyFaultKind::{self, UnknownWord};
use sb_text::{Tokens, WordFault, end_at, quoted_at, word_at};

/// A word: its bytes. A quoted token in its place has this fault; a broken one, or none, is `UnknownWord`.
pub(crate) fn word_or<'a>(
    quoted: PolicyFaultKind,
    tokens: &mut Tokens<'a>,
) -> Result<&'a [u8], LineRefused>
    ensures { ReadsAs (λ word. word.now) (word_or quoted tokens.old) result tokens.new }
{
    word_at(
        quoted,
        UnknownWord(WordFault::Broken),
        UnknownWord(WordFault::Missing),
        tokens,
    )
}

/// What is between quotes. A word in its place has this fault; a broken token, or none, is `UnknownWord`.
pub(crate) fn quoted_or<'a>(
    word: PolicyFaultKind,
    tokens: &mut Tokens<'a>,
) -> Result<&'a str, LineRefused>
    ensures { ReadsAs (λ quoted. quoted.now) (quoted_or word tokens.old) result tokens.new }
{
    quoted_at(
        word,
        UnknownWord(WordFault::Broken),
        UnknownWord(WordFault::Missing),
        tokens,
    )
}

/// The line is to end here. Any extra token is `UnknownWord`.
pub(crate) fn line_end(tokens: &Tokens) -> Result<(), LineRefused>
    ensures { Gives (line_end tokens.now) result }
{
    end_at(
        UnknownWord(WordFault::Extra),
        UnknownWord(WordFault::Broken),
        tokens,
    )
}

/// A value, or its fault at the token that was due.
pub(crate) fn at_token<A: Drop>(
    due: &Tokens,
    value: Result<A, PolicyFaultKind>,
) -> Result<A, LineRefused>
    ensures { Gives (at_token due.now value) result }
{
    match value {
        Ok(value) => Ok(value),
        Err(kind) => Err(due.fail(kind)),
    }
}
