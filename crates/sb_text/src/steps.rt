// Reading a line from left to right: a word, a quoted token, and the line's end, each with its faults and their places.
ghost use Rattle.std.specs.Prelude.{◌≡◌, ◌≤◌, true, IfOk};
ghost use Rattle.std.specs.List.{list_all};
ghost use Rattle.sb_base.specs.Refusals.{Gives};
ghost use Rattle.sb_text.specs.Steps.{later, word_at, quoted_at, end_at, or_fails, version_at, version_digit, ReadsAs};
ghost use Rattle.sb_text.specs.TokenLaws.{is_quoted_byte};

use crate::refusals::TokenFault;
use crate::tokens::{Token, Tokens};
use sb_base::Refused;

/// The word at hand, which is not passed: its bytes. `quoted` is the fault of a quoted token in its place, `bad` that of one
/// that breaks the rules, and `missing` that of none.
#[inline(always)]
pub fn word_due<'a, K: Drop>(
    quoted: K,
    bad: K,
    missing: K,
    tokens: &Tokens<'a>,
) -> Result<&'a [u8], Refused<TokenFault<K>>>
    ensures { ReadsAs (λ word. word.now) (word_at quoted bad missing tokens.now) result (later tokens.now) }
{
    match tokens.peek() {
        Some(Token::Word(word)) => Ok(word),
        Some(Token::Quoted(_)) => Err(tokens.fail(quoted)),
        Some(Token::Bad) => Err(tokens.fail(bad)),
        None => Err(tokens.fail(missing)),
    }
}

/// A word: its bytes, with the faults of `word_due`.
#[inline(always)]
pub fn word_at<'a, K: Drop>(
    quoted: K,
    bad: K,
    missing: K,
    tokens: &mut Tokens<'a>,
) -> Result<&'a [u8], Refused<TokenFault<K>>>
    ensures { ReadsAs (λ word. word.now) (word_at quoted bad missing tokens.old) result tokens.new }
{
    let word = word_due(quoted, bad, missing, tokens)?;
    tokens.pass();
    Ok(word)
}

/// The quoted token at hand, which is not passed: what is between its quotes. `word` is the fault of a word in its place,
/// `bad` that of a token that breaks the rules, and `missing` that of none.
#[inline(always)]
pub fn quoted_due<'a, K: Drop>(
    word: K,
    bad: K,
    missing: K,
    tokens: &Tokens<'a>,
) -> Result<&'a str, Refused<TokenFault<K>>>
    ensures read { ReadsAs (λ quoted. quoted.now) (quoted_at word bad missing tokens.now) result (later tokens.now) }
    ensures quotable { IfOk result (λ quoted. list_all is_quoted_byte quoted.now ≡ true) }
{
    match tokens.sound_token() {
        Some(Token::Quoted(quoted)) => Ok(quoted),
        Some(Token::Word(_)) => Err(tokens.fail(word)),
        Some(Token::Bad) => Err(tokens.fail(bad)),
        None => Err(tokens.fail(missing)),
    }
}

/// A quoted token: what is between its quotes, with the faults of `quoted_due`.
#[inline(always)]
pub fn quoted_at<'a, K: Drop>(
    word: K,
    bad: K,
    missing: K,
    tokens: &mut Tokens<'a>,
) -> Result<&'a str, Refused<TokenFault<K>>>
    ensures read { ReadsAs (λ quoted. quoted.now) (quoted_at word bad missing tokens.old) result tokens.new }
    ensures quotable { IfOk result (λ quoted. list_all is_quoted_byte quoted.now ≡ true) }
{
    let quoted = quoted_due(word, bad, missing, tokens)?;
    tokens.pass();
    Ok(quoted)
}

/// The line has to end here. `extra` is the fault of an extra token, `bad` that of one that breaks the rules.
#[inline(always)]
pub fn end_at<K: Drop>(extra: K, bad: K, tokens: &Tokens) -> Result<(), Refused<TokenFault<K>>>
    ensures { Gives (end_at extra bad tokens.now) result }
{
    match tokens.peek() {
        None => Ok(()),
        Some(Token::Word(_)) | Some(Token::Quoted(_)) => Err(tokens.fail(extra)),
        Some(Token::Bad) => Err(tokens.fail(bad)),
    }
}

/// A value that is there, or this fault at the token that was due.
#[inline(always)]
pub fn or_fails<A: Drop, K: Drop>(
    due: &Tokens,
    kind: K,
    value: Option<A>,
) -> Result<A, Refused<TokenFault<K>>>
    ensures { Gives (or_fails due.now kind value) result }
{
    match value {
        Some(value) => Ok(value),
        None => Err(due.fail(kind)),
    }
}

/// A digit from 1 to `most`.
pub fn version_digit(most: u8, digit: &[u8]) -> Option<u32>
    requires { most ≤ 9 }
    ensures { result ≡ version_digit most digit.now }
{
    match digit {
        [digit] if b'1' <= *digit && *digit <= b'0' + most => Some(u32::from(*digit - b'0')),
        _ => None,
    }
}

/// The version that a first line of these tokens names: the word `name`, and a digit from 1 to `most`.
///
/// # Errors
/// `Fault` with this kind exactly if it names none, at the first token that departs.
pub fn version_at<K: Copy + Drop>(
    kind: K,
    name: &[u8],
    most: u8,
    tokens: &Tokens,
) -> Result<u32, Refused<TokenFault<K>>>
    requires { most ≤ 9 }
    ensures { Gives (version_at kind name.now most tokens.now) result }
{
    let mut rest = tokens.copy();
    if word_at(kind, kind, kind, &mut rest)? != name {
        return Err(tokens.fail(kind));
    }
    let due = rest.copy();
    let digit = word_at(kind, kind, kind, &mut rest)?;
    let version = or_fails(&due, kind, version_digit(most, digit))?;
    end_at(kind, kind, &rest)?;
    Ok(version)
}
