// Reading conditions: COND and COND .., each a parameter, a test word and a value.
ghost use Rattle.std.specs.Prelude.{◌≡◌, None, Some, MatchOption};
ghost use Rattle.sb_rule.specs.PatternReading.{reading};
ghost use Rattle.sb_ruletext.specs.Conditions.{number_at, numbers_at, after_dots, around_dots, range_of, range_at, cells, cells_at, string_at, is_at, test_at, parameter_at, is_number_at, condition_at, conditions_at, conditions_of};
ghost use Rattle.sb_ruletext.specs.Steps.{excess};
ghost use Rattle.sb_base.specs.Refusals.{Gives};
ghost use Rattle.sb_text.specs.Steps.{Reads, at_token, or_fault};
ghost use Rattle.sb_ruletext.specs.declared.faults.PolicyFaultKind.TheVariants.{NoRange};
ghost use Rattle.sb_text.specs.Numbers.{number_of};
ghost use Rattle.sb_text.specs.Tokens.{string_of};

use crate::faults::PolicyFaultKind::{
    self, BadNumber, BadPattern, NoRange, OtherWord, UnknownParam, UnknownWord, WrongKind,
};
use crate::faults::{FitDue, LineRefused, PolicyLimit, WordDue};
use crate::readers::{at_token, line_end, quoted_or, word_or};
use crate::words::parameter_of;
use sb_call::CallTag;
use sb_rule::{
    Cond, Conds, MAX_CONDITIONS, MAX_NUMBERS, MAX_UNITS, Numbers, Pattern, PatternFault,
    PatternRefused, Test,
};
use sb_text::{Token, Tokens, WordFault, number_of, or_fails, string_of};
use std::alloc::Global;

// N: a number.
fn number_at(tokens: &mut Tokens) -> Result<u64, LineRefused>
    ensures { Reads (number_at tokens.old) result tokens.new }
{
    let due = tokens.copy();
    let word = word_or(WrongKind(FitDue::Number), tokens)?;
    or_fails(&due, BadNumber, number_of(word))
}

// The fault if one more begins than there may be.
fn excess(limit: PolicyLimit, tokens: &Tokens) -> PolicyFaultKind
    ensures { result ≡ excess limit tokens.now }
{
    match tokens.peek() {
        Some(Token::Word(_)) | Some(Token::Quoted(_)) => PolicyFaultKind::TooMany(limit),
        Some(Token::Bad) => UnknownWord(WordFault::Broken),
        None => UnknownWord(WordFault::Missing),
    }
}

// N or N ..
fn numbers_at(alloc: Global, tokens: &mut Tokens) -> Result<Numbers, LineRefused>
    ensures { Reads (numbers_at tokens.old) result tokens.new }
{
    let mut numbers = Numbers::empty(alloc);
    while numbers.len() < MAX_NUMBERS {
        numbers.push(number_at(tokens)?)?;
        if !tokens.pass_word(b"or") {
            return Ok(numbers);
        }
    }
    Err(tokens.fail(excess(PolicyLimit::Numbers, tokens)))
}

// What follows `..`, if the bytes begin with it.
fn after_dots(bytes: &[u8]) -> Option<&[u8]>
    ensures { MatchOption result (after_dots bytes.now ≡ None) (λ after. after_dots bytes.now ≡ Some after.now) }
{
    match bytes {
        [b'.', b'.', after @ ..] => Some(after),
        _ => None,
    }
}

// What precedes the first `..` of a word, and what follows it.
#[tactic(auto, using(crate::proofs::Dots::passed_one, crate::proofs::Dots::found_here, crate::proofs::Dots::found_nowhere))]
fn around_dots(word: &[u8]) -> Option<(&[u8], &[u8])>
    ensures { MatchOption result (around_dots word.now ≡ None) (λ ends. around_dots word.now ≡ Some (ends.0.now, ends.1.now)) }
{
    let mut passed = 0;
    while passed < word.len() {
        let (before, rest) = word.split_at(passed);
        if let Some(after) = after_dots(rest) {
            return Some((before, after));
        }
        passed += 1;
    }
    None
}

// A number of a range, or the fault of that range.
fn number(word: &[u8]) -> Result<u64, PolicyFaultKind>
    ensures { result ≡ or_fault NoRange (number_of word.now) }
{
    number_of(word).ok_or(NoRange)
}

// LO..HI: two numbers joined by `..`.
fn range_of(word: &[u8]) -> Result<Test, PolicyFaultKind>
    ensures { result ≡ range_of word.now }
{
    let (low, high) = around_dots(word).ok_or(NoRange)?;
    let lo = number(low)?;
    let hi = number(high)?;
    if lo <= hi {
        Ok(Test::Range { lo, hi })
    } else {
        Err(PolicyFaultKind::EmptyRange)
    }
}

// LO..HI as one word.
fn range_at(tokens: &mut Tokens) -> Result<Test, LineRefused>
    ensures { Reads (range_at tokens.old) result tokens.new }
{
    let due = tokens.copy();
    let word = word_or(WrongKind(FitDue::Number), tokens)?;
    at_token(&due, range_of(word))
}

// What is between quotes, as a pattern, or its fault in the token that was due.
fn cells(alloc: Global, due: &Tokens, quoted: &str) -> Result<Pattern, LineRefused>
    ensures { Gives (cells due.now (reading (string_of quoted.now))) result }
{
    let text = string_of(alloc, quoted)?;
    match Pattern::read(alloc, text.as_units()) {
        Ok(pattern) => Ok(pattern),
        Err(PatternRefused::Fault(PatternFault::DoubleStar(unit))) => {
            Err(due.fail_within(unit, BadPattern(PatternFault::DoubleStar(unit))))
        }
        Err(PatternRefused::Fault(PatternFault::StarQuestion(unit))) => {
            Err(due.fail_within(unit, BadPattern(PatternFault::StarQuestion(unit))))
        }
        Err(PatternRefused::Fault(PatternFault::TooLong)) => {
            Err(due.fail(BadPattern(PatternFault::TooLong)))
        }
        Err(PatternRefused::NoMemory) => Err(LineRefused::NoMemory),
    }
}

/// "P": a pattern. A word in its place has this fault.
pub(crate) fn cells_at(
    alloc: Global,
    word: PolicyFaultKind,
    tokens: &mut Tokens,
) -> Result<Pattern, LineRefused>
    ensures { Reads (cells_at word tokens.old) result tokens.new }
{
    let due = tokens.copy();
    let quoted = quoted_or(word, tokens)?;
    cells(alloc, &due, quoted)
}

// "S": a string.
fn string_at(alloc: Global, tokens: &mut Tokens) -> Result<Test, LineRefused>
    ensures { Reads (string_at tokens.old) result tokens.new }
{
    let due = tokens.copy();
    let quoted = quoted_or(WrongKind(FitDue::Text), tokens)?;
    let text = string_of(alloc, quoted)?;
    if text.len() > MAX_UNITS {
        return Err(due.fail(BadPattern(PatternFault::TooLong)));
    }
    Ok(Test::Equal(text))
}

// The value of `is`.
fn is_at(alloc: Global, is_number: bool, tokens: &mut Tokens) -> Result<Test, LineRefused>
    ensures { Reads (is_at is_number tokens.old) result tokens.new }
{
    if is_number {
        Ok(Test::OneOf(numbers_at(alloc, tokens)?))
    } else {
        string_at(alloc, tokens)
    }
}

// A test word, and a value that fits it.
#[tactic(auto, unfolding(crate::specs::Conditions::test_at))]
fn test_at(alloc: Global, is_number: bool, tokens: &mut Tokens) -> Result<Test, LineRefused>
    ensures { Reads (test_at is_number tokens.old) result tokens.new }
{
    let due = tokens.copy();
    let word = word_or(UnknownWord(WordFault::Quoted), tokens)?;
    if word == b"is".as_slice() {
        is_at(alloc, is_number, tokens)
    } else if word == b"in".as_slice() {
        if !is_number {
            return Err(due.fail(WrongKind(FitDue::TextTest)));
        }
        range_at(tokens)
    } else if word == b"has".as_slice() {
        if !is_number {
            return Err(due.fail(WrongKind(FitDue::TextTest)));
        }
        Ok(Test::Mask(number_at(tokens)?))
    } else if word == b"like".as_slice() {
        if is_number {
            return Err(due.fail(WrongKind(FitDue::NumberTest)));
        }
        Ok(Test::Like(cells_at(alloc, WrongKind(FitDue::Text), tokens)?))
    } else {
        Err(due.fail(OtherWord(WordDue::Test)))
    }
}

// The name of a parameter of the call.
fn parameter_at(tag: CallTag, tokens: &mut Tokens) -> Result<u32, LineRefused>
    ensures { Reads (parameter_at tag tokens.old) result tokens.new }
{
    let due = tokens.copy();
    let word = word_or(UnknownParam(tag), tokens)?;
    or_fails(&due, UnknownParam(tag), parameter_of(tag, word))
}

// Whether the parameter of a call is a number.
fn is_number_at(tag: CallTag, param: u32) -> bool
    ensures { result ≡ is_number_at tag param }
{
    match tag.param_kind(param) {
        Some(kind) => kind.is_number(),
        None => true,
    }
}

// COND: an optional `not`, a parameter, a test word and a value.
#[tactic(auto, unfolding(crate::specs::Conditions::condition_at))]
fn condition_at(alloc: Global, tag: CallTag, tokens: &mut Tokens) -> Result<Cond, LineRefused>
    ensures { Reads (condition_at tag tokens.old) result tokens.new }
{
    let negated = tokens.pass_word(b"not");
    let param = parameter_at(tag, tokens)?;
    let test = test_at(alloc, is_number_at(tag, param), tokens)?;
    Ok(Cond {
        param,
        negated,
        test,
    })
}

// COND and COND ..
fn conditions_at(alloc: Global, tag: CallTag, tokens: &mut Tokens) -> Result<Conds, LineRefused>
    ensures { Reads (conditions_at tag tokens.old) result tokens.new }
{
    let mut conds = Conds::empty(alloc);
    while conds.len() < MAX_CONDITIONS {
        conds.push(condition_at(alloc, tag, tokens)?)?;
        if !tokens.pass_word(b"and") {
            return Ok(conds);
        }
    }
    Err(tokens.fail(excess(PolicyLimit::Conditions, tokens)))
}

/// COND and COND .., up to the line's end.
pub(crate) fn conditions_of(
    alloc: Global,
    tag: CallTag,
    tokens: &mut Tokens,
) -> Result<Conds, LineRefused>
    ensures { Gives (conditions_of tag tokens.old) result }
{
    let conds = conditions_at(alloc, tag, tokens)?;
    line_end(tokens)?;
    Ok(conds)
}
