// Reading the lines below the first.
ghost use Rattle.std.specs.Prelude.{◌≡◌, None, Ok};
ghost use Rattle.std.specs.Str.{is_utf8};
ghost use Rattle.sb_dup.specs.Lines.{access_at, any_word_at, first_word, has_quote, is_there, line_of, move_by, number_at, operand_at, operands, with_move};
ghost use Rattle.sb_base.specs.Refusals.{Gives, GivesAs};
ghost use Rattle.sb_text.specs.Steps.{Becomes, ReadsAs, end_at};
ghost use Rattle.sb_dup.specs.declared.faults.MoveKind.TheVariants.{UnknownWord};
ghost use Rattle.sb_text.specs.declared.refusals.WordFault.TheVariants.{Broken, Extra};
ghost use Rattle.sb_base.specs.declared.refusals.Refused.TheVariants.{Fault};

use crate::faults::LineRefused;
use crate::faults::MoveKind::{self, BadNumber, NoSuchTarget, TooMany, UnknownWord, WideAccess};
use crate::moves::{Move, Moves};
use sb_text::{TokenFault, WordFault, Words, number_of};
use std::str;

/// The most moves of a file.
pub const MAX_MOVES: usize = 4096;

// This fault at this place of a line.
fn fail_at(place: usize, kind: MoveKind) -> LineRefused
    ensures { result ≡ Fault (record { place = place; kind = kind }) }
{
    LineRefused::Fault(TokenFault { place, kind })
}

// Whether a word has a `"`.
fn has_quote(word: &[u8]) -> bool
    ensures { result ≡ has_quote word.now }
{
    word.iter().any(|byte| *byte == b'"')
}

// Whether a word is UTF-8.
#[tactic(auto, using(crate::proofs::Utf8::is_text, crate::proofs::Utf8::is_no_text))]
fn is_utf8(word: &[u8]) -> bool
    ensures { result ≡ is_utf8 word.now }
{
    match str::from_utf8(word) {
        Ok(_) => true,
        Err(_) => false,
    }
}

// A word.
fn any_word<'a>(words: &mut Words<'a>) -> Result<&'a [u8], LineRefused>
    ensures { ReadsAs (λ word. word.now) (any_word_at words.old) result words.new }
{
    words.word(UnknownWord(WordFault::Missing))
}

// A word, and where it begins: the number of bytes from there to the line's end.
#[derive(Clone, Copy)]
pub(crate) struct WordAt<'a> {
    place: usize,
    bytes: &'a [u8],
}

// A word without `"` that is UTF-8.
fn operand<'a>(words: &mut Words<'a>) -> Result<WordAt<'a>, LineRefused>
    ensures { ReadsAs (λ word. record { place = word.place; bytes = word.bytes.now }) (operand_at words.old) result words.new }
{
    let place = words.place();
    let bytes = any_word(words)?;
    if has_quote(bytes) {
        return Err(fail_at(place, UnknownWord(WordFault::Quoted)));
    }
    if !is_utf8(bytes) {
        return Err(fail_at(place, UnknownWord(WordFault::Broken)));
    }
    Ok(WordAt { place, bytes })
}

// The line ends here.
fn line_end(words: &Words) -> Result<(), LineRefused>
    ensures { Gives (end_at (UnknownWord Extra) (UnknownWord Broken) words.now) result }
{
    words.expect_end(UnknownWord(WordFault::Extra))
}

// Passes the first word, which is `move`.
fn first_word(words: &mut Words) -> Result<(), LineRefused>
    ensures { Becomes (first_word words.old) result words.new }
{
    let line = words.copy();
    if any_word(words)? == b"move".as_slice() {
        Ok(())
    } else {
        Err(line.fail(UnknownWord(WordFault::Unknown)))
    }
}

// The words after `move`.
#[derive(Clone, Copy)]
pub(crate) struct MoveWords<'a> {
    from: WordAt<'a>,
    handle: WordAt<'a>,
    to: WordAt<'a>,
    access: WordAt<'a>,
}

// `move FROM HANDLE TO ACCESS`.
fn operands<'a>(line: &Words<'a>) -> Result<MoveWords<'a>, LineRefused>
    ensures { GivesAs (λ words. record { from = record { place = words.from.place; bytes = words.from.bytes.now }; handle = record { place = words.handle.place; bytes = words.handle.bytes.now }; to = record { place = words.to.place; bytes = words.to.bytes.now }; access = record { place = words.access.place; bytes = words.access.bytes.now } }) (operands line.now) result }
{
    let mut words = line.copy();
    first_word(&mut words)?;
    let from = operand(&mut words)?;
    let handle = operand(&mut words)?;
    let to = operand(&mut words)?;
    let access = operand(&mut words)?;
    line_end(&words)?;
    Ok(MoveWords {
        from,
        handle,
        to,
        access,
    })
}

// If there is a number, there is such a target.
fn is_there(targets: u32, place: usize, number: Option<u64>) -> Result<(), LineRefused>
    ensures { Gives (is_there targets place number) result }
{
    match number {
        Some(target) if target >= u64::from(targets) => {
            Err(fail_at(place, NoSuchTarget { target, targets }))
        }
        _ => Ok(()),
    }
}

// A number, or the fault of the word at this place.
fn number_at(place: usize, number: Option<u64>) -> Result<u64, LineRefused>
    ensures { Gives (number_at place number) result }
{
    match number {
        Some(number) => Ok(number),
        None => Err(fail_at(place, BadNumber)),
    }
}

// An access: a number below 2^32.
fn access_at(place: usize, number: Option<u64>) -> Result<u32, LineRefused>
    ensures { Gives (access_at place number) result }
{
    match number {
        Some(number) if number < 1 << 32 => Ok(number as u32),
        Some(_) => Err(fail_at(place, WideAccess)),
        None => Err(fail_at(place, BadNumber)),
    }
}

// A target that is there, if there is a number.
fn target_at(targets: u32, place: usize, number: Option<u64>) -> Result<u32, LineRefused>
    requires { is_there targets place number ≡ Ok tt }
    ensures { Gives (number_at place number) result }
{
    Ok(number_at(place, number)? as u32)
}

// The move of these words, for a script with this number of targets.
fn move_by(targets: u32, words: MoveWords) -> Result<Move, LineRefused>
    ensures { Gives (move_by targets (record { from = record { place = words.entry.from.place; bytes = words.entry.from.bytes.now }; handle = record { place = words.entry.handle.place; bytes = words.entry.handle.bytes.now }; to = record { place = words.entry.to.place; bytes = words.entry.to.bytes.now }; access = record { place = words.entry.access.place; bytes = words.entry.access.bytes.now } })) result }
{
    let from = number_of(words.from.bytes);
    let to = number_of(words.to.bytes);
    is_there(targets, words.from.place, from)?;
    is_there(targets, words.to.place, to)?;
    let from = target_at(targets, words.from.place, from)?;
    let handle = number_at(words.handle.place, number_of(words.handle.bytes))?;
    let to = target_at(targets, words.to.place, to)?;
    let access = access_at(words.access.place, number_of(words.access.bytes))?;
    Ok(Move {
        from,
        handle,
        to,
        access,
    })
}

// The moves with one more, if there are not too many.
fn add_move(line: &Words, moves: &mut Moves, m: Move) -> Result<(), LineRefused>
    ensures { Becomes (with_move line.now moves.old m) result moves.new }
{
    if moves.len() >= MAX_MOVES {
        return Err(line.fail(TooMany));
    }
    moves.push(m)?;
    Ok(())
}

/// What a line adds to the moves so far. After an error they are unspecified.
#[tactic(auto, unfolding(crate::specs::Lines::line_of))]
pub(crate) fn line_of(targets: u32, moves: &mut Moves, line: &Words) -> Result<(), LineRefused>
    ensures { Becomes (line_of targets moves.old line.now) result moves.new }
{
    let found = operands(line)?;
    let m = move_by(targets, found)?;
    add_move(line, moves, m)
}
