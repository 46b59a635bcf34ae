// How a call is laid out in words.
ghost use Rattle.std.specs.Prelude.{◌≡◌, ◌<◌, ◌≤◌, ◌+◌, ◌++◌, ◌*◌, ◌∷◌, ◌^◌, [], length, nat_le, true, false, replicate, MatchResult, IfOk, Ok};
ghost use Rattle.sb_call.specs.Tags.{number_of, shape_of};
ghost use Rattle.sb_call.specs.Arguments.{fits};
ghost use Rattle.std.specs.List.{list_all};
ghost use Rattle.sb_block.specs.Calls.{called, decoded};
ghost use Rattle.sb_block.specs.Copies.{is_copy, whole};
ghost use Rattle.sb_block.specs.Packing.{packed};
ghost use Rattle.sb_base.specs.Wide.{is_unit};
ghost use Rattle.sb_block.specs.Blocks.{block, encodes, end_offset, has_units, bytes_of, content_of, contents_of, descriptors_of};
ghost use Rattle.sb_block.specs.Layout.{first_offset, most_words, reply_length};

use crate::faults::type_number;
use crate::layout::{MAX_WORDS, REPLY_LENGTH, first_offset};
use crate::packing::{descriptor, end_item, unit_word};
use crate::words::Words;
use sb_call::{Arg, CallTag, ParamKind, fits, shape};
use thiserror::Error;

/// The block of a call would need more than 64 words.
#[derive(Clone, Copy, Debug, Error)]
#[error("the call needs more than 64 words")]
pub struct TooBig;

#[tactic(auto, using(crate::proofs::PackingLemmas::packed_len))]
fn packed_len(units: &[u16]) -> usize
    ensures value { result ≡ length (packed units.now) }
    ensures units { list_all is_unit units.now ≡ true }
{
    units.len().div_ceil(4)
}

fn content_len(arg: &Arg) -> usize
    ensures value { result ≡ length (content_of arg.now) }
    ensures units { has_units arg.now ≡ true }
{
    match arg {
        Arg::Num(_) => 1,
        Arg::Str(text) => packed_len(text.as_units()),
    }
}

/// The number of words that the contents of arguments need, at most 64.
fn contents_len(args: &[Arg]) -> u64
    requires { length (contents_of args.now) ≤ most_words }
    ensures value { result ≡ length (contents_of args.now) }
    ensures units { list_all has_units args.now ≡ true }
{
    let mut len = 0;
    let mut args = args;
    while let Some((arg, more)) = args.split_first() {
        len += content_len(arg) as u64;
        args = more;
    }
    len
}

fn has_room(args: &[Arg], room: u64) -> bool
    ensures { result ≡ nat_le (length args.now + length (contents_of args.now)) room }
{
    let mut room = room;
    let mut args = args;
    while let Some((arg, more)) = args.split_first() {
        let needed = content_len(arg) as u64;
        if needed >= room {
            return false;
        }
        room = room - needed - 1;
        args = more;
    }
    true
}

/// Whether the block of these arguments has at most 64 words.
fn is_small(args: &[Arg]) -> bool
    ensures { result ≡ nat_le (first_offset (length args.now) + length (contents_of args.now)) most_words }
{
    has_room(args, MAX_WORDS - first_offset(0))
}

#[tactic(auto, using(crate::proofs::PackingLemmas::packed_len))]
fn bytes_of(kind: ParamKind, arg: &Arg) -> u64
    requires { length (content_of arg.now) ≤ most_words }
    ensures value { result ≡ bytes_of kind arg.now }
    ensures small { result < 2 ^ 16 }
{
    match (arg, kind) {
        (Arg::Str(text), _) => 2 * text.as_units().len() as u64,
        (Arg::Num(_), ParamKind::Handle) => 8,
        (Arg::Num(_), _) => 4,
    }
}

fn put_descriptors(words: &mut Words, first: u64, kinds: &[ParamKind], args: &[Arg])
    requires room { length words.old + length args.now ≤ most_words }
    requires offsets { first + length (contents_of args.now) ≤ most_words }
    ensures { words.new ≡ words.old ++ descriptors_of first kinds.now args.now }
{
    let mut offset = first;
    let mut kinds = kinds;
    let mut args = args;
    while let Some((kind, more_kinds)) = kinds.split_first() {
        let Some((arg, more)) = args.split_first() else {
            return;
        };
        words.push(descriptor(type_number(*kind), offset, bytes_of(*kind, arg)));
        offset += content_len(arg) as u64;
        kinds = more_kinds;
        args = more;
    }
}

fn put_units(words: &mut Words, units: &[u16])
    requires { length words.old + length (packed units.now) ≤ most_words }
    ensures { words.new ≡ words.old ++ packed units.now }
{
    let mut units = units;
    while let [first, second, third, fourth, more @ ..] = units {
        words.push(unit_word(*first, *second, *third, *fourth));
        units = more;
    }
    match units {
        [first] => words.push(unit_word(*first, 0, 0, 0)),
        [first, second] => words.push(unit_word(*first, *second, 0, 0)),
        [first, second, third] => words.push(unit_word(*first, *second, *third, 0)),
        _ => {}
    }
}

fn put_content(words: &mut Words, arg: &Arg)
    requires { length words.old + length (content_of arg.now) ≤ most_words }
    ensures { words.new ≡ words.old ++ content_of arg.now }
{
    match arg {
        Arg::Num(number) => words.push(*number),
        Arg::Str(text) => put_units(words, text.as_units()),
    }
}

fn put_contents(words: &mut Words, args: &[Arg])
    requires { length words.old + length (contents_of args.now) ≤ most_words }
    ensures { words.new ≡ words.old ++ contents_of args.now }
{
    let mut args = args;
    while let Some((arg, more)) = args.split_first() {
        put_content(words, arg);
        args = more;
    }
}

fn put_opening(words: &mut Words, tag: CallTag, mark: u64, count: u64)
    ensures { words.new ≡ number_of tag ∷ mark ∷ count ∷ replicate reply_length 0 }
{
    words.clear();
    words.extend(&[tag as u64, mark, count]);
    words.extend(&[0; REPLY_LENGTH]);
}

// Lays out the block of a call that is known to be small, in place of the words that were there.
fn put_small_block(words: &mut Words, tag: CallTag, args: &[Arg], mark: u64)
    requires fits { fits tag args.now ≡ true }
    requires small { end_offset args.now ≤ most_words }
    ensures value { words.new ≡ block tag args.now mark }
    ensures units { list_all has_units args.now ≡ true }
{
    let first = first_offset(args.len() as u64);
    put_opening(words, tag, mark, args.len() as u64);
    put_descriptors(words, first, shape(tag), args);
    let end = first + contents_len(args);
    words.push(end_item(end));
    put_contents(words, args);
}

/// Lays out the block of a call that encodes, with the caller's mark, in place of the words that were there: as `encode` does.
#[tactic(auto, using(crate::proofs::WholeBlocks::encoded_small, crate::proofs::WholeBlocks::encoded_len))]
pub fn put_block(words: &mut Words, tag: CallTag, args: &[Arg], mark: u64)
    requires { encodes tag args.now ≡ true }
    ensures block { words.new ≡ block tag args.now mark }
    ensures some { 0 < length words.new }
    ensures most { length words.new ≤ most_words }
{
    put_small_block(words, tag, args, mark);
}

/// The block of a call with the caller's mark: tag, mark, count, zeros for the reply, a descriptor
/// word for each argument, the end item, and the contents of the arguments one after the other.
///
/// # Errors
/// `TooBig` exactly if the block needs more than 64 words.
pub fn encode(tag: CallTag, args: &[Arg], mark: u64) -> Result<Words, TooBig>
    requires { fits tag args.now ≡ true }
    ensures value { MatchResult result (λ words. (words ≡ block tag args.now mark) × (length words ≤ most_words))
        (λ _. most_words < length (block tag args.now mark)) }
    ensures encodes { MatchResult result (λ _. encodes tag args.now ≡ true) (λ _. encodes tag args.now ≡ false) }
    ensures back { IfOk result (λ words. (is_copy (whole words) ≡ true)
        × (decoded (whole words) ≡ Ok (called tag mark args.now))) }
{
    if !is_small(args) {
        return Err(TooBig);
    }
    let mut words = Words::empty();
    put_small_block(&mut words, tag, args, mark);
    Ok(words)
}

/// Whether a call encodes whose arguments fit it: its block has at most 64 words, whatever its mark
/// is. The arguments are not tested again.
pub fn has_small_block(tag: CallTag, args: &[Arg]) -> bool
    requires { fits tag args.now ≡ true }
    ensures { result ≡ encodes tag args.now }
{
    is_small(args)
}

/// Whether a call encodes: its arguments fit it, and its block has at most 64 words, whatever its
/// mark is. It does not allocate and lays out no block.
pub fn encodes(tag: CallTag, args: &[Arg]) -> bool
    ensures { result ≡ encodes tag args.now }
{
    fits(tag, args) && has_small_block(tag, args)
}
