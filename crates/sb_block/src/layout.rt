// The limits of a block, and what its words say.
ghost use Rattle.std.specs.Prelude.{◌≡◌, ◌≤◌, length};
ghost use Rattle.sb_block.specs.Copies.{is_end};
ghost use Rattle.sb_block.specs.Layout.{most_parameters, most_words, first_offset, tag_word, count_in, descriptors, end_in};

use crate::packing::{offset_of, part_of, word_at};

/// The most words of a block.
pub const MAX_WORDS: u64 = 64;

/// The most parameters of a block.
pub const MAX_PARAMETERS: u64 = 9;

/// The word that holds the number of parameters.
pub const COUNT_WORD: u64 = 2;

/// The first of the words of the reply.
pub const FIRST_REPLY_WORD: u32 = 3;

/// The number of words of the reply.
pub const REPLY_LENGTH: usize = 12;

/// The word of the first parameter's descriptor. The others follow it, and then the end item, whose offset is the end.
pub const FIRST_DESCRIPTOR: u64 = 15;

/// The first word in which a parameter may be, in a block with this number of parameters.
pub fn first_offset(count: u64) -> u64
    requires { count ≤ most_words }
    ensures { result ≡ first_offset count }
{
    FIRST_DESCRIPTOR + count + 1
}

/// Whether a block with this number of parameters, of which there are at most 9, may end after this number of words.
pub fn is_end(count: u64, end: u64) -> bool
    requires { count ≤ most_parameters }
    ensures { result ≡ is_end count end }
{
    first_offset(count) <= end && end <= MAX_WORDS
}

/// The number of the call's tag: word 0, or 0 if there is none.
pub fn tag_word(words: &[u64]) -> u64
    ensures { result ≡ tag_word words.now }
{
    word_at(words, 0)
}

/// The number of parameters: word 2, or 0 if there is none.
pub fn count_in(words: &[u64]) -> u64
    ensures { result ≡ count_in words.now }
{
    word_at(words, COUNT_WORD)
}

/// The descriptors of parameters, of which there are at most 9: as many as word 2 counts, or
/// as there are.
pub fn descriptors(words: &[u64]) -> &[u64]
    requires { count_in words.now ≤ most_parameters }
    ensures value { result.now ≡ descriptors words.now }
    ensures few { length result.now ≤ most_parameters }
{
    part_of(words, FIRST_DESCRIPTOR, count_in(words))
}

/// The end in words that the end item says. There are at most 9 parameters.
pub fn end_in(words: &[u64]) -> u64
    requires { count_in words.now ≤ most_parameters }
    ensures { result ≡ end_in words.now }
{
    offset_of(word_at(words, FIRST_DESCRIPTOR + count_in(words)))
}
