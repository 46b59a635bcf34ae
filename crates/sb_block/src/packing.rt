// Information words, and the words of a parameter.
ghost use Rattle.std.specs.Prelude.{◌≡◌, ◌<◌, ◌≤◌, ◌+◌, ◌*◌, ◌^◌, [], length, slice_index, drop};
ghost use Rattle.sb_block.specs.Packing.{type_of, offset_of, size_of, descriptor, words_for, unit_word, part_of, unpacked, string_in, number_in};
ghost use Rattle.sb_block.specs.Layout.{most_words};

use arrayvec::ArrayVec;

/// The type of a parameter: the upper half of its descriptor.
pub fn type_of(word: u64) -> u64
    ensures value { result ≡ type_of word }
    ensures small { result < 2 ^ 32 }
{
    word >> 32
}

/// The offset of a parameter, in words of the block.
pub fn offset_of(word: u64) -> u64
    ensures value { result ≡ offset_of word }
    ensures small { result < 2 ^ 16 }
{
    (word >> 16) & 0xffff
}

/// The size of a parameter, in bytes.
pub fn size_of(word: u64) -> u64
    ensures value { result ≡ size_of word }
    ensures small { result < 2 ^ 16 }
{
    word & 0xffff
}

/// The descriptor of a type, an offset in words and a size in bytes.
pub fn descriptor(kind: u64, offset: u64, size: u64) -> u64
    requires kind { kind < 2 ^ 32 }
    requires offset { offset < 2 ^ 16 }
    requires size { size < 2 ^ 16 }
    ensures { result ≡ descriptor kind offset size }
{
    size | offset << 16 | kind << 32
}

/// The end item of an end, which is a number of words, at most 64.
pub fn end_item(end: u64) -> u64
    requires { end ≤ most_words }
    ensures { result ≡ end * 2 ^ 16 }
{
    end << 16
}

/// The number of words that the given number of bytes needs.
pub fn words_for(bytes: u64) -> u64
    requires { bytes < 2 ^ 32 }
    ensures { result ≡ words_for bytes }
{
    (bytes + 7) / 8
}

/// Four units in a word, the first in the lowest bits.
pub fn unit_word(first: u16, second: u16, third: u16, fourth: u16) -> u64
    ensures { result ≡ unit_word first second third fourth }
{
    u64::from(first) | u64::from(second) << 16 | u64::from(third) << 32 | u64::from(fourth) << 48
}

/// The word at a place, or 0 past the end.
pub fn word_at(words: &[u64], at: u64) -> u64
    ensures { result ≡ slice_index words.now at }
{
    match words.get(at as usize) {
        Some(word) => *word,
        None => 0,
    }
}

/// The words from an offset on, as many as asked for, or as there are.
pub fn part_of(words: &[u64], offset: u64, len: u64) -> &[u64]
    ensures value { result.now ≡ part_of offset len words.now }
    ensures most { length result.now ≤ length words.now }
    ensures asked { length result.now ≤ len }
{
    let rest = from(words, offset);
    match rest.get(..len as usize) {
        Some(part) => part,
        None => rest,
    }
}

fn from(words: &[u64], offset: u64) -> &[u64]
    ensures { result.now ≡ drop offset words.now }
{
    match words.get(offset as usize..) {
        Some(rest) => rest,
        None => &[],
    }
}

/// Puts the first `count` units of words, four units in each, or as many as there are, into an empty array.
fn unpack(units: &mut ArrayVec<u16, 256>, words: &[u64], count: usize)
    requires empty { units.old.items ≡ [] }
    requires few { length words.now ≤ most_words }
    ensures { units.new.items ≡ unpacked count words.now }
{
    for word in words {
        units.push((*word & 0xffff) as u16);
        units.push((*word >> 16 & 0xffff) as u16);
        units.push((*word >> 32 & 0xffff) as u16);
        units.push((*word >> 48) as u16);
    }
    units.truncate(count);
}

/// Puts the units of the string that a descriptor describes into an empty array.
pub fn unpack_string(units: &mut ArrayVec<u16, 256>, words: &[u64], descriptor: u64)
    requires empty { units.old.items ≡ [] }
    requires few { length words.now ≤ most_words }
    ensures { units.new.items ≡ string_in descriptor words.now }
{
    let size = size_of(descriptor);
    let part = part_of(words, offset_of(descriptor), words_for(size));
    unpack(units, part, (size / 2) as usize);
}

/// The word at the offset of a descriptor, or 0 past the end.
pub fn number_in(words: &[u64], descriptor: u64) -> u64
    ensures { result ≡ number_in descriptor words.now }
{
    word_at(words, offset_of(descriptor))
}
