// What can be wrong with a copy of a block.
ghost use Rattle.std.specs.Prelude.{◌≡◌, ◌≤◌, length, drop};
ghost use Rattle.std.specs.List.{position};
ghost use Rattle.sb_block.specs.Copies.{whole};
ghost use Rattle.sb_block.specs.Faults.{fault, faults, first_there, has_bad_type, has_bad_place, has_bad_size, first_bad_name, has_shape, has_bad_name, type_number};
ghost use Rattle.sb_block.specs.Layout.{count_in, most_parameters, most_words};

use crate::copies::BlockCopy;
use crate::layout::{
    MAX_PARAMETERS, count_in, descriptors, end_in, first_offset, is_end, tag_word,
};
use crate::packing::{offset_of, size_of, type_of, unpack_string, words_for};
use arrayvec::ArrayVec;
use sb_base::is_name;
use sb_call::{CallTag, ParamKind, shape};
use thiserror::Error;

/// What is wrong with a copy: the first of these that is there, in the order of the variants and
/// then of the parameters.
#[derive(Clone, Copy, Debug, PartialEq, Eq, Error)]
pub enum BlockFault {
    /// The count that was fetched before the copy is this, and above 9.
    #[error("there are {0} parameters")]
    TooManyParams(u64),
    /// The end that was fetched before the copy is this, and lies before the parameters or past
    /// word 64.
    #[error("the end is {0}")]
    BadEnd(u64),
    /// The first count was loaded before the copy, and the second is in it.
    #[error("the count was {0} and is {1}")]
    CountChanged(u64, u64),
    /// The first end was loaded before the copy, and the second is in it.
    #[error("the end was {0} and is {1}")]
    EndChanged(u64, u64),
    /// This parameter, from 0, is neither string, number nor handle.
    #[error("parameter {0} has no known type")]
    BadParamType(u32),
    /// This parameter, from 0, does not lie between the end item and the end.
    #[error("parameter {0} is out of place")]
    BadPlace(u32),
    /// No call has this number.
    #[error("there is no call {0}")]
    UnknownTag(u64),
    /// The parameters are not as many as the call has, or not of their types.
    #[error("the parameters do not fit the call")]
    WrongShape,
    /// This parameter, from 0, has no size that its type allows.
    #[error("parameter {0} has a wrong size")]
    BadSize(u32),
    /// This parameter, from 0, should be a name and is not one.
    #[error("parameter {0} is not a name")]
    BadName(u32),
}

fn has_bad_type(descriptor: u64) -> bool
    ensures { result ≡ has_bad_type descriptor }
{
    !matches!(type_of(descriptor), 1..=3)
}

fn has_bad_place(count: u64, end: u64, descriptor: u64) -> bool
    requires { count ≤ most_parameters }
    ensures { result ≡ has_bad_place count end descriptor }
{
    let offset = offset_of(descriptor);
    offset < first_offset(count) || offset + words_for(size_of(descriptor)) > end
}

fn has_bad_size(descriptor: u64) -> bool
    ensures { result ≡ has_bad_size descriptor }
{
    let size = size_of(descriptor);
    match type_of(descriptor) {
        1 => size % 2 != 0,
        2 => size != 4,
        _ => size != 8,
    }
}

/// The number of a parameter's type: 1 string, 2 number, 3 handle.
pub fn type_number(kind: ParamKind) -> u64
    ensures { result ≡ type_number kind }
{
    match kind {
        ParamKind::Text | ParamKind::Name => 1,
        ParamKind::Num => 2,
        ParamKind::Handle => 3,
    }
}

fn has_shape(kinds: &[ParamKind], descriptors: &[u64]) -> bool
    ensures { result ≡ has_shape kinds.now descriptors.now }
{
    let mut kinds = kinds;
    let mut descriptors = descriptors;
    while let Some((kind, more_kinds)) = kinds.split_first() {
        let Some((descriptor, more)) = descriptors.split_first() else {
            return false;
        };
        if type_of(*descriptor) != type_number(*kind) {
            return false;
        }
        kinds = more_kinds;
        descriptors = more;
    }
    descriptors.is_empty()
}

fn has_bad_name(kind: ParamKind, descriptor: u64, words: &[u64]) -> bool
    requires { length words.now ≤ most_words }
    ensures { result ≡ has_bad_name kind descriptor words.now }
{
    match kind {
        ParamKind::Name => {
            let mut units = ArrayVec::new();
            unpack_string(&mut units, words, descriptor);
            !is_name(units.as_slice())
        }
        _ => false,
    }
}

fn first_bad_name(kinds: &[ParamKind], descriptors: &[u64], words: &[u64]) -> Option<u32>
    requires words { length words.now ≤ most_words }
    requires few { length descriptors.now ≤ most_parameters }
    ensures { result ≡ first_bad_name kinds.now descriptors.now words.now }
{
    let mut kinds = kinds;
    let mut descriptors = descriptors;
    let mut at = 0;
    while let Some((kind, more_kinds)) = kinds.split_first() {
        let (descriptor, more) = descriptors.split_first()?;
        if has_bad_name(*kind, *descriptor, words) {
            return Some(at);
        }
        kinds = more_kinds;
        descriptors = more;
        at += 1;
    }
    None
}

fn first_bad_type(descriptors: &[u64]) -> Option<usize>
    ensures { result ≡ position has_bad_type descriptors.now }
{
    descriptors.iter().position(|word| has_bad_type(*word))
}

fn first_bad_place(count: u64, end: u64, descriptors: &[u64]) -> Option<usize>
    requires { count ≤ most_parameters }
    ensures { result ≡ position (has_bad_place count end) descriptors.now }
{
    descriptors
        .iter()
        .position(|word| has_bad_place(count, end, *word))
}

fn first_bad_size(descriptors: &[u64]) -> Option<usize>
    ensures { result ≡ position has_bad_size descriptors.now }
{
    descriptors.iter().position(|word| has_bad_size(*word))
}

/// The first fault of the words of a copy, by themselves.
fn fault_in(words: &[u64]) -> Option<BlockFault>
    requires words { length words.now ≤ most_words }
    requires few { count_in words.now ≤ most_parameters }
    ensures { result ≡ first_there (drop 4 (faults (whole words.now))) }
{
    let descriptors = descriptors(words);
    if let Some(at) = first_bad_type(descriptors) {
        return Some(BlockFault::BadParamType(at as u32));
    }
    if let Some(at) = first_bad_place(count_in(words), end_in(words), descriptors) {
        return Some(BlockFault::BadPlace(at as u32));
    }
    let Ok(tag) = CallTag::try_from(tag_word(words)) else {
        return Some(BlockFault::UnknownTag(tag_word(words)));
    };
    if !has_shape(shape(tag), descriptors) {
        return Some(BlockFault::WrongShape);
    }
    if let Some(at) = first_bad_size(descriptors) {
        return Some(BlockFault::BadSize(at as u32));
    }
    let at = first_bad_name(shape(tag), descriptors, words)?;
    Some(BlockFault::BadName(at))
}

/// The first fault of a copy, or None if it has none. Does not allocate.
pub fn fault_of(copy: &BlockCopy) -> Option<BlockFault>
    ensures { result ≡ fault copy.now }
{
    let count = copy.count_seen();
    let end = copy.end_seen();
    let words = copy.words();
    if count > MAX_PARAMETERS {
        return Some(BlockFault::TooManyParams(count));
    }
    if !is_end(count, end) {
        return Some(BlockFault::BadEnd(end));
    }
    let copied_count = count_in(words);
    if count != copied_count {
        return Some(BlockFault::CountChanged(count, copied_count));
    }
    let copied_end = end_in(words);
    if end != copied_end {
        return Some(BlockFault::EndChanged(end, copied_end));
    }
    fault_in(words)
}
