// The call in a copy of a block.
ghost use Rattle.std.specs.Prelude.{◌≡◌, ◌≤◌, length, true, None, IfOk, IfErr, Ok, MatchResult};
ghost use Rattle.sb_call.specs.Arguments.{fits};
ghost use Rattle.sb_block.specs.Calls.{argument_in, arguments_in, decoded, IsRefusal};
ghost use Rattle.sb_block.specs.Faults.{fault, tag_in};
ghost use Rattle.sb_block.specs.Layout.{most_words};

use crate::copies::BlockCopy;
use crate::faults::{BlockFault, fault_of};
use crate::layout::{descriptors, tag_word};
use crate::packing::{number_in, type_of, unpack_string};
use arrayvec::ArrayVec;
use sb_base::{NoMemory, Refused, Wide};
use sb_call::{Arg, Args, CallTag};
use std::alloc::Global;

/// A call with the caller's mark.
#[derive(Drop)]
pub struct Call {
    /// What is to be done.
    pub tag: CallTag,
    /// The caller's mark, word 1 of the block.
    pub mark: u64,
    /// The arguments.
    pub args: Args,
}

/// Why a copy gave no call: its first fault, or no memory.
pub type BlockRefused = Refused<BlockFault>;

fn argument_in(alloc: Global, words: &[u64], descriptor: u64) -> Result<Arg, NoMemory>
    requires { length words.now ≤ most_words }
    ensures { IfOk result (λ a. a ≡ argument_in words.now descriptor) }
{
    match type_of(descriptor) {
        1 => {
            let mut units = ArrayVec::new();
            unpack_string(&mut units, words, descriptor);
            Ok(Arg::Str(Wide::from_units(alloc, units.as_slice())?))
        }
        2 => Ok(Arg::Num(number_in(words, descriptor) & 0xffff_ffff)),
        _ => Ok(Arg::Num(number_in(words, descriptor))),
    }
}

fn arguments_in(alloc: Global, descriptors: &[u64], words: &[u64]) -> Result<Args, NoMemory>
    requires { length words.now ≤ most_words }
    ensures { IfOk result (λ args. args ≡ arguments_in descriptors.now words.now) }
{
    let mut args = Args::new(Vec::with_capacity(alloc, descriptors.len())?);
    for descriptor in descriptors {
        args.push(argument_in(alloc, words, *descriptor)?)?;
    }
    Ok(args)
}

fn tag_in(words: &[u64]) -> CallTag
    ensures { result ≡ tag_in words.now }
{
    CallTag::try_from(tag_word(words)).unwrap_or(CallTag::Ping)
}

/// The call of a copy, whatever its words are: the tag of word 0, the mark of word 1, and an
/// argument for each descriptor. A number is the low half of its word, a handle is its whole
/// word, and a string has half as many units as bytes. The arguments fit the call.
///
/// # Errors
/// `Fault` exactly if `fault_of` gives that fault, and `NoMemory` only if a copy without a
/// fault ran out of memory for its arguments.
pub fn decode(alloc: Global, copy: &BlockCopy) -> Result<Call, BlockRefused>
    ensures value { MatchResult result (λ call. decoded copy.now ≡ Ok call) (IsRefusal (decoded copy.now)) }
    ensures faultless { IfErr result (λ refused. refused ≡ Refused.NoMemory → fault copy.now ≡ None) }
    ensures fits { IfOk result (λ call. fits call.tag call.args ≡ true) }
{
    if let Some(fault) = fault_of(copy) {
        return Err(BlockRefused::Fault(fault));
    }
    let words = copy.words();
    Ok(Call {
        tag: tag_in(words),
        mark: copy.mark(),
        args: arguments_in(alloc, descriptors(words), words)?,
    })
}
