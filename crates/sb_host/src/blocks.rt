// Copies and blocks, for hosts and callers that keep words of their own. Every call fits some answer: nothing is required of the numbers.
ghost use Rattle.std.specs.Prelude.{◌≡◌, IfErr, IfOk, OnOk, true};
ghost use Rattle.sb_block.specs.Blocks.{block, encodes};
ghost use Rattle.sb_host.specs.Blocks.{IsNoBlock, copy_of};

use sb_block::{BlockCopy, MAX_WORDS, Words, encode};
use sb_call::{Arg, CallTag, fits};
use thiserror::Error;

/// Why a call has no block.
#[derive(Clone, Copy, Debug, Error)]
pub enum NoBlock {
    /// The arguments are not those of the call.
    #[error("the arguments do not fit the call")]
    Unfit,
    /// The block would need more than 64 words.
    #[error("the call needs more than 64 words")]
    TooBig,
}

/// The copy with these words, before which this count and this end were loaded. None exactly if a worker makes no such copy. Its first fault
/// and its call are those of `sb_block`. Does not allocate.
#[tactic(auto, using(crate::proofs::Copying::long_is_no_copy))]
pub fn copy_of(count: u64, end: u64, words: &[u64]) -> Option<BlockCopy>
    ensures { result ≡ copy_of count end words.now }
{
    if words.len() as u64 > MAX_WORDS {
        return None;
    }
    let mut copied = Words::empty();
    copied.extend(words);
    BlockCopy::of(count, end, copied)
}

/// The block of a call with the caller's mark. Does not allocate.
///
/// # Errors
/// `Unfit` exactly if the arguments are not those of the call, and otherwise `TooBig` exactly if the block needs more than 64 words.
pub fn block_of(tag: CallTag, args: &[Arg], mark: u64) -> Result<Words, NoBlock>
    ensures block { IfOk result (λ words. words ≡ block tag args.now mark) }
    ensures some { OnOk result (encodes tag args.now ≡ true) }
    ensures none { IfErr result (IsNoBlock tag args.now) }
{
    if !fits(tag, args) {
        return Err(NoBlock::Unfit);
    }
    match encode(tag, args, mark) {
        Ok(words) => Ok(words),
        Err(_) => Err(NoBlock::TooBig),
    }
}
