// Codes that are sound for a call.
ghost use Rattle.std.specs.Prelude.{◌≡◌, ◌<◌, ◌^◌, true, Option, None, Some, length, MatchResult};
ghost use Rattle.std.specs.List.{list_all};
ghost use Rattle.sb_opcode.specs.Faults.{fault_of};
ghost use Rattle.sb_opcode.specs.WordFaults.{IsWordsFault};
ghost use Rattle.sb_opcode.specs.Packing.{packed, is_sized};

use crate::checks::fault_of;
use crate::codes::{Code, code_of, is_packed};
use crate::faults::{CodeFault, WordsFault};
use sb_base::Items;
use sb_call::CallTag;
use std::marker::Model;

/// Words that were to be a code.
pub type WordList = Items<u64>;

/// A code without a fault for the calls of one tag.
pub struct Verified {
    tag: CallTag,
    code: Code,
}

impl Drop for Verified {
    fn drop(self) {
        let Verified { tag: _, code: _ } = self;
    }
}

impl Model for Verified {
    ghost use Rattle.std.specs.Prelude.{◌≡◌, None};
    ghost use Rattle.sb_opcode.specs.Faults.{fault_of};
    ghost use Rattle.sb_opcode.specs.Verified.{VerifiedCode};

    ghost Value = { VerifiedCode };

    ghost view = { λ v. record { tag = v.tag; code = v.code } };

    ghost invariant = { λ v. fault_of v.tag v.code ≡ None };
}

impl Verified {
    /// A code that is known to have no fault for the calls of a tag. Nothing is looked at.
    pub fn faultless(tag: CallTag, code: Code) -> Verified
        requires { fault_of tag code ≡ None }
        ensures tag { result.tag ≡ tag }
        ensures code { result.code ≡ code }
    {
        Verified { tag, code }
    }

    /// The calls that it is for.
    pub fn tag(&self) -> CallTag
        ensures { result ≡ self.now.tag }
    {
        self.tag
    }

    /// The code.
    pub fn code(&self) -> &Code
        ensures code { result.now ≡ self.now.code }
        ensures sound { fault_of self.now.tag self.now.code ≡ None }
    {
        &self.code
    }
}

/// A code that was refused, and why.
#[derive(Drop)]
pub struct VerifyRefused {
    /// The code, given back.
    pub code: Code,
    /// Its fault.
    pub fault: CodeFault,
}

/// Verifies a code for the calls of a tag. Does not allocate.
///
/// # Errors
/// `NoAction`, `OpenGroup` and `BadParam` exactly if the code has this as its first fault, by their order and then by
/// the place. The code is given back.
pub fn verify(tag: CallTag, code: Code) -> Result<Verified, VerifyRefused>
    ensures { MatchResult result (λ verified. (fault_of tag code ≡ None) × (verified.tag ≡ tag) × (verified.code ≡ code))
        (λ refused. (fault_of tag code ≡ Some refused.fault) × (refused.code ≡ code)) }
{
    match fault_of(tag, &code) {
        Some(fault) => Err(VerifyRefused { code, fault }),
        None => Ok(Verified { tag, code }),
    }
}

/// Words that were refused, and why.
#[derive(Drop)]
pub struct WordsRefused {
    /// The words, given back.
    pub words: WordList,
    /// What is wrong with them.
    pub fault: WordsFault,
}

/// Verifies packed words for the calls of a tag. There are fewer than 2^32 words. The words of the code are those that were
/// given. Does not allocate.
///
/// # Errors
/// `NotPacked` exactly if the words are the packing of no opcodes, and `Code` exactly if they are the packing of
/// opcodes that `verify` refuses, with the same fault. The words are given back.
pub fn verify_words(tag: CallTag, words: Vec<u64>) -> Result<Verified, WordsRefused>
    requires { length words.items < 2 ^ 32 }
    ensures { MatchResult result (λ verified. (packed verified.code ≡ words.items) × (list_all is_sized verified.code ≡ true) × (fault_of tag verified.code ≡ None) × (verified.tag ≡ tag))
        (λ refused. IsWordsFault tag words.items refused.fault × (refused.words ≡ words.items)) }
{
    if !is_packed(&words) {
        return Err(WordsRefused {
            words: WordList::new(words),
            fault: WordsFault::NotPacked,
        });
    }
    match verify(tag, code_of(words)) {
        Ok(verified) => Ok(verified),
        Err(refused) => Err(WordsRefused {
            words: WordList::new(refused.code.into_words()),
            fault: WordsFault::Code(refused.fault),
        }),
    }
}
