// What verdicts grant.
ghost use Rattle.std.specs.Prelude.{◌≡◌, ℕ, bit_and};
ghost use Rattle.sb_dup.specs.Passes.{access_granted, has_more, is_cut, is_granted};

use sb_rule::{Action, READ_ONLY_BITS, Verdict};

/// Whether a verdict lets a call be performed.
pub(crate) fn is_granted(verdict: Verdict) -> bool
    ensures { result ≡ is_granted verdict }
{
    match verdict {
        Verdict::Rule { line: _, action } => match action {
            Action::Allow | Action::ReadOnly => true,
            Action::Deny | Action::Alarm | Action::Fake => false,
        },
        Verdict::NoRule => false,
    }
}

// Whether a verdict cuts the access to the bits that only read.
fn is_cut(verdict: Verdict) -> bool
    ensures { result ≡ is_cut verdict }
{
    match verdict {
        Verdict::Rule { line: _, action } => match action {
            Action::ReadOnly => true,
            Action::Allow | Action::Deny | Action::Alarm | Action::Fake => false,
        },
        Verdict::NoRule => false,
    }
}

#[tactic(auto, using(crate::proofs::Bits::some_bits))]
/// The access that two verdicts grant: cut to the bits that only read if one of them cuts it.
pub(crate) fn access_granted(giver: Verdict, taker: Verdict, access: u32) -> u32
    ensures access { result ≡ access_granted giver taker access }
    ensures within { (held : ℕ) → bit_and access held ≡ access → bit_and result held ≡ result }
{
    if is_cut(giver) || is_cut(taker) {
        access & READ_ONLY_BITS as u32
    } else {
        access
    }
}

/// Whether an access has a bit that another lacks.
pub(crate) fn has_more(access: u32, held: u32) -> bool
    ensures { result ≡ has_more access held }
{
    access & held != access
}
