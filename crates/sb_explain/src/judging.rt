// `judge`: the verdict of a policy on one call, and why.
ghost use Rattle.std.specs.Prelude.{◌≡◌, IfOk, OnOk};
ghost use Rattle.sb_explain.specs.Listings.{listed, most_lines, with_lines};
ghost use Rattle.sb_explain.specs.Why.{judge_lines};

use crate::lines::verdict_line;
use crate::listings::Listing;
use crate::why::put_call;
use sb_base::NoMemory;
use sb_call::{Arg, CallTag};
use sb_rule::{Policy, verdict_plain};
use std::alloc::Global;

// The lines of `judge`.
fn put_judged(
    alloc: Global,
    listing: &mut Listing,
    policy: &Policy,
    tag: CallTag,
    args: &[Arg],
) -> Result<(), NoMemory>
    ensures { OnOk result (listing.new ≡ with_lines most_lines listing.old (judge_lines policy.now tag args.now)) }
{
    let verdict = verdict_plain(policy, tag, args);
    listing.push(&verdict_line(alloc, verdict)?)?;
    put_call(alloc, listing, policy.rules.as_slice(), tag, args)
}

/// The text of `judge`: the verdict of a policy on a call, the call, and what each rule for it says, up to the one that decides. The rules are evaluated by their
/// definition.
///
/// # Errors
/// `NoMemory` if there was none for the text.
#[tactic(auto, using(crate::proofs::Capping::listed_text))]
pub fn judge_text(
    alloc: Global,
    policy: &Policy,
    tag: CallTag,
    args: &[Arg],
) -> Result<Vec<u8>, NoMemory>
    ensures { IfOk result (λ text. text.items ≡ listed (judge_lines policy.now tag args.now)) }
{
    let mut listing = Listing::new(alloc);
    put_judged(alloc, &mut listing, policy, tag, args)?;
    let text = listing.into_text()?;
    Ok(text)
}
