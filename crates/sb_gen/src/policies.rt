// The policy of generated scripts.
ghost use Rattle.std.specs.Prelude.{◌≡◌, length, IfOk};
ghost use Rattle.sb_gen.specs.Policies.{policy_text, AreMade};

use sb_base::NoMemory;
use sb_rule::WellMadePolicies;
use sb_ruletext::{TextRefused, read_policies};
use std::alloc::Global;

/// The text of the policy by which the calls of generated scripts are judged.
pub fn policy_text() -> &'static [u8]
    ensures { result.now ≡ policy_text }
{
    b"sandbox-policy 1\npolicy made\ngrant files_any \"\\make\\*\"\ndeny event.create when name like \"*7\"\nallow event.create\nfake event.open\nallow key.open when access in 0..1\nallow ping\n"
}

// The policies of that text. It has no fault.
#[tactic(auto, using(crate::proofs::PolicyText::one_is_made, crate::proofs::PolicyText::text_has_no_fault))]
pub(crate) fn policies(alloc: Global) -> Result<WellMadePolicies, NoMemory>
    ensures made { IfOk result (λ policies. AreMade policies.list) }
    ensures one { IfOk result (λ policies. length policies.list ≡ 1) }
{
    match read_policies(alloc, policy_text()) {
        Ok(policies) => Ok(policies),
        Err(TextRefused::NoMemory) => Err(NoMemory),
        Err(TextRefused::Fault(_)) => unreachable!(),
    }
}
