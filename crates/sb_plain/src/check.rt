// The command `check`: policies are printed with the listings of their programs.
ghost use Rattle.std.specs.Prelude.{◌≡◌, IfErr, IfOk};
ghost use Rattle.sb_outside.specs.Outside.{joined};
ghost use Rattle.sb_plain.specs.Check.{check_text, checked, listings};
ghost use Rattle.sb_plain.specs.Readings.{GivesEnd, IsOfText};

use crate::ends::{CommandEnd, Ending, Lines, two_texts};
use crate::file_texts::FileText;
use crate::reading::noted_policies_of;
use crate::refusals::Refused;
use sb_base::{Items, NoMemory};
use sb_compile::put_listing;
use sb_message::EndStatus;
use sb_outside::Bytes;
use sb_rule::WellMadePolicies;
use sb_ruletext::print_policies;
use std::alloc::Global;

// The listings of the programs of policies, one after another.
fn listings(alloc: Global, policies: &WellMadePolicies) -> Result<Vec<u8>, NoMemory>
    ensures { IfOk result (λ text. text.items ≡ listings policies.now.list) }
{
    policies.establish_well_made();
    let mut text = Vec::new(alloc);
    let mut number = 0;
    while let Some(policy) = policies.get(number) {
        put_listing(&mut text, alloc, &policy)?;
        number += 1;
    }
    Ok(text)
}

// The two texts of a check: the policies, and the listings of their programs.
#[tactic(auto, unfolding(crate::specs::Check::checked))]
fn check_texts(alloc: Global, policies: &WellMadePolicies) -> Result<Items<Bytes>, NoMemory>
    ensures { IfOk result (λ texts. joined texts ≡ checked policies.now.list) }
{
    let printed = print_policies(alloc, policies)?;
    let listed = listings(alloc, policies)?;
    two_texts(alloc, printed, listed)
}

/// The command `check`: the policies of a text are printed, they as a text and then the listings of their programs, and the notes of the text are told.
pub fn check_policy(alloc: Global, text: FileText) -> Result<CommandEnd, Refused>
    ensures given { GivesEnd (check_text text) result }
    ensures refused { IfErr result (λ refusal. IsOfText refusal.why) }
{
    let (text, policies) = noted_policies_of(alloc, text)?;
    let texts = check_texts(alloc, &policies)?;
    Ok(CommandEnd {
        ending: Ending::Text(Lines::Texts(texts), EndStatus::Done),
        report: None,
        notes: Some(text),
    })
}
