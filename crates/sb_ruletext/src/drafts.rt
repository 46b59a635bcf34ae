// What lines add to the policies so far. Rules are added to the last of them.
ghost use Rattle.std.specs.Prelude.{◌≡◌};
ghost use Rattle.std.specs.List.{list_any};
ghost use Rattle.sb_rule.specs.WellMade.{is_named};
ghost use Rattle.sb_ruletext.specs.Lines.{with_policy, with_last_rules};
ghost use Rattle.sb_text.specs.Steps.{Becomes, at_token};

use crate::faults::{LineRefused, PolicyFaultKind, PolicyLimit};
use sb_call::ShortName;
use sb_rule::{MAX_POLICIES, MAX_RULES, Policy, PolicyList, Rules};
use sb_text::Tokens;
use std::alloc::Global;

/// Whether a policy has this name.
pub(crate) fn is_any_named(policies: &[Policy], name: &[u8]) -> bool
    ensures { result ≡ list_any (is_named name.now) policies.now }
{
    policies.iter().any(|policy| policy.name.bytes() == name)
}

/// Adds a policy without rules, by this line.
pub(crate) fn add_policy(
    alloc: Global,
    policies: &mut PolicyList,
    line: &Tokens,
    name: ShortName,
) -> Result<(), LineRefused>
    ensures { Becomes (at_token line.now (with_policy policies.old name)) result policies.new }
{
    if policies.len() >= MAX_POLICIES {
        return Err(line.fail(PolicyFaultKind::TooMany(PolicyLimit::Policies)));
    }
    policies.push(Policy {
        name,
        rules: Rules::empty(alloc),
    })?;
    Ok(())
}

/// Adds rules to the last policy, by this line.
#[tactic(auto, using(crate::proofs::Added::placed_too_many, crate::proofs::Added::placed_nowhere))]
pub(crate) fn add_rules(
    policies: &mut PolicyList,
    line: &Tokens,
    rules: Rules,
) -> Result<(), LineRefused>
    ensures { Becomes (at_token line.now (with_last_rules policies.old rules)) result policies.new }
{
    let Some(mut last) = policies.pop() else {
        return Err(line.fail(PolicyFaultKind::NoHeading));
    };
    if last.rules.len().saturating_add(rules.len()) > MAX_RULES {
        return Err(line.fail(PolicyFaultKind::TooMany(PolicyLimit::Rules)));
    }
    last.rules.append(rules)?;
    policies.push(last)?;
    Ok(())
}
