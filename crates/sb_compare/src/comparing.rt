// What `compare` tells of two lists of policies.
ghost use Rattle.std.specs.Prelude.{◌≡◌, ◌++◌, List, true, IfErr, IfOk, OnOk};
ghost use Rattle.std.specs.List.{list_all};
ghost use Rattle.std.specs.Option.{option_copied};
ghost use Rattle.sb_rule.specs.WellMade.{is_well_made};
ghost use Rattle.sb_compare.specs.Comparing.{policy_named, AreChangesFrom, AreCompared};
ghost use Rattle.sb_compare.specs.Faults.{WasExceeded};
ghost use Rattle.sb_compare.specs.declared.changes.ShownChange.{ShownChange};

use crate::faults::{ChangesFault, CompareFault};
use crate::shown_changes::{ShownChanges, put_policy};
use sb_base::Items;
use sb_call::ShortName;
use sb_cover::Budget;
use sb_rule::Policy;
use std::alloc::Global;

// The first policy of a name.
fn policy_named<'a>(policies: &'a [Policy], name: &ShortName) -> Option<&'a Policy>
    ensures { option_copied result ≡ policy_named name.now policies.now }
{
    for policy in policies {
        if policy.name == *name {
            return Some(policy);
        }
    }
    None
}

// Puts the changes of a policy from the old one of its name, if there is one.
fn put_new(
    alloc: Global,
    olds: &[Policy],
    new: &Policy,
    budget: &mut Budget,
    shown: &mut ShownChanges,
) -> Result<(), CompareFault>
    requires olds { list_all is_well_made olds.now ≡ true }
    requires new { is_well_made new.now ≡ true }
    ensures all { OnOk result ((here : List ShownChange) × (shown.new ≡ shown.old ++ here) × AreChangesFrom (policy_named new.now.name olds.now) new.now here) }
    ensures exceeded { IfErr result (WasExceeded budget.new.is_exceeded) }
{
    let Some(old) = policy_named(olds, &new.name) else {
        return Ok(());
    };
    match put_policy(alloc, old, new, budget, shown) {
        Ok(()) => Ok(()),
        Err(ChangesFault::NoMemory) => Err(CompareFault::NoMemory),
        Err(ChangesFault::TooComplex(tag)) => Err(CompareFault::TooComplex {
            policy: new.name.copy(),
            tag,
        }),
    }
}

/// The changes of each new policy of which there is an old one with its name, in the order of the new ones.
///
/// # Errors
/// `NoMemory` if there was none for them; `TooComplex` only if the budget is exceeded.
pub(crate) fn compared(
    alloc: Global,
    olds: &[Policy],
    news: &[Policy],
    budget: &mut Budget,
) -> Result<ShownChanges, CompareFault>
    requires olds { list_all is_well_made olds.now ≡ true }
    requires news { list_all is_well_made news.now ≡ true }
    ensures all { IfOk result (AreCompared olds.now news.now) }
    ensures exceeded { IfErr result (WasExceeded budget.new.is_exceeded) }
{
    let mut shown = Items::empty(alloc);
    for new in news {
        put_new(alloc, olds, new, budget, &mut shown)?;
    }
    Ok(shown)
}
