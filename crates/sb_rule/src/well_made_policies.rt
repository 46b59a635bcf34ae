// Policies that are well made.
ghost use Rattle.std.specs.Prelude.{◌≡◌, ◌≤◌, ◌<◌, true, length, slice_index_or, MatchOption};
ghost use Rattle.sb_rule.specs.WellMade.{are_well_made, is_well_made};
ghost use Rattle.sb_rule.specs.declared.policies.Policy.{Policy};

use crate::policies::{Policies, Policy};
use std::marker::Model;
use std::ops::Deref;

/// Policies that are well made: at most 8, no two of one name, and each of them well made, as `all_well_made` tests it.
/// Contracts see the plain policies.
pub struct WellMadePolicies {
    policies: Policies,
}

impl Drop for WellMadePolicies {
    fn drop(self) {
        let WellMadePolicies { policies: _ } = self;
    }
}

impl Model for WellMadePolicies {
    ghost use Rattle.std.specs.Prelude.{◌≡◌, true};
    ghost use Rattle.sb_rule.specs.WellMade.{are_well_made};
    ghost use Rattle.sb_rule.specs.declared.policies.Policies.{Policies};

    ghost Value = { Policies };

    ghost view = { λ made. made.policies };

    ghost invariant = { λ made. are_well_made made.policies.list ≡ true };
}

impl WellMadePolicies {
    /// The policies, which are known to be well made. They are not tested again. Does not allocate.
    pub fn of(policies: Policies) -> WellMadePolicies
        requires { are_well_made policies.list ≡ true }
        ensures { result ≡ policies }
    {
        WellMadePolicies { policies }
    }

    /// The plain policies, which are well made.
    pub fn policies(&self) -> &Policies
        ensures policies { result.now ≡ self.now }
        ensures well_made { are_well_made self.now.list ≡ true }
    {
        &self.policies
    }

    #[tactic(auto, using(crate::proofs::Members::policy_is_well_made))]
    /// The policy with this number, from 0. None exactly if there are not as many.
    pub fn get(&self, number: usize) -> Option<WellMadePolicy<'_>>
        ensures { MatchOption result (length self.now.list ≤ number)
            (λ policy. (number < length self.now.list) × ((d : Policy) → policy ≡ slice_index_or self.now.list number d)) }
    {
        let policy = self.policies.list.get(number)?;
        Some(WellMadePolicy { policy })
    }

    /// Establishes that the policies are well made, for a proof that needs it and no policy.
    pub fn establish_well_made(&self)
        ensures { are_well_made self.now.list ≡ true }
    {
        self.policies();
    }
}

impl Deref for WellMadePolicies {
    type Target = Policies;

    ghost deref_gives = { λ made policies. policies ≡ made };

    fn deref(&self) -> &Policies {
        &self.policies
    }
}

/// A policy that is well made: one of `WellMadePolicies`. Contracts see the plain policy.
#[derive(Drop)]
pub struct WellMadePolicy<'a> {
    policy: &'a Policy,
}

impl<'a> Model for WellMadePolicy<'a> {
    ghost use Rattle.std.specs.Prelude.{◌≡◌, true};
    ghost use Rattle.sb_rule.specs.WellMade.{is_well_made};
    ghost use Rattle.sb_rule.specs.declared.policies.Policy.{Policy};

    ghost Value = { Policy };

    ghost view = { λ made. made.policy.now };

    ghost invariant = { λ made. is_well_made made.policy.now ≡ true };
}

impl<'a> WellMadePolicy<'a> {
    /// The plain policy, which is well made.
    pub fn policy(&self) -> &'a Policy
        ensures policy { result.now ≡ self.now }
        ensures well_made { is_well_made self.now ≡ true }
    {
        self.policy
    }

    /// Establishes that the policy is well made, for a proof that needs it and no policy.
    pub fn establish_well_made(&self)
        ensures { is_well_made self.now ≡ true }
    {
        self.policy();
    }
}
