// Policies: named lists of rules.
ghost use Rattle.std.specs.Prelude.{◌≡◌};
ghost use Rattle.sb_rule.specs.Verdicts.{is_for};

use crate::actions::Action;
use crate::conditions::Conds;
use sb_base::Items;
use sb_call::{CallTag, ShortName};
use std::alloc::AllocError;

/// A rule: for the calls of one tag for which all its conditions hold, an action.
pub struct Rule {
    /// The calls that it is for.
    pub tag: CallTag,
    /// Its conditions.
    pub conds: Conds,
    /// What it does.
    pub action: Action,
    /// The line of the policy text on which it is, from 1.
    pub line: u32,
}

impl Rule {
    /// Whether the rule is for the calls of this tag.
    pub fn is_for(&self, tag: CallTag) -> bool
        ensures { result ≡ is_for tag self.now }
    {
        self.tag == tag
    }
}

impl Drop for Rule {
    fn drop(self) {
        let Rule {
            tag: _,
            conds: _,
            action: _,
            line: _,
        } = self;
    }
}

impl Clone for Rule {
    ghost is_clone = { λ value clone. clone ≡ value };

    fn clone(&self) -> Result<Rule, AllocError> {
        Ok(Rule {
            tag: self.tag,
            conds: self.conds.clone()?,
            action: self.action,
            line: self.line,
        })
    }
}

/// The rules of a policy, in the order in which they are tried.
pub type Rules = Items<Rule>;

/// A policy.
pub struct Policy {
    /// Its name.
    pub name: ShortName,
    /// Its rules.
    pub rules: Rules,
}

impl Drop for Policy {
    fn drop(self) {
        let Policy { name: _, rules: _ } = self;
    }
}

impl Clone for Policy {
    ghost is_clone = { λ value clone. clone ≡ value };

    fn clone(&self) -> Result<Policy, AllocError> {
        Ok(Policy {
            name: self.name.copy(),
            rules: self.rules.clone()?,
        })
    }
}

/// Policies, numbered from 0.
pub type PolicyList = Items<Policy>;

/// The policies that targets name by their numbers.
pub struct Policies {
    /// The policies, numbered from 0.
    pub list: PolicyList,
}

// What policies hold is dropped by one call, which is proved here once and not in each crate that drops policies.
impl Drop for Policies {
    fn drop(self) {
        let Policies { list: _ } = self;
    }
}

impl Clone for Policies {
    ghost is_clone = { λ value clone. clone ≡ value };

    fn clone(&self) -> Result<Policies, AllocError> {
        Ok(Policies {
            list: self.list.clone()?,
        })
    }
}
