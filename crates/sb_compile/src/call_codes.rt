// The code of a call, judged by the rules that an index leaves.
ghost use Rattle.std.specs.Prelude.{◌≡◌, ◌≤◌, true, length, IfOk, None, Some};
ghost use Rattle.sb_call.specs.Arguments.{fits};
ghost use Rattle.sb_rule.specs.Limits.{most_rules};
ghost use Rattle.sb_opcode.specs.Faults.{fault_of};
ghost use Rattle.sb_opcode.specs.Groups.{rules_of};
ghost use Rattle.sb_opcode.specs.Meaning.{meaning};
ghost use Rattle.sb_compile.specs.Compiling.{code_of};
ghost use Rattle.sb_compile.specs.Indexed.{HasEachThatHolds, IsIndexed};

use crate::laws::{candidates_have_each_that_holds, compiled_rules_are_few};
use sb_base::NoMemory;
use sb_call::{Arg, CallTag};
use sb_index::{Index, RuleSet};
use sb_opcode::{Code, RuleCodes, Verified};
use sb_rule::{Verdict, WellMadePolicy};
use std::alloc::Global;
use std::marker::Model;

// From this many rules on a code has an index.
const FEWEST_INDEXED: usize = 4;

/// The code of the rules for a call, with the places of its rules and, if there are several, an index of them.
pub struct CallCode {
    rules: RuleCodes,
    index: Option<Index>,
}

impl Drop for CallCode {
    fn drop(self) {
        let CallCode { rules: _, index: _ } = self;
    }
}

impl Model for CallCode {
    ghost use Rattle.sb_opcode.specs.Verified.{VerifiedCode};
    ghost use Rattle.sb_compile.specs.Indexed.{IsIndexed};

    ghost Value = { VerifiedCode };

    ghost view = { λ c. c.rules };

    ghost invariant = { λ c. IsIndexed c.rules c.index };
}

// The index of the rules for a tag, if there are enough of them and it can leave out some.
fn index_of(
    alloc: Global,
    policy: &WellMadePolicy<'_>,
    tag: CallTag,
    code: &RuleCodes,
) -> Result<Option<Index>, NoMemory>
    requires code { code.now.code ≡ code_of policy.now.rules tag }
    requires tag { code.now.tag ≡ tag }
    ensures { IfOk result (λ index. IsIndexed code.now index) }
{
    if code.len() < FEWEST_INDEXED {
        return Ok(None);
    }
    let index = Index::new(alloc, &policy.policy().rules, tag)?;
    if index.is_empty() {
        Ok(None)
    } else {
        Ok(Some(index))
    }
}

impl CallCode {
    /// The code that was compiled of the rules of a policy for a tag.
    ///
    /// # Errors
    /// `NoMemory` if there was none for the places of the rules or the index.
    pub fn new(
        alloc: Global,
        policy: &WellMadePolicy<'_>,
        tag: CallTag,
        code: Code,
    ) -> Result<CallCode, NoMemory>
        requires code { code ≡ code_of policy.now.rules tag }
        requires faultless { fault_of tag code ≡ None }
        ensures code { IfOk result (λ call. call.code ≡ code) }
        ensures tag { IfOk result (λ call. call.tag ≡ tag) }
    {
        let code = RuleCodes::new(alloc, Verified::faultless(tag, code))?;
        let index = index_of(alloc, policy, tag, &code)?;
        Ok(CallCode { rules: code, index })
    }

    /// The verdict of the code on a call whose arguments fit. Does not allocate.
    pub fn judge(&self, args: &[Arg]) -> Verdict
        requires { fits self.now.tag args.now ≡ true }
        ensures { result ≡ meaning self.now.code args.now }
    {
        match &self.index {
            Some(index) => judge_by(&self.rules, index, args),
            None => judge_each(&self.rules, args),
        }
    }
}

// The verdict of the first rule that holds. A rule that does not is left at once.
#[tactic(auto, using(crate::proofs::Candidates::past_one, crate::proofs::Candidates::at_one, crate::proofs::Candidates::at_end))]
fn judge_each(rules: &RuleCodes, args: &[Arg]) -> Verdict
    ensures { result ≡ meaning rules.now.code args.now }
{
    for number in 0..rules.len() {
        if let Some(verdict) = rules.judge_rule(number, args) {
            return verdict;
        }
    }
    Verdict::NoRule
}

// The verdict of the first rule that holds among those that an index leaves. It is not inlined, so that the verdict of a single rule
// has no frame for a set.
#[inline(never)]
fn judge_by(rules: &RuleCodes, index: &Index, args: &[Arg]) -> Verdict
    requires indexed { IsIndexed rules.now (Some index.now) }
    requires fits { fits rules.now.tag args.now ≡ true }
    ensures { result ≡ meaning rules.now.code args.now }
{
    candidates_have_each_that_holds();
    compiled_rules_are_few();
    judge_among(rules, &index.candidates(args), args)
}

// The verdict of the first rule in a set that holds.
fn judge_among(rules: &RuleCodes, set: &RuleSet, args: &[Arg]) -> Verdict
    requires few { length (rules_of rules.now.code) ≤ most_rules }
    requires candidates { HasEachThatHolds rules.now.code args.now set.now }
    ensures { result ≡ meaning rules.now.code args.now }
{
    let mut at = 0;
    while let Some(number) = set.next_from(at) {
        if number >= rules.len() {
            return Verdict::NoRule;
        }
        match rules.judge_rule(number, args) {
            Some(verdict) => return verdict,
            None => at = number + 1,
        }
    }
    Verdict::NoRule
}
