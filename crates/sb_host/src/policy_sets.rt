// Policies and the programs by which they judge, in one value.
ghost use Rattle.std.specs.Prelude.{◌≡◌, ◌<◌, ◌&&◌, [], length, map, true, is_some, nat_lt, IfOk, IfSome, MatchOption};
ghost use Rattle.std.specs.List.{list_all, position};
ghost use Rattle.sb_call.specs.Arguments.{fits};
ghost use Rattle.sb_rule.specs.Verdicts.{policy_at, verdict_of};
ghost use Rattle.sb_rule.specs.WellMade.{is_named, is_well_made};
ghost use Rattle.sb_rule.specs.declared.policies.Policy.{Policy};
ghost use Rattle.sb_compile.specs.Compiling.{program_of};
ghost use Rattle.sb_compile.specs.Targets.{nothing};

use sb_base::{Items, NoMemory};
use sb_call::{Arg, CallTag, fits};
use sb_compile::{Program, ProgramList, compile};
use sb_rule::{Judge, Policies, Policy, PolicyList, Verdict, WellMadePolicies};
use std::alloc::Global;
use std::marker::Model;

/// Policies that are well made, each compiled once. Policies are numbered from 0. Contracts see the policies.
#[derive(Drop)]
pub struct PolicySet {
    policies: WellMadePolicies,
    // Their programs, in the same order.
    programs: ProgramList,
    ghost well_made: { list_all is_well_made policies.list ≡ true },
    ghost compiled: { programs ≡ map program_of policies.list },
}

impl Model for PolicySet {
    ghost use Rattle.sb_compile.specs.Targets.{TargetPolicies};

    ghost Value = { TargetPolicies };

    ghost view = { λ s. record { policies = s.policies.list; well_made = s.well_made } };
}

// The programs of policies.
fn compile_all(alloc: Global, policies: &WellMadePolicies) -> Result<ProgramList, NoMemory>
    ensures { IfOk result (λ programs. programs ≡ map program_of policies.now.list) }
{
    let mut items = Vec::new(alloc);
    while let Some(policy) = policies.get(items.len()) {
        items.push(compile(alloc, &policy)?)?;
    }
    Ok(ProgramList::new(items))
}

fn is_named(name: &[u8], policy: &Policy) -> bool
    ensures { result ≡ is_named name.now policy.now }
{
    policy.name.bytes() == name
}

fn place_of(name: &[u8], policies: &[Policy]) -> Option<usize>
    ensures { result ≡ position (is_named name.now) policies.now }
{
    policies.iter().position(|policy| is_named(name, policy))
}

impl PolicySet {
    /// The policies with their programs.
    ///
    /// # Errors
    /// `NoMemory` if there was none for the programs.
    #[tactic(auto, using(crate::proofs::Standing::each_made))]
    pub fn new(alloc: Global, policies: WellMadePolicies) -> Result<PolicySet, NoMemory>
        ensures { IfOk result (λ set. set.policies ≡ policies.list) }
    {
        policies.establish_well_made();
        let programs = compile_all(alloc, &policies)?;
        Ok(PolicySet { policies, programs })
    }

    /// No policies. Does not allocate.
    pub fn empty(alloc: Global) -> PolicySet
        ensures { result.policies ≡ [] }
    {
        let policies = WellMadePolicies::of(Policies {
            list: PolicyList::empty(alloc),
        });
        PolicySet {
            policies,
            programs: ProgramList::empty(alloc),
        }
    }

    /// How many policies there are, at most 8.
    pub fn len(&self) -> usize
        ensures { result ≡ length self.now.policies }
    {
        self.policies.policies().list.len()
    }

    /// The number of the policy of this name. None exactly if there is none.
    pub fn find(&self, name: &[u8]) -> Option<usize>
        ensures { result ≡ position (is_named name.now) self.now.policies }
    {
        place_of(name, self.policies.policies().list.as_slice())
    }

    /// The policy with this number. None exactly if there are not as many.
    pub fn policy(&self, number: usize) -> Option<&Policy>
        ensures there { is_some result ≡ nat_lt number (length self.now.policies) }
        ensures policy { IfSome result (λ policy. policy.now ≡ policy_at self.now.policies number) }
    {
        self.policies.policies().list.get(number)
    }

    /// The verdict of the policy with this number on a call, by its program. None exactly if there is no such policy, or the arguments are not
    /// those of the call. Does not allocate.
    pub fn verdict(&self, policy: u32, tag: CallTag, args: &[Arg]) -> Option<Verdict>
        ensures some { is_some result ≡ (nat_lt policy (length self.now.policies) && fits tag args.now) }
        ensures verdict { IfSome result (λ verdict. verdict ≡ verdict_of (policy_at self.now.policies policy) tag args.now) }
    {
        if policy as usize >= self.len() || !fits(tag, args) {
            return None;
        }
        Some(self.judge(policy, tag, args))
    }

    // The program of a policy.
    #[tactic(auto, using(crate::proofs::Standing::program_at))]
    fn program(&self, number: u32) -> Option<&Program>
        requires { number < length self.now.policies }
        ensures { MatchOption result (policy_at self.now.policies number ≡ nothing)
            (λ program. program.now ≡ program_of (policy_at self.now.policies number)) }
    {
        self.programs.as_slice().get(number as usize)
    }
}

impl Judge for PolicySet {
    ghost policies = { λ s. s.policies };

    ghost well_made = { λ s. s.well_made };

    fn judge(&self, target: u32, tag: CallTag, args: &[Arg]) -> Verdict {
        match self.program(target) {
            Some(program) => program.judge(tag, args),
            None => Verdict::NoRule,
        }
    }
}
