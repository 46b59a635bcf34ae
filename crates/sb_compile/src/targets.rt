// The programs by which the calls of targets are judged.
ghost use Rattle.std.specs.Prelude.{◌≡◌, ◌<◌, true, length, map, IfOk, MatchOption};
ghost use Rattle.std.specs.List.{list_all};
ghost use Rattle.sb_rule.specs.Verdicts.{policy_at};
ghost use Rattle.sb_rule.specs.WellMade.{is_well_made};
ghost use Rattle.sb_compile.specs.Compiling.{program_of, policies_of_targets};
ghost use Rattle.sb_compile.specs.Targets.{nothing, policies_in};

use crate::programs::{Program, compile};
use sb_base::{Items, NoMemory};
use sb_call::{Arg, CallTag};
use sb_rule::{Judge, Policies, Verdict, WellMadePolicies};
use sb_statements::{Script, TargetScript};
use std::alloc::Global;
use std::marker::Model;

/// Programs, in order.
pub type ProgramList = Items<Program>;

/// The numbers of policies, in order.
pub type PolicyNumbers = Items<u32>;

/// Judges the calls of targets by the programs of their policies, each compiled once. Contracts see the policies of the
/// targets, which are well made.
#[derive(Drop)]
pub struct Programs<'a> {
    // The policies that were compiled.
    policies: &'a Policies,
    // Their programs, in the same order.
    programs: ProgramList,
    // For each target the number of its policy.
    numbers: PolicyNumbers,
    ghost well_made: { list_all is_well_made (policies_in policies.now.list numbers) ≡ true },
    ghost compiled: { programs ≡ map program_of policies.now.list },
}

impl<'a> Model for Programs<'a> {
    ghost use Rattle.sb_compile.specs.Targets.{policies_in, TargetPolicies};

    ghost Value = { TargetPolicies };

    ghost view = { λ p. record { policies = policies_in p.policies.now.list p.numbers; well_made = p.well_made } };
}

// The programs of policies.
fn compile_all(alloc: Global, policies: &WellMadePolicies) -> Result<ProgramList, NoMemory>
    ensures { IfOk result (λ programs. programs ≡ map program_of policies.now.list) }
{
    let mut items = Vec::new(alloc);
    while let Some(policy) = policies.get(items.len()) {
        items.push(compile(alloc, &policy)?)?;
    }
    Ok(ProgramList::new(items))
}

// The numbers of the policies of targets.
fn numbers_of(alloc: Global, targets: &[TargetScript]) -> Result<PolicyNumbers, NoMemory>
    ensures { IfOk result (λ numbers. numbers ≡ map (λ target. target.policy) targets.now) }
{
    let numbers = targets.iter().map(|target| target.policy).collect(alloc)?;
    Ok(PolicyNumbers::new(numbers))
}

impl<'a> Programs<'a> {
    #[tactic(auto, using(crate::proofs::Standing::each_made, crate::proofs::Standing::targets_made, crate::proofs::Standing::numbered))]
    /// The programs of well-made policies, for the targets of a script, each of which names its policy by its number. A
    /// target that names no policy is judged by one without rules.
    ///
    /// # Errors
    /// `NoMemory` if there is none for the programs.
    pub fn new(
        alloc: Global,
        policies: &'a WellMadePolicies,
        script: &Script,
    ) -> Result<Programs<'a>, NoMemory>
        ensures { IfOk result (λ programs. programs.policies ≡ policies_of_targets policies.now.list script.now.targets) }
    {
        let programs = compile_all(alloc, policies)?;
        let numbers = numbers_of(alloc, script.targets.as_slice())?;
        Ok(Programs {
            policies: policies.policies(),
            programs,
            numbers,
        })
    }

    #[tactic(auto, using(crate::proofs::Standing::as_many, crate::proofs::Standing::number_at, crate::proofs::Standing::program_at))]
    // The program of a target.
    fn program(&self, target: u32) -> Option<&Program>
        requires { target < length self.now.policies }
        ensures { MatchOption result (policy_at self.now.policies target ≡ nothing)
            (λ program. program.now ≡ program_of (policy_at self.now.policies target)) }
    {
        let number = self.numbers.as_slice().get(target as usize)?;
        self.programs.as_slice().get(*number as usize)
    }
}

impl<'a> Judge for Programs<'a> {
    ghost policies = { λ p. p.policies };

    ghost well_made = { λ p. p.well_made };

    fn judge(&self, target: u32, tag: CallTag, args: &[Arg]) -> Verdict {
        match self.program(target) {
            Some(program) => program.judge(tag, args),
            None => Verdict::NoRule,
        }
    }
}
