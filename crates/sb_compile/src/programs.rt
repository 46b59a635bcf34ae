// Programs: the verified codes of a policy, one for each call.
ghost use Rattle.std.specs.Prelude.{◌≡◌, ◌≢◌, ◌++◌, [], true, IfOk, OnOk, OnErr, MatchOption};
ghost use Rattle.sb_call.specs.Arguments.{fits};
ghost use Rattle.sb_rule.specs.Verdicts.{verdict_of};
ghost use Rattle.sb_rule.specs.WellMade.{is_well_made};
ghost use Rattle.sb_rule.specs.declared.policies.Policy.{Policy};
ghost use Rattle.sb_compile.specs.Compiling.{code_of, code_in, program_of, program_verdict};
ghost use Rattle.sb_compile.specs.Listing.{code_lines, listing_of};
ghost use Rattle.sb_compile.specs.Programs.{code_in_call, is_for_tag};
ghost use Rattle.sb_call.specs.Tags.{number_of};

use crate::call_codes::CallCode;
use crate::laws::{compiled_code_is_faultless, compiling_keeps_verdicts};
use crate::listing::put_code;
use crate::rules::code_of;
use sb_base::NoMemory;
use sb_call::{Arg, CallTag, ShortName, every_tag, tags_and_numbers};
use sb_rule::{Verdict, WellMadePolicy};
use std::alloc::Global;
use std::marker::Model;

/// A policy as code: its name, and for each call the code of its rules, in the order in which they are tried. This is what
/// Chromium's Windows sandbox calls a low-level policy.
pub struct Program {
    name: ShortName,
    calls: Vec<Option<CallCode>>,
}

impl Drop for Program {
    fn drop(self) {
        let Program { name: _, calls: _ } = self;
    }
}

impl Model for Program {
    ghost use Rattle.std.specs.Prelude.{◌≡◌, true, map};
    ghost use Rattle.sb_compile.specs.Compiling.{Compiled};
    ghost use Rattle.sb_call.specs.CallWords.{every_tag};
    ghost use Rattle.sb_compile.specs.Programs.{code_in_call, are_for};

    ghost Value = { Compiled };

    ghost view = { λ p. record { name = p.name; codes = map code_in_call p.calls.items } };

    ghost invariant = { λ p. are_for every_tag p.calls.items ≡ true };
}

// The code of a call, which has no fault by the law of compiled code. None if the call has no rules.
fn compile_call(
    alloc: Global,
    policy: &WellMadePolicy<'_>,
    tag: CallTag,
) -> Result<Option<CallCode>, NoMemory>
    ensures code { IfOk result (λ call. code_in_call call ≡ code_of policy.now.rules tag) }
    ensures tag { IfOk result (λ call. is_for_tag tag call ≡ true) }
    ensures memory { OnErr result (code_of policy.now.rules tag ≢ []) }
{
    compiled_code_is_faultless();
    policy.establish_well_made();
    let code = code_of(alloc, policy, tag)?;
    if code.is_empty() {
        return Ok(None);
    }
    Ok(Some(CallCode::new(alloc, policy, tag, code)?))
}

/// The program of a well-made policy. Each condition becomes a group of opcodes; rules for a call keep their order, each
/// ended by its action; a call without rules has no code.
///
/// # Errors
/// `NoMemory` if there was none for the program.
pub fn compile(alloc: Global, policy: &WellMadePolicy<'_>) -> Result<Program, NoMemory>
    ensures { IfOk result (λ program. program ≡ program_of policy.now) }
{
    let mut calls = Vec::new(alloc);
    for tag in every_tag() {
        calls.push(compile_call(alloc, policy, *tag)?)?;
    }
    Ok(Program {
        name: policy.policy().name.copy(),
        calls,
    })
}

// The number of a call, from 1.
fn number_of(tag: CallTag) -> usize
    ensures { result ≡ number_of tag }
{
    tag as usize
}

impl Program {
    /// The verdict of the policy that was compiled: the line and the action of its first rule for the call whose conditions
    /// hold, and `NoRule` if there is none. The arguments must fit the call. Does not allocate.
    pub fn judge(&self, tag: CallTag, args: &[Arg]) -> Verdict
        requires { fits tag args.now ≡ true }
        ensures verdict { result ≡ program_verdict self.now tag args.now }
        ensures compiled { (policy : Policy) → is_well_made policy ≡ true → self.now ≡ program_of policy → result ≡ verdict_of policy tag args.now }
    {
        compiling_keeps_verdicts();
        match self.call(tag) {
            Some(call) => call.judge(args),
            None => Verdict::NoRule,
        }
    }

    // What there is for a call.
    fn call(&self, tag: CallTag) -> Option<&CallCode>
        ensures { MatchOption result (code_in self.now tag ≡ []) (λ call. (call.now.code ≡ code_in self.now tag) × (call.now.tag ≡ tag)) }
    {
        tags_and_numbers();
        match self.calls.get(number_of(tag) - 1) {
            Some(Some(call)) => Some(call),
            _ => None,
        }
    }
}

// Appends the listing of the code of a policy for a call.
#[tactic(auto, using(crate::proofs::Calls::code_listed))]
fn put_call(
    text: &mut Vec<u8>,
    alloc: Global,
    policy: &WellMadePolicy<'_>,
    tag: CallTag,
) -> Result<(), NoMemory>
    ensures { OnOk result (text.new.items ≡ text.old.items ++ code_lines policy.now.name tag (code_in (program_of policy.now) tag)) }
{
    let code = code_of(alloc, policy, tag)?;
    put_code(text, policy.policy().name.bytes(), tag, &code)
}

/// Appends the listing of the program of a policy: for each call that has rules, in the order of their numbers, the line
/// `code POLICY CALL` and a line for each opcode, with its place, what it does and its options. The rules are compiled one call at a
/// time, and nothing is made to judge by.
///
/// # Errors
/// `NoMemory` if there was none for the text or the code of a call.
pub fn put_listing(
    text: &mut Vec<u8>,
    alloc: Global,
    policy: &WellMadePolicy<'_>,
) -> Result<(), NoMemory>
    ensures { OnOk result (text.new.items ≡ text.old.items ++ listing_of (program_of policy.now)) }
{
    for tag in every_tag() {
        put_call(text, alloc, policy, *tag)?;
    }
    Ok(())
}
