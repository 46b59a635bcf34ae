// What `cover` writes.
ghost use Rattle.std.specs.Prelude.{◌≡◌, ◌++◌, List, true, codes, IfErr, IfOk, OnOk};
ghost use Rattle.std.specs.List.{flat_map, list_all};
ghost use Rattle.sb_call.specs.CallWords.{every_tag};
ghost use Rattle.sb_rule.specs.WellMade.{is_well_made};
ghost use Rattle.sb_compare.specs.CoverTexts.{call_lines, cover_text, decided_lines, long_line, none_lines, rule_words, statement_lines, target_lines, undecided_line, AreCovered};
ghost use Rattle.sb_compare.specs.Decided.{AreAllDecided};
ghost use Rattle.sb_compare.specs.Faults.{WasExceeded};
ghost use Rattle.sb_compare.specs.declared.decided.Decided.{Decided};

use crate::change_lines::put_call;
use crate::decided::{Decided, decided_calls};
use crate::faults::{ChangesFault, CompareFault};
use sb_base::{Items, NoMemory, put_named};
use sb_call::{Arg, CallTag};
use sb_cover::{Budget, is_sendable};
use sb_rule::{Policy, Verdict, WellMadePolicies};
use std::alloc::Global;

// Each of these appends to the text. After an error the text may end anywhere.

fn put_rule_words(text: &mut Vec<u8>, verdict: Verdict) -> Result<(), NoMemory>
    ensures { OnOk result (text.new.items ≡ text.old.items ++ rule_words verdict) }
{
    match verdict {
        Verdict::Rule { line, action: _ } => put_named(text, b"rule ", u64::from(line)),
        Verdict::NoRule => Ok(text.extend_from_slice(b"no rule")?),
    }
}

fn put_undecided(text: &mut Vec<u8>, line: u32) -> Result<(), NoMemory>
    ensures { OnOk result (text.new.items ≡ text.old.items ++ undecided_line line) }
{
    put_named(text, b"# rule ", u64::from(line))?;
    text.extend_from_slice(b" decides no call\n")?;
    Ok(())
}

// That a rule decides no call.
fn put_none(text: &mut Vec<u8>, verdict: Verdict) -> Result<(), NoMemory>
    ensures { OnOk result (text.new.items ≡ text.old.items ++ none_lines verdict) }
{
    match verdict {
        Verdict::Rule { line, action: _ } => put_undecided(text, line),
        Verdict::NoRule => Ok(()),
    }
}

// A comment, and a statement with a call.
fn put_statement(
    text: &mut Vec<u8>,
    tag: CallTag,
    verdict: Verdict,
    call: &[Arg],
) -> Result<(), NoMemory>
    ensures { OnOk result (text.new.items ≡ text.old.items ++ statement_lines tag verdict call.now) }
{
    text.extend_from_slice(b"# ")?;
    put_rule_words(text, verdict)?;
    text.push(b'\n')?;
    put_call(text, tag, call)?;
    text.push(b'\n')?;
    Ok(())
}

// That no call that a verdict decides can be sent.
fn put_long(text: &mut Vec<u8>, verdict: Verdict) -> Result<(), NoMemory>
    ensures { OnOk result (text.new.items ≡ text.old.items ++ long_line verdict) }
{
    text.extend_from_slice(b"# ")?;
    put_rule_words(text, verdict)?;
    text.extend_from_slice(b" decides only calls that are longer than a block\n")?;
    Ok(())
}

// A comment, and a statement with a call, unless it is longer than a block.
fn put_call_lines(
    text: &mut Vec<u8>,
    tag: CallTag,
    verdict: Verdict,
    call: &[Arg],
) -> Result<(), NoMemory>
    ensures { OnOk result (text.new.items ≡ text.old.items ++ call_lines tag verdict call.now) }
{
    if is_sendable(call) {
        put_statement(text, tag, verdict, call)
    } else {
        put_long(text, verdict)
    }
}

fn put_decided(text: &mut Vec<u8>, decided: &Decided) -> Result<(), NoMemory>
    ensures { OnOk result (text.new.items ≡ text.old.items ++ decided_lines decided.now) }
{
    match &decided.call {
        Some(call) => put_call_lines(text, decided.tag, decided.verdict, call),
        None => put_none(text, decided.verdict),
    }
}

fn put_list(text: &mut Vec<u8>, list: &[Decided]) -> Result<(), NoMemory>
    ensures { OnOk result (text.new.items ≡ text.old.items ++ flat_map decided_lines list.now) }
{
    for decided in list {
        put_decided(text, decided)?;
    }
    Ok(())
}

// The heading of a policy: a target of its name with one channel and one thread.
fn put_target(text: &mut Vec<u8>, name: &[u8]) -> Result<(), NoMemory>
    ensures { OnOk result (text.new.items ≡ text.old.items ++ target_lines name.now) }
{
    text.extend_from_slice(b"target ")?;
    text.extend_from_slice(name)?;
    text.push(b' ')?;
    text.extend_from_slice(name)?;
    text.extend_from_slice(b" 1\nthread\n")?;
    Ok(())
}

// The calls that the rules of a policy decide, with the name of the policy if they are too complex.
fn calls_of(
    alloc: Global,
    policy: &Policy,
    budget: &mut Budget,
) -> Result<Items<Decided>, CompareFault>
    requires { is_well_made policy.now ≡ true }
    ensures all { IfOk result (AreAllDecided policy.now every_tag) }
    ensures exceeded { IfErr result (WasExceeded budget.new.is_exceeded) }
{
    match decided_calls(alloc, policy, budget) {
        Ok(list) => Ok(list),
        Err(ChangesFault::NoMemory) => Err(CompareFault::NoMemory),
        Err(ChangesFault::TooComplex(tag)) => Err(CompareFault::TooComplex {
            policy: policy.name.copy(),
            tag,
        }),
    }
}

// Puts the lines of a policy.
fn put_policy(
    alloc: Global,
    text: &mut Vec<u8>,
    policy: &Policy,
    budget: &mut Budget,
) -> Result<(), CompareFault>
    requires { is_well_made policy.now ≡ true }
    ensures text { OnOk result ((list : List Decided) × AreAllDecided policy.now every_tag list
        × (text.new.items ≡ text.old.items ++ (target_lines policy.now.name ++ flat_map decided_lines list))) }
    ensures exceeded { IfErr result (WasExceeded budget.new.is_exceeded) }
{
    let list = calls_of(alloc, policy, budget)?;
    put_target(text, policy.name.bytes())?;
    put_list(text, &list)?;
    Ok(())
}

fn first_line(alloc: Global) -> Result<Vec<u8>, NoMemory>
    ensures { IfOk result (λ text. text.items ≡ codes "sandbox-script 1\n") }
{
    let text = Vec::from_slice(alloc, b"sandbox-script 1\n")?;
    Ok(text)
}

// The script of a list of policies.
fn cover_list(
    alloc: Global,
    policies: &[Policy],
    budget: &mut Budget,
) -> Result<Vec<u8>, CompareFault>
    requires { list_all is_well_made policies.now ≡ true }
    ensures text { IfOk result (λ text. (lists : List (List Decided)) × AreCovered policies.now lists × (text.items ≡ cover_text policies.now lists)) }
    ensures exceeded { IfErr result (WasExceeded budget.new.is_exceeded) }
{
    let mut text = first_line(alloc)?;
    for policy in policies {
        put_policy(alloc, &mut text, policy, budget)?;
    }
    Ok(text)
}

/// A script with a shortest call for each rule of some policies: a target for each policy, and for each call in the order of their numbers, for each rule for it
/// and then for no rule, a comment and a statement.
///
/// # Errors
/// `NoMemory` if there was none for it; `TooComplex` only if the budget is exceeded.
#[tactic(auto, using(crate::proofs::ComparedLemmas::all_made))]
pub fn cover_text(
    alloc: Global,
    policies: &WellMadePolicies,
    budget: &mut Budget,
) -> Result<Vec<u8>, CompareFault>
    ensures text { IfOk result (λ text. (lists : List (List Decided)) × AreCovered policies.now.list lists × (text.items ≡ cover_text policies.now.list lists)) }
    ensures exceeded { IfErr result (WasExceeded budget.new.is_exceeded) }
{
    cover_list(alloc, &policies.policies().list, budget)
}
