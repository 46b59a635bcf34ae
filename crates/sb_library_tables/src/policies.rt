// Policies of rows, with their programs.

use sb_call::CallTag;
use sb_host::PolicySet;
use sb_rows::{RowFault, call, put_between};
use sb_rule::{Verdict, WellMadePolicies};
use sb_ruletext::{TextRefused, read_policies};
use std::alloc::Global;

// As many bytes as the sandbox reads of a policy.
const MAX_BYTES: usize = 4_194_304;

/// The policies of a file whose lines, but the first, are these, separated by semicolons.
pub fn policies_of(alloc: Global, lines: &str) -> Result<WellMadePolicies, RowFault> {
    let mut text = String::from_str(alloc, "sandbox-policy 2\n")?;
    for line in lines.split(';') {
        write!(text, "{line}\n")?;
    }
    if text.len() > MAX_BYTES {
        return Err(RowFault::TooMany);
    }
    match read_policies(alloc, text.as_str().as_bytes()) {
        Ok(policies) => Ok(policies),
        Err(TextRefused::Fault(_)) => Err(RowFault::BadPolicy),
        Err(TextRefused::NoMemory) => Err(RowFault::NoMemory),
    }
}

/// The policies `web`, with these rules, separated by semicolons, the first of which is on line 3, and `none`, with no rule.
pub fn set_of(alloc: Global, rules: &str) -> Result<PolicySet, RowFault> {
    let lines = format!(in alloc; "policy web;{rules};policy none")?;
    let policies = policies_of(alloc, lines.as_str())?;
    Ok(PolicySet::new(alloc, policies)?)
}

// The number of the policy of this name, and how many rules it has.
fn told_policy(alloc: Global, set: &PolicySet, name: &str) -> Result<String, RowFault> {
    let count = set.len();
    let Some(number) = set.find(name.as_bytes()) else {
        return Ok(format!(in alloc; "none of {count}")?);
    };
    let rules = match set.policy(number) {
        Some(policy) => policy.rules.as_slice().len(),
        None => 0,
    };
    Ok(format!(in alloc; "policy {number} of {count}, rules {rules}")?)
}

/// The policy of this name.
pub fn found(alloc: Global, rules: &str, name: &str) -> Result<String, RowFault> {
    told_policy(alloc, &set_of(alloc, rules)?, name)
}

/// The policy of this name among none.
pub fn found_in_none(alloc: Global, name: &str) -> Result<String, RowFault> {
    told_policy(alloc, &PolicySet::empty(alloc), name)
}

/// The verdicts of both policies on a call, and of a third one, which is not there.
pub fn judged(alloc: Global, rules: &str, text: &str) -> Result<String, RowFault> {
    let set = set_of(alloc, rules)?;
    let (tag, args) = call(alloc, text)?;
    let mut out = String::new(alloc);
    for policy in 0..3 {
        put_between(&mut out, "; ")?;
        match set.verdict(policy, tag, args.as_slice()) {
            Some(verdict) => put_verdict(&mut out, tag, verdict)?,
            None => out.push_str("none")?,
        }
    }
    Ok(out)
}

/// Appends a verdict on a call of this name.
pub fn put_verdict(out: &mut String, tag: CallTag, verdict: Verdict) -> Result<(), RowFault> {
    out.push_str(sb_call::call_word(tag))?;
    match verdict {
        Verdict::Rule { line, action } => {
            write!(out, " rule {line} ")?;
            Ok(out.push_str(action.word())?)
        }
        Verdict::NoRule => Ok(out.push_str(" no rule")?),
    }
}
