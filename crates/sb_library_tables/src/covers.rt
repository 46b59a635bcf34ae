// Covers of calls.

use crate::policies::set_of;
use sb_call::{Arg, Args, CallTag, call_word, tag_of_word};
use sb_cover::{Budget, Question, cover};
use sb_host::PolicySet;
use sb_rows::{RowFault, put_between};
use std::alloc::Global;

// The question of the rules of a policy: which are the first that hold, as many as asked for.
fn question(set: &PolicySet, policy: usize, depth: usize) -> Result<Question, RowFault> {
    match set.policy(policy) {
        Some(policy) => Ok(Question {
            rules: policy.rules.clone()?,
            depth,
            is_cut: false,
        }),
        None => Err(RowFault::BadWords),
    }
}

// Appends a call as a script writes it.
fn put_call(out: &mut String, tag: CallTag, args: &Args) -> Result<(), RowFault> {
    put_between(out, "; ")?;
    out.push_str(call_word(tag))?;
    for arg in args.as_slice() {
        match arg {
            Arg::Num(number) => write!(out, " {number:#x}")?,
            Arg::Str(text) => {
                out.push_str(" \"")?;
                for unit in text.as_units() {
                    match char::from_u32(u32::from(*unit)) {
                        Some(letter) => out.push(letter)?,
                        None => write!(out, "{{{unit:x}}}")?,
                    }
                }
                out.push('"')?;
            }
        }
    }
    Ok(())
}

// The calls of a cover, each as a script writes it.
fn told_calls(alloc: Global, tag: CallTag, calls: Option<Vec<Args>>) -> Result<String, RowFault> {
    let Some(calls) = calls else {
        return Ok(String::from_str(alloc, "too complex")?);
    };
    let mut out = String::new(alloc);
    for args in &calls {
        put_call(&mut out, tag, args)?;
    }
    Ok(out)
}

// A cover of the calls of this name, by the first rule that holds, or the first two.
fn cover_of(alloc: Global, rules: &str, name: &str, depth: usize) -> Result<String, RowFault> {
    let set = set_of(alloc, rules)?;
    let Some(tag) = tag_of_word(name.as_bytes()) else {
        return Err(RowFault::BadWords);
    };
    let mut questions = Vec::new(alloc);
    questions.push(question(&set, 0, depth)?)?;
    let mut budget = Budget::for_command();
    budget.begin_tag();
    told_calls(alloc, tag, cover(alloc, tag, &questions, &mut budget)?)
}

/// Calls of which one is decided by the same rule as any other call of this name.
pub fn covered(alloc: Global, rules: &str, name: &str) -> Result<String, RowFault> {
    cover_of(alloc, rules, name, 1)
}

/// Calls for one of which the first two rules that hold are the same as for any other call of this name.
pub fn covered_by_two(alloc: Global, rules: &str, name: &str) -> Result<String, RowFault> {
    cover_of(alloc, rules, name, 2)
}
