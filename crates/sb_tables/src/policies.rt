// Table tests of patterns and rules: what a pattern matches, the verdict of a policy by its definition, and which policies are well made.

use crate::inputs::{policies_of_rules, text_of_rules};
use sb_call::{CallTag, ShortName, tag_of_word};
use sb_rows::{RowFault, call, number, put_between, small, wide};
use sb_rule::{
    Action, Cond, Conds, Pattern, PatternRefused, Policies, Policy, PolicyList, Rule, Rules, Test,
    Verdict, all_well_made, verdict_plain, well_made,
};
use sb_ruletext::{NoteKind, read_notes};
use std::alloc::Global;

/// What a function of patterns or policies gives.
pub fn value_of(alloc: Global, name: &str, parts: &[&str]) -> Result<String, RowFault> {
    match parts {
        [first] => match name {
            "all_well_made" => are_well_made(alloc, first),
            "read_notes" => told_notes(alloc, first),
            _ => Err(RowFault::Unknown),
        },
        [first, second] => match name {
            "matches_plain" => matches(alloc, first, second),
            "verdict_plain" => verdict(alloc, first, second),
            "well_made" => is_well_made(alloc, first, second),
            _ => Err(RowFault::Unknown),
        },
        _ => Err(RowFault::Unknown),
    }
}

fn matches(alloc: Global, pattern: &str, text: &str) -> Result<String, RowFault> {
    let pattern = pattern_of(alloc, pattern)?;
    let text = wide(alloc, text)?;
    let matched = pattern.matches_plain(text.as_units());
    Ok(format!(in alloc; "{matched}")?)
}

fn pattern_of(alloc: Global, text: &str) -> Result<Pattern, RowFault> {
    let text = wide(alloc, text)?;
    match Pattern::read(alloc, text.as_units()) {
        Ok(pattern) => Ok(pattern),
        Err(PatternRefused::Fault(_)) => Err(RowFault::BadWords),
        Err(PatternRefused::NoMemory) => Err(RowFault::NoMemory),
    }
}

// The verdict of rules, the first of which is on line 3, on a call.
fn verdict(alloc: Global, rules: &str, text: &str) -> Result<String, RowFault> {
    let policies = policies_of_rules(alloc, rules)?;
    let (tag, args) = call(alloc, text)?;
    let [policy, ..] = policies.policies().list.as_slice() else {
        return Err(RowFault::BadPolicy);
    };
    told_verdict(alloc, verdict_plain(policy, tag, args.as_slice()))
}

/// A verdict as rows show it.
pub fn told_verdict(alloc: Global, verdict: Verdict) -> Result<String, RowFault> {
    match verdict {
        Verdict::Rule { line, action } => told_rule(alloc, line, action),
        Verdict::NoRule => Ok(String::from_str(alloc, "no rule")?),
    }
}

fn told_rule(alloc: Global, line: u32, action: Action) -> Result<String, RowFault> {
    let mut out = format!(in alloc; "line {line} ")?;
    out.push_str(action.word())?;
    Ok(out)
}

// The line, the column and the kind of each note of the text of rules.
fn told_notes(alloc: Global, rules: &str) -> Result<String, RowFault> {
    let text = text_of_rules(alloc, rules)?;
    let mut out = String::new(alloc);
    for note in &read_notes(alloc, text.as_str().as_bytes())? {
        put_between(&mut out, "; ")?;
        let (line, column, kind) = (note.line, note.column, kind_word(note.kind));
        write!(out, "{line}:{column} {kind}")?;
    }
    Ok(out)
}

fn kind_word(kind: NoteKind) -> &'static str {
    match kind {
        NoteKind::UnescapedPrefix => "UnescapedPrefix",
        NoteKind::MatchesNoName => "MatchesNoName",
    }
}

// Whether a policy of one rule is well made: the rule is for a call and has an action, and one condition, that the argument of a number is
// in a range.
fn is_well_made(alloc: Global, head: &str, cond: &str) -> Result<String, RowFault> {
    let (tag, action) = head_of(head)?;
    let mut conds = Conds::new(Vec::new(alloc));
    conds.push(cond_of(cond)?)?;
    let rule = Rule {
        tag,
        conds,
        action,
        line: 3,
    };
    let mut rules = Rules::new(Vec::new(alloc));
    rules.push(rule)?;
    let made = well_made(&policy_of("web", rules)?);
    Ok(format!(in alloc; "{made}")?)
}

// A call and an action by their words.
fn head_of(text: &str) -> Result<(CallTag, Action), RowFault> {
    let (call, action) = text.split_once(' ').unwrap_or((text, ""));
    let Some(tag) = tag_of_word(call.as_bytes()) else {
        return Err(RowFault::BadWords);
    };
    match action {
        "allow" => Ok((tag, Action::Allow)),
        "readonly" => Ok((tag, Action::ReadOnly)),
        _ => Err(RowFault::BadWords),
    }
}

// The number of an argument, and a range.
fn cond_of(text: &str) -> Result<Cond, RowFault> {
    let mut words = text.split_whitespace();
    let param = small(words.next().unwrap_or(""))?;
    let lo = number(words.next().unwrap_or(""))?;
    let hi = number(words.next().unwrap_or(""))?;
    Ok(Cond {
        param,
        negated: false,
        test: Test::Range { lo, hi },
    })
}

fn policy_of(name: &str, rules: Rules) -> Result<Policy, RowFault> {
    match ShortName::new(name.as_bytes()) {
        Some(name) => Ok(Policy { name, rules }),
        None => Err(RowFault::BadWords),
    }
}

// Whether policies with these names and without rules are well made.
fn are_well_made(alloc: Global, names: &str) -> Result<String, RowFault> {
    let mut list = PolicyList::new(Vec::new(alloc));
    for name in names.split_whitespace() {
        list.push(policy_of(name, Rules::new(Vec::new(alloc)))?)?;
    }
    let made = all_well_made(&Policies { list });
    Ok(format!(in alloc; "{made}")?)
}
