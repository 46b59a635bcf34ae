// Reading the lines below the version line.
ghost use Rattle.std.specs.Prelude.{◌≡◌};
ghost use Rattle.sb_base.specs.Refusals.{Gives};
ghost use Rattle.sb_ruletext.specs.Lines.{is_headed, name_at, heading, call_at, end_at_when, when_of, rule, grant_at, grant, first_word_fault, line_of};
ghost use Rattle.sb_ruletext.specs.declared.faults.PolicyFaultKind.TheVariants.{NoHeading};
ghost use Rattle.sb_text.specs.Steps.{Reads, Becomes, unless_fails};
ghost use Rattle.sb_text.specs.Tokens.{tokens_of};

use crate::conditions::{cells_at, conditions_of};
use crate::drafts::{add_policy, add_rules, is_any_named};
use crate::faults::PolicyFaultKind::{self, OtherWord, UnknownCall, UnknownWord};
use crate::faults::{LineRefused, WordDue};
use crate::grants::{Grant, grant_of, one, rules_of};
use crate::readers::{line_end, word_or};
use crate::words::action_of;
use sb_call::{CallTag, ShortName, tag_of_word};
use sb_rule::{Action, Conds, Policy, PolicyList, Rule, Rules, is_for_readers};
use sb_text::{Line, Token, Tokens, WordFault, or_fails};
use std::alloc::Global;

// NAME: a short name that no policy so far has.
fn name_at(policies: &[Policy], tokens: &mut Tokens) -> Result<ShortName, LineRefused>
    ensures { Reads (name_at policies.now tokens.old) result tokens.new }
{
    let due = tokens.copy();
    let word = word_or(UnknownWord(WordFault::Quoted), tokens)?;
    let name = or_fails(&due, OtherWord(WordDue::Name), ShortName::new(word))?;
    if is_any_named(policies, word) {
        return Err(due.fail(PolicyFaultKind::SameName));
    }
    Ok(name)
}

// `policy NAME`, after its first word.
#[tactic(auto, unfolding(crate::specs::Lines::heading))]
fn heading(
    alloc: Global,
    policies: &mut PolicyList,
    line: &Tokens,
    tokens: &mut Tokens,
) -> Result<(), LineRefused>
    ensures { Becomes (heading policies.old line.now tokens.old) result policies.new }
{
    let name = name_at(policies.as_slice(), tokens)?;
    line_end(tokens)?;
    add_policy(alloc, policies, line, name)
}

// The name of a call.
fn call_at(tokens: &mut Tokens) -> Result<CallTag, LineRefused>
    ensures { Reads (call_at tokens.old) result tokens.new }
{
    let due = tokens.copy();
    let word = word_or(UnknownCall, tokens)?;
    or_fails(&due, UnknownCall, tag_of_word(word))
}

// The fault of what is here in place of `when`.
fn end_at_when(tokens: &Tokens) -> Result<Conds, LineRefused>
    ensures { Gives (end_at_when tokens.now) result }
{
    match tokens.peek() {
        Some(Token::Bad) => Err(tokens.fail(UnknownWord(WordFault::Broken))),
        _ => Err(tokens.fail(OtherWord(WordDue::When))),
    }
}

// Nothing, or `when` and conditions, up to the line's end.
fn when_of(alloc: Global, tag: CallTag, tokens: &mut Tokens) -> Result<Conds, LineRefused>
    ensures { Gives (when_of tag tokens.old) result }
{
    if tokens.is_end() {
        return Ok(Conds::empty(alloc));
    }
    if !tokens.pass_word(b"when") {
        return end_at_when(tokens);
    }
    conditions_of(alloc, tag, tokens)
}

// `ACTION CALL` and what follows, after its first word.
#[tactic(auto, unfolding(crate::specs::Lines::rule))]
fn rule(alloc: Global, line: u32, action: Action, tokens: &mut Tokens) -> Result<Rules, LineRefused>
    ensures { Gives (rule line action tokens.old) result }
{
    let due = tokens.copy();
    let tag = call_at(tokens)?;
    if !is_for_readers(action, tag) {
        return Err(due.fail(PolicyFaultKind::NotReadOnly));
    }
    let conds = when_of(alloc, tag, tokens)?;
    Ok(one(
        alloc,
        Rule {
            tag,
            conds,
            action,
            line,
        },
    )?)
}

// The word of a grant.
fn grant_at(tokens: &mut Tokens) -> Result<Grant, LineRefused>
    ensures { Reads (grant_at tokens.old) result tokens.new }
{
    let due = tokens.copy();
    let word = word_or(UnknownWord(WordFault::Quoted), tokens)?;
    or_fails(&due, OtherWord(WordDue::Grant), grant_of(word))
}

// `grant GRANT "PATTERN"`, after its first word.
#[tactic(auto, unfolding(crate::specs::Lines::grant))]
fn grant(alloc: Global, line: u32, tokens: &mut Tokens) -> Result<Rules, LineRefused>
    ensures { Gives (grant line tokens.old) result }
{
    let grant = grant_at(tokens)?;
    let pattern = cells_at(alloc, UnknownWord(WordFault::Unquoted), tokens)?;
    line_end(tokens)?;
    Ok(rules_of(alloc, line, grant, &pattern)?)
}

// A heading has to precede the line.
fn check_heading(policies: &[Policy], line: &Tokens) -> Result<(), LineRefused>
    ensures { Gives (unless_fails line.now NoHeading (is_headed policies.now)) result }
{
    match policies {
        [] => Err(line.fail(PolicyFaultKind::NoHeading)),
        _ => Ok(()),
    }
}

// Why a first word is not known: `readonly` is, in a text of version 2.
fn first_word_fault(word: &[u8]) -> PolicyFaultKind
    ensures { result ≡ first_word_fault word.now }
{
    if word == b"readonly".as_slice() {
        UnknownWord(WordFault::Misplaced)
    } else {
        OtherWord(WordDue::Line)
    }
}

/// What a line adds to the policies so far. After an error they are unspecified.
#[tactic(auto, unfolding(crate::specs::Lines::line_of))]
pub(crate) fn line_of(
    alloc: Global,
    version: u32,
    policies: &mut PolicyList,
    line: &Line,
) -> Result<(), LineRefused>
    ensures { Becomes (line_of version policies.old line.now.number (tokens_of line.now.text.now)) result policies.new }
{
    let first = line.tokens();
    let mut tokens = first.copy();
    let word = word_or(UnknownWord(WordFault::Quoted), &mut tokens)?;
    if word == b"policy".as_slice() {
        return heading(alloc, policies, &first, &mut tokens);
    }
    if word == b"grant".as_slice() {
        check_heading(policies.as_slice(), &first)?;
        let rules = grant(alloc, line.number, &mut tokens)?;
        return add_rules(policies, &first, rules);
    }
    match action_of(version, word) {
        Some(action) => {
            check_heading(policies.as_slice(), &first)?;
            let rules = rule(alloc, line.number, action, &mut tokens)?;
            add_rules(policies, &first, rules)
        }
        None => Err(first.fail(first_word_fault(word))),
    }
}
