// Whether what a line shows of its rule is right.
ghost use Rattle.std.specs.Prelude.{◌≡◌, ◌<◌, ◌&&◌, length, true};
ghost use Rattle.std.specs.List.{list_any};
ghost use Rattle.sb_call.specs.Arguments.{fits};
ghost use Rattle.sb_rule.specs.Verdicts.{policy_at, verdict_of};
ghost use Rattle.sb_audit.specs.Dues.{due_read_only, due_rule, written_bits};
ghost use Rattle.sb_audit.specs.Clauses.{is_rule, has_rule, is_allow, only_reads, shows_rule};

use crate::dues::RuleDue;
use sb_call::{Arg, CallTag, fits};
use sb_rule::{Action, Judge, Policy, Rule, Verdict, WRITING_BITS};
use sb_transcript::ShownDecision;

fn is_rule(rule: &Rule, tag: CallTag, line: u32, action: Action) -> bool
    ensures { result ≡ is_rule tag line action rule.now }
{
    rule.is_for(tag) && rule.line == line && rule.action == action
}

fn has_rule(policy: &Policy, tag: CallTag, line: u32, action: Action) -> bool
    ensures { result ≡ has_rule policy.now tag line action }
{
    policy
        .rules
        .iter()
        .any(|rule| is_rule(rule, tag, line, action))
}

fn is_allow(line: u32, verdict: Verdict) -> bool
    ensures { result ≡ is_allow line verdict }
{
    match verdict {
        Verdict::Rule {
            line: deciding,
            action: Action::Allow,
        } => deciding == line,
        Verdict::Rule { .. } | Verdict::NoRule => false,
    }
}

fn only_reads(args: &[Arg]) -> bool
    ensures { result ≡ only_reads args.now }
{
    match args {
        [_, Arg::Num(access), ..] => *access & WRITING_BITS == 0,
        _ => true,
    }
}

// Whether the arguments fit a call, and the rule on this line is the first that holds for it, and allows it.
fn is_allowed<J: Judge>(judge: &J, target: u32, tag: CallTag, args: &[Arg], line: u32) -> bool
    requires there { target < length (J.policies judge.now) }
    ensures { result ≡ (fits tag args.now && is_allow line (verdict_of (policy_at (J.policies judge.now) target) tag args.now)) }
{
    fits(tag, args) && is_allow(line, judge.judge(target, tag, args))
}

/// Whether what a decision shows of its rule is right under the policy of its target, which must be there.
pub(crate) fn shows_rule<J: Judge>(
    judge: &J,
    target: u32,
    policy: &Policy,
    decision: &ShownDecision,
) -> bool
    requires there { target < length (J.policies judge.now) }
    requires policy { policy.now ≡ policy_at (J.policies judge.now) target }
    ensures { result ≡ shows_rule policy.now decision.now }
{
    match decision {
        ShownDecision::Allowed { tag, args, line } => {
            is_allowed(judge, target, *tag, args.as_slice(), *line)
        }
        ShownDecision::ReadOnly { tag, args, line } => {
            fits(*tag, args.as_slice())
                && has_rule(policy, *tag, *line, Action::ReadOnly)
                && only_reads(args.as_slice())
        }
        ShownDecision::Denied { tag, line } => has_rule(policy, *tag, *line, Action::Deny),
        ShownDecision::Alarmed { tag, line } => has_rule(policy, *tag, *line, Action::Alarm),
        ShownDecision::Faked { tag, line } => has_rule(policy, *tag, *line, Action::Fake),
        ShownDecision::NoRule(_) | ShownDecision::Refused(_) => true,
    }
}

// The bits of the access, the second argument, that do more than read.
fn written_bits(args: &[Arg]) -> u64
    ensures { result ≡ written_bits args.now }
{
    match args {
        [_, Arg::Num(access), ..] => *access & WRITING_BITS,
        _ => 0,
    }
}

// What is due if a line shows that the `readonly` rule on a line of the policy allows a call.
fn due_read_only(policy: &Policy, tag: CallTag, args: &[Arg], line: u32) -> RuleDue
    ensures { result ≡ due_read_only policy.now tag args.now line }
{
    if !fits(tag, args) {
        return RuleDue::FittingArgs;
    }
    if has_rule(policy, tag, line, Action::ReadOnly) {
        RuleDue::Without {
            bits: written_bits(args),
        }
    } else {
        RuleDue::RuleOn {
            line,
            action: Action::ReadOnly,
        }
    }
}

/// What is due under the policy of a target, which must be there, if what a decision shows of its rule is wrong.
pub(crate) fn due_rule<J: Judge>(
    judge: &J,
    target: u32,
    policy: &Policy,
    decision: &ShownDecision,
) -> RuleDue
    requires there { target < length (J.policies judge.now) }
    requires policy { policy.now ≡ policy_at (J.policies judge.now) target }
    ensures { result ≡ due_rule policy.now decision.now }
{
    match decision {
        ShownDecision::Allowed { tag, args, .. } => {
            if fits(*tag, args.as_slice()) {
                RuleDue::Decided(judge.judge(target, *tag, args.as_slice()))
            } else {
                RuleDue::FittingArgs
            }
        }
        ShownDecision::ReadOnly { tag, args, line } => {
            due_read_only(policy, *tag, args.as_slice(), *line)
        }
        ShownDecision::Denied { line, .. } => RuleDue::RuleOn {
            line: *line,
            action: Action::Deny,
        },
        ShownDecision::Alarmed { line, .. } => RuleDue::RuleOn {
            line: *line,
            action: Action::Alarm,
        },
        ShownDecision::Faked { line, .. } => RuleDue::RuleOn {
            line: *line,
            action: Action::Fake,
        },
        ShownDecision::NoRule(_) | ShownDecision::Refused(_) => RuleDue::FittingArgs,
    }
}
