// The verdict of a policy, by its definition.
ghost use Rattle.std.specs.Prelude.{◌≡◌, ◌==◌};
ghost use Rattle.std.specs.List.{list_any, list_all};
ghost use Rattle.sb_call.specs.Arguments.{arg_at};
ghost use Rattle.sb_rule.specs.Verdicts.{test_holds, cond_holds, rule_holds, verdict_by, verdict_of};

use crate::actions::Action;
use crate::conditions::{Cond, Test};
use crate::policies::{Policy, Rule};
use sb_base::eq_ignore_ascii_case;
use sb_call::{Arg, CallTag};

/// What a policy says of a call.
#[derive(Clone, Copy, PartialEq)]
pub enum Verdict {
    /// The rule on this line decided, with its action.
    Rule { line: u32, action: Action },
    /// No rule for the call holds.
    NoRule,
}

fn is_one_of(numbers: &[u64], value: u64) -> bool
    ensures { result ≡ list_any (λ n. n == value) numbers.now }
{
    numbers.iter().any(|number| *number == value)
}

fn test_holds(test: &Test, arg: &Arg) -> bool
    ensures { result ≡ test_holds test.now arg.now }
{
    match (test, arg) {
        (Test::OneOf(numbers), Arg::Num(value)) => is_one_of(numbers, *value),
        (Test::Range { lo, hi }, Arg::Num(value)) => *lo <= *value && *value <= *hi,
        (Test::Mask(mask), Arg::Num(value)) => *value & *mask != 0,
        (Test::Equal(text), Arg::Str(units)) => eq_ignore_ascii_case(
            units.as_units(),
            text.as_units(),
        ),
        (Test::Like(pattern), Arg::Str(units)) => pattern.matches_plain(units.as_units()),
        _ => false,
    }
}

// A condition of a parameter that the call lacks tests the number 0.
fn param_passes(cond: &Cond, args: &[Arg]) -> bool
    ensures { result ≡ test_holds cond.now.test (arg_at args.now cond.now.param) }
{
    match args.get(cond.param as usize) {
        Some(arg) => test_holds(&cond.test, arg),
        None => test_holds(&cond.test, &Arg::Num(0)),
    }
}

fn cond_holds(cond: &Cond, args: &[Arg]) -> bool
    ensures { result ≡ cond_holds cond.now args.now }
{
    param_passes(cond, args) != cond.negated
}

fn conds_hold(conds: &[Cond], args: &[Arg]) -> bool
    ensures { result ≡ list_all (λ cond. cond_holds cond args.now) conds.now }
{
    conds.iter().all(|cond| cond_holds(cond, args))
}

fn rule_holds(rule: &Rule, tag: CallTag, args: &[Arg]) -> bool
    ensures { result ≡ rule_holds rule.now tag args.now }
{
    rule.is_for(tag) && conds_hold(&rule.conds, args)
}

/// The verdict of a policy on a call: the line and the action of the first rule for the call's tag whose conditions all
/// hold, and `NoRule` exactly if there is none. Rules are tried in the order of the list. If the policy is well
/// made and the arguments fit the tag, each condition finds its argument; otherwise a condition of a parameter that the
/// call lacks tests the number 0.
pub fn verdict_plain(policy: &Policy, tag: CallTag, args: &[Arg]) -> Verdict
    ensures { result ≡ verdict_of policy.now tag args.now }
{
    for rule in &policy.rules {
        if rule_holds(rule, tag, args) {
            return Verdict::Rule {
                line: rule.line,
                action: rule.action,
            };
        }
    }
    Verdict::NoRule
}
