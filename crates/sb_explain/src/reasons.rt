// The reasons of a verdict.
ghost use Rattle.std.specs.Prelude.{◌≡◌, ◌∷◌, [], MatchOption};
ghost use Rattle.sb_explain.specs.Reasons.{meant, reasons};

use crate::conditions::first_failing;
use sb_call::{Arg, CallTag};
use sb_rule::{Cond, Rule};
use std::marker::Model;

/// What a rule for a call says of it.
#[derive(Clone, Copy)]
pub enum Reason<'a> {
    /// All its conditions hold, and it decides.
    Holds(&'a Rule),
    /// This is its first condition that does not hold.
    Fails(&'a Rule, &'a Cond),
}

/// The reasons of a policy's verdict on a call: what each rule for it says, in the order in which they are tried, up to the one that decides. Contracts see the list.
#[derive(Drop)]
pub struct Reasons<'a> {
    rules: &'a [Rule],
    tag: CallTag,
    args: &'a [Arg],
}

impl<'a> Model for Reasons<'a> {
    ghost use Rattle.std.specs.Prelude.{List};
    ghost use Rattle.sb_explain.specs.Reasons.{Reason, reasons};

    ghost Value = { List Reason };

    ghost view = { λ r. reasons r.rules.now r.tag r.args.now };
}

// What the first of these rules that is for the call says of it, and the rules that are tried after it.
fn next_reason<'a>(
    rules: &'a [Rule],
    tag: CallTag,
    args: &[Arg],
) -> Option<(Reason<'a>, &'a [Rule])>
    ensures { MatchOption result (reasons rules.now tag args.now ≡ [])
        (λ next. reasons rules.now tag args.now ≡ meant next.0 ∷ reasons next.1.now tag args.now) }
{
    let none: &[Rule] = &[];
    let mut left = rules;
    while let Some((rule, later)) = left.split_first() {
        if rule.is_for(tag) {
            return match first_failing(&rule.conds, args) {
                None => Some((Reason::Holds(rule), none)),
                Some(cond) => Some((Reason::Fails(rule, cond), later)),
            };
        }
        left = later;
    }
    None
}

impl<'a> Reasons<'a> {
    /// The reasons of the verdict of these rules on a call.
    pub fn new(rules: &'a [Rule], tag: CallTag, args: &'a [Arg]) -> Reasons<'a>
        ensures { result ≡ reasons rules.now tag args.now }
    {
        Reasons { rules, tag, args }
    }

    /// The next reason, None if there is none.
    pub fn next(&mut self) -> Option<Reason<'a>>
        ensures { MatchOption result (self.old ≡ []) (λ reason. self.old ≡ meant reason ∷ self.new) }
    {
        let (reason, rules) = next_reason(self.rules, self.tag, self.args)?;
        self.rules = rules;
        Some(reason)
    }
}
