// How verdicts answer calls.
ghost use Rattle.std.specs.Prelude.{◌≡◌};
ghost use Rattle.sb_compare.specs.Changes.{action_of, are_alike, cuts, grants, is_answered_alike, performs, performs_more};

use crate::changes::Change;
use sb_rule::{Action, Verdict};

fn grants(action: Action) -> bool
    ensures { result ≡ grants action }
{
    match action {
        Action::Allow | Action::ReadOnly => true,
        Action::Deny | Action::Alarm | Action::Fake => false,
    }
}

fn are_alike(writes: bool, old: Action, new: Action) -> bool
    ensures { result ≡ are_alike writes old new }
{
    old == new || (!writes && (grants(old) && grants(new)))
}

fn action_of(verdict: Verdict) -> Action
    ensures { result ≡ action_of verdict }
{
    match verdict {
        Verdict::Rule { line: _, action } => action,
        Verdict::NoRule => Action::Deny,
    }
}

/// Whether both verdicts of a change answer its calls alike: they perform them with the same arguments, fake them, deny them, or deny them with an alarm.
pub(crate) fn is_answered_alike(change: Change) -> bool
    ensures { result ≡ is_answered_alike change }
{
    are_alike(change.writes, action_of(change.old), action_of(change.new))
}

fn performs(verdict: Verdict) -> bool
    ensures { result ≡ performs verdict }
{
    grants(action_of(verdict))
}

fn cuts(verdict: Verdict) -> bool
    ensures { result ≡ cuts verdict }
{
    action_of(verdict) == Action::ReadOnly
}

/// Whether the new verdict performs more: it performs and the old one does not, or the old one cuts the access and it does not.
pub(crate) fn performs_more(old: Verdict, new: Verdict) -> bool
    ensures { result ≡ performs_more old new }
{
    performs(new) && (!performs(old) || (cuts(old) && !cuts(new)))
}
