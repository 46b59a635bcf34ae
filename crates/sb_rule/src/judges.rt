// What it means to judge by policies.
ghost use Rattle.std.specs.Prelude.{◌≡◌, ◌<◌, length, true};
ghost use Rattle.std.specs.List.{list_all};
ghost use Rattle.sb_call.specs.Arguments.{fits};
ghost use Rattle.sb_rule.specs.Verdicts.{verdict_of, policy_at};
ghost use Rattle.sb_rule.specs.WellMade.{is_well_made};

use crate::verdicts::Verdict;
use sb_call::{Arg, CallTag};

/// Judges the calls of targets by their policies, which are well made.
pub trait Judge: Sync {
    ghost use Rattle.std.specs.Prelude.{List};
    ghost use Rattle.sb_rule.specs.declared.policies.Policy.{Policy};

    // One policy for each target.
    ghost policies: { Self → List Policy };

    /// The verdict of a target's policy on a call. There must be the target, and the arguments must fit the tag.
    fn judge(&self, target: u32, tag: CallTag, args: &[Arg]) -> Verdict
        requires target { target < length (policies self.now) }
        requires fits { fits tag args.now ≡ true }
        ensures { result ≡ verdict_of (policy_at (policies self.now) target) tag args.now };

    ghost well_made: { (j : Self) → list_all is_well_made (policies j) ≡ true };
}
