// How the verdicts of two policies on a call differ.

use sb_call::{Args, CallTag, ShortName};
use sb_rule::Verdict;

/// The verdicts of two policies on a call, and whether the call's access has a bit that does more than read.
#[derive(Clone, Copy)]
pub struct Change {
    /// The verdict of the old policy.
    pub old: Verdict,
    /// The verdict of the new policy.
    pub new: Verdict,
    /// Whether the call's access does more than read.
    pub writes: bool,
}

/// A change, with a shortest call that has it.
pub struct ShownChange {
    /// The name of the policy.
    pub policy: ShortName,
    /// The tag of the call.
    pub tag: CallTag,
    /// The change.
    pub change: Change,
    /// The arguments of the call.
    pub call: Args,
}

impl Drop for ShownChange {
    fn drop(self) {
        let ShownChange {
            policy: _,
            tag: _,
            change: _,
            call: _,
        } = self;
    }
}
