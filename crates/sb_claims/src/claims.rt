// What is claimed of a policy.

use sb_base::Wide;
use sb_call::{Args, CallTag};
use sb_handles::Service;
use sb_rule::Conds;

/// A claim on a policy.
pub enum Claim {
    /// No call of the tag is performed with granted arguments on which all conditions hold.
    Never { tag: CallTag, conds: Conds },
    /// Each call of the tag on which all conditions hold is performed with exactly its arguments.
    Always { tag: CallTag, conds: Conds },
    /// This call is performed with exactly its arguments.
    Allows { tag: CallTag, args: Args },
    /// This call is not performed. It may be faked.
    Denies { tag: CallTag, args: Args },
    /// No call that is performed names an object of the service at or below the name, and no rename that is performed names a directory that the name is
    /// below.
    Closed { service: Service, name: Wide },
}

impl Drop for Claim {
    fn drop(self) {
        match self {
            Claim::Never { tag: _, conds: _ } | Claim::Always { tag: _, conds: _ } => {}
            Claim::Allows { tag: _, args: _ } | Claim::Denies { tag: _, args: _ } => {}
            Claim::Closed {
                service: _,
                name: _,
            } => {}
        }
    }
}
