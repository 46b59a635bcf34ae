// A decision without the arguments that it grants.
ghost use Rattle.std.specs.Prelude.{◌≡◌};
ghost use Rattle.sb_book.specs.Rulings.{args_of, ruling_of};

use crate::decisions::Decision;
use sb_block::BlockFault;
use sb_call::{Arg, CallTag};
use sb_rule::{Action, Verdict};

/// What the broker decided, without the arguments that it grants.
#[derive(Clone, Copy)]
pub enum Ruling {
    /// The block has a fault, the first of the copy.
    Refused(BlockFault),
    /// No rule matched, or the first that matched says deny or alarm.
    Denied {
        tag: CallTag,
        verdict: Verdict,
    },
    /// The first rule that matched, on this line, says fake.
    Faked {
        tag: CallTag,
        line: u32,
    },
    /// The first rule that matched, on this line, says allow or readonly.
    Performed {
        tag: CallTag,
        line: u32,
        action: Action,
    },
}

impl Decision {
    /// The decision without its arguments.
    pub fn ruling(&self) -> Ruling
        ensures { result ≡ ruling_of self.now }
    {
        match self {
            Decision::Refused(fault) => Ruling::Refused(*fault),
            Decision::Denied { tag, verdict } => Ruling::Denied {
                tag: *tag,
                verdict: *verdict,
            },
            Decision::Faked { tag, line } => Ruling::Faked {
                tag: *tag,
                line: *line,
            },
            Decision::Performed {
                tag,
                line,
                action,
                ..
            } => Ruling::Performed {
                tag: *tag,
                line: *line,
                action: *action,
            },
        }
    }

    /// The arguments that are granted. Only a call that is performed has any.
    pub fn args(&self) -> &[Arg]
        ensures { result.now ≡ args_of self.now }
    {
        match self {
            Decision::Performed { args, .. } => args.as_slice(),
            Decision::Refused(_) | Decision::Denied { .. } | Decision::Faked { .. } => &[],
        }
    }
}
