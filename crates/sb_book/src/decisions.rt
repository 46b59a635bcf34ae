// What the broker decides of a copy.
ghost use Rattle.std.specs.Prelude.{◌≡◌, ◌<◌, length, true, None, Ok, IfOk, OnErr};
ghost use Rattle.sb_block.specs.Faults.{fault};
ghost use Rattle.sb_call.specs.Arguments.{fits};
ghost use Rattle.sb_rule.specs.Verdicts.{policy_at};
ghost use Rattle.sb_book.specs.Decisions.{by_decoded, decision_of, by_verdict, read_only_args};

use sb_base::NoMemory;
use sb_block::{BlockCopy, BlockFault, BlockRefused, Call, decode};
use sb_call::{Arg, Args, CallTag};
use sb_rule::{Action, Judge, READ_ONLY_BITS, Verdict};
use std::alloc::Global;

/// What the broker decides of the copy of a parameter block.
pub enum Decision {
    /// The block has a fault, the first of the copy.
    Refused(BlockFault),
    /// No rule matched, or the first that matched says deny or alarm.
    Denied {
        tag: CallTag,
        verdict: Verdict,
    },
    /// The first rule that matched, on this line, says fake.
    Faked {
        tag: CallTag,
        line: u32,
    },
    /// The first rule that matched, on this line, says allow or readonly, and grants these arguments.
    Performed {
        tag: CallTag,
        line: u32,
        action: Action,
        args: Args,
    },
}

// What a decision holds is dropped by one call, as with a book.
impl Drop for Decision {
    fn drop(self) {
        match self {
            Decision::Refused(_) => {}
            Decision::Denied { tag: _, verdict: _ } => {}
            Decision::Faked { tag: _, line: _ } => {}
            Decision::Performed {
                tag: _,
                line: _,
                action: _,
                args: _,
            } => {}
        }
    }
}

/// Decides by the rules of a target's policy, on the copy alone. Nothing is performed. The judge must know the target.
///
/// # Errors
/// `NoMemory` if there was none for the call's strings. A copy with a fault has no call, and is decided without memory.
pub fn decide<J: Judge>(
    alloc: Global,
    judge: &J,
    target: u32,
    taken: &BlockCopy,
) -> Result<Decision, NoMemory>
    requires { target < length (J.policies judge.now) }
    ensures exact { IfOk result (λ d. d ≡ decision_of (policy_at (J.policies judge.now) target) taken.now) }
    ensures memory { OnErr result (fault taken.now ≡ None) }
{
    match decode(alloc, taken) {
        Ok(call) => Ok(decide_call(judge, target, call)),
        Err(BlockRefused::Fault(fault)) => Ok(Decision::Refused(fault)),
        Err(BlockRefused::NoMemory) => Err(NoMemory),
    }
}

/// Decides by the rules of a target's policy on the call of a copy, which has no fault. Nothing is performed, and nothing is allocated. The
/// judge must know the target, and the arguments fit the call, as those of each call that a copy has.
pub fn decide_call<J: Judge>(judge: &J, target: u32, call: Call) -> Decision
    requires target { target < length (J.policies judge.now) }
    requires fits { fits call.tag call.args ≡ true }
    ensures { result ≡ by_decoded (policy_at (J.policies judge.now) target) (Ok call) }
{
    let verdict = judge.judge(target, call.tag, call.args.as_slice());
    decided(call, verdict)
}

// The decision that a verdict on a call makes.
fn decided(call: Call, verdict: Verdict) -> Decision
    ensures { result ≡ by_verdict call.tag call.args verdict }
{
    let Call { tag, args, .. } = call;
    match verdict {
        Verdict::Rule { line, action } => match action {
            Action::Allow => Decision::Performed {
                tag,
                line,
                action,
                args,
            },
            Action::ReadOnly => Decision::Performed {
                tag,
                line,
                action,
                args: read_only_args(args),
            },
            Action::Fake => Decision::Faked { tag, line },
            Action::Deny | Action::Alarm => Decision::Denied { tag, verdict },
        },
        Verdict::NoRule => Decision::Denied { tag, verdict },
    }
}

// The arguments with the access, the second of them, cut to the bits that only read.
fn read_only_args(args: Args) -> Args
    ensures { result ≡ read_only_args args }
{
    let mut items = args.into_items();
    if let [_, Arg::Num(access), ..] = items.as_slice() {
        let access = *access & READ_ONLY_BITS;
        items[1] = Arg::Num(access);
    }
    Args::new(items)
}
