// What a host replies to a decision.
ghost use Rattle.std.specs.Prelude.{◌≡◌};
ghost use Rattle.sb_host.specs.Replies.{host_reply};

use sb_book::{
    DENIED_OUTCOME, Decision, FAKED_OUTCOME, PERFORMED_OUTCOME, REFUSED_OUTCOME, fault_words,
};
use sb_call::{ACCESS_DENIED, Answer, Extended, INVALID_PARAMETER, Reply, SUCCESS};

/// The reply to a call with this mark: for a call that is performed the host's answer, and for any other what its decision says,
/// whatever the host answers. Does not allocate.
pub fn host_reply(mark: u64, decision: &Decision, answer: &Answer) -> Reply
    ensures { result ≡ host_reply mark decision.now answer.now }
{
    match decision {
        Decision::Refused(fault) => Reply {
            mark,
            outcome: REFUSED_OUTCOME,
            status: u64::from(INVALID_PARAMETER),
            handle: 0,
            ext: fault_words(*fault),
        },
        Decision::Denied { .. } => Reply {
            mark,
            outcome: DENIED_OUTCOME,
            status: u64::from(ACCESS_DENIED),
            handle: 0,
            ext: Extended::empty(),
        },
        Decision::Faked { .. } => Reply {
            mark,
            outcome: FAKED_OUTCOME,
            status: u64::from(SUCCESS),
            handle: 0,
            ext: Extended::empty(),
        },
        Decision::Performed { .. } => Reply {
            mark,
            outcome: PERFORMED_OUTCOME,
            status: u64::from(answer.status),
            handle: answer.handle,
            ext: answer.ext.copy(),
        },
    }
}
