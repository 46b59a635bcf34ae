// The reply that a decision leads to.
ghost use Rattle.std.specs.Prelude.{◌≡◌, Some, true, IfOk, OnOk};
ghost use Rattle.sb_call.specs.Arguments.{fits};
ghost use Rattle.sb_kernel.specs.Namespaces.{perform};
ghost use Rattle.sb_audit.specs.Before.{performed_of, space_with};
ghost use Rattle.sb_audit.specs.Clauses.{by_answer, fixed, reply_due};
ghost use Rattle.sb_audit.specs.Comparing.{same_reply};
ghost use Rattle.sb_audit.specs.Dues.{due_reply, other_word, whole_reply};
ghost use Rattle.sb_audit.specs.Kept.{shown_fits};

use crate::dues::ReplyDue;
use sb_base::NoMemory;
use sb_book::{DENIED_OUTCOME, FAKED_OUTCOME, PERFORMED_OUTCOME, REFUSED_OUTCOME, fault_words};
use sb_call::{ACCESS_DENIED, Arg, CallTag, Extended, INVALID_PARAMETER, SUCCESS};
use sb_kernel::Kernel;
use sb_transcript::{ShownDecision, ShownReply};

/// Whether lines show the same reply.
pub(crate) fn same_reply(a: &ShownReply, b: &ShownReply) -> bool
    ensures { result ≡ same_reply a.now b.now }
{
    *a == *b
}

// A reply without a handle.
fn fixed(outcome: u64, status: u32, ext: Extended) -> ShownReply
    ensures { result ≡ fixed outcome status ext }
{
    ShownReply {
        outcome,
        status: u64::from(status),
        handle: 0,
        ext,
    }
}

// Performs a call, and gives the reply.
fn perform(
    kernel: &mut Kernel,
    target: u32,
    tag: CallTag,
    args: &[Arg],
) -> Result<ShownReply, NoMemory>
    requires fits { fits tag args.now ≡ true }
    ensures reply { IfOk result (λ r. r ≡ by_answer (perform kernel.old target tag args.now).answer) }
    ensures space { OnOk result (kernel.new ≡ (perform kernel.old target tag args.now).space) }
{
    let answer = kernel.perform(target, tag, args)?;
    Ok(ShownReply {
        outcome: PERFORMED_OUTCOME,
        status: u64::from(answer.status),
        handle: answer.handle,
        ext: answer.ext,
    })
}

/// Performs what a decision shows as performed for a target, and gives the reply that it leads to.
pub(crate) fn reply_due(
    kernel: &mut Kernel,
    target: u32,
    decision: &ShownDecision,
) -> Result<ShownReply, NoMemory>
    requires fits { shown_fits decision.now ≡ true }
    ensures reply { IfOk result (λ r. r ≡ reply_due kernel.old target decision.now) }
    ensures space { OnOk result (kernel.new ≡ space_with kernel.old (Some target) (performed_of decision.now)) }
{
    match decision {
        ShownDecision::Allowed { tag, args, .. } | ShownDecision::ReadOnly { tag, args, .. } => {
            perform(kernel, target, *tag, args.as_slice())
        }
        ShownDecision::Refused(fault) => Ok(fixed(
            REFUSED_OUTCOME,
            INVALID_PARAMETER,
            fault_words(*fault),
        )),
        ShownDecision::NoRule(_) | ShownDecision::Denied { .. } | ShownDecision::Alarmed { .. } =>
            Ok(fixed(DENIED_OUTCOME, ACCESS_DENIED, Extended::empty())),
        ShownDecision::Faked { .. } => Ok(fixed(FAKED_OUTCOME, SUCCESS, Extended::empty())),
    }
}

fn whole_reply(reply: &ShownReply) -> ReplyDue
    ensures { result ≡ whole_reply reply.now }
{
    ReplyDue::Whole {
        outcome: reply.outcome,
        status: reply.status,
        handle: reply.handle,
        words: reply.ext.as_slice().len(),
    }
}

// The first of the words due that is another than the one shown; the whole reply if there is none.
fn other_word(whole: ReplyDue, shown: &[u64], wanted: &[u64]) -> ReplyDue
    ensures { result ≡ other_word whole 0 shown.now wanted.now }
{
    let mut left = shown;
    let mut right = wanted;
    let mut at = 0;
    while let Some((first, more)) = left.split_first() {
        let Some((other, others)) = right.split_first() else {
            return whole;
        };
        if *first != *other {
            return ReplyDue::Word { at, value: *other };
        }
        at += 1;
        left = more;
        right = others;
    }
    whole
}

/// What is due in place of the reply that is shown, if it is another.
pub(crate) fn due_reply(shown: &ShownReply, wanted: &ShownReply) -> ReplyDue
    ensures { result ≡ due_reply shown.now wanted.now }
{
    let whole = whole_reply(wanted);
    let shown_words = shown.ext.as_slice();
    let words = wanted.ext.as_slice();
    if shown.outcome == wanted.outcome
        && shown.status == wanted.status
        && shown.handle == wanted.handle
        && shown_words.len() == words.len()
    {
        other_word(whole, shown_words, words)
    } else {
        whole
    }
}
