// What lines show of decisions, replies and results.
ghost use Rattle.std.specs.Prelude.{◌≡◌};
ghost use Rattle.sb_book.specs.Rulings.{decision_with};
ghost use Rattle.sb_book.specs.declared.rulings.Ruling.TheVariants.{Denied, Performed};
ghost use Rattle.sb_rule.specs.declared.verdicts.Verdict.TheVariants.{Rule};
ghost use Rattle.sb_transcript.specs.Printed.{args_seen, shown_call, shown_decision, shown_reply, shown_result};

use crate::read_lines::{ShownDecision, ShownReply, ShownResult};
use sb_book::{Ruling, StoredArgs};
use sb_call::{Arg, CallTag, Reply};
use sb_rule::{Action, Verdict};
use sb_statements::{CallResult, StmtResult};

/// The arguments of a call, borrowed from a line that was read or from an entry.
#[derive(Drop)]
pub enum ShownArgs<'a> {
    /// A list of them.
    Listed(&'a [Arg]),
    /// Those that an entry stores.
    Stored(StoredArgs<'a>),
}

/// The ruling that a line shows, and its arguments.
pub fn ruling_of(decision: &ShownDecision) -> (Ruling, ShownArgs<'_>)
    ensures { shown_decision (decision_with result.0 (args_seen result.1)) ≡ decision.now }
{
    let none = ShownArgs::Listed(&[]);
    match decision {
        ShownDecision::Refused(fault) => (Ruling::Refused(*fault), none),
        ShownDecision::NoRule(tag) => (
            Ruling::Denied {
                tag: *tag,
                verdict: Verdict::NoRule,
            },
            none,
        ),
        ShownDecision::Denied { tag, line } => (denied(*tag, *line, Action::Deny), none),
        ShownDecision::Alarmed { tag, line } => (denied(*tag, *line, Action::Alarm), none),
        ShownDecision::Faked { tag, line } => (
            Ruling::Faked {
                tag: *tag,
                line: *line,
            },
            none,
        ),
        ShownDecision::Allowed { tag, args, line } => (
            performed(*tag, *line, Action::Allow),
            ShownArgs::Listed(args.as_slice()),
        ),
        ShownDecision::ReadOnly { tag, args, line } => (
            performed(*tag, *line, Action::ReadOnly),
            ShownArgs::Listed(args.as_slice()),
        ),
    }
}

fn denied(tag: CallTag, line: u32, action: Action) -> Ruling
    ensures { result ≡ Denied tag (Rule line action) }
{
    Ruling::Denied {
        tag,
        verdict: Verdict::Rule { line, action },
    }
}

fn performed(tag: CallTag, line: u32, action: Action) -> Ruling
    ensures { result ≡ Performed tag line action }
{
    Ruling::Performed { tag, line, action }
}

/// What a line shows of a reply.
pub fn shown_reply(reply: &Reply) -> ShownReply
    ensures { result ≡ shown_reply reply.now }
{
    ShownReply {
        outcome: reply.outcome,
        status: reply.status,
        handle: reply.handle,
        ext: reply.ext.copy(),
    }
}

fn shown_call(result_: &CallResult) -> ShownResult
    ensures { result ≡ shown_call result_.now }
{
    match result_ {
        CallResult::Reply { channel, reply } => ShownResult::Reply {
            channel: *channel,
            reply: shown_reply(reply),
        },
        CallResult::NoChannel => ShownResult::NoChannel,
        CallResult::SendLost { channel, found } => ShownResult::SendLost {
            channel: *channel,
            found: *found,
        },
        CallResult::Foreign { channel, mark } => ShownResult::Foreign {
            channel: *channel,
            mark: *mark,
        },
        CallResult::TimedOut { channel } => ShownResult::TimedOut { channel: *channel },
    }
}

/// What the line of a result shows.
pub fn shown_result(result_: &StmtResult) -> ShownResult
    ensures { result ≡ shown_result result_.now }
{
    match result_ {
        StmtResult::Call(result_) => shown_call(result_),
        StmtResult::Stored => ShownResult::Stored,
        StmtResult::Found(value) => ShownResult::Found(*value),
        StmtResult::Met { loads } => ShownResult::Met { loads: *loads },
        StmtResult::Unmet { loads } => ShownResult::Unmet { loads: *loads },
    }
}
