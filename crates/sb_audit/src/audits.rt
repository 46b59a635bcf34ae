// The audit of a transcript.
ghost use Rattle.std.specs.Prelude.{◌≡◌, ◌<◌, ◌+◌, ◌^◌, [], length, None, IfOk};
ghost use Rattle.sb_book.specs.Histories.{setting_of};
ghost use Rattle.sb_text.specs.Lines.{without_cr};
ghost use Rattle.sb_audit.specs.Audited.{audited, line_with_end};
ghost use Rattle.sb_audit.specs.Dues.{due_unread};
ghost use Rattle.sb_audit.specs.Kept.{AreAtMost, FollowsLine, Keeps, due_kept, failing_line_kept};

use crate::answers::AuditAnswer;
use crate::contexts::Context;
use crate::dues::{Due, FormDue};
use crate::walks::Walk;
use sb_base::NoMemory;
use sb_book::ReadyScript;
use sb_rule::Judge;
use sb_text::RawLines;
use sb_transcript::{Line, read_line};
use std::alloc::Global;

// Bytes without one CR at their end.
fn without_cr(bytes: &[u8]) -> &[u8]
    ensures { result.now ≡ without_cr bytes.now }
{
    match bytes {
        [line @ .., b'\r'] => line,
        _ => bytes,
    }
}

// The line of a transcript that bytes are with the LF that ends them, if one does and they are a line without one CR at their end.
fn line_with_end(alloc: Global, bytes: &[u8], is_ended: bool) -> Result<Option<Line>, NoMemory>
    ensures { IfOk result (λ line. line ≡ line_with_end bytes.now is_ended) }
{
    if !is_ended {
        return Ok(None);
    }
    let line = read_line(alloc, without_cr(bytes))?;
    Ok(line)
}

// What is due at bytes that are no line, by whether an LF ends them.
fn unread_due(context: &Context<'_>, walk: &Walk, is_ended: bool) -> Due
    ensures { result ≡ due_unread is_ended (due_kept context.now.script walk.now) }
{
    if is_ended {
        walk.due(context)
    } else {
        Due::Form(FormDue::LineFeed)
    }
}

// What is due by the lowest clause that fails at the next bytes of a text up to an LF, if one does. If none does, the line is kept.
fn failing<J: Judge>(
    alloc: Global,
    context: &Context<'_>,
    judge: &J,
    walk: &mut Walk,
    bytes: &[u8],
    is_ended: bool,
) -> Result<Option<Due>, NoMemory>
    requires judge { J.policies judge.now ≡ (setting_of context.now.policies context.now.script).policies }
    requires small { AreAtMost (2 ^ 32) walk.old.totals }
    ensures clause { IfOk result (λ f. f ≡ failing_line_kept context.now.policies context.now.script walk.old is_ended (line_with_end bytes.now is_ended)) }
    ensures kept { IfOk result (λ f. f ≡ None → FollowsLine context.now.script (line_with_end bytes.now is_ended) walk.old walk.new) }
{
    let Some(line) = line_with_end(alloc, bytes, is_ended)? else {
        return Ok(Some(unread_due(context, walk, is_ended)));
    };
    let failing = walk.line(context, judge, line)?;
    Ok(failing)
}

// The answer to a text of which nothing was read.
fn answer<J: Judge>(
    alloc: Global,
    context: &Context<'_>,
    judge: &J,
    walk: &mut Walk,
    text: &[u8],
) -> Result<AuditAnswer, NoMemory>
    requires judge { J.policies judge.now ≡ (setting_of context.now.policies context.now.script).policies }
    requires start { Keeps context.now.script [] walk.old }
    requires short { length text.now + 1 < 2 ^ 32 }
    ensures { IfOk result (λ a. a ≡ audited context.now.policies context.now.script text.now) }
{
    context.establish_found();
    let mut lines = RawLines::new(text);
    let mut last = 0;
    while let Some(raw) = lines.next_line() {
        last = raw.number;
        if let Some(due) = failing(alloc, context, judge, walk, raw.bytes, raw.is_ended)? {
            return Ok(AuditAnswer::refutation(last, due));
        }
    }
    Ok(walk.end(context, last))
}

/// Whether no clause fails at any line of a transcript, whoever made it, and it ends after the totals; if not, at which line the first
/// fails, and what is due there. The script is ready for the policies, and the judge judges its targets by these. The text has fewer than 2^32 - 1 bytes. It is
/// read once, and the time is linear in its length.
///
/// # Errors
/// `NoMemory` if there was none for a line, for the namespace, or for the replies on clean channels.
pub fn audit<J: Judge>(
    alloc: Global,
    judge: &J,
    ready: &ReadyScript,
    text: &[u8],
) -> Result<AuditAnswer, NoMemory>
    requires judge { J.policies judge.now ≡ (setting_of ready.now.policies ready.now.script).policies }
    requires short { length text.now + 1 < 2 ^ 32 }
    ensures { IfOk result (λ a. a ≡ audited ready.now.policies ready.now.script text.now) }
{
    let context = Context::new(ready);
    let mut walk = Walk::new(alloc, ready)?;
    let answer = answer(alloc, &context, judge, &mut walk, text)?;
    Ok(answer)
}
