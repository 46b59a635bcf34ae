// Whether the result of a statement may be.
ghost use Rattle.std.specs.Prelude.{◌≡◌, ◌<◌, length, option_map, Some};
ghost use Rattle.sb_audit.specs.Clauses.{is_reply_of, needs_entry, suits, suits_call};
ghost use Rattle.sb_audit.specs.Dues.{due_result, due_unanswered, unless_clean};
ghost use Rattle.sb_audit.specs.Kept.{is_fitting_kept, result_due_kept, suits_slot};

use crate::contexts::Context;
use crate::dues::ResultDue;
use crate::replies::same_reply;
use crate::rows::Rows;
use crate::slots::OwnReply;
use sb_actor::{BUSY, mark_at, sound_statement_at};
use sb_statements::Statement;
use sb_transcript::{ResultLine, ShownReply, ShownResult};

// Whether a call of a target, which must be there, with this mark may have a result.
fn suits_call(context: &Context<'_>, target: u32, mark: u64, shown: &ShownResult) -> bool
    requires there { target < length context.now.script.targets }
    ensures { result ≡ suits_call context.now.script target mark shown.now }
{
    match shown {
        ShownResult::Reply { .. } => true,
        ShownResult::NoChannel => !context.has_clean(target),
        ShownResult::SendLost { channel, found } => {
            !context.is_clean(target, *channel) && *found != BUSY
        }
        ShownResult::Foreign {
            channel,
            mark: other,
        } => !context.is_clean(target, *channel) && *other != mark,
        ShownResult::TimedOut { channel } => !context.is_clean(target, *channel),
        ShownResult::Stored
        | ShownResult::Found(_)
        | ShownResult::Met { .. }
        | ShownResult::Unmet { .. } => false,
    }
}

// Whether a statement of a target, which must be there, may have a result; a call has this mark.
fn suits(
    context: &Context<'_>,
    target: u32,
    mark: u64,
    shown: &ShownResult,
    statement: &Statement,
) -> bool
    requires there { target < length context.now.script.targets }
    ensures { result ≡ suits context.now.script target mark shown.now (Some statement.now) }
{
    match (statement, shown) {
        (Statement::Call { .. }, _) => suits_call(context, target, mark, shown),
        (Statement::Store { .. }, ShownResult::Stored) => true,
        (Statement::Exchange { .. } | Statement::Load { .. }, ShownResult::Found(_)) => true,
        (Statement::Wait { most, .. }, ShownResult::Met { loads }) => {
            1 <= *loads && *loads <= *most
        }
        (Statement::Wait { most, .. }, ShownResult::Unmet { loads }) => *loads == *most,
        _ => false,
    }
}

fn is_reply_of(shown: &ShownResult, channel: u32, own: &ShownReply) -> bool
    ensures { result ≡ is_reply_of shown.now channel own.now }
{
    match shown {
        ShownResult::Reply { channel: on, reply } => *on == channel && same_reply(reply, own),
        _ => false,
    }
}

fn needs_entry(context: &Context<'_>, target: u32, shown: &ShownResult) -> bool
    requires there { target < length context.now.script.targets }
    ensures { result ≡ needs_entry context.now.script target shown.now }
{
    match shown {
        ShownResult::Reply { channel, .. } => context.is_clean(target, *channel),
        _ => false,
    }
}

// Whether a call may have a result whose entry on a clean channel has this reply, if there is one.
fn suits_slot(
    context: &Context<'_>,
    target: u32,
    shown: &ShownResult,
    slot: Option<&OwnReply>,
) -> bool
    requires there { target < length context.now.script.targets }
    ensures { result ≡ suits_slot context.now.script target shown.now (option_map (λ own. own.now) slot.entry) }
{
    match slot {
        Some(own) => is_reply_of(shown, own.channel, &own.reply),
        None => !needs_entry(context, target, shown),
    }
}

/// Whether the result of a statement of a target, which must be there, is of its kind, and the reply of its entry.
pub(crate) fn is_fitting(context: &Context<'_>, rows: &Rows, target: u32, line: &ResultLine) -> bool
    requires there { target < length context.now.script.targets }
    ensures { result ≡ is_fitting_kept context.now.script rows.now target line.now }
{
    let thread = line.thread as usize;
    let place = line.place as usize;
    let Some(statement) = sound_statement_at(context.script(), target, thread, place) else {
        return false;
    };
    let mark = mark_at(line.thread, line.place);
    suits(context, target, mark, &line.result, statement)
        && suits_slot(
            context,
            target,
            &line.result,
            rows.slot(target, thread, place),
        )
}

// The reply on a channel of a target, which must be there, if it is clean, and else what is due otherwise.
fn unless_clean(context: &Context<'_>, target: u32, channel: u32, otherwise: ResultDue) -> ResultDue
    requires there { target < length context.now.script.targets }
    ensures { result ≡ unless_clean context.now.script target channel otherwise }
{
    if context.is_clean(target, channel) {
        ResultDue::CleanReply { channel }
    } else {
        otherwise
    }
}

// What is due as the result of a call of a target, which must be there, with this mark, that no entry on a clean channel answers.
fn due_unanswered(context: &Context<'_>, target: u32, mark: u64, shown: &ShownResult) -> ResultDue
    requires there { target < length context.now.script.targets }
    ensures { result ≡ due_unanswered context.now.script target mark shown.now }
{
    match shown {
        ShownResult::Reply { channel, .. } => ResultDue::Entry {
            channel: *channel,
            mark,
        },
        ShownResult::NoChannel => ResultDue::Channel,
        ShownResult::SendLost { channel, .. } => {
            unless_clean(context, target, *channel, ResultDue::OtherState)
        }
        ShownResult::Foreign { channel, .. } => {
            unless_clean(context, target, *channel, ResultDue::OtherMark { mark })
        }
        ShownResult::TimedOut { channel } => ResultDue::CleanReply { channel: *channel },
        ShownResult::Stored
        | ShownResult::Found(_)
        | ShownResult::Met { .. }
        | ShownResult::Unmet { .. } => ResultDue::OfCall,
    }
}

// What is due as the result of a statement of a target, which must be there, by whether an entry on a clean channel answers it, if it is a
// call with this mark.
fn due_of_statement(
    context: &Context<'_>,
    answered: bool,
    target: u32,
    mark: u64,
    shown: &ShownResult,
    statement: &Statement,
) -> ResultDue
    requires there { target < length context.now.script.targets }
    ensures { result ≡ due_result context.now.script answered target mark shown.now (Some statement.now) }
{
    match statement {
        Statement::Call { .. } if answered => ResultDue::ReplyOf { mark },
        Statement::Call { .. } => due_unanswered(context, target, mark, shown),
        Statement::Store { .. } => ResultDue::OfStore,
        Statement::Exchange { .. } | Statement::Load { .. } => ResultDue::OfLoad,
        Statement::Wait { most, .. } => ResultDue::OfWait { most: *most },
    }
}

/// What is due as the result of a statement of a target, which must be there, if the result that is shown does not fit.
pub(crate) fn due_result(
    context: &Context<'_>,
    rows: &Rows,
    target: u32,
    line: &ResultLine,
) -> ResultDue
    requires there { target < length context.now.script.targets }
    ensures { result ≡ result_due_kept context.now.script rows.now target line.now }
{
    let thread = line.thread as usize;
    let place = line.place as usize;
    let Some(statement) = sound_statement_at(context.script(), target, thread, place) else {
        return ResultDue::Statement;
    };
    let mark = mark_at(line.thread, line.place);
    let answered = rows.slot(target, thread, place).is_some();
    due_of_statement(context, answered, target, mark, &line.result, statement)
}
