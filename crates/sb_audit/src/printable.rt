// The numbers of a report are in the ranges of their types. These functions read them, and change nothing.
ghost use Rattle.std.specs.Prelude.{◌≡◌, ◌<◌, ◌^◌, ℕ, true, slice_get, Some};
ghost use Rattle.std.specs.List.{list_all};
ghost use Rattle.sb_book.specs.Rulings.{decision_with};
ghost use Rattle.sb_book.specs.StoredArgs.{arg_seen};
ghost use Rattle.sb_book.specs.declared.entries.Entry.{Entry};
ghost use Rattle.sb_core.specs.Results.{result_at};
ghost use Rattle.sb_base.specs.Wide.{is_unit};
ghost use Rattle.sb_transcript.specs.Printed.{shown_call, shown_decision, shown_reply, shown_result, shown_verdict};
ghost use Rattle.sb_transcript.specs.Ranges.{DecisionInRange, FaultInRange, ReplyInRange, ResultInRange, is_argument};
ghost use Rattle.sb_base.specs.Numbers.{is_word64};
ghost use Rattle.sb_statements.specs.declared.results.StmtResult.{StmtResult};
ghost use Rattle.sb_transcript.specs.Printable.{ArePrintableResults, Each, IsPrintable, IsPrintableEntry, IsPrintableResult};

use sb_block::BlockFault;
use sb_book::{
    EntrySlice, EntryView, Report, Ruling, StoredArg, StoredArgs, TargetResults, ThreadResults,
};
use sb_call::{CallTag, Reply};
use sb_rule::{Action, Verdict};
use sb_statements::{CallResult, StmtResult};

fn establish_units(units: &[u16])
    ensures { list_all is_unit units.now ≡ true }
{}

fn establish_words(words: &[u64])
    ensures { list_all is_word64 words.now ≡ true }
{}

fn establish_argument(arg: StoredArg<'_>)
    ensures { is_argument (arg_seen arg.entry) ≡ true }
{
    match arg {
        StoredArg::Num(number) => {
            let _number = number;
        }
        StoredArg::Str(units) => establish_units(units),
    }
}

fn establish_arguments(args: StoredArgs<'_>)
    ensures { list_all is_argument args.entry ≡ true }
{
    let mut rest = args;
    while let Some((arg, later)) = rest.split_first() {
        establish_argument(arg);
        rest = later;
    }
}

fn establish_fault(fault: BlockFault)
    ensures { FaultInRange fault }
{
    match fault {
        BlockFault::TooManyParams(_) => {}
        BlockFault::BadEnd(_) => {}
        BlockFault::CountChanged(_, _) => {}
        BlockFault::EndChanged(_, _) => {}
        BlockFault::BadParamType(_) => {}
        BlockFault::BadPlace(_) => {}
        BlockFault::UnknownTag(_) => {}
        BlockFault::WrongShape => {}
        BlockFault::BadSize(_) => {}
        BlockFault::BadName(_) => {}
    }
}

fn establish_verdict(tag: CallTag, verdict: Verdict)
    ensures { DecisionInRange (shown_verdict tag verdict) }
{
    match verdict {
        Verdict::NoRule => {}
        Verdict::Rule {
            line: _,
            action: Action::Allow,
        } => {}
        Verdict::Rule {
            line: _,
            action: Action::Deny,
        } => {}
        Verdict::Rule {
            line: _,
            action: Action::Alarm,
        } => {}
        Verdict::Rule {
            line: _,
            action: Action::Fake,
        } => {}
        Verdict::Rule {
            line: _,
            action: Action::ReadOnly,
        } => {}
    }
}

fn establish_decision(ruling: Ruling, args: StoredArgs<'_>)
    ensures { DecisionInRange (shown_decision (decision_with ruling args.entry)) }
{
    match ruling {
        Ruling::Refused(fault) => establish_fault(fault),
        Ruling::Denied { tag, verdict } => establish_verdict(tag, verdict),
        Ruling::Faked { tag: _, line } => {
            let _line = line;
        }
        Ruling::Performed {
            tag: _,
            line,
            action,
        } => {
            let _line = line;
            establish_arguments(args);
            match action {
                Action::ReadOnly => {}
                Action::Allow => {}
                Action::Deny => {}
                Action::Alarm => {}
                Action::Fake => {}
            }
        }
    }
}

fn establish_reply(reply: &Reply)
    ensures { ReplyInRange (shown_reply reply.now) }
{
    let _outcome = reply.outcome;
    let _status = reply.status;
    let _handle = reply.handle;
    establish_words(reply.ext.as_slice());
}

fn establish_call(call: &CallResult)
    ensures { ResultInRange (shown_call call.now) }
{
    match call {
        CallResult::Reply { channel, reply } => {
            let _channel = *channel;
            establish_reply(reply);
        }
        CallResult::NoChannel => {}
        CallResult::SendLost { channel, found } => {
            let _channel = *channel;
            let _found = *found;
        }
        CallResult::Foreign { channel, mark } => {
            let _channel = *channel;
            let _mark = *mark;
        }
        CallResult::TimedOut { channel } => {
            let _channel = *channel;
        }
    }
}

fn establish_result(of_statement: &StmtResult)
    ensures { ResultInRange (shown_result of_statement.now) }
{
    match of_statement {
        StmtResult::Call(call) => establish_call(call),
        StmtResult::Stored => {}
        StmtResult::Found(value) => {
            let _value = *value;
        }
        StmtResult::Met { loads } => {
            let _loads = *loads;
        }
        StmtResult::Unmet { loads } => {
            let _loads = *loads;
        }
    }
}

fn establish_entry(entry: &EntryView<'_>)
    ensures { IsPrintableEntry entry.now }
{
    let _mark = entry.mark();
    establish_decision(entry.ruling(), entry.args());
    establish_reply(entry.reply());
}

fn establish_entries(entries: EntrySlice<'_>)
    ensures { Each IsPrintableEntry entries.entry }
{
    let mut rest = entries;
    while let Some((entry, later)) = rest.split_first() {
        establish_entry(&entry);
        rest = later;
    }
}

fn establish_thread(results: &[StmtResult])
    ensures { Each IsPrintableResult results.now }
{
    let mut rest = results;
    while let Some((first, later)) = rest.split_first() {
        establish_result(first);
        rest = later;
    }
}

fn establish_target(threads: &[ThreadResults])
    ensures { ArePrintableResults threads.now }
{
    let mut rest = threads;
    while let Some((first, later)) = rest.split_first() {
        establish_thread(first.as_slice());
        rest = later;
    }
}

fn establish_results(targets: &[TargetResults])
    ensures { Each ArePrintableResults targets.now }
{
    let mut rest = targets;
    while let Some((first, later)) = rest.split_first() {
        establish_target(first.as_slice());
        rest = later;
    }
}

/// Each report can be printed and read back: it has the numbers that its types can hold, and fewer than 2^64 entries. This reads the report,
/// and changes nothing.
pub fn establish_printable(report: &Report)
    ensures { IsPrintable report.now }
{
    let _count = report.entries.len();
    establish_entries(report.entries.as_slice());
    establish_results(report.results.as_slice());
}
