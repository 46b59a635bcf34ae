// How lines are written: the fields of each, with a blank before all but the first. After an error a part may have been appended.
ghost use Rattle.std.specs.Prelude.{◌≡◌, ◌++◌, ◌∷◌, [], codes, map, OnOk};
ghost use Rattle.std.specs.Fmt.{decimal};
ghost use Rattle.std.specs.List.{flat_map};
ghost use Rattle.sb_base.specs.Numbers.{eight_digits};
ghost use Rattle.sb_book.specs.Rulings.{decision_with};
ghost use Rattle.sb_book.specs.StoredArgs.{arg_seen};
ghost use Rattle.sb_call.specs.CallWords.{call_word};
ghost use Rattle.sb_transcript.specs.EntryLines.{entry_line};
ghost use Rattle.sb_transcript.specs.Fields.{action_word, after_separator, all_after, argument_field, argument_text, counted, decision_fields, ended, fault_text, reply_fields, result_fields, verdict_text, written};
ghost use Rattle.sb_transcript.specs.Printed.{args_seen, shown_decision, shown_entry, shown_verdict};
ghost use Rattle.sb_transcript.specs.ResultLines.{result_line};
ghost use Rattle.sb_transcript.specs.declared.read_lines.Line.TheVariants as line;

use crate::comma_words::put_comma_words;
use crate::read_lines::{EntryLine, Line, ShownReply, ShownResult, TotalsLine};
use crate::shown::{ShownArgs, ruling_of, shown_reply, shown_result};
use sb_base::{NoMemory, put_decimal, put_eight_digits, put_hexadecimal, quote_into};
use sb_block::BlockFault;
use sb_book::{EntryView, Ruling, StoredArg, StoredArgs};
use sb_call::{Arg, CallTag, call_word};
use sb_rule::{Action, Verdict};
use sb_statements::{Script, StmtResult};

// Appends a blank and a field.
fn put_field(text: &mut Vec<u8>, field: &[u8]) -> Result<(), NoMemory>
    ensures { OnOk result (text.new.items ≡ text.old.items ++ after_separator 32 field.now) }
{
    text.push(b' ')?;
    text.extend_from_slice(field)?;
    Ok(())
}

// Appends a blank and a number in decimal.
fn put_number(text: &mut Vec<u8>, number: u64) -> Result<(), NoMemory>
    ensures { OnOk result (text.new.items ≡ text.old.items ++ after_separator 32 (decimal number)) }
{
    text.push(b' ')?;
    put_decimal(text, number)
}

// Appends a word and a number, each after a blank.
fn put_counted(text: &mut Vec<u8>, word: &[u8], number: u64) -> Result<(), NoMemory>
    ensures { OnOk result (text.new.items ≡ text.old.items ++ all_after 32 (counted word.now number)) }
{
    put_field(text, word)?;
    put_number(text, number)
}

// Appends a word and two numbers, each after a blank.
fn put_pair(text: &mut Vec<u8>, word: &[u8], first: u64, second: u64) -> Result<(), NoMemory>
    ensures { OnOk result (text.new.items ≡ text.old.items ++ all_after 32 (word.now ∷ decimal first ∷ decimal second ∷ [])) }
{
    put_counted(text, word, first)?;
    put_number(text, second)
}

/// Appends a fault of a block: its name and its values, each after a blank.
///
/// # Errors
/// `NoMemory` if there was none for it; then a part may have been appended.
pub fn put_fault(text: &mut Vec<u8>, fault: BlockFault) -> Result<(), NoMemory>
    ensures { OnOk result (text.new.items ≡ text.old.items ++ fault_text fault) }
{
    match fault {
        BlockFault::TooManyParams(count) => put_counted(text, b"too-many-params", count),
        BlockFault::BadEnd(end) => put_counted(text, b"bad-end", end),
        BlockFault::CountChanged(seen, copied) => put_pair(text, b"count-changed", seen, copied),
        BlockFault::EndChanged(seen, copied) => put_pair(text, b"end-changed", seen, copied),
        BlockFault::BadParamType(param) => put_counted(text, b"bad-param-type", u64::from(param)),
        BlockFault::BadPlace(param) => put_counted(text, b"bad-place", u64::from(param)),
        BlockFault::UnknownTag(tag) => put_counted(text, b"unknown-tag", tag),
        BlockFault::WrongShape => put_field(text, b"wrong-shape"),
        BlockFault::BadSize(param) => put_counted(text, b"bad-size", u64::from(param)),
        BlockFault::BadName(param) => put_counted(text, b"bad-name", u64::from(param)),
    }
}

fn action_word(action: Action) -> &'static [u8]
    ensures { result.now ≡ action_word action }
{
    match action {
        Action::Allow | Action::Deny => b"rule",
        Action::Alarm => b"alarm",
        Action::Fake => b"fake",
        Action::ReadOnly => b"readonly",
    }
}

/// Appends a verdict, after a blank: `norule` if no rule matched, and else `rule N`, `alarm N`, `fake N` or `readonly N` by the action of the
/// rule that decided, which is on line N of the policy, from 1.
///
/// # Errors
/// `NoMemory` if there was none for it; then a part may have been appended.
pub fn put_verdict(text: &mut Vec<u8>, verdict: Verdict) -> Result<(), NoMemory>
    ensures { OnOk result (text.new.items ≡ text.old.items ++ verdict_text verdict) }
{
    match verdict {
        Verdict::NoRule => put_field(text, b"norule"),
        Verdict::Rule { line, action } => put_counted(text, action_word(action), u64::from(line)),
    }
}

fn put_argument(text: &mut Vec<u8>, arg: StoredArg<'_>) -> Result<(), NoMemory>
    ensures { OnOk result (text.new.items ≡ text.old.items ++ argument_text (arg_seen arg.entry)) }
{
    match arg {
        StoredArg::Num(number) => {
            text.extend_from_slice(b" 0x")?;
            put_hexadecimal(text, number)
        }
        StoredArg::Str(units) => {
            text.push(b' ')?;
            quote_into(text, units)
        }
    }
}

fn put_stored(text: &mut Vec<u8>, args: StoredArgs<'_>) -> Result<(), NoMemory>
    ensures { OnOk result (text.new.items ≡ text.old.items ++ flat_map argument_text args.entry) }
{
    let mut rest = args;
    while let Some((arg, later)) = rest.split_first() {
        put_argument(text, arg)?;
        rest = later;
    }
    Ok(())
}

/// Appends the arguments of a call, each after a blank: a number in hexadecimal after `0x`, a string between quotes.
///
/// # Errors
/// `NoMemory` if there was none for them; then a part may have been appended.
pub fn put_arguments(text: &mut Vec<u8>, args: &[Arg]) -> Result<(), NoMemory>
    ensures { OnOk result (text.new.items ≡ text.old.items ++ flat_map argument_text args.now) }
{
    for arg in args {
        put_argument(text, StoredArg::of(arg))?;
    }
    Ok(())
}

#[tactic(auto, using(crate::proofs::Putting::arguments_put))]
fn put_args(text: &mut Vec<u8>, args: ShownArgs<'_>) -> Result<(), NoMemory>
    ensures { OnOk result (text.new.items ≡ text.old.items ++ all_after 32 (map argument_field (args_seen args.entry))) }
{
    match args {
        ShownArgs::Listed(args) => put_arguments(text, args),
        ShownArgs::Stored(args) => put_stored(text, args),
    }
}

// Appends what was decided of a call, and the call.
fn put_call(text: &mut Vec<u8>, word: &[u8], tag: CallTag) -> Result<(), NoMemory>
    ensures { OnOk result (text.new.items ≡ text.old.items ++ all_after 32 (word.now ∷ call_word tag ∷ [])) }
{
    put_field(text, word)?;
    put_field(text, call_word(tag).as_bytes())
}

// Appends a call that was denied. A rule that denies is shown as `alarm` if it raises one, and else as `rule`.
fn put_denied(text: &mut Vec<u8>, tag: CallTag, verdict: Verdict) -> Result<(), NoMemory>
    ensures { OnOk result (text.new.items ≡ text.old.items ++ all_after 32 (decision_fields (shown_verdict tag verdict))) }
{
    put_call(text, b"denied", tag)?;
    match verdict {
        Verdict::NoRule
        | Verdict::Rule {
            line: _,
            action: Action::Alarm,
        } => put_verdict(text, verdict),
        Verdict::Rule { line, .. } => put_counted(text, b"rule", u64::from(line)),
    }
}

// Appends a call that was performed, with the line of the rule that allows it.
fn put_performed(
    text: &mut Vec<u8>,
    tag: CallTag,
    args: ShownArgs<'_>,
    word: &[u8],
    line: u64,
) -> Result<(), NoMemory>
    ensures { OnOk result (text.new.items ≡ text.old.items
        ++ all_after 32 (codes "performed" ∷ call_word tag ∷ (map argument_field (args_seen args.entry) ++ counted word.now line))) }
{
    put_call(text, b"performed", tag)?;
    put_args(text, args)?;
    put_counted(text, word, line)?;
    Ok(())
}

// Appends a decision.
fn put_decision(text: &mut Vec<u8>, ruling: Ruling, args: ShownArgs<'_>) -> Result<(), NoMemory>
    ensures { OnOk result (text.new.items ≡ text.old.items ++ all_after 32 (decision_fields (shown_decision (decision_with ruling (args_seen args.entry))))) }
{
    match ruling {
        Ruling::Refused(fault) => {
            put_field(text, b"refused")?;
            put_fault(text, fault)
        }
        Ruling::Denied { tag, verdict } => put_denied(text, tag, verdict),
        Ruling::Faked { tag, line } => {
            put_call(text, b"faked", tag)?;
            put_counted(text, b"rule", u64::from(line))
        }
        Ruling::Performed {
            tag,
            line,
            action: Action::ReadOnly,
        } => put_performed(text, tag, args, b"readonly", u64::from(line)),
        Ruling::Performed { tag, line, .. } => {
            put_performed(text, tag, args, b"rule", u64::from(line))
        }
    }
}

// Appends the outcome, status, handle and extended words of a reply.
fn put_reply(text: &mut Vec<u8>, reply: &ShownReply) -> Result<(), NoMemory>
    ensures { OnOk result (text.new.items ≡ text.old.items ++ all_after 32 (reply_fields reply.now)) }
{
    put_number(text, reply.outcome)?;
    text.push(b' ')?;
    put_eight_digits(text, reply.status)?;
    put_number(text, reply.handle)?;
    text.extend_from_slice(b" [")?;
    put_comma_words(text, reply.ext.as_slice())?;
    text.push(b']')?;
    Ok(())
}

// Appends where an entry is: its number, target and channel, and its mark.
fn put_place(
    text: &mut Vec<u8>,
    number: u64,
    target: &[u8],
    channel: u32,
    mark: u64,
) -> Result<(), NoMemory>
    ensures { OnOk result (text.new.items ≡ text.old.items
        ++ (codes "entry" ++ all_after 32 (decimal number ∷ target.now ∷ decimal channel ∷ codes "mark" ∷ decimal mark ∷ []))) }
{
    text.extend_from_slice(b"entry")?;
    put_number(text, number)?;
    put_field(text, target)?;
    put_number(text, u64::from(channel))?;
    put_counted(text, b"mark", mark)
}

// Appends the line of entry `n` of a history, without its LF.
fn put_view(
    text: &mut Vec<u8>,
    script: &Script,
    n: u64,
    entry: &EntryView<'_>,
) -> Result<(), NoMemory>
    ensures { OnOk result (text.new.items ≡ text.old.items ++ written (line.Entry (shown_entry script.now n entry.now))) }
{
    let target = script.target_name(entry.target() as usize);
    put_place(text, n, target, entry.channel(), entry.mark())?;
    put_decision(text, entry.ruling(), ShownArgs::Stored(entry.args()))?;
    put_field(text, b"reply")?;
    put_reply(text, &shown_reply(entry.reply()))
}

/// Appends the line of entry `n` of a history, counted from 0, with its LF.
///
/// # Errors
/// `NoMemory` if there was none for it; then a part may have been appended.
pub fn put_entry_line(
    text: &mut Vec<u8>,
    script: &Script,
    n: u64,
    entry: &EntryView<'_>,
) -> Result<(), NoMemory>
    ensures { OnOk result (text.new.items ≡ text.old.items ++ entry_line script.now n entry.now) }
{
    put_view(text, script, n, entry)?;
    text.push(b'\n')?;
    Ok(())
}

fn put_entry(text: &mut Vec<u8>, entry: &EntryLine) -> Result<(), NoMemory>
    ensures { OnOk result (text.new.items ≡ text.old.items ++ written (line.Entry entry.now)) }
{
    put_place(
        text,
        entry.number,
        entry.target.bytes(),
        entry.channel,
        entry.mark,
    )?;
    let (ruling, args) = ruling_of(&entry.decision);
    put_decision(text, ruling, args)?;
    put_field(text, b"reply")?;
    put_reply(text, &entry.reply)
}

// Appends what became of a statement.
fn put_result(text: &mut Vec<u8>, shown: &ShownResult) -> Result<(), NoMemory>
    ensures { OnOk result (text.new.items ≡ text.old.items ++ all_after 32 (result_fields shown.now)) }
{
    match shown {
        ShownResult::Reply { channel, reply } => {
            put_counted(text, b"reply", u64::from(*channel))?;
            put_reply(text, reply)
        }
        ShownResult::NoChannel => put_field(text, b"no-channel"),
        ShownResult::SendLost { channel, found } => {
            put_pair(text, b"send-lost", u64::from(*channel), *found)
        }
        ShownResult::Foreign { channel, mark } => {
            put_pair(text, b"foreign", u64::from(*channel), *mark)
        }
        ShownResult::TimedOut { channel } => put_counted(text, b"timed-out", u64::from(*channel)),
        ShownResult::Stored => put_field(text, b"stored"),
        ShownResult::Found(value) => put_counted(text, b"found", *value),
        ShownResult::Met { loads } => put_counted(text, b"met", u64::from(*loads)),
        ShownResult::Unmet { loads } => put_counted(text, b"unmet", u64::from(*loads)),
    }
}

// Appends the line of a result, without its LF.
fn put_result_at(
    text: &mut Vec<u8>,
    target: &[u8],
    thread: u64,
    place: u64,
    shown: &ShownResult,
) -> Result<(), NoMemory>
    ensures { OnOk result (text.new.items ≡ text.old.items
        ++ (codes "result" ++ all_after 32 (target.now ∷ decimal thread ∷ decimal place ∷ result_fields shown.now))) }
{
    text.extend_from_slice(b"result")?;
    put_field(text, target)?;
    put_number(text, thread)?;
    put_number(text, place)?;
    put_result(text, shown)
}

/// Appends the line of the result of the statement at a place of a thread of a target, with its LF, for numbers as lists count them.
///
/// # Errors
/// `NoMemory` if there was none for it; then a part may have been appended.
pub fn put_result_line(
    text: &mut Vec<u8>,
    script: &Script,
    target: usize,
    thread: usize,
    place: usize,
    result_: &StmtResult,
) -> Result<(), NoMemory>
    ensures { OnOk result (text.new.items ≡ text.old.items ++ result_line script.now target thread place result_.now) }
{
    let name = script.target_name(target);
    put_result_at(
        text,
        name,
        thread as u64,
        place as u64,
        &shown_result(result_),
    )?;
    text.push(b'\n')?;
    Ok(())
}

// Appends the totals, without an LF.
fn put_totals(text: &mut Vec<u8>, totals: &TotalsLine) -> Result<(), NoMemory>
    ensures { OnOk result (text.new.items ≡ text.old.items ++ written (line.Totals totals.now)) }
{
    text.extend_from_slice(b"total")?;
    put_counted(text, b"entries", totals.entries)?;
    put_counted(text, b"performed", totals.performed)?;
    put_counted(text, b"faked", totals.faked)?;
    put_counted(text, b"denied", totals.denied)?;
    put_counted(text, b"refused", totals.refused)?;
    put_counted(text, b"results", totals.results)?;
    Ok(())
}

/// Appends the totals, with their LF.
///
/// # Errors
/// `NoMemory` if there was none for them; then a part may have been appended.
pub fn put_totals_line(text: &mut Vec<u8>, totals: &TotalsLine) -> Result<(), NoMemory>
    ensures { OnOk result (text.new.items ≡ text.old.items ++ ended (line.Totals totals.now)) }
{
    put_totals(text, totals)?;
    text.push(b'\n')?;
    Ok(())
}

/// Appends a line, without its LF.
///
/// # Errors
/// `NoMemory` if there was none for it; then a part may have been appended.
pub fn put_line(text: &mut Vec<u8>, line: &Line) -> Result<(), NoMemory>
    ensures { OnOk result (text.new.items ≡ text.old.items ++ written line.now) }
{
    match line {
        Line::Entry(entry) => put_entry(text, entry),
        Line::Result(line) => {
            let (thread, place) = (u64::from(line.thread), u64::from(line.place));
            put_result_at(text, line.target.bytes(), thread, place, &line.result)
        }
        Line::Totals(totals) => put_totals(text, totals),
    }
}
