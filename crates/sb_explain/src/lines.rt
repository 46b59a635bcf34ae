// The lines about a decision, each with its LF.
ghost use Rattle.std.specs.Prelude.{◌≡◌, ◌++◌, IfOk, OnOk};
ghost use Rattle.std.specs.List.{flat_map};
ghost use Rattle.sb_book.specs.Decisions.{read_only_args};
ghost use Rattle.sb_call.specs.Arguments.{arg_at};
ghost use Rattle.sb_explain.specs.Lines.{action_text, copy_line, fails_line, granted_line, holds_line, mark_line, mark_text, no_entry_line, refused_line, verdict_line, verdict_text};
ghost use Rattle.sb_transcript.specs.EntryLines.{argument_field, argument_text};

use crate::line_numbers::{ScriptLines, line_of_statement};
use crate::marks::call_of_mark;
use sb_base::{NoMemory, put_hexadecimal, put_named, quote_into};
use sb_block::{BlockCopy, BlockFault};
use sb_call::{Arg, CallTag, call_word};
use sb_rule::{Action, Cond, READ_ONLY_BITS, Rule, Verdict};
use sb_ruletext::put_cond;
use sb_statements::SoundScript;
use sb_transcript::{put_arguments, put_fault};
use std::alloc::Global;

// `mark of TARGET THREAD PLACE line L`, or `mark of no call`.
fn put_mark(
    line: &mut Vec<u8>,
    script: &SoundScript,
    lines: &[u32],
    target: u32,
    mark: u64,
) -> Result<(), NoMemory>
    ensures { OnOk result (line.new.items ≡ line.old.items ++ mark_text script.now lines.now target mark) }
{
    let Some(call) = call_of_mark(script, target, mark) else {
        line.extend_from_slice(b"no call")?;
        return Ok(());
    };
    line.extend_from_slice(script.target_name(target as usize))?;
    put_named(line, b" ", call.thread)?;
    put_named(line, b" ", call.place)?;
    put_named(
        line,
        b" line ",
        u64::from(line_of_statement(script, lines, target, call)),
    )
}

/// `mark of TARGET THREAD PLACE line L`: the call of the target that has this mark, with its line; or `mark of no call`.
pub(crate) fn mark_line(
    alloc: Global,
    explained: ScriptLines<'_>,
    target: u32,
    mark: u64,
) -> Result<Vec<u8>, NoMemory>
    ensures { IfOk result (λ line. line.items ≡ mark_line explained.entry.ready.now.script explained.entry.lines.now target mark) }
{
    let mut line = Vec::new(alloc);
    line.extend_from_slice(b"  mark of ")?;
    put_mark(
        &mut line,
        explained.ready.script(),
        explained.lines,
        target,
        mark,
    )?;
    line.push(b'\n')?;
    Ok(line)
}

/// `copy CALL ARG ..`: the call of a copy.
pub(crate) fn copy_line(alloc: Global, tag: CallTag, args: &[Arg]) -> Result<Vec<u8>, NoMemory>
    ensures { IfOk result (λ line. line.items ≡ copy_line tag args.now) }
{
    let mut line = Vec::new(alloc);
    line.extend_from_slice(b"  copy ")?;
    line.extend_from_slice(call_word(tag).as_bytes())?;
    put_arguments(&mut line, args)?;
    line.push(b'\n')?;
    Ok(line)
}

/// `copy refused FAULT count N words W`: the fault of a copy, the count that was loaded, and how many words were copied.
pub(crate) fn refused_line(
    alloc: Global,
    fault: BlockFault,
    taken: &BlockCopy,
) -> Result<Vec<u8>, NoMemory>
    ensures { IfOk result (λ line. line.items ≡ refused_line fault taken.now) }
{
    let mut line = Vec::new(alloc);
    line.extend_from_slice(b"  copy refused")?;
    put_fault(&mut line, fault)?;
    put_named(&mut line, b" count ", taken.count_seen())?;
    put_named(&mut line, b" words ", taken.words().len() as u64)?;
    line.push(b'\n')?;
    Ok(line)
}

/// `rule L holds`.
pub(crate) fn holds_line(alloc: Global, rule: &Rule) -> Result<Vec<u8>, NoMemory>
    ensures { IfOk result (λ line. line.items ≡ holds_line rule.now) }
{
    let mut line = Vec::new(alloc);
    put_named(&mut line, b"  rule ", u64::from(rule.line))?;
    line.extend_from_slice(b" holds\n")?;
    Ok(line)
}

// An argument: a number in hexadecimal after `0x`, a string between quotes.
fn put_value(line: &mut Vec<u8>, arg: &Arg) -> Result<(), NoMemory>
    ensures { OnOk result (line.new.items ≡ line.old.items ++ argument_field arg.now) }
{
    match arg {
        Arg::Num(number) => {
            line.extend_from_slice(b"0x")?;
            put_hexadecimal(line, *number)
        }
        Arg::Str(units) => quote_into(line, units.as_units()),
    }
}

// The argument of a parameter, which is the number 0 if the call lacks it.
fn put_value_at(line: &mut Vec<u8>, args: &[Arg], param: u32) -> Result<(), NoMemory>
    ensures { OnOk result (line.new.items ≡ line.old.items ++ argument_field (arg_at args.now param)) }
{
    match args.get(param as usize) {
        Some(arg) => put_value(line, arg),
        None => put_value(line, &Arg::Num(0)),
    }
}

/// `rule L fails: COND (VALUE)`: the condition as a policy prints it, and the value of its parameter.
pub(crate) fn fails_line(
    alloc: Global,
    tag: CallTag,
    args: &[Arg],
    rule: &Rule,
    cond: &Cond,
) -> Result<Vec<u8>, NoMemory>
    ensures { IfOk result (λ line. line.items ≡ fails_line tag args.now rule.now cond.now) }
{
    let mut line = Vec::new(alloc);
    put_named(&mut line, b"  rule ", u64::from(rule.line))?;
    line.extend_from_slice(b" fails:")?;
    put_cond(&mut line, tag, cond)?;
    line.extend_from_slice(b" (")?;
    put_value_at(&mut line, args, cond.param)?;
    line.extend_from_slice(b")\n")?;
    Ok(line)
}

// The arguments with the access, the second of them, cut to the bits that only read.
fn put_read_only(line: &mut Vec<u8>, args: &[Arg]) -> Result<(), NoMemory>
    ensures { OnOk result (line.new.items ≡ line.old.items ++ flat_map argument_text (read_only_args args.now)) }
{
    if let [first, Arg::Num(access), more @ ..] = args {
        put_value_after(line, first)?;
        put_value_after(line, &Arg::Num(*access & READ_ONLY_BITS))?;
        return put_arguments(line, more);
    }
    put_arguments(line, args)
}

// An argument after a blank.
fn put_value_after(line: &mut Vec<u8>, arg: &Arg) -> Result<(), NoMemory>
    ensures { OnOk result (line.new.items ≡ line.old.items ++ argument_text arg.now) }
{
    line.push(b' ')?;
    put_value(line, arg)
}

/// `performed with CALL ARG ..`: the arguments that `readonly` grants of those in the copy.
pub(crate) fn granted_line(alloc: Global, tag: CallTag, args: &[Arg]) -> Result<Vec<u8>, NoMemory>
    ensures { IfOk result (λ line. line.items ≡ granted_line tag args.now) }
{
    let mut line = Vec::new(alloc);
    line.extend_from_slice(b"  performed with ")?;
    line.extend_from_slice(call_word(tag).as_bytes())?;
    put_read_only(&mut line, args)?;
    line.push(b'\n')?;
    Ok(line)
}

// A verdict: what is done, and the line of the rule.
fn put_verdict(line: &mut Vec<u8>, verdict: Verdict) -> Result<(), NoMemory>
    ensures { OnOk result (line.new.items ≡ line.old.items ++ verdict_text verdict) }
{
    match verdict {
        Verdict::NoRule => Ok(line.extend_from_slice(b"denied norule")?),
        Verdict::Rule {
            line: number,
            action,
        } => put_named(line, action_text(action), u64::from(number)),
    }
}

fn action_text(action: Action) -> &'static [u8]
    ensures { result.now ≡ action_text action }
{
    match action {
        Action::Allow => b"performed rule ",
        Action::Deny => b"denied rule ",
        Action::Alarm => b"denied alarm ",
        Action::Fake => b"faked rule ",
        Action::ReadOnly => b"performed readonly ",
    }
}

/// `verdict VERDICT`.
pub(crate) fn verdict_line(alloc: Global, verdict: Verdict) -> Result<Vec<u8>, NoMemory>
    ensures { IfOk result (λ line. line.items ≡ verdict_line verdict) }
{
    let mut line = Vec::new(alloc);
    line.extend_from_slice(b"verdict ")?;
    put_verdict(&mut line, verdict)?;
    line.push(b'\n')?;
    Ok(line)
}

/// `no entry N of E`: the entry that was asked for, and how many there are.
pub(crate) fn no_entry_line(alloc: Global, entry: u64, count: u64) -> Result<Vec<u8>, NoMemory>
    ensures { IfOk result (λ line. line.items ≡ no_entry_line entry count) }
{
    let mut line = Vec::new(alloc);
    put_named(&mut line, b"no entry ", entry)?;
    put_named(&mut line, b" of ", count)?;
    line.push(b'\n')?;
    Ok(line)
}
