// The lines of entries, read from the fields after their first word.
ghost use Rattle.std.specs.Prelude.{◌≡◌, IfOk};
ghost use Rattle.sb_transcript.specs.Reading.{parameter_fault, fault_of_word, fault_at, argument_of, arguments_at, granted_at, call_at, denied_at, decision_of_word, decision_at, entry_line_at};
ghost use Rattle.sb_transcript.specs.Steps.{Becomes, Reads, ReadsAs};

use crate::cuts::Fields;
use crate::numbers::{count_at, decimal_at, name_at, small, small_at};
use crate::read_lines::{EntryLine, ShownDecision};
use crate::reading_replies::reply_at;
use crate::strings::unquoted;
use crate::unread::{Unread, or_unread};
use sb_base::NoMemory;
use sb_block::BlockFault;
use sb_call::{Arg, Args, CallTag, tag_of_word};
use sb_text::number_of;
use std::alloc::Global;

// The fault of the parameter with this number that a word names.
fn parameter_fault(word: &[u8], param: u32) -> BlockFault
    ensures { result ≡ parameter_fault word.now param }
{
    if word == b"bad-param-type".as_slice() {
        return BlockFault::BadParamType(param);
    }
    if word == b"bad-place".as_slice() {
        return BlockFault::BadPlace(param);
    }
    if word == b"bad-size".as_slice() {
        return BlockFault::BadSize(param);
    }
    BlockFault::BadName(param)
}

// The fault that a word names, and whose numbers follow.
fn fault_of_word(word: &[u8], fields: &mut Fields) -> Result<BlockFault, Unread>
    ensures { Reads (fault_of_word word.now fields.old) result fields.new }
{
    if word == b"wrong-shape".as_slice() {
        return Ok(BlockFault::WrongShape);
    }
    let number = decimal_at(fields)?;
    if word == b"too-many-params".as_slice() {
        return Ok(BlockFault::TooManyParams(number));
    }
    if word == b"bad-end".as_slice() {
        return Ok(BlockFault::BadEnd(number));
    }
    if word == b"unknown-tag".as_slice() {
        return Ok(BlockFault::UnknownTag(number));
    }
    if word == b"count-changed".as_slice() {
        let copied = decimal_at(fields)?;
        return Ok(BlockFault::CountChanged(number, copied));
    }
    if word == b"end-changed".as_slice() {
        let copied = decimal_at(fields)?;
        return Ok(BlockFault::EndChanged(number, copied));
    }
    let param = small(number)?;
    Ok(parameter_fault(word, param))
}

fn fault_at(fields: &mut Fields) -> Result<BlockFault, Unread>
    ensures { Reads (fault_at fields.old) result fields.new }
{
    let word = fields.field()?;
    fault_of_word(word, fields)
}

// The argument that a field is, if it is one.
fn argument_of(alloc: Global, field: &[u8]) -> Result<Option<Arg>, NoMemory>
    ensures { IfOk result (λ arg. arg ≡ argument_of field.now) }
{
    if let [b'"', quoted @ ..] = field {
        let units = unquoted(alloc, quoted)?;
        return Ok(Some(Arg::Str(units)));
    }
    match number_of(field) {
        Some(number) => Ok(Some(Arg::Num(number))),
        None => Ok(None),
    }
}

// Arguments, and the word after them.
#[tactic(auto, using(crate::proofs::Arguments::one_more, crate::proofs::Arguments::none_more, crate::proofs::Arguments::no_word))]
fn arguments_at<'a>(alloc: Global, fields: &mut Fields<'a>) -> Result<(Args, &'a [u8]), Unread>
    ensures { ReadsAs (λ read. (read.0, read.1.now)) (arguments_at fields.old) result fields.new }
{
    let mut args = Args::empty(alloc);
    while let Some(field) = fields.next_field() {
        match argument_of(alloc, field)? {
            Some(arg) => args.push(arg)?,
            None => return Ok((args, field)),
        }
    }
    Err(Unread::NotALine)
}

fn call_at(fields: &mut Fields) -> Result<CallTag, Unread>
    ensures { Reads (call_at fields.old) result fields.new }
{
    let word = fields.field()?;
    or_unread(tag_of_word(word))
}

// What follows the call of a decision that performed it.
fn granted_at(alloc: Global, tag: CallTag, fields: &mut Fields) -> Result<ShownDecision, Unread>
    ensures { Reads (granted_at tag fields.old) result fields.new }
{
    let (args, word) = arguments_at(alloc, fields)?;
    let line = small_at(fields)?;
    if word == b"readonly".as_slice() {
        Ok(ShownDecision::ReadOnly { tag, args, line })
    } else {
        Ok(ShownDecision::Allowed { tag, args, line })
    }
}

// What follows the call of a decision that denied it.
fn denied_at(tag: CallTag, fields: &mut Fields) -> Result<ShownDecision, Unread>
    ensures { Reads (denied_at tag fields.old) result fields.new }
{
    let word = fields.field()?;
    if word == b"norule".as_slice() {
        return Ok(ShownDecision::NoRule(tag));
    }
    let line = small_at(fields)?;
    if word == b"alarm".as_slice() {
        Ok(ShownDecision::Alarmed { tag, line })
    } else {
        Ok(ShownDecision::Denied { tag, line })
    }
}

// The decision that a word begins, and whose other fields follow.
fn decision_of_word(
    alloc: Global,
    word: &[u8],
    fields: &mut Fields,
) -> Result<ShownDecision, Unread>
    ensures { Reads (decision_of_word word.now fields.old) result fields.new }
{
    if word == b"refused".as_slice() {
        let fault = fault_at(fields)?;
        return Ok(ShownDecision::Refused(fault));
    }
    let tag = call_at(fields)?;
    if word == b"denied".as_slice() {
        return denied_at(tag, fields);
    }
    if word == b"performed".as_slice() {
        return granted_at(alloc, tag, fields);
    }
    fields.field()?;
    let line = small_at(fields)?;
    Ok(ShownDecision::Faked { tag, line })
}

fn decision_at(alloc: Global, fields: &mut Fields) -> Result<ShownDecision, Unread>
    ensures { Reads (decision_at fields.old) result fields.new }
{
    let word = fields.field()?;
    decision_of_word(alloc, word, fields)
}

/// The line of an entry.
pub fn entry_line_at(alloc: Global, fields: &mut Fields) -> Result<EntryLine, Unread>
    ensures { Reads (entry_line_at fields.old) result fields.new }
{
    let number = decimal_at(fields)?;
    let target = name_at(fields)?;
    let channel = small_at(fields)?;
    let mark = count_at(fields)?;
    let decision = decision_at(alloc, fields)?;
    fields.field()?;
    let reply = reply_at(fields)?;
    Ok(EntryLine {
        number,
        target,
        channel,
        mark,
        decision,
        reply,
    })
}
