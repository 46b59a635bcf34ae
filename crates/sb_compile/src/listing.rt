// The listing of a program: a heading for each call that has code, and a line for each opcode.
ghost use Rattle.std.specs.Prelude.{◌≡◌, ◌+◌, ◌<◌, ◌^◌, ◌++◌, ◌∷◌, [], codes, length, map, IfOk, OnOk};
ghost use Rattle.std.specs.Fmt.{decimal};
ghost use Rattle.sb_base.specs.Quoting.{quoted};
ghost use Rattle.sb_rule.specs.PatternReading.{cell_text, text_of};
ghost use Rattle.sb_call.specs.CallWords.{call_word};
ghost use Rattle.sb_rule.specs.Actions.{action_word};
ghost use Rattle.sb_opcode.specs.Unpacking.{cell_of};
ghost use Rattle.sb_opcode.specs.Records.{kind_of, opcode_of};
ghost use Rattle.sb_compile.specs.Listing.{seek_text, number_text, kind_text, word_if, options_text, opcode_line, opcode_lines, code_lines};

use bitflags::Flags;
use sb_base::{NoMemory, QUESTION, SLASH, STAR, put_decimal, put_hexadecimal, quote_into};
use sb_call::{CallTag, call_word};
use sb_opcode::{Code, OpKind, Opcode, Options, Records, Seek};
use sb_rule::Action;

// A blank, and a number in hexadecimal.
fn put_number(out: &mut Vec<u8>, number: u64) -> Result<(), NoMemory>
    ensures { OnOk result (out.new.items ≡ out.old.items ++ number_text number) }
{
    out.extend_from_slice(b" 0x")?;
    put_hexadecimal(out, number)
}

// A word and the number of a parameter.
fn put_param(out: &mut Vec<u8>, word: &[u8], param: u32) -> Result<(), NoMemory>
    ensures { OnOk result (out.new.items ≡ out.old.items ++ (word.now ++ decimal param)) }
{
    out.extend_from_slice(word)?;
    put_decimal(out, u64::from(param))
}

fn put_seek(out: &mut Vec<u8>, seek: Seek) -> Result<(), NoMemory>
    ensures { OnOk result (out.new.items ≡ out.old.items ++ seek_text seek) }
{
    match seek {
        Seek::Skip(skip) => {
            out.extend_from_slice(b"skip ")?;
            put_decimal(out, u64::from(skip))
        }
        Seek::Forward => Ok(out.extend_from_slice(b"forward")?),
        Seek::ToEnd => Ok(out.extend_from_slice(b"end")?),
    }
}

// The text of a cell that is listed as a word.
fn push_cell(units: &mut Vec<u16>, word: u64) -> Result<(), NoMemory>
    ensures { OnOk result (units.new.items ≡ units.old.items ++ cell_text (cell_of word)) }
{
    if word == u64::from(QUESTION) {
        units.push(SLASH)?;
    }
    if word < 65536 {
        units.push(word as u16)?;
    } else if word == 65536 {
        units.push(QUESTION)?;
    } else {
        units.push(STAR)?;
    }
    Ok(())
}

// The text of cells, between quotes.
fn put_cells(out: &mut Vec<u8>, cells: &[u64]) -> Result<(), NoMemory>
    ensures { OnOk result (out.new.items ≡ out.old.items ++ quoted (text_of (map cell_of cells.now))) }
{
    let mut units = Vec::new(*out.allocator());
    for word in cells {
        push_cell(&mut units, *word)?;
    }
    quote_into(out, &units)
}

fn put_text(out: &mut Vec<u8>, param: u32, cells: &[u64], seek: Seek) -> Result<(), NoMemory>
    ensures { OnOk result (out.new.items ≡ out.old.items
        ++ (codes "text p" ++ decimal param ++ codes " " ++ seek_text seek ++ codes " " ++ quoted (text_of (map cell_of cells.now)))) }
{
    put_param(out, b"text p", param)?;
    out.push(b' ')?;
    put_seek(out, seek)?;
    out.push(b' ')?;
    put_cells(out, cells)
}

fn put_act(out: &mut Vec<u8>, action: Action, line: u32) -> Result<(), NoMemory>
    ensures { OnOk result (out.new.items ≡ out.old.items ++ (codes "action " ++ action_word action ++ codes " line " ++ decimal line)) }
{
    out.extend_from_slice(b"action ")?;
    out.extend_from_slice(action.word().as_bytes())?;
    out.extend_from_slice(b" line ")?;
    put_decimal(out, u64::from(line))
}

fn put_kind(out: &mut Vec<u8>, opcode: &Opcode<'_>) -> Result<(), NoMemory>
    ensures { OnOk result (out.new.items ≡ out.old.items ++ kind_text (kind_of opcode.now.kind) opcode.now.param) }
{
    let param = opcode.param;
    match opcode.kind {
        OpKind::False => Ok(out.extend_from_slice(b"false")?),
        OpKind::True => Ok(out.extend_from_slice(b"true")?),
        OpKind::Num(number) => {
            put_param(out, b"num p", param)?;
            put_number(out, number)
        }
        OpKind::Range { lo, hi } => {
            put_param(out, b"range p", param)?;
            put_number(out, lo)?;
            put_number(out, hi)
        }
        OpKind::Mask(mask) => {
            put_param(out, b"mask p", param)?;
            put_number(out, mask)
        }
        OpKind::Text { cells, seek } => put_text(out, param, cells, seek),
        OpKind::Act { action, line } => put_act(out, action, line),
    }
}

fn put_word_if(out: &mut Vec<u8>, has: bool, word: &[u8]) -> Result<(), NoMemory>
    ensures { OnOk result (out.new.items ≡ out.old.items ++ word_if has word.now) }
{
    if has {
        out.extend_from_slice(word)?;
    }
    Ok(())
}

fn put_options(out: &mut Vec<u8>, options: Options) -> Result<(), NoMemory>
    ensures { OnOk result (out.new.items ≡ out.old.items ++ options_text options) }
{
    put_word_if(out, options.contains(Options::FOLD), b" fold")?;
    put_word_if(out, options.contains(Options::EXACT), b" exact")?;
    put_word_if(out, options.contains(Options::NEGATE), b" negate")?;
    put_word_if(out, options.contains(Options::CLEAR), b" clear")?;
    put_word_if(out, options.contains(Options::OR), b" or")
}

// The line of an opcode.
fn put_opcode(out: &mut Vec<u8>, at: u64, opcode: &Opcode<'_>) -> Result<(), NoMemory>
    ensures { OnOk result (out.new.items ≡ out.old.items ++ opcode_line at (opcode_of opcode.now)) }
{
    put_decimal(out, at)?;
    out.push(b' ')?;
    put_kind(out, opcode)?;
    put_options(out, opcode.options)?;
    out.push(b'\n')?;
    Ok(())
}

// The lines of opcodes, of which the first has the place 1.
fn put_later(out: &mut Vec<u8>, records: &mut Records<'_>) -> Result<(), NoMemory>
    requires { length records.old < 2 ^ 32 }
    ensures { OnOk result (out.new.items ≡ out.old.items ++ opcode_lines 1 records.old) }
{
    let mut at = 1;
    while let Some(record) = records.next_record() {
        put_opcode(out, at, &record)?;
        at += 1;
    }
    Ok(())
}

// The heading of a code and its lines, and nothing if there are no opcodes.
pub(crate) fn put_code(
    out: &mut Vec<u8>,
    name: &[u8],
    tag: CallTag,
    code: &Code,
) -> Result<(), NoMemory>
    ensures { OnOk result (out.new.items ≡ out.old.items ++ code_lines name.now tag code.now) }
{
    let mut records = code.records();
    let Some(first) = records.next_record() else {
        return Ok(());
    };
    out.extend_from_slice(b"code ")?;
    out.extend_from_slice(name)?;
    out.push(b' ')?;
    out.extend_from_slice(call_word(tag).as_bytes())?;
    out.push(b'\n')?;
    put_opcode(out, 0, &first)?;
    put_later(out, &mut records)
}
