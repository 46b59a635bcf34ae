// Table tests of opcodes: which codes are faultless, and the verdict of one.
ghost use Rattle.std.specs.Prelude.{◌<◌, ◌^◌, length, IfOk};

use crate::policies::told_verdict;
use bitflags::Flags;
use sb_call::{CallTag, fits, tag_of_word};
use sb_opcode::{Code, CodeFault, OpKind, Opcode, Options, WordsFault, eval, verify, verify_words};
use sb_rows::{RowFault, call, number, put_between, small};
use sb_rule::Action;
use std::alloc::Global;

// The most opcodes of a code, and the most words.
const MOST: usize = 64;

/// What a function of codes gives. The first argument is a call.
pub fn value_of(alloc: Global, name: &str, parts: &[&str]) -> Result<String, RowFault> {
    let [first, second] = parts else {
        return Err(RowFault::Unknown);
    };
    match name {
        "verify" => told_code(alloc, tag_of(first)?, second),
        "verify_words" => told_words(alloc, tag_of(first)?, second),
        "eval" => told_eval(alloc, first, second),
        _ => Err(RowFault::Unknown),
    }
}

fn tag_of(word: &str) -> Result<CallTag, RowFault> {
    match tag_of_word(word.as_bytes()) {
        Some(tag) => Ok(tag),
        None => Err(RowFault::BadWords),
    }
}

// The words of a code of these opcodes, or its fault.
fn told_code(alloc: Global, tag: CallTag, opcodes: &str) -> Result<String, RowFault> {
    match verify(tag, code_of(alloc, opcodes)?) {
        Ok(verified) => hexadecimal(alloc, verified.code().words()),
        Err(refused) => told_fault(alloc, refused.fault),
    }
}

// The code of opcodes that semicolons separate.
fn code_of(alloc: Global, opcodes: &str) -> Result<Code, RowFault> {
    let mut code = Code::new(alloc);
    let mut count = 0;
    for text in opcodes.split(';') {
        if count >= MOST {
            return Err(RowFault::TooMany);
        }
        if let Some(opcode) = opcode_of(text)? {
            code.push(opcode)?;
        }
        count += 1;
    }
    Ok(code)
}

// An opcode: its kind, its parameter, its number and its options, or none of a blank text.
fn opcode_of(text: &str) -> Result<Option<Opcode<'static>>, RowFault> {
    let mut words = text.split_whitespace();
    let Some(kind) = words.next() else {
        return Ok(None);
    };
    let param = small(words.next().unwrap_or(""))?;
    let kind = kind_of(kind, words.next().unwrap_or(""))?;
    let options = number(words.next().unwrap_or(""))?;
    Ok(Some(Opcode {
        kind,
        param,
        options: Options::from_bits_retain((options % 256) as u8),
    }))
}

fn kind_of(kind: &str, text: &str) -> Result<OpKind<'static>, RowFault> {
    match kind {
        "false" => Ok(OpKind::False),
        "true" => Ok(OpKind::True),
        "num" => Ok(OpKind::Num(number(text)?)),
        "mask" => Ok(OpKind::Mask(number(text)?)),
        "allow" => Ok(OpKind::Act {
            action: Action::Allow,
            line: small(text)?,
        }),
        _ => Err(RowFault::BadWords),
    }
}

// The words of a row, fewer than 2^32.
fn words_of(alloc: Global, text: &str) -> Result<Vec<u64>, RowFault>
    ensures { IfOk result (λ words. length words.items < 2 ^ 32) }
{
    let mut words = Vec::new(alloc);
    for word in text.split_whitespace() {
        words.push(number(word)?)?;
    }
    if words.len() > MOST {
        return Err(RowFault::TooMany);
    }
    Ok(words)
}

// The words of a code that was verified by its words, or what is wrong with them.
fn told_words(alloc: Global, tag: CallTag, text: &str) -> Result<String, RowFault> {
    match verify_words(tag, words_of(alloc, text)?) {
        Ok(verified) => hexadecimal(alloc, verified.code().words()),
        Err(refused) => told_words_fault(alloc, refused.fault),
    }
}

// The verdict of a code on a call whose arguments fit.
fn told_eval(alloc: Global, text: &str, words: &str) -> Result<String, RowFault> {
    let (tag, args) = call(alloc, text)?;
    if !fits(tag, args.as_slice()) {
        return Err(RowFault::NotInRange);
    }
    match verify_words(tag, words_of(alloc, words)?) {
        Ok(verified) => told_verdict(alloc, eval(&verified, args.as_slice())),
        Err(refused) => told_words_fault(alloc, refused.fault),
    }
}

fn told_words_fault(alloc: Global, fault: WordsFault) -> Result<String, RowFault> {
    match fault {
        WordsFault::NotPacked => Ok(String::from_str(alloc, "NotPacked")?),
        WordsFault::Code(fault) => told_fault(alloc, fault),
    }
}

fn told_fault(alloc: Global, fault: CodeFault) -> Result<String, RowFault> {
    Ok(match fault {
        CodeFault::NoAction => String::from_str(alloc, "NoAction")?,
        CodeFault::OpenGroup(place) => format!(in alloc; "OpenGroup({place})")?,
        CodeFault::BadParam(place) => format!(in alloc; "BadParam({place})")?,
    })
}

fn hexadecimal(alloc: Global, words: &[u64]) -> Result<String, RowFault> {
    let mut out = String::new(alloc);
    for word in words {
        put_between(&mut out, " ")?;
        write!(out, "{word:x}")?;
    }
    Ok(out)
}
