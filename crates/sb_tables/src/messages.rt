// Table tests of the texts of faults that no command prints.

use sb_base::NoMemory;
use sb_block::{BlockFault, TooBig};
use sb_outside::{FileFault, ReadCause, SinkFault};
use sb_rows::{RowFault, put_between};
use sb_rule::PatternFault;
use sb_text::NotUtf8;
use std::alloc::Global;
use std::fmt::Display;

/// The texts of the faults of a crate.
pub fn messages(alloc: Global, name: &str) -> Result<String, RowFault> {
    let mut out = String::new(alloc);
    put_messages(&mut out, name)?;
    Ok(out)
}

fn put_messages(out: &mut String, name: &str) -> Result<(), RowFault> {
    match name {
        "sb_base" => put_message(out, &NoMemory),
        "sb_text" => put_message(out, &NotUtf8 { line: 3, column: 7 }),
        "sb_outside" => put_outside(out),
        "sb_rule" => put_patterns(out),
        "sb_block" => put_blocks(out),
        _ => Err(RowFault::Unknown),
    }
}

fn put_message<T: Display>(out: &mut String, fault: &T) -> Result<(), RowFault> {
    put_between(out, "; ")?;
    Ok(write!(out, "{fault}")?)
}

fn put_outside(out: &mut String) -> Result<(), RowFault> {
    for fault in [
        FileFault::Missing,
        FileFault::TooLong,
        FileFault::Failed(ReadCause::Other),
        FileFault::NoMemory,
    ] {
        put_message(out, &fault)?;
    }
    for fault in [SinkFault::Closed, SinkFault::Full, SinkFault::Failed] {
        put_message(out, &fault)?;
    }
    Ok(())
}

fn put_patterns(out: &mut String) -> Result<(), RowFault> {
    for fault in [
        PatternFault::DoubleStar(2),
        PatternFault::StarQuestion(2),
        PatternFault::TooLong,
    ] {
        put_message(out, &fault)?;
    }
    Ok(())
}

fn put_blocks(out: &mut String) -> Result<(), RowFault> {
    for fault in [
        BlockFault::TooManyParams(10),
        BlockFault::BadEnd(65),
        BlockFault::CountChanged(2, 5),
        BlockFault::EndChanged(19, 0),
        BlockFault::BadParamType(1),
        BlockFault::BadPlace(0),
        BlockFault::UnknownTag(99),
        BlockFault::WrongShape,
        BlockFault::BadSize(0),
        BlockFault::BadName(0),
    ] {
        put_message(out, &fault)?;
    }
    put_message(out, &TooBig)
}
