// Table tests of files and outputs of the system.

use crate::bytes::put_shown;
use sb_outside::{FileFault, Files, HostDisk, HostFiles, HostOutput, HostSink, Sink, SinkFault};
use sb_rows::{RowFault, bytes, number, put_between};
use std::alloc::Global;
use std::io::Cursor;
use std::rt;

/// What the reads of `MOST | NAME | ..` return, each with the count of faults after it.
pub fn reads_of<R: rt::Files>(rt: &R, alloc: Global, parts: &[&str]) -> Result<String, RowFault> {
    let [most, names @ ..] = parts else {
        return Err(RowFault::BadWords);
    };
    let most = number(most)?;
    let mut files = HostFiles::new(HostDisk::new(rt));
    let mut out = String::new(alloc);
    for name in names {
        put_read(alloc, &mut files, most, name, &mut out)?;
    }
    Ok(out)
}

// Appends what the read of a file returns, and the count of faults.
fn put_read<R: rt::Files>(
    alloc: Global,
    files: &mut HostFiles<HostDisk<&R>>,
    most: u64,
    name: &str,
    out: &mut String,
) -> Result<(), RowFault> {
    put_between(out, ", ")?;
    put_content(out, files.read(alloc, name, most))?;
    Ok(write!(out, "faults {}", files.faults)?)
}

/// The outcome of each put of `PIECE | TEXT | ..` into a writer of eight bytes, with the bytes that are then pending; the outcome of the
/// finish, the count of faults, and what the writer then holds.
pub fn puts_of(alloc: Global, parts: &[&str]) -> Result<String, RowFault> {
    let [piece, texts @ ..] = parts else {
        return Err(RowFault::BadWords);
    };
    let mut room = [0u8; 8];
    let mut out = String::new(alloc);
    put_all(alloc, number(piece)? as usize, texts, &mut room, &mut out)?;
    put_shown(&mut out, &room)?;
    Ok(out)
}

fn put_all(
    alloc: Global,
    piece: usize,
    texts: &[&str],
    room: &mut [u8],
    out: &mut String,
) -> Result<(), RowFault> {
    let writer = Cursor::new(room);
    let mut sink = HostSink::new(alloc, HostOutput { writer }, piece)?;
    for text in texts {
        put_one(alloc, text, &mut sink, out)?;
    }
    put_outcome(out, sink.finish())?;
    Ok(write!(out, "faults {} ", sink.faults)?)
}

// Puts the bytes of a text. Appends the outcome and the bytes that are then pending.
fn put_one(
    alloc: Global,
    text: &str,
    sink: &mut HostSink<HostOutput<Cursor<&mut [u8]>>>,
    out: &mut String,
) -> Result<(), RowFault> {
    let put = bytes(alloc, text)?;
    put_outcome(out, sink.put(&put))?;
    put_shown(out, &sink.pending)?;
    Ok(out.push_str("; ")?)
}

/// Appends what a read returns.
pub fn put_content(out: &mut String, content: Result<Vec<u8>, FileFault>) -> Result<(), RowFault> {
    match content {
        Ok(content) => put_shown(out, &content)?,
        Err(fault) => write!(out, "{fault:?}")?,
    }
    Ok(out.push_str("; ")?)
}

// Appends what a put or a finish returns.
fn put_outcome(out: &mut String, outcome: Result<(), SinkFault>) -> Result<(), RowFault> {
    match outcome {
        Ok(()) => Ok(out.push_str("ok ")?),
        Err(fault) => Ok(write!(out, "{fault:?} ")?),
    }
}
