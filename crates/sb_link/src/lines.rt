// How the answers of a book that resolves names are written.
ghost use Rattle.std.specs.Prelude.{◌≡◌, ◌++◌, OnOk};
ghost use Rattle.sb_link.specs.Lines.{linked_line, place_text, stop_text, stopped_line};

use crate::stops::Stop;
use sb_base::{NoMemory, put_named};
use sb_call::{CallTag, call_word};

// Appends why a call stopped.
fn put_stop(line: &mut Vec<u8>, stop: Stop) -> Result<(), NoMemory>
    ensures { OnOk result (line.new.items ≡ line.old.items ++ stop_text stop) }
{
    match stop {
        Stop::Loop(parameter) => put_named(line, b"loop ", u64::from(parameter)),
        Stop::TooBig => Ok(line.extend_from_slice(b"too-big")?),
    }
}

// Appends `stopped`, the name of a target, a channel and a mark.
fn put_place(line: &mut Vec<u8>, name: &[u8], channel: u32, mark: u64) -> Result<(), NoMemory>
    ensures { OnOk result (line.new.items ≡ line.old.items ++ place_text name.now channel mark) }
{
    line.extend_from_slice(b"stopped ")?;
    line.extend_from_slice(name)?;
    put_named(line, b" ", u64::from(channel))?;
    put_named(line, b" mark ", mark)?;
    Ok(())
}

/// Appends the line of a call that stopped, with its LF: the name of its target, its channel, its mark, its tag, and why it stopped.
///
/// # Errors
/// `NoMemory` if there was none for it; then a part may have been appended.
pub fn put_stopped_line(
    line: &mut Vec<u8>,
    name: &[u8],
    channel: u32,
    mark: u64,
    tag: CallTag,
    stop: Stop,
) -> Result<(), NoMemory>
    ensures { OnOk result (line.new.items ≡ line.old.items ++ stopped_line name.now channel mark tag stop) }
{
    put_place(line, name, channel, mark)?;
    line.push(b' ')?;
    line.extend_from_slice(call_word(tag).as_bytes())?;
    line.push(b' ')?;
    put_stop(line, stop)?;
    line.push(b'\n')?;
    Ok(())
}

/// Appends the line of totals, with its LF: the number of calls, of entries, and of calls that stopped.
///
/// # Errors
/// `NoMemory` if there was none for it; then a part may have been appended.
pub fn put_linked_line(
    line: &mut Vec<u8>,
    calls: u64,
    entries: u64,
    stopped: u64,
) -> Result<(), NoMemory>
    ensures { OnOk result (line.new.items ≡ line.old.items ++ linked_line calls entries stopped) }
{
    put_named(line, b"linked calls ", calls)?;
    put_named(line, b" entries ", entries)?;
    put_named(line, b" stopped ", stopped)?;
    line.push(b'\n')?;
    Ok(())
}
