// The lines of local denials.
ghost use Rattle.std.specs.Prelude.{◌≡◌, ◌++◌, IfOk, OnOk, codes};
ghost use Rattle.std.specs.Fmt.{decimal};
ghost use Rattle.std.specs.List.{flat_map};
ghost use Rattle.sb_local.specs.Lines.{denial_line, denial_lines, place_text};

use crate::denials::LocalDenial;
use sb_base::{NoMemory, put_decimal};
use sb_call::call_word;
use sb_statements::Script;
use sb_transcript::put_verdict;
use std::alloc::Global;

fn put_place(lines: &mut Vec<u8>, thread: u32, place: u32) -> Result<(), NoMemory>
    ensures { OnOk result (lines.new.items ≡ lines.old.items ++ place_text thread place) }
{
    lines.push(b' ')?;
    put_decimal(lines, u64::from(thread))?;
    lines.push(b' ')?;
    put_decimal(lines, u64::from(place))?;
    lines.push(b' ')?;
    Ok(())
}

fn put_denial(lines: &mut Vec<u8>, script: &Script, denial: &LocalDenial) -> Result<(), NoMemory>
    ensures { OnOk result (lines.new.items ≡ lines.old.items ++ denial_line script.now denial.now) }
{
    lines.extend_from_slice(b"local ")?;
    lines.extend_from_slice(script.target_name(denial.target as usize))?;
    put_place(lines, denial.thread, denial.place)?;
    lines.extend_from_slice(call_word(denial.tag).as_bytes())?;
    put_verdict(lines, denial.verdict)?;
    lines.push(b'\n')?;
    Ok(())
}

/// The lines of local denials, in order, each with its LF. Only the names of the script's targets are used, which thinning keeps.
///
/// # Errors
/// `NoMemory` if there was none for the lines.
pub fn denial_lines(
    alloc: Global,
    script: &Script,
    denied: &[LocalDenial],
) -> Result<Vec<u8>, NoMemory>
    ensures { IfOk result (λ lines. lines.items ≡ denial_lines script.now denied.now) }
{
    let mut lines = Vec::new(alloc);
    for denial in denied {
        put_denial(&mut lines, script, denial)?;
    }
    Ok(lines)
}
