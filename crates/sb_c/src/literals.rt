// The texts of literals.
ghost use Rattle.std.specs.Prelude.{◌≡◌, ◌<◌, take, length};
ghost use Rattle.sb_c.specs.Statuses.{status_of};
ghost use Rattle.sb_c.specs.Texts.{IsPatternWritten, IsStringWritten};

use crate::rooms::put;
use crate::statuses::Status;
use sb_base::Refused;
use sb_host::{pattern_literal, string_literal};
use std::alloc::Global;

/// Writes the text, as UTF-8, that means exactly this string where it is written between quotes after `is` in a policy.
#[unsafe(no_mangle)]
#[tactic(auto, using(crate::proofs::TextLemmas::string_needs_room))]
pub extern "C" fn sb_string_literal(
    alloc: Global,
    units: &[u16],
    text: &mut [u8],
    count: &mut usize,
) -> u32
    ensures status { IsStringWritten units.now (length text.old) count.new (take count.new text.new) (status_of result) }
    ensures same { 0 < result → (text.new ≡ text.old) × (count.new ≡ count.old) }
{
    let written = match string_literal(alloc, units) {
        Ok(written) => written,
        Err(Refused::Fault(_)) => return Status::NoLiteral.number(),
        Err(Refused::NoMemory) => return Status::NoMemory.number(),
    };
    if put(&written, text, count) {
        Status::Ok.number()
    } else {
        Status::NoRoom.number()
    }
}

/// Writes the text, as UTF-8, that is read as a pattern which matches exactly the strings that are the same as this one.
#[unsafe(no_mangle)]
#[tactic(auto, using(crate::proofs::TextLemmas::pattern_needs_room))]
pub extern "C" fn sb_pattern_literal(
    alloc: Global,
    units: &[u16],
    text: &mut [u8],
    count: &mut usize,
) -> u32
    ensures status { IsPatternWritten units.now (length text.old) count.new (take count.new text.new) (status_of result) }
    ensures same { 0 < result → (text.new ≡ text.old) × (count.new ≡ count.old) }
{
    let written = match pattern_literal(alloc, units) {
        Ok(written) => written,
        Err(Refused::Fault(_)) => return Status::NoLiteral.number(),
        Err(Refused::NoMemory) => return Status::NoMemory.number(),
    };
    if put(&written, text, count) {
        Status::Ok.number()
    } else {
        Status::NoRoom.number()
    }
}
