// What one opcode leaves of an argument.
ghost use Rattle.std.specs.Prelude.{◌≡◌, map, option_map};
ghost use Rattle.sb_opcode.specs.Records.{kind_of, opcode_of};
ghost use Rattle.sb_opcode.specs.Unpacking.{cell_of};
ghost use Rattle.sb_opcode.specs.Meaning.{number_holds, after_text, units_left, after_opcode};
ghost use Rattle.sb_opcode.specs.Walking.{arg_from};

use crate::fragments::{after_seek, at_end};
use crate::opcodes::{OpKind, Opcode, Seek};
use crate::options::Options;
use bitflags::Flags;

// What is left of an argument: a number, or the units of a string from the position on.
#[derive(Clone, Copy)]
pub(crate) enum Place<'a> {
    Number(u64),
    Units(&'a [u16]),
}

#[inline(always)]
fn number_holds(opcode: &Opcode<'_>, value: u64) -> bool
    ensures { result ≡ number_holds (kind_of opcode.now.kind) value }
{
    match opcode.kind {
        OpKind::True => true,
        OpKind::Num(wanted) => value == wanted,
        OpKind::Range { lo, hi } => lo <= value && value <= hi,
        OpKind::Mask(mask) => value & mask != 0,
        OpKind::False | OpKind::Text { .. } | OpKind::Act { .. } => false,
    }
}

#[inline(always)]
fn after_text<'a>(
    cells: &[u64],
    seek: Seek,
    options: Options,
    units: &'a [u16],
) -> Option<&'a [u16]>
    ensures { option_map (λ us. us.now) result ≡ after_text (map cell_of cells.now) seek options units.now }
{
    let left = after_seek(seek, options.contains(Options::FOLD), cells, units);
    if options.contains(Options::EXACT) {
        at_end(left?)
    } else {
        left
    }
}

#[inline(always)]
fn units_left<'a>(opcode: &Opcode<'_>, units: &'a [u16]) -> Option<&'a [u16]>
    ensures { option_map (λ us. us.now) result ≡ units_left (kind_of opcode.now.kind) opcode.now.options units.now }
{
    match opcode.kind {
        OpKind::True => Some(units),
        OpKind::Text { cells, seek } => after_text(cells, seek, opcode.options, units),
        OpKind::False
        | OpKind::Num(_)
        | OpKind::Range { .. }
        | OpKind::Mask(_)
        | OpKind::Act { .. } => None,
    }
}

// What an opcode leaves of an argument of which it holds.
#[inline(always)]
pub(crate) fn after_opcode<'a>(opcode: &Opcode<'_>, place: Place<'a>) -> Option<Place<'a>>
    ensures { option_map arg_from result ≡ after_opcode (opcode_of opcode.now) (arg_from place.entry) }
{
    match place {
        Place::Number(value) => number_holds(opcode, value).then_some(place),
        Place::Units(units) => {
            let left = units_left(opcode, units)?;
            Some(Place::Units(left))
        }
    }
}
