// The text between the quotes of a string, without its escapes.
ghost use Rattle.std.specs.Prelude.{◌≡◌, ◌<◌, ◌++◌, ◌∷◌, [], length, IfOk, OnOk};
ghost use Rattle.sb_transcript.specs.Strings.{unquoted, unit_of, is_closing, escape_after, with_digit, with_unit};

use crate::hexadecimal::digit_of;
use sb_base::{NoMemory, Wide};
use std::alloc::Global;

/// Where in an escape a byte is.
#[derive(Clone, Copy)]
pub enum Escape {
    /// In none.
    Outside,
    /// After a backslash.
    Begun,
    /// After `\u` and no, one, two or three digits with this value.
    NoDigit,
    OneDigit(u16),
    TwoDigits(u16),
    ThreeDigits(u16),
}

// The value with one digit more after it. Only the lowest 16 bits count.
fn with_digit(value: u16, byte: u8) -> u16
    ensures { result ≡ with_digit value byte }
{
    ((u32::from(value) * 16 + u32::from(digit_of(byte))) & 0xffff) as u16
}

// The unit that ends with this byte, if one does.
fn unit_of(escape: Escape, byte: u8) -> Option<u16>
    ensures { result ≡ unit_of escape byte }
{
    match escape {
        Escape::Outside if byte == b'\\' => None,
        Escape::Begun if byte == b'u' => None,
        Escape::Outside | Escape::Begun => Some(u16::from(byte)),
        Escape::NoDigit | Escape::OneDigit(_) | Escape::TwoDigits(_) => None,
        Escape::ThreeDigits(value) => Some(with_digit(value, byte)),
    }
}

// Where the byte after this one is.
fn escape_after(escape: Escape, byte: u8) -> Escape
    ensures { result ≡ escape_after escape byte }
{
    match escape {
        Escape::Outside if byte == b'\\' => Escape::Begun,
        Escape::Begun if byte == b'u' => Escape::NoDigit,
        Escape::Outside | Escape::Begun | Escape::ThreeDigits(_) => Escape::Outside,
        Escape::NoDigit => Escape::OneDigit(with_digit(0, byte)),
        Escape::OneDigit(value) => Escape::TwoDigits(with_digit(value, byte)),
        Escape::TwoDigits(value) => Escape::ThreeDigits(with_digit(value, byte)),
    }
}

// Whether the string ends with this byte.
fn is_closing(escape: Escape, byte: u8) -> bool
    ensures { result ≡ is_closing escape byte }
{
    match escape {
        Escape::Outside => byte == b'"',
        _ => false,
    }
}

// Appends a unit, if there is one.
fn put_unit(units: &mut Vec<u16>, unit: Option<u16>) -> Result<(), NoMemory>
    ensures { OnOk result (units.new.items ≡ units.old.items ++ with_unit unit []) }
{
    if let Some(unit) = unit {
        units.push(unit)?;
    }
    Ok(())
}

/// The units of a string, up to its closing quote, which begin after its first.
#[tactic(auto, using(crate::proofs::Unquoting::closed, crate::proofs::Unquoting::passed))]
pub fn unquoted(alloc: Global, bytes: &[u8]) -> Result<Wide, NoMemory>
    ensures { IfOk result (λ units. units ≡ unquoted bytes.now) }
{
    let mut units = Vec::new(alloc);
    let mut escape = Escape::Outside;
    let mut rest = bytes;
    while let Some((byte, later)) = rest.split_first() {
        if is_closing(escape, *byte) {
            return Ok(Wide::new(units));
        }
        put_unit(&mut units, unit_of(escape, *byte))?;
        escape = escape_after(escape, *byte);
        rest = later;
    }
    Ok(Wide::new(units))
}
