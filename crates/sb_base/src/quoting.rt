// How units are written between quotes.
ghost use Rattle.std.specs.Prelude.{◌≡◌, ◌<◌, ◌++◌, take, vec_len, OnOk, OnErr};
ghost use Rattle.std.specs.List.{flat_map};
ghost use Rattle.sb_base.specs.Quoting.{quoted, quoted_unit, hex_digit};

use crate::memory::NoMemory;
use crate::units::{BACKSLASH, QUOTE};

fn hex_digit(digit: u16) -> u8
    requires { digit < 16 }
    ensures { result ≡ hex_digit digit }
{
    if digit < 10 {
        b'0' + digit as u8
    } else {
        b'a' + (digit as u8 - 10)
    }
}

/// Appends `"`, the units and `"`. A unit from 32 to 126 is that ASCII character, but `"` and `\` come after a `\`. Any
/// other unit is `\u` and four lower-case hexadecimal digits.
///
/// # Errors
/// `NoMemory` if there was none for the bytes. Then `out` is as it was.
pub fn quote_into(out: &mut Vec<u8>, units: &[u16]) -> Result<(), NoMemory>
    ensures ok { OnOk result (out.new.items ≡ out.old.items ++ quoted units.now) }
    ensures err { OnErr result (out.new.items ≡ out.old.items) }
{
    let before = out.len();
    let outcome = append_quoted(out, units);
    if outcome.is_err() {
        out.truncate(before);
    }
    outcome
}

// After an error `out` begins with what it held.
fn append_quoted(out: &mut Vec<u8>, units: &[u16]) -> Result<(), NoMemory>
    ensures ok { OnOk result (out.new.items ≡ out.old.items ++ quoted units.now) }
    ensures err { OnErr result (take (vec_len out.old) out.new.items ≡ out.old.items) }
{
    out.push(b'"')?;
    append_units(out, units)?;
    out.push(b'"')?;
    Ok(())
}

// Appends the units as they are between quotes. After an error `out` begins with what it held.
fn append_units(out: &mut Vec<u8>, units: &[u16]) -> Result<(), NoMemory>
    ensures ok { OnOk result (out.new.items ≡ out.old.items ++ flat_map quoted_unit units.now) }
    ensures err { OnErr result (take (vec_len out.old) out.new.items ≡ out.old.items) }
{
    for unit in units {
        append_unit(out, *unit)?;
    }
    Ok(())
}

fn append_unit(out: &mut Vec<u8>, unit: u16) -> Result<(), NoMemory>
    ensures ok { OnOk result (out.new.items ≡ out.old.items ++ quoted_unit unit) }
    ensures err { OnErr result (out.new.items ≡ out.old.items) }
{
    match unit {
        QUOTE | BACKSLASH => out.extend_from_slice(&[b'\\', unit as u8])?,
        32..=126 => out.push(unit as u8)?,
        _ => {
            let digits = [
                b'\\',
                b'u',
                hex_digit(unit / 4096),
                hex_digit(unit / 256 % 16),
                hex_digit(unit / 16 % 16),
                hex_digit(unit % 16),
            ];
            out.extend_from_slice(&digits)?;
        }
    }
    Ok(())
}
