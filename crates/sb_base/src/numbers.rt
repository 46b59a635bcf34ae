// How numbers are written. What the bytes are after an error is not specified.
ghost use Rattle.std.specs.Prelude.{◌≡◌, ◌++◌, OnOk};
ghost use Rattle.std.specs.Fmt.{decimal};
ghost use Rattle.sb_base.specs.Numbers.{hexadecimal, eight_digits};

use crate::memory::NoMemory;
use std::io::Write;

/// Appends a number in decimal.
///
/// # Errors
/// `NoMemory` if there was none for the digits.
pub fn put_decimal(out: &mut Vec<u8>, number: u64) -> Result<(), NoMemory>
    ensures { OnOk result (out.new.items ≡ out.old.items ++ decimal number) }
{
    let mut digits = itoa::Buffer::new();
    out.extend_from_slice(digits.format(number).as_bytes())?;
    Ok(())
}

/// Appends a name and a number in decimal.
///
/// # Errors
/// `NoMemory` if there was none for it; then a part may have been appended.
pub fn put_named(out: &mut Vec<u8>, name: &[u8], number: u64) -> Result<(), NoMemory>
    ensures { OnOk result (out.new.items ≡ out.old.items ++ (name.now ++ decimal number)) }
{
    out.extend_from_slice(name)?;
    put_decimal(out, number)
}

/// Appends a number in lower-case hexadecimal digits, without zeros before them.
///
/// # Errors
/// `NoMemory` if there was none for the digits.
pub fn put_hexadecimal(out: &mut Vec<u8>, number: u64) -> Result<(), NoMemory>
    ensures { OnOk result (out.new.items ≡ out.old.items ++ hexadecimal number) }
{
    write!(out, "{number:x}").map_err(|_| NoMemory)
}

/// Appends a number in lower-case hexadecimal, of at least eight digits.
///
/// # Errors
/// `NoMemory` if there was none for the digits.
#[tactic(auto, using(crate::proofs::Padding::filled_to_eight))]
pub fn put_eight_digits(out: &mut Vec<u8>, number: u64) -> Result<(), NoMemory>
    ensures { OnOk result (out.new.items ≡ out.old.items ++ eight_digits number) }
{
    write!(out, "{number:08x}").map_err(|_| NoMemory)
}
