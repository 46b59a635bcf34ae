// How numbers are written into a text. What the text is after an error is not specified.
ghost use Rattle.std.specs.Prelude.{◌≡◌, ◌++◌, OnOk, string_bytes};
ghost use Rattle.std.specs.Fmt.{decimal};
ghost use Rattle.sb_base.specs.Numbers.{hexadecimal};

use sb_base::NoMemory;
use std::alloc::Global;
use std::fmt::Write;

/// Appends a number in decimal.
///
/// # Errors
/// `NoMemory` if there was none for the digits.
pub fn put_decimal_text(out: &mut String, number: u64) -> Result<(), NoMemory>
    ensures { OnOk result (string_bytes out.new ≡ string_bytes out.old ++ decimal number) }
{
    let mut digits = itoa::Buffer::new();
    out.push_str(digits.format(number))?;
    Ok(())
}

/// Appends a number in lower-case hexadecimal digits, without zeros before them.
///
/// # Errors
/// `NoMemory` if there was none for the digits.
pub fn put_hexadecimal_text(out: &mut String, number: u64) -> Result<(), NoMemory>
    ensures { OnOk result (string_bytes out.new ≡ string_bytes out.old ++ hexadecimal number) }
{
    match write!(out, "{number:x}") {
        Ok(()) => Ok(()),
        Err(_) => Err(NoMemory),
    }
}
