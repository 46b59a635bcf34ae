// Bytes, as rows show them.

use sb_rows::RowFault;

/// Appends bytes between quotes: printable ASCII as it is, with a `\` before `"` and `\`, and other bytes by their numbers.
pub fn put_shown(out: &mut String, bytes: &[u8]) -> Result<(), RowFault> {
    out.push('"')?;
    for byte in bytes {
        put_byte(out, *byte)?;
    }
    Ok(out.push('"')?)
}

fn put_byte(out: &mut String, byte: u8) -> Result<(), RowFault> {
    match byte {
        b'"' | b'\\' => write!(out, "\\{}", char::from(byte))?,
        32..=126 => out.push(char::from(byte))?,
        _ => write!(out, "\\x{byte:02x}")?,
    }
    Ok(())
}
