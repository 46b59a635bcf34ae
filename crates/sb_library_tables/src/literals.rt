// Texts of literals.

use sb_base::Refused;
use sb_host::{pattern_literal, string_literal};
use sb_rows::{RowFault, put_word, wide};
use std::alloc::Global;

/// The text of a literal that means exactly this string.
pub fn literal(alloc: Global, name: &str, text: &str) -> Result<String, RowFault> {
    let string = wide(alloc, text)?;
    let made = match name {
        "pattern_literal" => pattern_literal(alloc, string.as_units()),
        _ => string_literal(alloc, string.as_units()),
    };
    match made {
        Ok(text) => {
            let mut out = String::new(alloc);
            put_word(&mut out, &text)?;
            Ok(out)
        }
        Err(Refused::Fault(_)) => Ok(String::from_str(alloc, "none")?),
        Err(Refused::NoMemory) => Err(RowFault::NoMemory),
    }
}
