// Readers of numbers and strings, and how values are written.

use crate::faults::RowFault;
use sb_base::Wide;
use std::alloc::Global;

/// The arguments of a row, cut at bars. Blanks about them do not count.
pub fn arguments<'a>(alloc: Global, rest: &'a str) -> Result<Vec<&'a str>, RowFault> {
    let mut parts = Vec::new(alloc);
    for part in rest.split('|') {
        parts.push(part.trim_ascii())?;
    }
    Ok(parts)
}

/// A number, in decimal digits, or in hexadecimal ones after `0x`.
pub fn number(text: &str) -> Result<u64, RowFault> {
    let read = match text.strip_prefix("0x") {
        Some(digits) => u64::from_str_radix(digits, 16),
        None => text.parse(),
    };
    match read {
        Ok(number) => Ok(number),
        Err(_) => Err(RowFault::BadNumber),
    }
}

/// A number of 32 bits.
pub fn small(text: &str) -> Result<u32, RowFault> {
    match u32::try_from(number(text)?) {
        Ok(number) => Ok(number),
        Err(_) => Err(RowFault::BadNumber),
    }
}

/// Units: the letters of the text, where `{d800}` is the unit of this number and `{61*300}` this many of them.
pub fn wide(alloc: Global, text: &str) -> Result<Wide, RowFault> {
    let mut found = Vec::new(alloc);
    let mut parts = text.split('{');
    if let Some(first) = parts.next() {
        put_text(alloc, first, &mut found)?;
    }
    for part in parts {
        let Some((unit, after)) = part.split_once('}') else {
            return Err(RowFault::BadUnit);
        };
        put_units(unit, &mut found)?;
        put_text(alloc, after, &mut found)?;
    }
    Ok(Wide::new(found))
}

fn put_text(alloc: Global, text: &str, found: &mut Vec<u16>) -> Result<(), RowFault> {
    found.extend_from_slice(Wide::from_str(alloc, text)?.as_units())?;
    Ok(())
}

fn put_units(text: &str, found: &mut Vec<u16>) -> Result<(), RowFault> {
    let (unit, times) = text.split_once('*').unwrap_or((text, "1"));
    let Ok(unit) = u16::from_str_radix(unit, 16) else {
        return Err(RowFault::BadUnit);
    };
    for _ in 0..number(times)? {
        found.push(unit)?;
    }
    Ok(())
}

/// Appends a separator, except before the first item of a list.
pub fn put_between(out: &mut String, separator: &str) -> Result<(), RowFault> {
    if !out.is_empty() {
        out.push_str(separator)?;
    }
    Ok(())
}
