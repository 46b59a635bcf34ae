// Where bytes are not UTF-8, and what quoted tokens mean.
ghost use Rattle.std.specs.Prelude.{◌≡◌, ◌<◌, ◌≤◌, ◌^◌, ◌+◌, length, None, Some, IfOk, MatchResult};
ghost use Rattle.sb_text.specs.Utf8.{first_place, not_utf8_place, place_after};
ghost use Rattle.sb_text.specs.Tokens.{string_of};

use crate::columns::Layout;
use sb_base::{NoMemory, Wide};
use simdutf8::from_utf8_baseline;
use std::alloc::Global;
use thiserror::Error;

/// The bytes are not UTF-8.
#[derive(Clone, Copy, Debug, Error)]
#[error("line {line}, column {column} is not UTF-8")]
pub struct NotUtf8 {
    /// The line, from 1, of the first byte at which the bytes are not UTF-8.
    pub line: u32,
    /// The character of that line, from 1, that is not UTF-8.
    pub column: u32,
}

/// The text that bytes are, if all of them are UTF-8.
///
/// They must be fewer than 2^32. If they are not UTF-8, the place is right after their longest front that is.
pub fn text_of(bytes: &[u8]) -> Result<&str, NotUtf8>
    requires { length bytes.now < 2 ^ 32 }
    ensures { MatchResult result (λ text. (text.now ≡ bytes.now) × (not_utf8_place bytes.now ≡ None))
        (λ fault. not_utf8_place bytes.now ≡ Some (record { line = fault.line; column = fault.column })) }
{
    match from_utf8_baseline(bytes) {
        Ok(text) => Ok(text),
        Err(error) => Err(place_after(&bytes[..error.valid_up_to()])),
    }
}

// The place right after these bytes.
fn place_after(front: &[u8]) -> NotUtf8
    requires { length front.now + 1 < 2 ^ 32 }
    ensures { record { line = result.line; column = result.column } ≡ place_after first_place front.now }
{
    let mut line = 1;
    let mut column = 1;
    for byte in front {
        if *byte == b'\n' {
            line += 1;
            column = 1;
        } else if Layout::Text.is_character(*byte) {
            column += 1;
        }
    }
    NotUtf8 { line, column }
}

/// The wide string that a quoted token means: the UTF-16 units of its characters, without escapes.
pub fn string_of(alloc: Global, quoted: &str) -> Result<Wide, NoMemory>
    ensures { IfOk result (λ wide. wide ≡ string_of quoted.now) }
{
    Wide::from_str(alloc, quoted)
}
