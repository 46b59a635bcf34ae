// In which column of its line a fault is.
ghost use Rattle.std.specs.Prelude.{◌≡◌, ◌+◌, ◌<◌, ◌≤◌, ◌^◌, length};
ghost use Rattle.sb_text.specs.Columns.{before, bytes_before, characters, column_at, is_character, units_of};

/// What the lines of a text are made of.
#[derive(Clone, Copy)]
pub enum Layout {
    /// UTF-8, whose tokens may be quoted: a character is a Unicode scalar value.
    Text,
    /// Bytes, which need not be UTF-8, and words alone: a character is a byte.
    Bytes,
}

impl Layout {
    /// Whether a character begins with this byte.
    pub fn is_character(self, byte: u8) -> bool
        ensures { result ≡ is_character self byte }
    {
        match self {
            Layout::Text => !matches!(byte, 128..=191),
            Layout::Bytes => true,
        }
    }

    // The number of characters.
    fn characters(self, bytes: &[u8]) -> usize
        ensures value { result ≡ characters self bytes.now }
        ensures most { result ≤ length bytes.now }
    {
        bytes
            .iter()
            .filter(|byte| self.is_character(**byte))
            .count()
    }
}

// The number of UTF-16 units of the character whose UTF-8 begins with this byte.
fn units_of(byte: u8) -> u32
    ensures { result ≡ units_of byte }
{
    if byte < 240 { 1 } else { 2 }
}

/// The number of bytes before the character of this UTF-16 unit, from 0.
pub(crate) fn bytes_before(unit: u32, bytes: &[u8]) -> usize
    ensures value { result ≡ bytes_before unit bytes.now }
    ensures most { result ≤ length bytes.now }
{
    let mut rest = bytes;
    let mut unit = unit;
    let mut count = 0;
    while let Some((byte, later)) = rest.split_first() {
        if Layout::Text.is_character(*byte) {
            if units_of(*byte) > unit {
                return count;
            }
            unit -= units_of(*byte);
        }
        rest = later;
        count += 1;
    }
    count
}

// What is before a place of a line.
fn before(line: &[u8], place: usize) -> &[u8]
    ensures value { result.now ≡ before line.now place }
    ensures most { length result.now ≤ length line.now }
{
    &line[..line.len().saturating_sub(place)]
}

/// The column of a place of a line of fewer than 2^32 - 1 bytes, from 1. A place is the number of bytes from there to the line's end.
pub fn column_at(layout: Layout, line: &[u8], place: usize) -> u32
    requires { length line.now + 1 < 2 ^ 32 }
    ensures { result ≡ column_at layout line.now place }
{
    1 + layout.characters(before(line, place)) as u32
}
