// Numbers, names and words of a line, each a field.
ghost use Rattle.std.specs.Prelude.{◌≡◌};
ghost use Rattle.sb_transcript.specs.Reading.{below_2_32, decimal_at, small_at, status_at, name_at, count_at};
ghost use Rattle.sb_transcript.specs.Steps.{Becomes, Reads};

use crate::cuts::Fields;
use crate::hexadecimal::hexadecimal_value;
use crate::unread::{Unread, or_unread};
use sb_call::ShortName;
use sb_text::decimal_of;

/// A number below 2^32.
pub fn small(number: u64) -> Result<u32, Unread>
    ensures { Becomes (below_2_32 number) result }
{
    if number < 1 << 32 {
        Ok(number as u32)
    } else {
        Err(Unread::NotALine)
    }
}

/// A number in decimal.
pub fn decimal_at(fields: &mut Fields) -> Result<u64, Unread>
    ensures { Reads (decimal_at fields.old) result fields.new }
{
    let field = fields.field()?;
    or_unread(decimal_of(field))
}

/// A number in decimal, below 2^32.
pub fn small_at(fields: &mut Fields) -> Result<u32, Unread>
    ensures { Reads (small_at fields.old) result fields.new }
{
    let number = decimal_at(fields)?;
    small(number)
}

/// A word, and a number in decimal.
pub fn count_at(fields: &mut Fields) -> Result<u64, Unread>
    ensures { Reads (count_at fields.old) result fields.new }
{
    fields.field()?;
    decimal_at(fields)
}

/// A number in hexadecimal.
pub fn status_at(fields: &mut Fields) -> Result<u64, Unread>
    ensures { Reads (status_at fields.old) result fields.new }
{
    let field = fields.field()?;
    or_unread(hexadecimal_value(field))
}

/// The name of a target.
pub fn name_at(fields: &mut Fields) -> Result<ShortName, Unread>
    ensures { Reads (name_at fields.old) result fields.new }
{
    let field = fields.field()?;
    match ShortName::new(field) {
        Some(name) => Ok(name),
        None => Err(Unread::NotALine),
    }
}
