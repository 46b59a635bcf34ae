// Replies, read from their fields.
ghost use Rattle.std.specs.Prelude.{◌≡◌};
ghost use Rattle.sb_transcript.specs.Reading.{words_within, ext_of, ext_at, reply_at};
ghost use Rattle.sb_transcript.specs.Steps.{Becomes, Reads};

use crate::cuts::Fields;
use crate::numbers::{decimal_at, status_at};
use crate::read_lines::ShownReply;
use crate::unread::{Unread, or_unread};
use sb_call::Extended;
use sb_text::decimal_of;

// At most seven numbers in decimal, one a field.
#[tactic(auto, using(crate::proofs::Words::words_full, crate::proofs::Words::words_bad, crate::proofs::Words::words_more, crate::proofs::Words::words_end))]
fn words_of(fields: &mut Fields) -> Result<Extended, Unread>
    ensures { Becomes (words_within 7 fields.old) result }
{
    let mut words = Extended::empty();
    while let Some(field) = fields.next_field() {
        if words.len() == 7 {
            return Err(Unread::NotALine);
        }
        words.push(or_unread(decimal_of(field))?);
    }
    Ok(words)
}

// Extended words with commas between them, in square brackets.
fn ext_of(field: &[u8]) -> Result<Extended, Unread>
    ensures { Becomes (ext_of field.now) result }
{
    if field.len() == 2 {
        return Ok(Extended::empty());
    }
    let (words, _) = field.split_at(field.len().saturating_sub(1));
    words_of(&mut Fields::new(b',', words))
}

fn ext_at(fields: &mut Fields) -> Result<Extended, Unread>
    ensures { Reads (ext_at fields.old) result fields.new }
{
    let field = fields.field()?;
    ext_of(field)
}

/// The outcome, status, handle and extended words of a reply.
pub fn reply_at(fields: &mut Fields) -> Result<ShownReply, Unread>
    ensures { Reads (reply_at fields.old) result fields.new }
{
    let outcome = decimal_at(fields)?;
    let status = status_at(fields)?;
    let handle = decimal_at(fields)?;
    let ext = ext_at(fields)?;
    Ok(ShownReply {
        outcome,
        status,
        handle,
        ext,
    })
}
