// The lines of results and the totals, read from the fields after their first word.
ghost use Rattle.sb_transcript.specs.Reading.{result_of_word, result_at, result_line_at, totals_line_at};
ghost use Rattle.sb_transcript.specs.Steps.{Reads};

use crate::cuts::Fields;
use crate::numbers::{count_at, decimal_at, name_at, small_at};
use crate::read_lines::{ResultLine, ShownResult, TotalsLine};
use crate::reading_replies::reply_at;
use crate::unread::Unread;

// The result that this word begins, and whose other fields follow.
fn result_of_word(word: &[u8], fields: &mut Fields) -> Result<ShownResult, Unread>
    ensures { Reads (result_of_word word.now fields.old) result fields.new }
{
    if word == b"stored".as_slice() {
        return Ok(ShownResult::Stored);
    }
    if word == b"no-channel".as_slice() {
        return Ok(ShownResult::NoChannel);
    }
    if word == b"found".as_slice() {
        let value = decimal_at(fields)?;
        return Ok(ShownResult::Found(value));
    }
    let number = small_at(fields)?;
    if word == b"met".as_slice() {
        return Ok(ShownResult::Met { loads: number });
    }
    if word == b"unmet".as_slice() {
        return Ok(ShownResult::Unmet { loads: number });
    }
    if word == b"timed-out".as_slice() {
        return Ok(ShownResult::TimedOut { channel: number });
    }
    if word == b"reply".as_slice() {
        let reply = reply_at(fields)?;
        return Ok(ShownResult::Reply {
            channel: number,
            reply,
        });
    }
    let value = decimal_at(fields)?;
    if word == b"send-lost".as_slice() {
        Ok(ShownResult::SendLost {
            channel: number,
            found: value,
        })
    } else {
        Ok(ShownResult::Foreign {
            channel: number,
            mark: value,
        })
    }
}

fn result_at(fields: &mut Fields) -> Result<ShownResult, Unread>
    ensures { Reads (result_at fields.old) result fields.new }
{
    let word = fields.field()?;
    result_of_word(word, fields)
}

/// The line of a result.
pub fn result_line_at(fields: &mut Fields) -> Result<ResultLine, Unread>
    ensures { Reads (result_line_at fields.old) result fields.new }
{
    let target = name_at(fields)?;
    let thread = small_at(fields)?;
    let place = small_at(fields)?;
    let result_ = result_at(fields)?;
    Ok(ResultLine {
        target,
        thread,
        place,
        result: result_,
    })
}

/// The totals.
pub fn totals_line_at(fields: &mut Fields) -> Result<TotalsLine, Unread>
    ensures { Reads (totals_line_at fields.old) result fields.new }
{
    let entries = count_at(fields)?;
    let performed = count_at(fields)?;
    let faked = count_at(fields)?;
    let denied = count_at(fields)?;
    let refused = count_at(fields)?;
    let results = count_at(fields)?;
    Ok(TotalsLine {
        entries,
        performed,
        faked,
        denied,
        refused,
        results,
    })
}
