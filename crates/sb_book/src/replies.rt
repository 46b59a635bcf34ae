// What replies say: outcomes, the words of a fault, and the answer of a service.
ghost use Rattle.std.specs.Prelude.{◌≡◌, ◌∷◌, []};
ghost use Rattle.sb_book.specs.Replies.{fault_words, performed_reply};

use sb_block::BlockFault;
use sb_call::{Answer, Extended, Reply};

/// The outcome of a reply to a call that was performed.
pub const PERFORMED_OUTCOME: u64 = 0;

/// The outcome of a reply to a block that was refused.
pub const REFUSED_OUTCOME: u64 = 1;

/// The outcome of a reply to a call that was denied.
pub const DENIED_OUTCOME: u64 = 2;

/// The outcome of a reply to a call that was faked.
pub const FAKED_OUTCOME: u64 = 3;

// A fault's number alone.
fn one_word(number: u64) -> Extended
    ensures { result ≡ number ∷ [] }
{
    let mut words = Extended::empty();
    words.push(number);
    words
}

// A fault's number and its value.
fn two_words(number: u64, value: u64) -> Extended
    ensures { result ≡ number ∷ value ∷ [] }
{
    let mut words = one_word(number);
    words.push(value);
    words
}

// A fault's number and its two values.
fn three_words(number: u64, seen: u64, copied: u64) -> Extended
    ensures { result ≡ number ∷ seen ∷ copied ∷ [] }
{
    let mut words = two_words(number, seen);
    words.push(copied);
    words
}

/// The extended words of the reply to a block that was refused: the fault's number, from 1 to 10, and then its values, at most two.
/// Does not allocate.
pub fn fault_words(fault: BlockFault) -> Extended
    ensures { result ≡ fault_words fault }
{
    match fault {
        BlockFault::TooManyParams(count) => two_words(1, count),
        BlockFault::BadEnd(end) => two_words(2, end),
        BlockFault::CountChanged(seen, copied) => three_words(3, seen, copied),
        BlockFault::EndChanged(seen, copied) => three_words(4, seen, copied),
        BlockFault::BadParamType(param) => two_words(5, u64::from(param)),
        BlockFault::BadPlace(param) => two_words(6, u64::from(param)),
        BlockFault::UnknownTag(tag) => two_words(7, tag),
        BlockFault::WrongShape => one_word(8),
        BlockFault::BadSize(param) => two_words(9, u64::from(param)),
        BlockFault::BadName(param) => two_words(10, u64::from(param)),
    }
}

/// The reply to a mark that shows a service's answer.
pub(crate) fn performed_reply(mark: u64, answer: Answer) -> Reply
    ensures { result ≡ performed_reply mark answer }
{
    let Answer {
        status,
        handle,
        ext,
    } = answer;
    Reply {
        mark,
        outcome: PERFORMED_OUTCOME,
        status: u64::from(status),
        handle,
        ext,
    }
}
