// Replies in the words of a block.
ghost use Rattle.std.specs.Prelude.{◌≡◌};
ghost use Rattle.sb_block.specs.Replies.{reply_words, read_reply, RepliesComeBack};

use crate::packing::word_at;
use arrayvec::ArrayVec;
use sb_call::{Extended, Reply};

/// The twelve words of a reply: mark, outcome, status, handle, the number of extended words, and
/// seven extended words, of which those that are not there are 0.
pub fn reply_words(reply: &Reply) -> [u64; 12]
    ensures { result ≡ reply_words reply.now }
{
    let ext = reply.ext.as_slice();
    [
        reply.mark,
        reply.outcome,
        reply.status,
        reply.handle,
        ext.len() as u64,
        word_at(ext, 0),
        word_at(ext, 1),
        word_at(ext, 2),
        word_at(ext, 3),
        word_at(ext, 4),
        word_at(ext, 5),
        word_at(ext, 6),
    ]
}

/// The reply that twelve words say: of the seven extended words as many as the count says, and at
/// most seven.
pub fn read_reply(words: &[u64; 12]) -> Reply
    ensures { result ≡ read_reply words.now }
{
    let mut ext = ArrayVec::new();
    let count = words[4].min(7) as usize;
    for word in &words[5..5 + count] {
        ext.push(*word);
    }
    Reply {
        mark: words[0],
        outcome: words[1],
        status: words[2],
        handle: words[3],
        ext: Extended::new(ext),
    }
}

/// A reply that is written in words is read back from them.
#[tactic(auto, using(crate::proofs::ReplyLemmas::seven_back))]
pub fn replies_come_back()
    ensures { RepliesComeBack }
{}
