// The words by which texts name calls.
ghost use Rattle.std.specs.Prelude.{◌≡◌};
ghost use Rattle.sb_call.specs.CallWords.{call_word, every_tag, tag_of_word};

use crate::tags::CallTag;

/// The word by which texts name a call, as `file.create`.
pub fn call_word(tag: CallTag) -> &'static str
    ensures { result.now ≡ call_word tag }
{
    match tag {
        CallTag::Ping => "ping",
        CallTag::FileCreate => "file.create",
        CallTag::FileOpen => "file.open",
        CallTag::FileQuery => "file.query",
        CallTag::FileRename => "file.rename",
        CallTag::PipeCreate => "pipe.create",
        CallTag::KeyCreate => "key.create",
        CallTag::KeyOpen => "key.open",
        CallTag::EventCreate => "event.create",
        CallTag::EventOpen => "event.open",
        CallTag::HandleClose => "handle.close",
    }
}

/// All tags, in the order of their numbers.
pub fn every_tag() -> &'static [CallTag]
    ensures { result.now ≡ every_tag }
{
    &[
        CallTag::Ping,
        CallTag::FileCreate,
        CallTag::FileOpen,
        CallTag::FileQuery,
        CallTag::FileRename,
        CallTag::PipeCreate,
        CallTag::KeyCreate,
        CallTag::KeyOpen,
        CallTag::EventCreate,
        CallTag::EventOpen,
        CallTag::HandleClose,
    ]
}

/// The call that a word names. None exactly if no call has that word.
pub fn tag_of_word(word: &[u8]) -> Option<CallTag>
    ensures { result ≡ tag_of_word word.now }
{
    for tag in every_tag() {
        if word == call_word(*tag).as_bytes() {
            return Some(*tag);
        }
    }
    None
}
