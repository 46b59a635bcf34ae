// The status codes of Windows that services answer with, and the answers made of them.
ghost use Rattle.std.specs.Prelude.{◌≡◌, [], ◌∷◌};
ghost use Rattle.sb_call.specs.Statuses.{refusal, granting};

use crate::replies::{Answer, Extended};

/// The call was performed.
pub const SUCCESS: u32 = 0;

/// The call was performed on an object that was there already.
pub const NAME_EXISTS: u32 = 0x4000_0000;

/// The target holds no such handle.
pub const INVALID_HANDLE: u32 = 0xC000_0008;

/// An argument is out of its range, or two of them exclude each other.
pub const INVALID_PARAMETER: u32 = 0xC000_000D;

/// The object was made with other properties.
pub const ACCESS_DENIED: u32 = 0xC000_0022;

/// The object is of another kind.
pub const TYPE_MISMATCH: u32 = 0xC000_0024;

/// There is no object of that name.
pub const NAME_NOT_FOUND: u32 = 0xC000_0034;

/// There is an object of that name already.
pub const NAME_COLLISION: u32 = 0xC000_0035;

/// The directory of the name is not there.
pub const PATH_NOT_FOUND: u32 = 0xC000_003A;

/// An open handle does not share what is asked for, or what is asked for does not share with an open handle.
pub const SHARING_VIOLATION: u32 = 0xC000_0043;

/// The pipe has as many handles as it may have.
pub const INSTANCE_NOT_AVAILABLE: u32 = 0xC000_00AB;

/// The object is a directory, and the call is for a file.
pub const FILE_IS_A_DIRECTORY: u32 = 0xC000_00BA;

/// The object is a file, and the call is for a directory.
pub const NOT_A_DIRECTORY: u32 = 0xC000_0103;

impl Answer {
    /// The answer with this status that grants nothing and has no extended words.
    pub fn refusal(status: u32) -> Answer
        ensures { result ≡ refusal status }
    {
        Answer {
            status,
            handle: 0,
            ext: Extended::empty(),
        }
    }

    /// The answer with this status and handle, and one extended word.
    pub fn with_word(status: u32, handle: u64, word: u64) -> Answer
        ensures { result ≡ granting status handle (word ∷ []) }
    {
        let mut ext = Extended::empty();
        ext.push(word);
        Answer {
            status,
            handle,
            ext,
        }
    }

    /// The answer with this status and handle, and two extended words.
    pub fn with_words(status: u32, handle: u64, first: u64, second: u64) -> Answer
        ensures { result ≡ granting status handle (first ∷ second ∷ []) }
    {
        let mut ext = Extended::empty();
        ext.push(first);
        ext.push(second);
        Answer {
            status,
            handle,
            ext,
        }
    }
}
