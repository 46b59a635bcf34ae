// Files that are read whole.
ghost use Rattle.std.specs.Prelude.{◌≡◌, ◌≤◌, Option, ℕ, IfOk, OnOk, IsErrOf, vec_len};
ghost use Rattle.sb_outside.specs.Outside.{Held, IsContent, IsMissing, IsTooLong, Rose};

use std::alloc::Global;
use thiserror::Error;

/// What the system says of a file that it does not give.
#[derive(Clone, Copy, Debug)]
pub enum ReadCause {
    /// It is a directory.
    Directory,
    /// The user may not read it.
    Denied,
    /// A part of its path is no directory.
    NoDirectory,
    /// Its path has too many links.
    Loop,
    /// Anything else.
    Other,
}

/// Why a file was not read.
#[derive(Clone, Copy, Debug, Error)]
pub enum FileFault {
    /// There is no file of this name.
    #[error("no such file")]
    Missing,
    /// The file has more bytes than were asked for.
    #[error("the file is too long")]
    TooLong,
    /// The opening or the reading failed.
    #[error("the file was not read")]
    Failed(ReadCause),
    /// There was no memory for the content.
    #[error("out of memory")]
    NoMemory,
}

/// Files by name.
///
/// What they hold, a content at each name that is there, may be told or not. Their count of faults never falls. A count
/// that is kept in 64 bits stays at its last value, so one that is there is taken as one that rose.
pub trait Files {
    ghost use Rattle.sb_outside.specs.declared.files.ReadCause.{ReadCause};

    ghost held: { Self → Option Held };

    ghost faults: { Self → ℕ };

    /// The whole content under `name`, if it has at most `most` bytes. What the files hold stays.
    ///
    /// # Errors
    /// `Failed` only if the count of faults rose in this call. `Missing` if there is no such file, and `TooLong`
    /// if its content has more than `most` bytes: if what the files hold is told these come only by what is told,
    /// and otherwise only if the count rose. `NoMemory` if there was none for the content.
    fn read(&mut self, alloc: Global, name: &str, most: u64) -> Result<Vec<u8>, FileFault>
        ensures kept { held self.new ≡ held self.old }
        ensures counted { faults self.old ≤ faults self.new }
        ensures ok { IfOk result (λ bytes. IsContent (held self.old) name.now bytes.items) }
        ensures short { IfOk result (λ bytes. vec_len bytes ≤ most) }
        ensures ok_count { OnOk result (faults self.new ≡ faults self.old) }
        ensures failed { (cause : ReadCause) → IsErrOf result (FileFault.Failed cause) → Rose (faults self.old) (faults self.new) }
        ensures missing { IsErrOf result FileFault.Missing
            → IsMissing (held self.old) name.now (Rose (faults self.old) (faults self.new)) }
        ensures too_long { IsErrOf result FileFault.TooLong
            → IsTooLong (held self.old) name.now most (Rose (faults self.old) (faults self.new)) };
}
