// How a call from C ended, and the number of that.
ghost use Rattle.std.specs.Prelude.{◌≡◌};
ghost use Rattle.sb_c.specs.Statuses.{done_or_bad, status_number};

/// How a call from C ended. Its number never changes.
#[derive(Clone, Copy)]
pub(crate) enum Status {
    /// It is done.
    Ok = 0,
    /// A number is out of range, or this is not the time for the call. Nothing changed.
    BadCall = 1,
    /// There was no memory. Nothing changed.
    NoMemory = 2,
    /// The copy has a fault, which is told.
    Fault = 3,
    /// There is less room than what is to be written needs. Nothing changed.
    NoRoom = 4,
    /// No text means exactly this string.
    NoLiteral = 5,
    /// The call needs more than the 64 words of a block.
    TooBig = 6,
}

impl Status {
    /// Its number, which never changes.
    pub(crate) fn number(self) -> u32
        ensures { result ≡ status_number self }
    {
        self as u32
    }
}

/// The number of a call that is done, or does not fit.
pub(crate) fn done_or_bad(done: bool) -> u32
    ensures { result ≡ done_or_bad done }
{
    if done {
        Status::Ok.number()
    } else {
        Status::BadCall.number()
    }
}
