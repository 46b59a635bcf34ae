// The calls that a target may forward: their tags, numbers and parameters.
ghost use Rattle.std.specs.Prelude.{◌≡◌, slice_get};
ghost use Rattle.sb_call.specs.Parameters.{is_number_kind};
ghost use Rattle.sb_call.specs.Tags.{shape_of};

use sb_base::UnknownNumber;

/// A call that a target may forward. Each tag has a number, which encodes it in a block.
#[derive(Clone, Copy, Debug, PartialEq, Eq)]
pub enum CallTag {
    /// `ping`: answers its cookie and the length of its text.
    Ping = 1,
    /// `file.create`: creates or opens a file or a directory.
    FileCreate = 2,
    /// `file.open`: opens a file or a directory that is there.
    FileOpen = 3,
    /// `file.query`: asks for the attributes of a name.
    FileQuery = 4,
    /// `file.rename`: gives a file or a directory another name.
    FileRename = 5,
    /// `pipe.create`: makes an instance of a named pipe.
    PipeCreate = 6,
    /// `key.create`: creates or opens a registry key.
    KeyCreate = 7,
    /// `key.open`: opens a registry key that is there.
    KeyOpen = 8,
    /// `event.create`: creates or opens a named event.
    EventCreate = 9,
    /// `event.open`: opens a named event that is there.
    EventOpen = 10,
    /// `handle.close`: closes a handle.
    HandleClose = 11,
}

/// What a parameter of a call is.
#[derive(Clone, Copy, Debug, PartialEq, Eq)]
pub enum ParamKind {
    /// A wide string without another rule.
    Text,
    /// A wide string that is a name.
    Name,
    /// A number of 32 bits.
    Num,
    /// The number of a handle, of 64 bits.
    Handle,
}

impl ParamKind {
    /// Whether such a parameter is a number.
    pub fn is_number(self) -> bool
        ensures { result ≡ is_number_kind self }
    {
        matches!(self, ParamKind::Num | ParamKind::Handle)
    }
}

impl CallTag {
    /// The kind of a parameter, numbered from 0. None exactly if the call has no such parameter.
    pub fn param_kind(self, param: u32) -> Option<ParamKind>
        ensures { result ≡ slice_get (shape_of self) param }
    {
        shape(self).get(param as usize).copied()
    }
}

/// The tag of a number from 1 to 11, and an error exactly for any other.
impl TryFrom<u64> for CallTag {
    ghost use Rattle.std.specs.Prelude.{◌≡◌};
    ghost use Rattle.std.specs.Result.{result_ok};
    ghost use Rattle.sb_call.specs.Tags.{tag_of};

    type Error = UnknownNumber;

    ghost try_from_gives = { λ number result. result_ok result ≡ tag_of number };

    fn try_from(number: u64) -> Result<CallTag, UnknownNumber> {
        match number {
            1 => Ok(CallTag::Ping),
            2 => Ok(CallTag::FileCreate),
            3 => Ok(CallTag::FileOpen),
            4 => Ok(CallTag::FileQuery),
            5 => Ok(CallTag::FileRename),
            6 => Ok(CallTag::PipeCreate),
            7 => Ok(CallTag::KeyCreate),
            8 => Ok(CallTag::KeyOpen),
            9 => Ok(CallTag::EventCreate),
            10 => Ok(CallTag::EventOpen),
            11 => Ok(CallTag::HandleClose),
            _ => Err(UnknownNumber(number)),
        }
    }
}

/// The kinds of a call's parameters, in order.
pub fn shape(tag: CallTag) -> &'static [ParamKind]
    ensures { result.now ≡ shape_of tag }
{
    match tag {
        CallTag::Ping => &[ParamKind::Num, ParamKind::Text],
        CallTag::FileCreate => &[
            ParamKind::Name,
            ParamKind::Num,
            ParamKind::Num,
            ParamKind::Num,
            ParamKind::Num,
            ParamKind::Num,
        ],
        CallTag::FileOpen => &[
            ParamKind::Name,
            ParamKind::Num,
            ParamKind::Num,
            ParamKind::Num,
        ],
        CallTag::FileQuery => &[ParamKind::Name],
        CallTag::FileRename => &[ParamKind::Name, ParamKind::Name],
        CallTag::PipeCreate => &[
            ParamKind::Name,
            ParamKind::Num,
            ParamKind::Num,
            ParamKind::Num,
        ],
        CallTag::KeyCreate => &[ParamKind::Name, ParamKind::Num],
        CallTag::KeyOpen => &[ParamKind::Name, ParamKind::Num],
        CallTag::EventCreate => &[ParamKind::Name, ParamKind::Num, ParamKind::Num],
        CallTag::EventOpen => &[ParamKind::Name, ParamKind::Num],
        CallTag::HandleClose => &[ParamKind::Handle],
    }
}
