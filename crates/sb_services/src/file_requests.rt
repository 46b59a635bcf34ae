// What a file.create asks for.
ghost use Rattle.std.specs.Prelude.{◌≡◌, ⊤, ◌∷◌, [], codes, IfSome};
ghost use Rattle.sb_services.specs.FileRequests.{create_request, is_invalid, needs_free_name, needs_object, open_request, replaces, valid_request, wants_directory, wants_file};

use bitflags::{Flag, Flags, bitflag_items};
use sb_base::UnknownNumber;
use sb_handles::{Access, Sharing};

/// What to do if the name is there, and if it is not (`CreateDisposition`).
#[derive(Clone, Copy, Debug, PartialEq, Eq)]
pub enum Disposition {
    /// Replace the file, or make it (`FILE_SUPERSEDE`, 0).
    Supersede = 0,
    /// Open what is there (`FILE_OPEN`, 1).
    Open = 1,
    /// Make what is not there (`FILE_CREATE`, 2).
    Create = 2,
    /// Open what is there, or make it (`FILE_OPEN_IF`, 3).
    OpenOrCreate = 3,
    /// Replace the content of the file that is there (`FILE_OVERWRITE`, 4).
    Overwrite = 4,
    /// Replace the content of the file, or make it (`FILE_OVERWRITE_IF`, 5).
    OverwriteOrCreate = 5,
}

/// The disposition of a number from 0 to 5, and an error exactly for any other.
impl TryFrom<u64> for Disposition {
    ghost use Rattle.std.specs.Prelude.{◌≡◌};
    ghost use Rattle.std.specs.Result.{result_ok};
    ghost use Rattle.sb_services.specs.FileRequests.{disposition_of};

    type Error = UnknownNumber;

    ghost try_from_gives = { λ number result. result_ok result ≡ disposition_of number };

    fn try_from(number: u64) -> Result<Disposition, UnknownNumber> {
        match number {
            0 => Ok(Disposition::Supersede),
            1 => Ok(Disposition::Open),
            2 => Ok(Disposition::Create),
            3 => Ok(Disposition::OpenOrCreate),
            4 => Ok(Disposition::Overwrite),
            5 => Ok(Disposition::OverwriteOrCreate),
            _ => Err(UnknownNumber(number)),
        }
    }
}

impl Disposition {
    // Whether the name must be there.
    pub(crate) fn needs_object(self) -> bool
        ensures { result ≡ needs_object self }
    {
        matches!(self, Disposition::Open | Disposition::Overwrite)
    }

    // Whether the name must be free.
    pub(crate) fn needs_free_name(self) -> bool
        ensures { result ≡ needs_free_name self }
    {
        self == Disposition::Create
    }

    // Whether the content of a file that is there is replaced, which no directory allows.
    pub(crate) fn replaces(self) -> bool
        ensures { result ≡ replaces self }
    {
        matches!(
            self,
            Disposition::Supersede | Disposition::Overwrite | Disposition::OverwriteOrCreate
        )
    }
}

/// The options of a file.create (`CreateOptions`). All bits are kept; those that have no name have no effect.
#[derive(Clone, Copy)]
pub struct FileOptions(u64);

bitflag_items! {
    impl FileOptions: u64 {
        /// For directories alone (`FILE_DIRECTORY_FILE`).
        const DIRECTORY = 1;

        /// For files alone (`FILE_NON_DIRECTORY_FILE`).
        const NON_DIRECTORY = 0x40;
    }
}

impl Flags for FileOptions {
    type Bits = u64;

    ghost exact = { ⊤ };

    ghost table = { (codes "DIRECTORY", 1) ∷ (codes "NON_DIRECTORY", 0x40) ∷ [] };

    ghost set_of = { λ o. o.0 };

    fn flags<'a>() -> &'a [Flag<FileOptions>] {
        FileOptions::FLAGS
    }

    fn bits(&self) -> u64 {
        self.0
    }

    fn from_bits_retain(bits: u64) -> FileOptions {
        FileOptions(bits)
    }
}

/// What a file.create asks for beside the name.
#[derive(Clone, Copy)]
pub struct FileRequest {
    /// The attributes of what is made, or whose content is replaced, as a mask.
    pub attributes: u64,
    /// The access of the handle.
    pub access: Access,
    /// What others may do to the object while the handle is open.
    pub sharing: Sharing,
    /// What to do if the name is there, and if it is not.
    pub disposition: Disposition,
    /// Whether a directory alone or a file alone is asked for.
    pub options: FileOptions,
}

impl FileRequest {
    /// What a file.create asks for, or None if it is invalid: the disposition is above 5, the sharing above 7, both options are
    /// set, or `DIRECTORY` is set and the disposition would replace what is there.
    pub fn to_create(
        attributes: u64,
        access: Access,
        sharing: Sharing,
        disposition: u64,
        options: u64,
    ) -> Option<FileRequest>
        ensures request { result ≡ create_request attributes access sharing disposition options }
        ensures masks { IfSome result (λ request. (request.access ≡ access) × (request.sharing ≡ sharing)) }
    {
        let disposition = Disposition::try_from(disposition).ok()?;
        FileRequest {
            attributes,
            access,
            sharing,
            disposition,
            options: FileOptions::from_bits_retain(options),
        }
        .valid()
    }

    /// What a file.open asks for: to open what is there, with attributes 0. None if the request is invalid, as in `to_create`.
    pub fn to_open(access: Access, sharing: Sharing, options: u64) -> Option<FileRequest>
        ensures request { result ≡ open_request access sharing options }
        ensures masks { IfSome result (λ request. (request.access ≡ access) × (request.sharing ≡ sharing)) }
    {
        FileRequest {
            attributes: 0,
            access,
            sharing,
            disposition: Disposition::Open,
            options: FileOptions::from_bits_retain(options),
        }
        .valid()
    }

    // The request, if it is valid.
    fn valid(self) -> Option<FileRequest>
        ensures valid { result ≡ valid_request self }
        ensures whole { IfSome result (λ request. request ≡ self) }
    {
        if self.is_invalid() { None } else { Some(self) }
    }

    // Whether the sharing is out of range, or the request excludes itself.
    fn is_invalid(self) -> bool
        ensures { result ≡ is_invalid self }
    {
        self.sharing.bits() > 7
            || self.wants_directory() && self.wants_file()
            || self.wants_directory() && self.disposition.replaces()
    }

    // Whether a directory is asked for, and else a file.
    pub(crate) fn wants_directory(self) -> bool
        ensures { result ≡ wants_directory self }
    {
        self.options.intersects(FileOptions::DIRECTORY)
    }

    // Whether a file alone is asked for.
    pub(crate) fn wants_file(self) -> bool
        ensures { result ≡ wants_file self }
    {
        self.options.intersects(FileOptions::NON_DIRECTORY)
    }
}
