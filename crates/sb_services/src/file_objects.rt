// A file or directory, apart from its name.
ghost use Rattle.std.specs.Prelude.{◌≡◌};
ghost use Rattle.sb_services.specs.Files.{is_directory, kind_of};

/// A file or a directory.
#[derive(Clone, Copy, Debug, PartialEq, Eq)]
pub enum FileKind {
    /// A file.
    File = 0,
    /// A directory.
    Directory = 1,
}

impl FileKind {
    /// A directory or a file.
    pub fn of(dir: bool) -> FileKind
        ensures { result ≡ kind_of dir }
    {
        if dir {
            FileKind::Directory
        } else {
            FileKind::File
        }
    }

    /// Whether it is a directory.
    pub fn is_directory(self) -> bool
        ensures { result ≡ is_directory self }
    {
        self == FileKind::Directory
    }
}

/// A file or directory, apart from its name.
#[derive(Clone, Copy)]
pub struct FileObject {
    /// Which of the two it is.
    pub kind: FileKind,
    /// Its attributes, as a mask.
    pub attributes: u64,
}
