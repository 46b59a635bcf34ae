// Files that are opened by name and read piece by piece, and those of the system.
ghost use Rattle.std.specs.Prelude.{◌≡◌, ◌<◌, ◌≤◌, ℕ, List, length, take, ⊤, IfErr, IfOk, OnOk};

use std::fs::{self, OpenFile};
use std::io::{ErrorKind, Read};
use std::rt;

/// A disk: files are opened by name, and the one that was opened last is read from its beginning.
///
/// Relations between its states say what its calls did. A caller that is generic over disks has them from calls alone, so a contract with them says which
/// calls were made, in which order, and what each gave.
pub trait Disk {
    ghost use Rattle.std.specs.declared.io.ErrorKind.{ErrorKind};

    // The file of this name was opened.
    ghost opens: { Self → List ℕ → Self → Type 0 };

    // The file of this name was not opened, for this reason.
    ghost refuses: { Self → List ℕ → ErrorKind → Self → Type 0 };

    // A read gave this piece.
    ghost gives: { Self → List ℕ → Self → Type 0 };

    // A read met the end.
    ghost ends: { Self → Self → Type 0 };

    // A read failed, for this reason.
    ghost fails: { Self → ErrorKind → Self → Type 0 };

    /// Opens the file of this name, and closes the one that is open.
    ///
    /// # Errors
    /// Why the file was not opened. None is open then.
    fn open(&mut self, name: &str) -> Result<(), ErrorKind>
        ensures opened { OnOk result (opens self.old name.now self.new) }
        ensures refused { IfErr result (λ kind. refuses self.old name.now kind self.new) };

    /// How many bytes the open file has by the system, and 0 if that is not known. There may be more or fewer when it is read.
    fn expected_len(&self) -> u64;

    /// Reads a piece of the open file into the front of `room`, and returns how many bytes it has: none at the end, or if there is no room.
    ///
    /// # Errors
    /// Why nothing was read.
    fn read(&mut self, room: &mut [u8]) -> Result<usize, ErrorKind>
        ensures bound { IfOk result (λ count. count ≤ length room.new) }
        ensures gave { IfOk result (λ count. 0 < count → gives self.old (take count room.new) self.new) }
        ensures ended { IfOk result (λ count. count ≡ 0 → 0 < length room.old → ends self.old self.new) }
        ensures failed { IfErr result (λ kind. fails self.old kind self.new) };
}

/// The files of the system. Its relations tell nothing, since no contract of the standard library says what the system gives.
#[derive(Drop)]
pub struct HostDisk<R: rt::Files + Drop> {
    rt: R,
    file: Option<R::File>,
}

impl<R: rt::Files + Drop> HostDisk<R> {
    /// The files that `rt` opens. None is open.
    pub fn new(rt: R) -> HostDisk<R> {
        HostDisk { rt, file: None }
    }
}

impl<R: rt::Files + Drop> Disk for HostDisk<R> {
    ghost opens = { λ _ _ _. ⊤ };

    ghost refuses = { λ _ _ _ _. ⊤ };

    ghost gives = { λ _ _ _. ⊤ };

    ghost ends = { λ _ _. ⊤ };

    ghost fails = { λ _ _ _. ⊤ };

    fn open(&mut self, name: &str) -> Result<(), ErrorKind> {
        self.file = None;
        match fs::open(&self.rt, name) {
            Ok(file) => {
                self.file = Some(file);
                Ok(())
            }
            Err(error) => Err(error.kind()),
        }
    }

    fn expected_len(&self) -> u64 {
        let Some(file) = &self.file else {
            return 0;
        };
        match file.metadata() {
            Ok(metadata) => metadata.len(),
            Err(_) => 0,
        }
    }

    fn read(&mut self, room: &mut [u8]) -> Result<usize, ErrorKind> {
        let Some(file) = &mut self.file else {
            return Err(ErrorKind::NotFound);
        };
        match file.read(room) {
            Ok(count) => Ok(count),
            Err(error) => Err(error.kind()),
        }
    }
}
