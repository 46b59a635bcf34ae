// Files that are read whole from a disk. They tell no content, but what they give is what the reads of the disk gave.
ghost use Rattle.std.specs.Prelude.{◌≡◌, ◌<◌, ◌≤◌, [], None, false, true, length, vec_len, IfOk, IsErrOf, OnOk};
ghost use Rattle.sb_outside.specs.Disks.{Appends, FailsOnce, IsAbsent, IsContentOf, IsCut, IsLong, IsOver, IsRest, IsUnread};
ghost use Rattle.sb_outside.specs.Hosts.{cause_of, count_after, open_fault, read_fault};
ghost use Rattle.sb_outside.specs.Outside.{Rose};
ghost use Rattle.sb_outside.specs.declared.files.ReadCause.{ReadCause};

use crate::disks::Disk;
use crate::files::{FileFault, Files, ReadCause};
use std::alloc::Global;
use std::io::ErrorKind;

/// The files of a disk, by their names there.
#[derive(Drop)]
pub struct HostFiles<D: Disk + Drop> {
    /// Where they are.
    pub disk: D,
    /// The count of faults, which stays at its last value.
    pub faults: u64,
}

impl<D: Disk + Drop> HostFiles<D> {
    /// The files of `disk`, without a fault so far.
    pub fn new(disk: D) -> HostFiles<D>
        ensures disk { result.disk ≡ disk }
        ensures faults { result.faults ≡ 0 }
    {
        HostFiles { disk, faults: 0 }
    }

    // Counts the fault, unless memory ran out.
    fn counted(&mut self, fault: FileFault) -> FileFault
        ensures fault { result ≡ fault }
        ensures disk { self.new.disk ≡ self.old.disk }
        ensures count { self.new.faults ≡ count_after fault self.old.faults }
        ensures rises { self.old.faults ≤ self.new.faults }
    {
        match fault {
            FileFault::NoMemory => {}
            _ => self.faults = self.faults.saturating_add(1),
        }
        fault
    }
}

impl<D: Disk + Drop> Files for HostFiles<D> {
    ghost held = { λ _. None };

    ghost faults = { λ h. h.faults };

    fn read(&mut self, alloc: Global, name: &str, most: u64) -> Result<Vec<u8>, FileFault>
        ensures counted { self.old.faults ≤ self.new.faults }
        ensures ok_count { OnOk result (self.new.faults ≡ self.old.faults) }
        ensures short { IfOk result (λ bytes. vec_len bytes ≤ most) }
        // The file of this name is opened once, and what is returned is all that its reads gave, up to its end.
        ensures whole { IfOk result (λ bytes. IsContentOf D.opens D.gives D.ends D.fails self.old.disk name.now bytes.items self.new.disk) }
        // It is missing only if the system said so,
        ensures absent { IsErrOf result FileFault.Missing → IsAbsent D.refuses self.old.disk name.now self.new.disk }
        // too long only if its reads gave more bytes,
        ensures long { IsErrOf result FileFault.TooLong → IsLong D.opens D.gives D.fails most self.old.disk name.now self.new.disk }
        // and not read only if the system did not open it, or a read failed.
        ensures unread { (cause : ReadCause) → IsErrOf result (FileFault.Failed cause)
            → IsUnread D.opens D.refuses D.gives D.fails self.old.disk name.now self.new.disk cause }
        // Each of these is counted.
        ensures failed { (cause : ReadCause) → IsErrOf result (FileFault.Failed cause) → Rose self.old.faults self.new.faults }
        ensures missing { IsErrOf result FileFault.Missing → Rose self.old.faults self.new.faults }
        ensures too_long { IsErrOf result FileFault.TooLong → Rose self.old.faults self.new.faults }
    {
        match content_under(&mut self.disk, alloc, name, most) {
            Ok(bytes) => Ok(bytes),
            Err(fault) => Err(self.counted(fault)),
        }
    }
}

// The content of the file of this name, if it has at most `most` bytes.
fn content_under<D: Disk>(
    disk: &mut D,
    alloc: Global,
    name: &str,
    most: u64,
) -> Result<Vec<u8>, FileFault>
    ensures short { IfOk result (λ bytes. vec_len bytes ≤ most) }
    ensures whole { IfOk result (λ bytes. IsContentOf D.opens D.gives D.ends D.fails disk.old name.now bytes.items disk.new) }
    ensures absent { IsErrOf result FileFault.Missing → IsAbsent D.refuses disk.old name.now disk.new }
    ensures long { IsErrOf result FileFault.TooLong → IsLong D.opens D.gives D.fails most disk.old name.now disk.new }
    ensures unread { (cause : ReadCause) → IsErrOf result (FileFault.Failed cause)
        → IsUnread D.opens D.refuses D.gives D.fails disk.old name.now disk.new cause }
{
    match disk.open(name) {
        Ok(()) => content(alloc, disk, most),
        Err(kind) => Err(open_fault(kind)),
    }
}

// No bytes, with room for this many, if there is memory for them: a list that does not grow is not moved.
fn with_room(alloc: Global, len: usize) -> Vec<u8>
    ensures { result.items ≡ [] }
{
    match Vec::with_capacity(alloc, len) {
        Ok(bytes) => bytes,
        Err(_) => Vec::new(alloc),
    }
}

// One read, whose piece is appended. Whether there may be more: the end was not met. A read that a signal interrupts gives none.
#[tactic(auto, using(crate::proofs::Reading::appended, crate::proofs::Reading::interrupted))]
fn append_read<D: Disk>(
    disk: &mut D,
    room: &mut [u8],
    bytes: &mut Vec<u8>,
) -> Result<bool, FileFault>
    requires { 0 < length room.old }
    ensures more { IfOk result (λ more. more ≡ true → Appends D.gives D.fails disk.old bytes.old.items disk.new bytes.new.items) }
    ensures end { IfOk result (λ more. more ≡ false → D.ends disk.old disk.new × (bytes.new.items ≡ bytes.old.items)) }
    ensures failed { (cause : ReadCause) → IsErrOf result (FileFault.Failed cause) → FailsOnce D.fails disk.old disk.new cause }
    ensures opened { IsErrOf result FileFault.Missing → ⊥ }
    ensures short { IsErrOf result FileFault.TooLong → ⊥ }
{
    match disk.read(room) {
        Ok(0) => Ok(false),
        Ok(count) => match bytes.extend_from_slice(&room[..count]) {
            Ok(()) => Ok(true),
            Err(_) => Err(FileFault::NoMemory),
        },
        Err(ErrorKind::Interrupted) => Ok(true),
        Err(kind) => Err(read_fault(kind)),
    }
}

// All that is left of the open file, if that is at most `most` bytes. It is read in pieces, since a buffer of the whole size would be filled with
// zeros first.
#[tactic(auto, using(crate::proofs::Reading::nothing_read, crate::proofs::Reading::one_more, crate::proofs::Reading::ended, crate::proofs::Reading::over, crate::proofs::Reading::cut))]
fn content<D: Disk>(alloc: Global, disk: &mut D, most: u64) -> Result<Vec<u8>, FileFault>
    ensures short { IfOk result (λ bytes. vec_len bytes ≤ most) }
    ensures whole { IfOk result (λ bytes. IsRest D.gives D.ends D.fails disk.old bytes.items disk.new) }
    ensures opened { IsErrOf result FileFault.Missing → ⊥ }
    ensures long { IsErrOf result FileFault.TooLong → IsOver D.gives D.fails most disk.old disk.new }
    ensures failed { (cause : ReadCause) → IsErrOf result (FileFault.Failed cause) → IsCut D.gives D.fails disk.old disk.new cause }
{
    let mut room = [0; READ_PIECE];
    let mut bytes = with_room(alloc, disk.expected_len().min(most) as usize);
    for _ in 0..u64::MAX {
        let may_have_more = append_read(disk, &mut room, &mut bytes)?;
        if !may_have_more {
            return Ok(bytes);
        }
        if bytes.len() as u64 > most {
            return Err(FileFault::TooLong);
        }
    }
    // Memory runs out before so many reads.
    Err(FileFault::NoMemory)
}

fn cause_of(kind: ErrorKind) -> ReadCause
    ensures { result ≡ cause_of kind }
{
    match kind {
        ErrorKind::IsADirectory => ReadCause::Directory,
        ErrorKind::PermissionDenied => ReadCause::Denied,
        ErrorKind::NotADirectory => ReadCause::NoDirectory,
        ErrorKind::FilesystemLoop => ReadCause::Loop,
        _ => ReadCause::Other,
    }
}

fn open_fault(kind: ErrorKind) -> FileFault
    ensures { result ≡ open_fault kind }
{
    match kind {
        ErrorKind::NotFound => FileFault::Missing,
        ErrorKind::OutOfMemory => FileFault::NoMemory,
        kind => FileFault::Failed(cause_of(kind)),
    }
}

fn read_fault(kind: ErrorKind) -> FileFault
    ensures { result ≡ read_fault kind }
{
    match kind {
        ErrorKind::OutOfMemory => FileFault::NoMemory,
        kind => FileFault::Failed(cause_of(kind)),
    }
}

// How many bytes a piece has in which a file is read. The room for it is filled with zeros first.
const READ_PIECE: usize = 16_384;
