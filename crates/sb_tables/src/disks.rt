// Table tests of files over a disk whose reads are given by the row.
ghost use Rattle.std.specs.Prelude.{◌≤◌, length, ⊤};

use crate::host::put_content;
use sb_outside::{Disk, Files, HostFiles};
use sb_rows::{RowFault, number};
use std::alloc::Global;
use std::io::ErrorKind;

// A disk with one file, `file`, whose reads give these pieces in turn, from the next one, and then the end: `~` is a read that a signal interrupts, `^` one that fails. It
// tells nothing.
#[derive(Drop)]
struct RowDisk<'a> {
    pieces: &'a [&'a str],
    next: usize,
    opens: u64,
}

impl Disk for RowDisk<'_> {
    ghost opens = { λ _ _ _. ⊤ };

    ghost refuses = { λ _ _ _ _. ⊤ };

    ghost gives = { λ _ _ _. ⊤ };

    ghost ends = { λ _ _. ⊤ };

    ghost fails = { λ _ _ _. ⊤ };

    fn open(&mut self, name: &str) -> Result<(), ErrorKind> {
        self.opens = self.opens.saturating_add(1);
        match name {
            "file" => Ok(()),
            "denied" => Err(ErrorKind::PermissionDenied),
            "starved" => Err(ErrorKind::OutOfMemory),
            _ => Err(ErrorKind::NotFound),
        }
    }

    fn expected_len(&self) -> u64 {
        0
    }

    fn read(&mut self, room: &mut [u8]) -> Result<usize, ErrorKind> {
        let Some(piece) = self.pieces.get(self.next) else {
            return Ok(0);
        };
        self.next = self.next.saturating_add(1);
        match *piece {
            "~" => Err(ErrorKind::Interrupted),
            "^" => Err(ErrorKind::Other),
            piece => Ok(copied(room, piece.as_bytes())),
        }
    }
}

// Copies as many of the first bytes as there is room for, and returns how many they are.
fn copied(room: &mut [u8], bytes: &[u8]) -> usize
    ensures { result ≤ length room.new }
{
    let count = bytes.len().min(room.len());
    room[..count].copy_from_slice(&bytes[..count]);
    count
}

/// What the read of `MOST | NAME | PIECE | ..` returns, the count of faults after it, how often a file was opened, and how many pieces were not read.
pub fn read_of(alloc: Global, parts: &[&str]) -> Result<String, RowFault> {
    let [most, name, pieces @ ..] = parts else {
        return Err(RowFault::BadWords);
    };
    let disk = RowDisk {
        pieces,
        next: 0,
        opens: 0,
    };
    let mut files = HostFiles::new(disk);
    let mut out = String::new(alloc);
    put_content(&mut out, files.read(alloc, name, number(most)?))?;
    let opens = files.disk.opens;
    let left = pieces.len().saturating_sub(files.disk.next);
    write!(out, "faults {} opens {opens} left {left}", files.faults)?;
    Ok(out)
}
