// Files in memory.
ghost use Rattle.std.specs.Prelude.{◌≡◌, ◌≤◌, Some, option_copied};
ghost use Rattle.sb_outside.specs.MemFiles.{IsAnswer, content_of, found};

use crate::files::{FileFault, Files, ReadCause};
use crate::lists::{Bytes, Numbers, Text};
use sb_base::Items;
use std::alloc::Global;

/// A file in memory.
#[derive(PartialEq)]
pub struct StoredFile {
    /// Its name.
    pub name: Text,
    /// Its whole content.
    pub content: Bytes,
}

impl Drop for StoredFile {
    fn drop(self) {
        let StoredFile {
            name: _,
            content: _,
        } = self;
    }
}

/// A list of files in memory.
pub type FileList = Items<StoredFile>;

// The content of the first file of this name, and `None` if there is none.
fn content_of<'a>(files: &'a [StoredFile], name: &str) -> Option<&'a Bytes>
    ensures { option_copied result ≡ content_of files.now name.now }
{
    for file in files {
        if file.name.as_str() == name {
            return Some(&file.content);
        }
    }
    None
}

/// Files in memory. They tell what they hold.
#[derive(Drop)]
pub struct MemFiles {
    /// The files. Of several with equal names the first counts.
    pub files: FileList,
    /// The numbers, from 1, of the calls of `read` that answer `Failed`.
    pub fails: Numbers,
    /// How many calls of `read` there were. It stays at its last value.
    pub calls: u64,
    /// How many of them answered `Failed`. It stays at its last value.
    pub faults: u64,
}

impl Files for MemFiles {
    ghost use Rattle.sb_outside.specs.MemFiles.{read_of, after_read};

    ghost held = { λ m. Some (content_of m.files) };

    ghost faults = { λ m. m.faults };

    fn read(&mut self, alloc: Global, name: &str, most: u64) -> Result<Vec<u8>, FileFault>
        // What this one answers, and what it is afterwards, whatever the answer.
        ensures answer { IsAnswer (read_of self.old name.now most) result }
        ensures after { self.new ≡ after_read self.old }
        ensures counted { self.old.faults ≤ self.new.faults }
    {
        self.calls = self.calls.saturating_add(1);
        if self.fails.as_slice().contains(&self.calls) {
            self.faults = self.faults.saturating_add(1);
            return Err(FileFault::Failed(ReadCause::Other));
        }
        content_within(alloc, content_of(self.files.as_slice(), name), most)
    }
}

// A copy of a content that has no more than `most` bytes.
fn content_within(alloc: Global, content: Option<&Bytes>, most: u64) -> Result<Vec<u8>, FileFault>
    ensures { IsAnswer (found (option_copied content.entry) most) result }
{
    let Some(content) = content else {
        return Err(FileFault::Missing);
    };
    let bytes = content.as_slice();
    if bytes.len() as u64 > most {
        return Err(FileFault::TooLong);
    }
    Vec::from_slice(alloc, bytes).map_err(|_| FileFault::NoMemory)
}
