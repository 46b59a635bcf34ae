// The files and directories, and what each call but file.create does.
ghost use Rattle.std.specs.Prelude.{◌≡◌, ◌<◌, ◌≤◌, ◌+◌, ◌-◌, ◌^◌, true, None, IfOk, OnOk, OnErr, length, slice_set};
ghost use Rattle.sb_base.specs.Names.{is_name_of};
ghost use Rattle.sb_call.specs.Statuses.{success};
ghost use Rattle.sb_handles.specs.Laws.{IsOn};
ghost use Rattle.sb_names.specs.Nodes.{rows_of};
ghost use Rattle.sb_names.specs.Objects.{IsNameOf};
ghost use Rattle.sb_services.specs.FileSeeks.{IsSought, admits};
ghost use Rattle.sb_services.specs.Files.{AreFiles, no_files, object_at, query, rename, can_start, started, closed};

use crate::file_objects::{FileKind, FileObject};
use sb_base::{NoMemory, Wide};
use sb_call::{
    Answer, INVALID_PARAMETER, NAME_COLLISION, NAME_NOT_FOUND, PATH_NOT_FOUND, SHARING_VIOLATION,
    SUCCESS,
};
use sb_handles::{Access, ShareTable, Sharing, handles_are_on_one_object};
use sb_names::{
    Lookup, NameTree, is_below, numbers_are_kept, parents_are_kept, renames_keep_numbers,
};
use std::alloc::Global;
use std::marker::Model;

// The access that a rename needs to the object itself: delete.
const RENAME_ACCESS: Access = Access::DELETE;

// What a rename leaves to others: read, write and delete.
const RENAME_SHARING: Sharing = Sharing::ALL;

/// The files and directories: a tree of names, each object that was ever made, and the open handles on them.
///
/// Names are compared folded. Each is in the directory of its parent; the root is always there.
pub struct FileService {
    // The number of the object under each name.
    pub(crate) names: NameTree,
    // The object of number n is at place n - 1.
    pub(crate) objects: Vec<FileObject>,
    // The open handles.
    pub(crate) shares: ShareTable,
}

impl Drop for FileService {
    fn drop(self) {
        let FileService {
            names: _,
            objects: _,
            shares: _,
        } = self;
    }
}

impl Model for FileService {
    ghost use Rattle.sb_names.specs.Nodes.{rows_of};
    ghost use Rattle.sb_services.specs.Files.{Files, AreObjects};

    ghost Value = { Files };

    ghost view = { λ s. record { names = rows_of s.names.nodes; objects = s.objects.items; shares = s.shares } };

    ghost invariant = { λ s. AreObjects (record { names = rows_of s.names.nodes; objects = s.objects.items; shares = s.shares }) };
}

// The object of a number; a file for one that was not made.
pub(crate) fn object_at(objects: &[FileObject], number: u64) -> FileObject
    ensures { result ≡ object_at objects.now number }
{
    match objects.get(number.saturating_sub(1) as usize) {
        Some(object) => *object,
        None => FileObject {
            kind: FileKind::File,
            attributes: 0,
        },
    }
}

// Gives the object of a number other attributes.
pub(crate) fn set_attributes(objects: &mut Vec<FileObject>, number: u64, attributes: u64)
    requires low { 1 ≤ number }
    requires high { number ≤ length objects.old.items }
    ensures { objects.new.items ≡ slice_set objects.old.items (number - 1) (record (object_at objects.old.items number) { attributes = attributes }) }
{
    let kind = object_at(objects, number).kind;
    objects[(number - 1) as usize] = FileObject { kind, attributes };
}

// Whether there may be names in a directory, by its object: it is no file. The root has no object and admits names.
fn admits(objects: &[FileObject], parent: Option<u64>) -> bool
    ensures { result ≡ admits objects.now parent }
{
    match parent {
        Some(number) => object_at(objects, number).kind.is_directory(),
        None => true,
    }
}

// Where the path of a name leads; it leads nowhere through a file.
#[tactic(auto, using(crate::proofs::FileSeekLemmas::parent_gone, crate::proofs::FileSeekLemmas::parent_admits))]
pub(crate) fn seek_in(names: &NameTree, objects: &[FileObject], name: &[u16]) -> Lookup
    requires { is_name_of name.now ≡ true }
    ensures { IsSought names.now.nodes objects.now name.now result }
{
    let seek = names.seek(name);
    match seek {
        Lookup::NoDirectory => seek,
        Lookup::Absent { parent, .. } | Lookup::There { parent, .. } => {
            if admits(objects, parent) {
                seek
            } else {
                Lookup::NoDirectory
            }
        }
    }
}

impl FileService {
    /// Nothing is there but the root, and nothing was made.
    pub fn new(alloc: Global) -> FileService
        ensures { result ≡ no_files }
    {
        FileService {
            names: NameTree::new(alloc),
            objects: Vec::new(alloc),
            shares: ShareTable::new(alloc),
        }
    }

    /// How many files and directories were ever made.
    pub fn made(&self) -> u64
        ensures { result ≡ length self.now.objects }
    {
        self.objects.len() as u64
    }

    /// Establishes for a proof that each name is that of an object that was made, no two of one, and is in a directory or in
    /// the root; that each open handle is on an object that was made; and that names are folded and rise. It does nothing.
    pub fn establish_files(&self)
        ensures { AreFiles self.now }
    {
        self.names.establish_tree();
    }

    /// The folded name of the file or directory of a number, or None exactly if no name leads to it.
    ///
    /// # Errors
    /// `NoMemory` if there was none for the name.
    pub fn name_of(&self, number: u64) -> Result<Option<Wide>, NoMemory>
        ensures { IfOk result (λ name. IsNameOf self.now.names number name) }
    {
        self.names.name_of(number)
    }

    /// Shows the attributes and the kind of the file or directory of a name. Statuses, the first that applies: path not found
    /// if the parent of the name is not there or is a file; name not found; success, with the attributes and 0 for a
    /// file or 1 for a directory as the extended words.
    pub fn query(&self, name: &[u16]) -> Answer
        requires name { is_name_of name.now ≡ true }
        ensures { result ≡ query self.now name.now }
    {
        match seek_in(&self.names, &self.objects, name) {
            Lookup::NoDirectory => Answer::refusal(PATH_NOT_FOUND),
            Lookup::Absent { .. } => Answer::refusal(NAME_NOT_FOUND),
            Lookup::There { object, .. } => {
                let FileObject { kind, attributes } = object_at(&self.objects, object);
                Answer::with_words(SUCCESS, 0, attributes, kind as u64)
            }
        }
    }

    /// Gives a file or directory, and all below it, a new name: each name begins with `to` in place of `name`. The handles
    /// stay with their objects. Statuses, the first that applies: path not found if the parent of `name` is not
    /// there or is a file; name not found; invalid parameter if `to` lies below `name`; path not found if the parent
    /// of `to` is not there or is a file; name collision if `to` is there, also as `name` itself; sharing violation
    /// if deleting the object conflicts with an open handle on it; success.
    ///
    /// # Errors
    /// `NoMemory` if the call would succeed and there was none for the new names; then all is as before.
    pub fn rename(&mut self, name: &[u16], to: &[u16]) -> Result<Answer, NoMemory>
        requires name { is_name_of name.now ≡ true }
        requires to { is_name_of to.now ≡ true }
        ensures answer { IfOk result (λ a. a ≡ (rename self.old name.now to.now).1) }
        ensures service { OnOk result (self.new ≡ (rename self.old name.now to.now).0) }
        ensures memory { OnErr result ((rename self.old name.now to.now).1.status ≡ success) }
        ensures shares { self.new.shares ≡ self.old.shares }
        ensures err { OnErr result (self.new ≡ self.old) }
    {
        renames_keep_numbers();
        parents_are_kept();
        self.names.establish_tree();
        let (node, number) = match seek_in(&self.names, &self.objects, name) {
            Lookup::NoDirectory => return Ok(Answer::refusal(PATH_NOT_FOUND)),
            Lookup::Absent { .. } => return Ok(Answer::refusal(NAME_NOT_FOUND)),
            Lookup::There { node, object, .. } => (node, object),
        };
        if is_below(name, to) {
            return Ok(Answer::refusal(INVALID_PARAMETER));
        }
        let directory = match seek_in(&self.names, &self.objects, to) {
            Lookup::NoDirectory => return Ok(Answer::refusal(PATH_NOT_FOUND)),
            Lookup::There { .. } => return Ok(Answer::refusal(NAME_COLLISION)),
            Lookup::Absent { directory, .. } => directory,
        };
        if self
            .shares
            .has_conflict(number, RENAME_ACCESS, RENAME_SHARING)
        {
            return Ok(Answer::refusal(SHARING_VIOLATION));
        }
        self.names.rename_at(node, directory, name, to)?;
        Ok(Answer::refusal(SUCCESS))
    }

    /// Whether `start` can place a directory or a file of this name: its parent is there and no file, and the name is free.
    pub fn can_start(&self, name: &[u16]) -> bool
        requires name { is_name_of name.now ≡ true }
        ensures { result ≡ can_start self.now name.now }
    {
        matches!(
            seek_in(&self.names, &self.objects, name),
            Lookup::Absent { .. }
        )
    }

    /// Places a directory or a file of the opening namespace. Returns false, and changes nothing, exactly if the parent of the
    /// name is not there or is a file, or the name is there.
    ///
    /// # Errors
    /// `NoMemory` if it can be placed and there was none for it; then nothing is changed.
    pub fn start(&mut self, name: &[u16], dir: bool, attributes: u64) -> Result<bool, NoMemory>
        requires name { is_name_of name.now ≡ true }
        requires made { length self.old.objects < 2 ^ 63 }
        ensures answer { IfOk result (λ b. b ≡ can_start self.old name.now) }
        ensures service { OnOk result (self.new ≡ started self.old name.now dir attributes) }
        ensures memory { OnErr result (can_start self.old name.now ≡ true) }
        ensures shares { self.new.shares ≡ self.old.shares }
        ensures err { OnErr result (self.new ≡ self.old) }
    {
        numbers_are_kept::<u64>();
        parents_are_kept();
        let Lookup::Absent { directory, .. } = seek_in(&self.names, &self.objects, name) else {
            return Ok(false);
        };
        self.objects.reserve(1)?;
        let number = self.objects.len() as u64 + 1;
        self.names.add_at(directory, name, number)?;
        let kind = FileKind::of(dir);
        self.objects.push_reserved(FileObject { kind, attributes });
        Ok(true)
    }

    /// Ends the sharing of a handle on the file or directory of a number, once the handle table has closed it. The handle must
    /// be open on no other object.
    pub fn close(&mut self, number: u64, handle: u64)
        requires { IsOn self.old.shares number handle }
        ensures { self.new ≡ closed self.old handle }
    {
        handles_are_on_one_object();
        self.shares.establish_order();
        self.shares.leave(number, handle);
    }
}
