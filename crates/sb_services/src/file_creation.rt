// What file.create and file.open do.
ghost use Rattle.std.specs.Prelude.{◌≡◌, ◌<◌, ◌≤◌, ◌+◌, ◌^◌, true, Some, IfOk, OnOk, OnErr, length};
ghost use Rattle.sb_base.specs.Names.{is_name_of};
ghost use Rattle.sb_call.specs.Statuses.{success};
ghost use Rattle.sb_handles.specs.Agreements.{AgreesOnFiles, is_file};
ghost use Rattle.sb_handles.specs.Effects.{IsDone};
ghost use Rattle.sb_handles.specs.Shares.{opened};
ghost use Rattle.sb_handles.specs.Tables.{with_handle};
ghost use Rattle.sb_services.specs.Files.{Agrees};
ghost use Rattle.sb_services.specs.FileCreation.{create, create_by, object_asked, on_file, replaced_as};

use crate::file_objects::{FileKind, FileObject};
use crate::file_requests::{Disposition, FileRequest};
use crate::files::{FileService, object_at, seek_in, set_attributes};
use sb_base::NoMemory;
use sb_call::{
    Answer, FILE_IS_A_DIRECTORY, NAME_COLLISION, NAME_NOT_FOUND, NOT_A_DIRECTORY, PATH_NOT_FOUND,
    SHARING_VIOLATION, SUCCESS,
};
use sb_handles::{HandleTable, Held, Service, ShareTable, agreement_is_kept};
use sb_names::{Lookup, numbers_are_kept, parents_are_kept};

// What was done, as the extended word.
const WAS_SUPERSEDED: u64 = 0;

const WAS_OPENED: u64 = 1;

const WAS_CREATED: u64 = 2;

const WAS_OVERWRITTEN: u64 = 3;

// What was done to content that is replaced.
fn replaced_as(disposition: Disposition) -> u64
    ensures { result ≡ replaced_as disposition }
{
    match disposition {
        Disposition::Supersede => WAS_SUPERSEDED,
        _ => WAS_OVERWRITTEN,
    }
}

// The object that is made.
fn object_asked(request: FileRequest) -> FileObject
    ensures { result ≡ object_asked request }
{
    FileObject {
        kind: FileKind::of(request.wants_directory()),
        attributes: request.attributes,
    }
}

// A handle on the file or directory of a number.
fn on_file(number: u64, request: FileRequest) -> Held
    ensures { result ≡ on_file number request }
{
    Held::new(Service::File, number, request.access, request.sharing)
}

// Grants a handle on an object, which then takes part in sharing. It does not look for conflicts.
fn open(
    shares: &mut ShareTable,
    handles: &mut HandleTable,
    target: u32,
    held: Held,
) -> Result<u64, NoMemory>
    requires file { is_file held.object.service ≡ true }
    requires agree { AgreesOnFiles shares.old handles.old.table }
    ensures handle { IfOk result (λ handle. handle ≡ handles.old.table.granted + 1) }
    ensures shares { OnOk result (shares.new ≡ opened shares.old held.object.number (handles.old.table.granted + 1) (record { access = held.access; sharing = held.sharing })) }
    ensures handles { OnOk result (handles.new.table ≡ with_handle handles.old.table target held) }
    ensures agree { AgreesOnFiles shares.new handles.new.table }
    ensures err { OnErr result ((shares.new ≡ shares.old) × (handles.new.table ≡ handles.old.table)) }
{
    agreement_is_kept();
    handles.establish_numbers();
    handles.reserve()?;
    let number = handles.granted() + 1;
    shares.open(held.object.number, number, held.access, held.sharing)?;
    Ok(handles.grant_reserved(target, held))
}

impl FileService {
    // file.create of what is there.
    fn create_there(
        &mut self,
        handles: &mut HandleTable,
        target: u32,
        name: &[u16],
        number: u64,
        request: FileRequest,
    ) -> Result<Answer, NoMemory>
        requires low { 1 ≤ number }
        requires high { number ≤ length self.old.objects }
        requires agree { Agrees self.old handles.old.table }
        ensures effect { IfOk result (λ a. IsDone (create_by (Some number) self.old handles.old.table target name.now request) self.new handles.new.table a) }
        ensures memory { OnErr result ((create_by (Some number) self.old handles.old.table target name.now request).answer.status ≡ success) }
        ensures agree { Agrees self.new handles.new.table }
        ensures err { OnErr result ((self.new ≡ self.old) × (handles.new.table ≡ handles.old.table)) }
    {
        let disposition = request.disposition;
        let is_directory = object_at(&self.objects, number).kind.is_directory();
        if disposition.needs_free_name() {
            return Ok(Answer::refusal(NAME_COLLISION));
        }
        if !is_directory && request.wants_directory() {
            return Ok(Answer::refusal(NOT_A_DIRECTORY));
        }
        if is_directory && (request.wants_file() || disposition.replaces()) {
            return Ok(Answer::refusal(FILE_IS_A_DIRECTORY));
        }
        if self
            .shares
            .has_conflict(number, request.access, request.sharing)
        {
            return Ok(Answer::refusal(SHARING_VIOLATION));
        }
        let handle = open(&mut self.shares, handles, target, on_file(number, request))?;
        if !disposition.replaces() {
            return Ok(Answer::with_word(SUCCESS, handle, WAS_OPENED));
        }
        set_attributes(&mut self.objects, number, request.attributes);
        Ok(Answer::with_word(SUCCESS, handle, replaced_as(disposition)))
    }

    /// Makes or opens a file or directory, as the disposition says, and grants a handle on it. Dispositions, options and
    /// results are those of Windows' `NtCreateFile`.
    ///
    /// Statuses, the first that applies:
    /// - path not found if the parent of the name is not there or is a file;
    /// - if the name is not there, name not found for `Open` and `Overwrite`, and else success: a directory if the option
    ///   `DIRECTORY` is set, and else a file, with the attributes;
    /// - name collision for `Create`;
    /// - not a directory if a file is there and `DIRECTORY` is set;
    /// - file is a directory if a directory is there, and `NON_DIRECTORY` is set or its content would be replaced;
    /// - sharing violation if the access and its sharing conflict with an open handle;
    /// - success; `Supersede`, `Overwrite` and `OverwriteOrCreate` replace the attributes.
    ///
    /// The extended word is 0 if it was superseded, 1 opened, 2 created, 3 overwritten.
    ///
    /// # Errors
    /// `NoMemory` if the call would succeed and there was none for the object or the handle; then all is as before.
    pub fn create(
        &mut self,
        handles: &mut HandleTable,
        target: u32,
        name: &[u16],
        request: FileRequest,
    ) -> Result<Answer, NoMemory>
        requires name { is_name_of name.now ≡ true }
        requires made { length self.old.objects < 2 ^ 63 }
        requires agree { Agrees self.old handles.old.table }
        ensures effect { IfOk result (λ a. IsDone (create self.old handles.old.table target name.now request) self.new handles.new.table a) }
        ensures memory { OnErr result ((create self.old handles.old.table target name.now request).answer.status ≡ success) }
        ensures agree { Agrees self.new handles.new.table }
        ensures err { OnErr result ((self.new ≡ self.old) × (handles.new.table ≡ handles.old.table)) }
    {
        numbers_are_kept::<u64>();
        parents_are_kept();
        match seek_in(&self.names, &self.objects, name) {
            Lookup::NoDirectory => Ok(Answer::refusal(PATH_NOT_FOUND)),
            Lookup::There { object, .. } => {
                self.create_there(handles, target, name, object, request)
            }
            Lookup::Absent { .. } if request.disposition.needs_object() => {
                Ok(Answer::refusal(NAME_NOT_FOUND))
            }
            Lookup::Absent { directory, .. } => {
                self.objects.reserve(1)?;
                let number = self.objects.len() as u64 + 1;
                let new = self.names.reserve_at(directory, name, number)?;
                let held = on_file(number, request);
                let handle = open(&mut self.shares, handles, target, held)?;
                self.names.add_reserved(new);
                self.objects.push_reserved(object_asked(request));
                Ok(Answer::with_word(SUCCESS, handle, WAS_CREATED))
            }
        }
    }
}
