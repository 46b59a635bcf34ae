// The kernel, and what each call does.
ghost use Rattle.std.specs.Prelude.{◌≡◌, ◌<◌, ◌^◌, ◌&&◌, length, true, is_some, unwrap_or, IfOk, OnOk, OnErr};
ghost use Rattle.sb_call.specs.Arguments.{fits};
ghost use Rattle.sb_services.specs.Pipes as pipes;
ghost use Rattle.sb_handles.specs.Effects.{is_done};
ghost use Rattle.sb_handles.specs.Laws.{HeldOnOne};
ghost use Rattle.sb_handles.specs.Tables.{IsTable, held_by};
ghost use Rattle.sb_kernel.specs.Namespaces.{close_by, empty_space, may_allocate, perform, perform_request, takes_memory};
ghost use Rattle.sb_kernel.specs.Requests.{is_proper, meant};
ghost use Rattle.sb_kernel.specs.Openings.{placed, is_named};
ghost use Rattle.sb_services.specs.FileLaws.{ClosesKeepFiles, ClosesLeaveFiles};
ghost use Rattle.sb_services.specs.PipeLaws.{ClosesKeepPipes, ClosesLeavePipes};
ghost use Rattle.sb_kernel.specs.Held.{IsObjectName};
ghost use Rattle.sb_kernel.specs.Kept.{IsSound, MadeAtMost};

use crate::requests::{Request, request_of};
use crate::services::{names_stay, requests_are_kept};
use sb_base::{NoMemory, Wide};
use sb_call::{Answer, Arg, CallTag, INVALID_HANDLE, INVALID_PARAMETER, SUCCESS};
use sb_handles::{HandleTable, Object, Service, handles_are_on_one_object};
use sb_services::{
    EventKind, EventService, FileService, KeyService, PipeService, file_agreement_is_kept,
    pipe_agreement_is_kept,
};
use sb_statements::StartLine;
use std::alloc::Global;
use std::marker::Model;

/// The namespace that the broker keeps: files, pipes, registry keys and events, and the handles that targets hold on them.
///
/// What a call does to it is this project's profile of the Windows services of these names, with the Windows status codes.
pub struct Kernel {
    files: FileService,
    pipes: PipeService,
    keys: KeyService,
    events: EventService,
    handles: HandleTable,
}

// What a namespace holds is dropped by one call, which is proved here once and not in each crate that drops a namespace.
impl Drop for Kernel {
    fn drop(self) {
        let Kernel {
            files: _,
            pipes: _,
            keys: _,
            events: _,
            handles: _,
        } = self;
    }
}

impl Model for Kernel {
    ghost use Rattle.sb_kernel.specs.Namespaces.{Space};
    ghost use Rattle.sb_kernel.specs.Kept.{IsKept};

    ghost Value = { Space };

    ghost view = { λ k. record { files = k.files; pipes = k.pipes; keys = k.keys; events = k.events; handles = k.handles.table } };

    ghost invariant = { λ k. IsKept (record { files = k.files; pipes = k.pipes; keys = k.keys; events = k.events; handles = k.handles.table }) };
}

impl Kernel {
    /// Nothing was made, and nothing granted.
    pub fn new(alloc: Global) -> Kernel
        ensures { result ≡ empty_space }
    {
        Kernel {
            files: FileService::new(alloc),
            pipes: PipeService::new(alloc),
            keys: KeyService::new(alloc),
            events: EventService::new(alloc),
            handles: HandleTable::new(alloc),
        }
    }

    /// The handles that targets hold.
    pub fn handles(&self) -> &HandleTable
        ensures { result.now.table ≡ self.now.handles }
    {
        &self.handles
    }

    /// The folded name of an object: that which leads to a file, a key or an event, or None exactly if none does. None for a pipe.
    ///
    /// # Errors
    /// `NoMemory` if there was none for the name.
    pub fn object_name(&self, object: Object) -> Result<Option<Wide>, NoMemory>
        ensures { IfOk result (λ name. IsObjectName self.now object name) }
    {
        match object.service {
            Service::File => self.files.name_of(object.number),
            Service::Pipe => Ok(None),
            Service::Key => self.keys.name_of(object.number),
            Service::Event => self.events.name_of(object.number),
        }
    }

    /// Performs a call of a target, and returns the answer. The arguments must fit the call. A call that is refused changes
    /// nothing.
    ///
    /// # Errors
    /// `NoMemory` if the call would grant a handle or rename, and there was none for it; then nothing is changed. A call that
    /// is refused, a query, a ping and a close allocate nothing.
    pub fn perform(&mut self, target: u32, tag: CallTag, args: &[Arg]) -> Result<Answer, NoMemory>
        requires fits { fits tag args.now ≡ true }
        ensures answer { IfOk result (λ a. a ≡ (perform self.old target tag args.now).answer) }
        ensures ok { OnOk result (self.new ≡ (perform self.old target tag args.now).space) }
        ensures memory { OnErr result (takes_memory self.old target tag args.now ≡ true) }
        ensures err { OnErr result (self.new ≡ self.old) }
    {
        match request_of(tag, args) {
            Some(request) => self.perform_request(target, request),
            None => Ok(Answer::refusal(INVALID_PARAMETER)),
        }
    }

    /// Establishes for a proof that files and pipes agree with the handles on them; that each handle of a file, key or event has
    /// its row, with access and sharing below 2^32; that each name is a name; and that numbers are distinct within each
    /// service. It does nothing.
    pub fn establish_sound(&self)
        ensures { IsSound self.now }
    {
        self.files.establish_files();
        self.pipes.establish_pipes();
        self.keys.establish_keys();
        self.events.establish_events();
        self.handles.establish_numbers();
    }

    // Establishes what each call rests on: what a kernel keeps, and that fewer than 2^63 objects were made in each service.
    fn establish_bounds(&self)
        ensures sound { IsSound self.now }
        ensures files { length self.now.files.objects < 2 ^ 63 }
        ensures pipes { self.now.pipes.made < 2 ^ 63 }
        ensures keys { self.now.keys.made < 2 ^ 63 }
        ensures events { self.now.events.made < 2 ^ 63 }
    {
        self.establish_sound();
        let _granted = self.handles.granted();
    }

    // Performs what a target asks for.
    fn perform_request(&mut self, target: u32, request: Request<'_>) -> Result<Answer, NoMemory>
        requires proper { is_proper (meant request) ≡ true }
        ensures answer { IfOk result (λ a. a ≡ (perform_request self.old target (meant request.entry)).answer) }
        ensures ok { OnOk result (self.new ≡ (perform_request self.old target (meant request.entry)).space) }
        ensures memory { OnErr result ((may_allocate (meant request.entry) && is_done (perform_request self.old target (meant request.entry)).answer.status) ≡ true) }
        ensures err { OnErr result (self.new ≡ self.old) }
    {
        self.establish_bounds();
        requests_are_kept();
        match request {
            Request::Ping { cookie, text } => {
                Ok(Answer::with_words(SUCCESS, 0, cookie, text.len() as u64))
            }
            Request::FileCreate { name, request } => {
                Ok(self.files.create(&mut self.handles, target, name, request)?)
            }
            Request::FileQuery { name } => Ok(self.files.query(name)),
            Request::FileRename { name, to } => Ok(self.files.rename(name, to)?),
            Request::PipeCreate {
                name,
                mode,
                form,
                instances,
            } => {
                let pipes = &mut self.pipes;
                Ok(pipes.create(&mut self.handles, target, name, mode, form, instances)?)
            }
            Request::KeyCreate { name, access } => {
                Ok(self.keys.create(&mut self.handles, target, name, access)?)
            }
            Request::KeyOpen { name, access } => {
                let keys = &mut self.keys;
                Ok(keys.open_by_name(&mut self.handles, target, name, access)?)
            }
            Request::EventCreate {
                name,
                kind,
                initial,
            } => {
                let events = &mut self.events;
                Ok(events.create(&mut self.handles, target, name, kind, initial)?)
            }
            Request::EventOpen { name, access } => {
                let events = &mut self.events;
                Ok(events.open_by_name(&mut self.handles, target, name, access)?)
            }
            Request::HandleClose { handle } => Ok(self.close(target, handle)),
        }
    }

    // Establishes what a close rests on: a handle that was closed, also in the service of its object, leaves files and pipes in
    // agreement with the handles.
    fn establish_closing(&self)
        ensures table { IsTable self.now.handles }
        ensures pipes { pipes.ArePipes self.now.pipes }
        ensures files_closed { ClosesKeepFiles }
        ensures other_files { ClosesLeaveFiles }
        ensures pipes_closed { ClosesKeepPipes }
        ensures other_pipes { ClosesLeavePipes }
        ensures alone { HeldOnOne }
    {
        handles_are_on_one_object();
        file_agreement_is_kept();
        pipe_agreement_is_kept();
        self.handles.establish_numbers();
        self.pipes.establish_pipes();
    }

    // Closes a handle, and leaves its object.
    fn close(&mut self, target: u32, handle: u64) -> Answer
        ensures answer { result ≡ (close_by (held_by self.old.handles target handle) self.old target handle).answer }
        ensures space { self.new ≡ (close_by (held_by self.old.handles target handle) self.old target handle).space }
    {
        self.establish_closing();
        let Ok(held) = self.handles.close(target, handle) else {
            return Answer::refusal(INVALID_HANDLE);
        };
        let Object { service, number } = held.object;
        match service {
            Service::File => self.files.close(number, handle),
            Service::Pipe => self.pipes.close(number),
            Service::Key | Service::Event => {}
        }
        Answer::refusal(SUCCESS)
    }

    /// Whether an object of the opening can be placed: its parent is there and a directory, and its name is free among the
    /// objects of its service.
    pub fn can_place(&self, line: &StartLine) -> bool
        requires name { is_named line.now ≡ true }
        ensures { result ≡ is_some (placed self.now line.now) }
    {
        match line {
            StartLine::Dir { name } | StartLine::File { name, .. } => {
                self.files.can_start(name.as_units())
            }
            StartLine::Key { name } => self.keys.can_start(name.as_units()),
            StartLine::Event { name, .. } => self.events.can_start(name.as_units()),
        }
    }

    /// Places an object of the opening, with fewer than 4,096 objects of each service made before. False exactly if it
    /// cannot be placed, since its parent is missing or no directory, or its name is taken among the objects of its
    /// service; then nothing is changed.
    ///
    /// # Errors
    /// `NoMemory` if it can be placed and there was none for the object; then nothing is changed.
    pub fn place(&mut self, line: &StartLine) -> Result<bool, NoMemory>
        requires name { is_named line.now ≡ true }
        requires few { MadeAtMost 4095 self.old }
        ensures answer { IfOk result (λ b. b ≡ is_some (placed self.old line.now)) }
        ensures ok { OnOk result (self.new ≡ unwrap_or (placed self.old line.now) self.old) }
        ensures memory { OnErr result (is_some (placed self.old line.now) ≡ true) }
        ensures err { OnErr result (self.new ≡ self.old) }
    {
        names_stay();
        match line {
            StartLine::Dir { name } => self.files.start(name.as_units(), true, 0),
            StartLine::File { name, attributes } => {
                self.files.start(name.as_units(), false, *attributes)
            }
            StartLine::Key { name } => self.keys.start(name.as_units()),
            StartLine::Event {
                name,
                kind,
                initial,
            } => self
                .events
                .start(name.as_units(), EventKind::from(*kind), *initial != 0),
        }
    }
}
