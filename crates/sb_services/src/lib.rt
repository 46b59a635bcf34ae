// The four services of the namespace: files, pipes, registry keys and events; how each is made, opened and found by its name. Files, events and keys
// are kept for good, a pipe goes with its last handle. A file or a key is below one that is there, or below the root; names of events and pipes have no
// parents. The calls are modelled on NtCreateFile, NtOpenFile, NtQueryAttributesFile, NtQueryFullAttributesFile, NtSetInformationFile, NtCreateEvent,
// NtOpenEvent, NtCreateKey, NtOpenKey and CreateNamedPipe in their documentation.
#![tactic(auto)]

mod event_kinds;
mod event_laws;
mod event_rows;
mod events;
mod file_creation;
mod file_laws;
mod file_objects;
mod file_requests;
mod files;
mod key_laws;
mod pipe_laws;
mod pipe_modes;
mod pipe_rows;
mod pipes;
mod registry;

pub use event_kinds::EventKind;
pub use event_laws::{
    calls_grant_their_event, events_are_found_where_made, events_stay,
    refused_event_calls_change_nothing,
};
pub use event_rows::EventRow;
pub use events::EventService;
pub use file_laws::{
    creates_give_attributes, creates_grant_files, creates_grant_their_file, file_agreement_is_kept,
    files_are_found_where_made, files_stay, refused_file_calls_change_nothing, renames_move_names,
};
pub use file_objects::{FileKind, FileObject};
pub use file_requests::{Disposition, FileOptions, FileRequest};
pub use files::FileService;
pub use key_laws::{
    calls_grant_their_key, keys_are_found_where_made, keys_stand_below_keys, keys_stay,
    refused_key_calls_change_nothing,
};
pub use pipe_laws::{
    calls_grant_pipes, calls_grant_their_pipe, pipe_agreement_is_kept, pipes_are_found_where_made,
    pipes_come_with_handles, pipes_have_handles, refused_pipe_calls_change_nothing,
};
pub use pipe_modes::{PipeForm, PipeMode};
pub use pipe_rows::PipeRow;
pub use pipes::PipeService;
pub use registry::KeyService;
