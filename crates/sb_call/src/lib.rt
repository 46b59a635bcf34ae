// The values that calls are made of: tags with their numbers and shapes, arguments, names of policies and targets, answers
// and replies. Nothing here decides or performs a call; the crates above pass these values among them.
// The calls are modelled on the IPC tags of Chromium's Windows sandbox (ipc_tags.h); statuses are those of Windows NT (ntstatus.h).
#![tactic(auto)]

mod arguments;
mod call_words;
mod laws;
mod parameters;
mod replies;
mod short_names;
mod statuses;
mod tags;

pub use arguments::{Arg, Args, fits};
pub use call_words::{call_word, every_tag, tag_of_word};
pub use laws::{fitting_args, tags_and_numbers};
pub use parameters::{parameter_word, parameter_words};
pub use replies::{Answer, Extended, Reply};
pub use short_names::ShortName;
pub use statuses::{
    ACCESS_DENIED, FILE_IS_A_DIRECTORY, INSTANCE_NOT_AVAILABLE, INVALID_HANDLE, INVALID_PARAMETER,
    NAME_COLLISION, NAME_EXISTS, NAME_NOT_FOUND, NOT_A_DIRECTORY, PATH_NOT_FOUND,
    SHARING_VIOLATION, SUCCESS, TYPE_MISMATCH,
};
pub use tags::{CallTag, ParamKind, shape};
