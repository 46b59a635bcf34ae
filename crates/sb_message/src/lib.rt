// How commands end, and what is written on standard error for that: what was wrong in words, the place, and the line with a caret; and the notes of a
// policy file, each a warning of a pattern that cannot mean what it says. Nothing of a file or of an argument reaches a terminal unescaped.
#![tactic(auto)]

mod audit_messages;
mod causes;
mod due_texts;
mod hints;
mod link_messages;
mod message_laws;
mod messages;
mod move_messages;
mod note_laws;
mod note_messages;
mod places;
mod policy_messages;
mod schedule_messages;
mod script_messages;
mod shown;
mod status_messages;
mod statuses;
mod text_faults;

pub use audit_messages::audit_message;
pub use link_messages::link_message;
pub use message_laws::messages_are_clean;
pub use messages::{FaultyText, NumberedFault};
pub use move_messages::move_message;
pub use note_laws::{notes_are_clean, notes_are_true};
pub use note_messages::{MAX_TOLD, notes_text};
pub use places::put_place;
pub use policy_messages::policy_message;
pub use schedule_messages::schedule_message;
pub use script_messages::script_message;
pub use shown::Shown;
pub use status_messages::message;
pub use statuses::{Difference, EndStatus, FileRefusal, Refusal, Status};
pub use text_faults::{TextFault, TextFaultKind};
