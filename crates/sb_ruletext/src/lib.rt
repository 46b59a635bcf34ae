// Policies as the texts that people write: reading them, with the first fault, its line and its column, and with notes of patterns that cannot mean
// what they say. A text means one list of policies or it has one first fault; what is read is well made. A note is no fault.
#![tactic(auto)]

mod conditions;
mod drafts;
mod faults;
mod grants;
mod laws;
mod lines;
mod note_kinds;
mod notes;
mod policy_texts;
mod printing;
mod printing_laws;
mod readers;
mod words;

pub use faults::{FitDue, PolicyFault, PolicyFaultKind, PolicyLimit, TextRefused, WordDue};
pub use laws::{
    first_faults_stay, lines_before_are_read, read_policies_are_well_made,
    silent_texts_lack_a_version, skipped_lines_count_alone,
};
pub use note_kinds::NoteKind;
pub use notes::{Note, read_notes};
pub use policy_texts::{read_noted_policies, read_policies};
pub use printing::{print_policies, put_cond};
pub use printing_laws::printed_policies_are_read;
