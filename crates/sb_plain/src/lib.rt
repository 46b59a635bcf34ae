// The commands that run without threads, each a pure function from what was read to an end; the driver that reads their files; and how what a command comes to is put.
#![tactic(auto)]

mod audit;
mod check;
mod driver;
mod dup;
mod ends;
mod file_texts;
mod linked;
mod local;
mod outcomes;
mod reading;
mod refusals;
mod replay;

pub use audit::{TranscriptFile, audit_text};
pub use check::check_policy;
pub use driver::{LaterFile, MAX_BYTES, NoFile, only_text, read_script};
pub use dup::{MovesFile, dup_script};
pub use ends::{CommandEnd, Ending, Lines, two_texts};
pub use file_texts::FileText;
pub use linked::{LinksFile, linked_script};
pub use local::{local_runs_are_serial, local_script};
pub use outcomes::Outcome;
pub use reading::ScheduleFile;
pub use refusals::Refused;
pub use replay::{end_of_run, replay_script};
