// Scripts and schedules as texts: each is read line by line, up to its first fault, which is told with its line and its column, and what is written of a
// script or of a schedule is read back.
#![tactic(auto)]

mod actors;
mod arguments;
mod drafts;
mod faults;
mod laws;
mod lines;
mod openings;
mod placing;
mod schedule_drafts;
mod schedule_faults;
mod schedule_laws;
mod schedule_lines;
mod schedule_printing_laws;
mod schedule_texts;
mod script_texts;
mod start_faults;
mod statements;
mod steps;

pub use faults::{ScriptFault, ScriptKind, ScriptLimit, ScriptRefused, StartFault};
pub use laws::{
    first_faults_stay, read_arguments_fit, read_scripts_are_ready, read_scripts_can_be_written,
    read_scripts_have_units, skipped_lines_count_alone, start_faults_are_true,
    written_scripts_are_read,
};
pub use schedule_faults::{ScheduleFault, ScheduleKind, ScheduleRefused};
pub use schedule_laws::{
    first_schedule_faults_stay, read_schedules_are_bounded, skipped_schedule_lines_count_alone,
};
pub use schedule_lines::{MAX_ROUNDS, MAX_STEPS};
pub use schedule_printing_laws::{written_schedules_are_read, written_schedules_are_short};
pub use schedule_texts::read_schedule;
pub use script_texts::read_script;
