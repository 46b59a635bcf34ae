// Scripts: what is there at the start, targets with their threads and statements, when a script is sound, and which
// channels it leaves clean; schedules; and what became of each statement.
#![tactic(auto)]

mod clean_tables;
mod laws;
mod limits;
mod placed_statements;
mod results;
mod schedules;
mod scripts;
mod sound_scripts;
mod soundness;
mod statements;

pub use clean_tables::{CleanTable, clean_table};
pub use laws::{placed_statements_are_sound, sound_parts};
pub use limits::{
    LAST_PLACE, MAX_CHANNELS, MAX_PATIENCE, MAX_START_LINES, MAX_STATEMENTS, MAX_TARGETS,
    MAX_THREADS,
};
pub use placed_statements::{PlacedStatement, StatementCursor};
pub use results::{CallResult, StmtResult};
pub use schedules::{Actor, Schedule, Steps, is_there};
pub use scripts::{Script, StartLine, StartLines, TargetScript, Targets, clean};
pub use sound_scripts::SoundScript;
pub use soundness::sound;
pub use statements::{Statement, Statements, Threads, WORDS_OF_CHANNEL, Word};
