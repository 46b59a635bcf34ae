// The top calls: all that the program does, over any files and any output; and the commands that run on threads.
#![tactic(auto)]

mod audit_laws;
mod laws;
mod make;
mod promise;
mod run;
mod threads;
mod top;

pub use audit_laws::{outcomes_are_audited, replays_are_audited};
pub use laws::{
    orders_are_replayed, refusals_are_meant, reports_are_sound, runs_are_sound,
    statuses_are_of_commands, totals_are_of_verdicts, work_comes_to_its_end,
};
pub use promise::promise_is_kept;
pub use top::{broker_top, plain_top, threads_top};
