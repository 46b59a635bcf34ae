// Workers and threads, one atomic step at a time: the step that each makes next, and how it goes on by what that step found.
// Nothing here holds a word: an actor makes its step on the `Memory` that its caller gives. The outline follows Chromium's
// `sandbox/win`: a client takes a free channel of shared memory, fills it and waits, and the server replies and marks the channel as
// acknowledged (`sharedmem_ipc_client`, `sharedmem_ipc_server`). Each single step of the hand-over is this project's own.
//
// What a worker and a thread do is stated as two tables, one row a line: `specs/WorkerTable.antt` and `specs/ThreadTable.antt`.
//
// Beside the machines are the views (`specs/Views.antt`), which say what is known of an actor, and the rule that the channel words of a
// target and the views of its actors keep between any two steps (`specs/Rule.antt`). The laws in `laws` say that it holds at the
// opening, and that each step keeps it.
#![tactic(auto)]

mod acts;
mod endings;
mod laws;
mod marks;
mod memory;
mod places;
mod stages;
mod threads;
mod workers;

pub use acts::{ABANDONED, ACKNOWLEDGED, Act, BUSY, FREE, Observed, READY};
pub use laws::{
    blocks_are_whole, calls_end_for_cause, channels_have_one_thread, clean_channels_are_kept,
    results_have_causes, results_have_steps, starts_in_rule, stray_keeps_rule, thread_follows,
    thread_keeps_rule, waits_end_for_cause, worker_follows, worker_keeps_rule,
};
pub use marks::{CallMark, mark_at, marks_come_back};
pub use memory::Memory;
pub use places::{establish_found, sound_statement_at, statement_at};
pub use threads::ThreadState;
pub use workers::WorkerState;
