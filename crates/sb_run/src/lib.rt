// A run on real threads: each thread and each worker of the script makes its steps with a seat of its own in one shared world, so that any number of
// them may run beside each other. At the end the world is closed, and the report is that of its steps in some order.
#![tactic(auto)]

mod contexts;
mod crews;
mod endings;
mod flags;
mod groups;
mod openings;
mod pauses;
mod pooling;
mod promises;
mod returns;
mod runs;
mod serving;
mod spawning;
mod started;
mod threads;
mod visits;
mod watches;
mod works;

pub use runs::run_threads;
