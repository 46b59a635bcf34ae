// A run step by step: the order of its steps, the phase of each, and the lines in which they are told.
#![tactic(auto)]

mod laws;

pub use laws::{lines_hold_steps, orders_are_runs};
