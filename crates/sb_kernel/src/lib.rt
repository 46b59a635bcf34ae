// The kernel: the namespace of the four services and the handles on their objects, how it opens, and what each call does.
#![tactic(auto)]

mod kernels;
mod laws;
mod openings;
mod requests;
mod services;

pub use kernels::Kernel;
pub use laws::{
    answers_are_short, openings_make_few, refused_calls_change_nothing,
    unheld_closes_change_nothing,
};
pub use openings::StartRefused;
