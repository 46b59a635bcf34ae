// Denials that a target makes itself: a script without the calls that its policies deny and of which nobody wants to hear, with the
// places that its statements had, and the calls that were left out. The broker judges all that is sent, so that nothing rests on a
// target that thins honestly.
#![tactic(auto)]

mod denials;
mod laws;
mod lines;
mod sending;
mod thinning;

pub use denials::LocalDenial;
pub use laws::{
    denials_are_decisions, denied_calls_change_nothing, left_out_calls_are_denied,
    runs_of_one_thread_are_serial, statements_had_their_places, thinned_scripts_are_sound,
    thinning_again_changes_nothing,
};
pub use lines::denial_lines;
pub use sending::SentScript;
