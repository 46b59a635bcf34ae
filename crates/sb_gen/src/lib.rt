// Generated input: a policy, and a script that is made from a seed, for trying the broker under load. All its channels are
// clean, so what is decided does not depend on the order of steps.
#![tactic(auto)]

mod calls;
mod generator;
mod making;
mod names;
mod policies;
mod scripts;

pub use calls::statement;
pub use generator::Generator;
pub use making::make;
pub use policies::policy_text;
