// Claims on policies: what has to hold of all calls, and what a name that is kept closed means for every run.
#![tactic(auto)]

mod claims;

pub use claims::Claim;
