// Policies as code: each call's rules are compiled to opcodes, which are verified, judged by and listed.
// It does what the low level policy of Chromium's Windows sandbox does (policy_low_level.cc).
#![tactic(auto)]

mod call_codes;
mod groups;
mod laws;
mod listing;
mod numbers;
mod patterns;
mod programs;
mod rules;
mod targets;

pub use laws::{
    candidates_have_each_that_holds, compiled_code_is_faultless, compiling_keeps_verdicts,
    groups_hold_where_conditions_do, letter_case_does_not_matter, listings_are_lines,
    listings_differ,
};
pub use programs::{Program, compile, put_listing};
pub use targets::{PolicyNumbers, ProgramList, Programs};
