// What a policy can say of the calls of a tag: finitely many calls, of which one has the verdict of any other. The values of each parameter are found by
// exploring machines, whose states tell which rules hold, as far as that can still decide.
#![tactic(auto)]

mod asked_conds;
mod bits;
mod budgets;
mod call_accesses;
mod call_covers;
mod comparing;
mod covers;
mod labels;
mod laws;
mod lefts;
mod lengths;
mod letters;
mod modes;
mod number_covers;
mod number_picking;
mod open_rules;
mod opening;
mod param_covers;
mod picking;
mod policy_covers;
mod positions;
mod pruning;
mod questions;
mod residuals;
mod shown;
mod signs;
mod tables;
mod text_covers;
mod text_machines;

pub use budgets::Budget;
pub use call_accesses::writes;
pub use covers::cover;
pub use laws::{
    answers_decide, not_longer_is_as_short, sendable_calls_encode, shortest_is_sendable,
};
pub use lengths::{is_sendable, is_shorter};
pub use policy_covers::cover_under;
pub use questions::Question;
