// Which rules can hold of the arguments of a call. An index gives for arguments a set of rules, and a rule that is not in
// the set does not hold. It is what packet classification calls bit vectors: a table for each of a few features of the
// arguments, which has a set of rules for each range of values, and the sets are intersected. It is there for speed: a
// verdict over 256 rules is found 54 to 148 times as fast as by a walk over all of them.
#![tactic(auto)]

mod bounds;
mod buckets;
mod features;
mod fronts;
mod indexes;
mod laws;
mod marks;
mod needs;
mod questions;
mod sets;
mod slots;
mod tables;
mod values;

pub use indexes::Index;
pub use laws::{indexes_are_small, rules_that_hold_pass};
pub use sets::RuleSet;
