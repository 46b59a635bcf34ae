// An arena: nodes with values, linked as trees by typed index, each known by a number. Contracts see it as a forest: for each
// number the parent, the children in order, and the value. Links are kept both ways (parent, first and last child, next and
// previous sibling), so that each call but `new` takes a constant number of steps whatever the arena holds.
#![tactic(auto)]

mod arena;
mod laws;
mod links;

pub use arena::{AddRefused, Arena, NodeId};
pub use laws::{calls_change_one_value, links_change_one_parent, vacancies_change_nothing};
