// Deterministic automata that read words of units, and their states, found breadth first. What a state says of the words that lead to it is a relation
// of each automaton; this crate knows nothing of it, nor of rules.
#![tactic(auto)]

mod exploring;
mod machines;
mod states;

pub use exploring::{Found, explore};
pub use machines::Machine;
pub use states::State;
