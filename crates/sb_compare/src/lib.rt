// What policies do with every call: how two differ, by a shortest call for each pair of verdicts that answer it differently; and a shortest call for each rule
// of one. All calls are looked at, by a cover of them; what is said of them are definitions over all calls.
#![tactic(auto)]

mod answers;
mod candidates;
mod change_lines;
mod changes;
mod classes;
mod compare_texts;
mod comparing;
mod cover_texts;
mod decided;
mod faults;
mod laws;
mod shown_calls;
mod shown_changes;

pub use changes::{Change, ShownChange};
pub use compare_texts::{Comparison, compare};
pub use cover_texts::cover_text;
pub use faults::CompareFault;
pub use laws::changes_decide_answers;
