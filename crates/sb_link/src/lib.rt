// Links in names: a fixed list of links beside the namespace, what a name resolves to by them, and a book that judges and performs
// the resolved names alone.
#![tactic(auto)]

mod faults;
mod laws;
mod lines;
mod link_texts;
mod linked_books;
mod links;
mod log_lines;
mod resolving;
mod script_calls;
mod sorted_froms;
mod stops;

pub use faults::{LinkFault, LinkKind, LinksRefused};
pub use laws::{
    logs_are_counted, logs_are_of_answers, longest_links_apply, names_resolve_to_names,
    order_does_not_matter, other_names_stay, performed_calls_are_resolved, read_links_are_links,
    resolved_names_stay, same_names_resolve_alike, script_calls_are_resolved, small_cases,
    stopped_calls_change_nothing, written_links_are_read,
};
pub use lines::{put_linked_line, put_stopped_line};
pub use link_texts::read_links;
pub use linked_books::{Linked, LinkedBook};
pub use links::{Link, Links, MAX_LINKS, MAX_STEPS, MAX_UNITS};
pub use script_calls::answer_script;
pub use stops::{Stop, StoppedCall};
