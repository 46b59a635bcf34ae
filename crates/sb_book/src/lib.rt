// What the broker decided: decisions, the namespace that they lead to, and the book that keeps both as one history.
// Its place is that of the dispatchers of Chromium's Windows sandbox (top_level_dispatcher.cc and those of
// the services).
#![tactic(auto)]

mod books;
mod decisions;
mod entries;
mod laws;
mod ready_scripts;
mod replies;
mod reports;
mod rulings;
mod run_starts;
mod slices;
mod stored_args;
mod stores;
mod views;

pub use books::Book;
pub use decisions::{Decision, decide, decide_call};
pub use entries::{Entries, Entry};
pub use laws::{
    answers_keep_histories, entries_of_targets_append, entries_say_what_was_done, fronts_are_legal,
    only_performed_calls_count, performed_calls_are_allowed,
};
pub use ready_scripts::{OpenedScript, ReadyScript};
pub use replies::{DENIED_OUTCOME, FAKED_OUTCOME, PERFORMED_OUTCOME, REFUSED_OUTCOME, fault_words};
pub use reports::{AllWords, Report, Results, TargetResults, ThreadResults, WordList};
pub use rulings::Ruling;
pub use run_starts::RunStart;
pub use slices::EntrySlice;
pub use stored_args::{StoredArg, StoredArgs};
pub use views::EntryView;
