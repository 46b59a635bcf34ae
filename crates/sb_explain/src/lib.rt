// Decisions explained: for each entry of a run the statement that its mark belongs to, the call or the fault of its copy, and the rules that were tried, up to the
// one that decided; and the same of one call without a script. It reads policies, scripts and entries, and changes nothing.
#![tactic(auto)]

mod conditions;
mod judging;
mod laws;
mod line_numbers;
mod lines;
mod listings;
mod marks;
mod reasons;
mod sources;
mod why;

pub use judging::judge_text;
pub use laws::{
    listings_are_capped, marks_are_of_calls, reasons_are_complete, reasons_are_right,
    reasons_decide, reasons_decide_entries,
};
pub use line_numbers::ScriptLines;
pub use listings::{Listing, MAX_LINES};
pub use marks::{CallPlace, call_of_mark};
pub use reasons::{Reason, Reasons};
pub use sources::statement_lines;
pub use why::{has_entry, put_entries, put_entry, why_text};
