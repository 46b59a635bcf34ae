// The transcript of a run: its lines and their numbers, written from the entries and the results of a run, and read back, each line as the one line
// that is written as exactly these bytes, or as none.
#![tactic(auto)]

mod comma_words;
mod counts;
mod cuts;
mod hexadecimal;
mod laws;
mod length_laws;
mod line_buffers;
mod lines;
mod numbers;
mod places;
mod read_lines;
mod reading;
mod reading_entries;
mod reading_laws;
mod reading_replies;
mod reading_results;
mod shown;
mod strings;
mod transcripts;
mod unread;
mod writing;

pub use comma_words::put_comma_words;
pub use laws::{
    entries_come_first, lines_are_counted, lines_end_once, numbers_are_results,
    results_are_in_order, results_follow, totals_end, transcripts_tell_their_lines,
};
pub use length_laws::{lines_are_short, transcripts_are_short};
pub use line_buffers::LineBuffer;
pub use lines::{entry_line, line, line_count, result_line, totals};
pub use read_lines::{
    EntryLine, Line, ResultLine, ShownDecision, ShownReply, ShownResult, TotalsLine,
};
pub use reading::read_line;
pub use reading_laws::{
    lines_are_read, lines_differ, lines_end_without_cr, read_lines_are_written, reading_is_exact,
};
pub use transcripts::transcript_lines;
pub use writing::{put_arguments, put_entry_line, put_fault, put_line, put_verdict};
