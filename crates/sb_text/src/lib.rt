// What all texts of users are made of: lines cut at LF and their numbers, the lines that are neither blank nor comments, tokens with
// quotes, words cut at blanks alone, numbers, the columns of faults, the place at which bytes stop being UTF-8, and what a quoted token means.
// Nothing here allocates except the last: lines, tokens and words are parts of the text.
#![tactic(auto)]

mod byte_lines;
mod columns;
mod laws;
mod lines;
mod numbers;
mod raw_lines;
mod reading;
mod refusals;
mod steps;
mod text_parts;
mod tokens;
mod utf8;
mod words;

pub use byte_lines::{ByteLine, ByteLines};
pub use columns::{Layout, column_at};
pub use laws::{
    blanks_are_nothing, broken_tokens_are_bad, columns_are_counted, columns_are_within,
    decimals_are_read, first_faults_stay, first_token_skips, hexadecimals_are_read, lines_append,
    lines_are_counted, lines_before_are_read, lines_hold_no_lf, not_utf8_place_tells,
    numbers_are_within, one_cr_is_dropped, other_ends_are_kept, places_are_counted,
    plain_lines_are_read, plain_lines_have_words, quoted_strings_are_read, quoted_tokens_are_text,
    raw_lines_are_lines, raw_lines_join, saying_lines_append, saying_lines_have_tokens,
    skipped_lines_count_alone, token_is_read_before_blank, tokens_are_cut, tokens_are_found,
    written_lines_are_read, written_raw_lines_are_read, written_tokens_are_read,
};
pub use lines::{Line, Lines, line_count, line_numbered};
pub use numbers::{decimal_of, number_of};
pub use raw_lines::{RawLine, RawLines};
pub use reading::{TextGrammar, TextLines, on_line, read_by, read_text};
pub use refusals::{LineFault, TokenFault, WordFault};
pub use sb_base::Refused;
pub use steps::{
    end_at, or_fails, quoted_at, quoted_due, version_at, version_digit, word_at, word_due,
};
pub use text_parts::{TextPart, line_or_empty};
pub use tokens::{Token, Tokens};
pub use utf8::{NotUtf8, string_of, text_of};
pub use words::{Words, version_in_words};
