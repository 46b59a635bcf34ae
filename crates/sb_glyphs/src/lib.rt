// What a terminal shows of bytes and of lines: characters, escapes of all that a terminal must not get raw, excerpts of long lines, and carets.
#![tactic(auto)]

mod excerpts;
mod glyphs;
mod laws;
mod numbers;
mod tokens;

pub use excerpts::{MAX_GLYPHS, MAX_NEAR, put_excerpt, put_excerpt_lines};
pub use glyphs::{Glyph, count_glyphs, first_glyphs_of, glyph_count, put_shown, skip_glyphs};
pub use laws::{
    carets_are_under_their_place, carets_follow_tabs, excerpts_have_their_place,
    shown_texts_are_clean,
};
pub use numbers::{put_decimal_text, put_hexadecimal_text};
pub use tokens::{put_first_token, put_quoted};
