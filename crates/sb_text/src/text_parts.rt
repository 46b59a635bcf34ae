// Parts of texts, without a copy.
ghost use Rattle.std.specs.Prelude.{◌≡◌, ◌≤◌, length};
ghost use Rattle.sb_text.specs.MissingTexts.{line_or_empty};
ghost use Rattle.sb_text.specs.Lines.{line_numbered};

use crate::lines::{line_numbered, line_place};
use std::marker::Model;

/// The line of this number, from 1 among all lines, without its LF and without one CR at its end; no bytes if there is no such line.
pub fn line_or_empty(number: u32, text: &[u8]) -> &[u8]
    ensures line { result.now ≡ line_or_empty number text.now }
    ensures within { length result.now ≤ length text.now }
{
    match line_numbered(number, text) {
        Some(line) => line,
        None => &[],
    }
}

/// A part of a text, in the memory of the text.
#[derive(Drop)]
pub struct TextPart {
    // The text, which ends where the part ends.
    text: Vec<u8>,
    start: usize,
}

impl Model for TextPart {
    ghost use Rattle.std.specs.Prelude.{List, ℕ, ◌≤◌, drop, length};

    ghost Value = { List ℕ };

    ghost view = { λ part. drop part.start part.text.items };

    ghost invariant = { λ part. part.start ≤ length part.text.items };
}

impl TextPart {
    /// The whole text. Does not allocate.
    pub fn whole(text: Vec<u8>) -> TextPart
        ensures { result ≡ text.items }
    {
        TextPart { text, start: 0 }
    }

    /// The line of this number, from 1 among all lines, without its LF and without one CR at its end; None if there is no such line.
    /// Does not allocate, and copies nothing.
    #[tactic(auto, using(crate::proofs::LineLemmas::cut_at_end))]
    pub fn line(number: u32, mut text: Vec<u8>) -> Option<TextPart>
        ensures { result ≡ line_numbered number text.items }
    {
        let place = line_place(number, &text)?;
        text.truncate(place.end);
        Some(TextPart {
            text,
            start: place.start,
        })
    }

    /// The bytes of the part.
    pub fn as_slice(&self) -> &[u8]
        ensures { result.now ≡ self.now }
    {
        &self.text[self.start..]
    }
}
