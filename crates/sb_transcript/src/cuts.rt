// The fields of a line, one after another: a separator precedes each, and one between quotes separates nothing.
ghost use Rattle.std.specs.Prelude.{◌≡◌, ◌∷◌, ◌≤◌, [], length, take, drop, MatchOption};
ghost use Rattle.sb_transcript.specs.Cuts.{is_separator, place_after, cut, fields_after};
ghost use Rattle.sb_transcript.specs.Steps.{ReadsAs, field_at};
ghost use Rattle.sb_transcript.specs.declared.cuts.Place.TheVariants.{Plain};

use crate::unread::Unread;
use std::marker::Model;

/// Where in a line a byte is.
#[derive(Clone, Copy)]
pub enum Place {
    /// Outside of quotes.
    Plain,
    /// Between quotes.
    InQuotes,
    /// Between quotes, after a backslash.
    AfterBackslash,
}

/// What is left of a line: its fields.
#[derive(Drop)]
pub struct Fields<'a> {
    separator: u8,
    rest: &'a [u8],
}

impl<'a> Model for Fields<'a> {
    ghost use Rattle.std.specs.Prelude.{List, ℕ, length, ◌<◌, ◌^◌};
    ghost use Rattle.sb_transcript.specs.Cuts.{fields_after};

    ghost Value = { List (List ℕ) };

    ghost view = { λ f. fields_after f.separator f.rest.now };
}

// Whether a field ends before this byte.
fn is_separator(separator: u8, place: Place, byte: u8) -> bool
    ensures { result ≡ is_separator separator place byte }
{
    match place {
        Place::Plain => byte == separator,
        Place::InQuotes | Place::AfterBackslash => false,
    }
}

// The place of the byte after this one.
fn place_after(place: Place, byte: u8) -> Place
    ensures { result ≡ place_after place byte }
{
    match place {
        Place::Plain => {
            if byte == b'"' {
                Place::InQuotes
            } else {
                Place::Plain
            }
        }
        Place::InQuotes => {
            if byte == b'"' {
                Place::Plain
            } else if byte == b'\\' {
                Place::AfterBackslash
            } else {
                Place::InQuotes
            }
        }
        Place::AfterBackslash => Place::InQuotes,
    }
}

// How many bytes the field has with which these begin.
#[tactic(auto, using(crate::proofs::Cutting::cut_more, crate::proofs::Cutting::cut_ends, crate::proofs::Cutting::cut_last))]
fn field_len(separator: u8, bytes: &[u8]) -> usize
    ensures within { result ≤ length bytes.now }
    ensures field { cut separator Plain [] bytes.now ≡ take result bytes.now ∷ fields_after separator (drop result bytes.now) }
{
    let mut place = Place::Plain;
    let mut n = 0;
    while n < bytes.len() {
        if is_separator(separator, place, bytes[n]) {
            return n;
        }
        place = place_after(place, bytes[n]);
        n += 1;
    }
    n
}

impl<'a> Fields<'a> {
    /// The fields of bytes, each after a separator. The first byte is taken for one.
    pub fn new(separator: u8, bytes: &'a [u8]) -> Fields<'a>
        ensures { result ≡ fields_after separator bytes.now }
    {
        Fields {
            separator,
            rest: bytes,
        }
    }

    /// The next field, which is passed.
    pub fn next_field(&mut self) -> Option<&'a [u8]>
        ensures { MatchOption result ((self.old ≡ []) × (self.new ≡ [])) (λ field. self.old ≡ field.now ∷ self.new) }
    {
        let (_, later) = self.rest.split_first()?;
        let (field, rest) = later.split_at(field_len(self.separator, later));
        self.rest = rest;
        Some(field)
    }

    /// The next field, which has to be there.
    pub fn field(&mut self) -> Result<&'a [u8], Unread>
        ensures { ReadsAs (λ field. field.now) (field_at self.old) result self.new }
    {
        match self.next_field() {
            Some(field) => Ok(field),
            None => Err(Unread::NotALine),
        }
    }
}

/// The first field of a line, which no blank precedes, and the others.
pub fn first_field<'a>(separator: u8, bytes: &'a [u8]) -> (&'a [u8], Fields<'a>)
    ensures { cut separator Plain [] bytes.now ≡ result.0.now ∷ result.1 }
{
    let (field, rest) = bytes.split_at(field_len(separator, bytes));
    (field, Fields::new(separator, rest))
}
