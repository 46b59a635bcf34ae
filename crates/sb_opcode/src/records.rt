// The records of opcodes in words.
ghost use Rattle.std.specs.Prelude.{◌≡◌, ◌≤◌, ◌%◌, ◌^◌, ◌==◌, ◌||◌, ◌∷◌, [], List, true, false, length, map, option_map, is_some, None, Some, MatchOption};
ghost use Rattle.std.specs.List.{list_all};
ghost use Rattle.sb_call.specs.declared.arguments.Arg.{Arg};
ghost use Rattle.sb_opcode.specs.Unpacking.{cell_of, kind_part, seek_in, plain_kind, plain_record, text_record, first_record, is_cell_word, is_packed, opcodes_of, seek_known, action_known, kind_known, after_known, does_known, first_known, passed_known};
ghost use Rattle.sb_opcode.specs.Records.{kind_of, opcode_of, IsPassed};
ghost use Rattle.sb_opcode.specs.Walking.{Between, begins_with_act, begins_with_front, begins_with_number, front_opcode, number_opcode, rule_walk};

use crate::opcodes::{OpKind, Opcode, Seek};
use crate::options::Options;
use bitflags::Flags;
use sb_rule::{Action, Verdict};
use std::marker::Model;

// The number of the kind of text opcodes. That of actions is the only one above it.
const TEXT: u64 = 5;

// The first word of an opcode that tests for one number and has CLEAR alone of the options.
const NUMBER_HEAD: u64 = 0x202;

// The first word of a text opcode that compares its fragment at the beginning of the string and has CLEAR and FOLD of the options.
const FRONT_HEAD: u64 = 0xa05;

// The same with EXACT.
const WHOLE_HEAD: u64 = 0x1a05;

// The first word of an action without options.
const ACT_HEAD: u64 = 6;

// The highest word of a cell, that of `*`.
const LAST_CELL: u64 = 65537;

fn is_seek(head: u64) -> bool
    ensures { result ≡ is_some (seek_in head) }
{
    let skip = head >> 32;
    match (head >> 16) & 0xffff {
        0 => skip < 1 << 16,
        1 | 2 => skip == 0,
        _ => false,
    }
}

// Whether these are the kind of a record without cells, its third word and its fourth.
fn is_plain_kind(kind: u64, first: u64, second: u64) -> bool
    ensures { result ≡ is_some (plain_kind kind first second) }
{
    match kind {
        0 | 1 => first == 0 && second == 0,
        2 | 4 => second == 0,
        3 => true,
        6 => first < 5 && second < 1 << 32,
        _ => false,
    }
}

fn are_cells(words: &[u64]) -> bool
    ensures { result ≡ list_all is_cell_word words.now }
{
    words.iter().all(|word| *word <= LAST_CELL)
}

fn after_plain(head: u64, param: u64, first: u64, second: u64, later: &[u64]) -> Option<&[u64]>
    ensures { option_map (λ w. w.now) result ≡ option_map (λ r. r.1) (plain_record head param first second later.now) }
{
    if head >> 16 == 0 && is_plain_kind(head & 0xff, first, second) {
        Some(later)
    } else {
        None
    }
}

fn after_text(head: u64, param: u64, count: u64, second: u64, later: &[u64]) -> Option<&[u64]>
    ensures { option_map (λ w. w.now) result ≡ option_map (λ r. r.1) (text_record head param count second later.now) }
{
    if second != 0 || count > later.len() as u64 {
        return None;
    }
    let (cells, later) = later.split_at(count as usize);
    if are_cells(cells) && is_seek(head) {
        Some(later)
    } else {
        None
    }
}

// The words after the first record. None if the words begin with no record.
pub(crate) fn after_record(words: &[u64]) -> Option<&[u64]>
    ensures { option_map (λ w. w.now) result ≡ option_map (λ r. r.1) (first_record words.now) }
{
    match words {
        [head, param, first, second, later @ ..] => {
            if *param >= 1 << 32 {
                return None;
            }
            if *head & 0xff == TEXT {
                after_text(*head, *param, *first, *second, later)
            } else {
                after_plain(*head, *param, *first, *second, later)
            }
        }
        _ => None,
    }
}

#[inline(always)]
fn seek_known(head: u64) -> Seek
    ensures { result ≡ seek_known head }
{
    match (head >> 16) & 0xffff {
        0 => Seek::Skip((head >> 32 & 0xffff) as u16),
        1 => Seek::Forward,
        _ => Seek::ToEnd,
    }
}

#[inline(always)]
fn action_known(number: u64) -> Action
    ensures { result ≡ action_known number }
{
    match number {
        0 => Action::Allow,
        1 => Action::Deny,
        2 => Action::Alarm,
        3 => Action::Fake,
        _ => Action::ReadOnly,
    }
}

#[inline(always)]
fn line_known(word: u64) -> u32
    ensures { result ≡ word % 2 ^ 32 }
{
    (word & 0xffff_ffff) as u32
}

#[inline(always)]
fn kind_known<'a>(kind: u64, first: u64, second: u64) -> OpKind<'a>
    ensures { kind_of result ≡ kind_known kind first second }
{
    match kind {
        0 => OpKind::False,
        1 => OpKind::True,
        2 => OpKind::Num(first),
        3 => OpKind::Range {
            lo: first,
            hi: second,
        },
        4 => OpKind::Mask(first),
        _ => OpKind::Act {
            action: action_known(first),
            line: line_known(second),
        },
    }
}

// The words after a record of packed words: past its cells, if it has some.
#[inline(always)]
fn after_known(head: u64, first: u64, later: &[u64]) -> &[u64]
    requires { (kind_part head == 5) ≡ true → first ≤ length later.now }
    ensures { result.now ≡ after_known head first later.now }
{
    if head & 0xff == TEXT {
        let (_, later) = later.split_at(first as usize);
        later
    } else {
        later
    }
}

// What the first opcode of packed words does.
#[inline(always)]
fn does_known<'a>(head: u64, first: u64, second: u64, later: &'a [u64]) -> OpKind<'a>
    requires { (kind_part head == 5) ≡ true → first ≤ length later.now }
    ensures { kind_of result ≡ does_known head first second later.now }
{
    if head & 0xff == TEXT {
        let (cells, _) = later.split_at(first as usize);
        let seek = seek_known(head);
        OpKind::Text { cells, seek }
    } else {
        kind_known(head & 0xff, first, second)
    }
}

// The first record of packed words, and the words after it. The words are not tested again.
#[inline(always)]
#[tactic(auto, using(crate::proofs::KnownLemmas::cells_there))]
fn first_known<'a>(words: &'a [u64]) -> Option<(Opcode<'a>, &'a [u64])>
    requires { is_packed words.now ≡ true }
    ensures { option_map (λ r. (opcode_of r.0, r.1.now)) result ≡ first_known words.now }
{
    match words {
        [head, param, first, second, later @ ..] => {
            let record = Opcode {
                kind: does_known(*head, *first, *second, later),
                param: (*param & 0xffff_ffff) as u32,
                options: Options::from_bits_retain((*head >> 8 & 0xff) as u8),
            };
            Some((record, after_known(*head, *first, later)))
        }
        _ => None,
    }
}

// The parameter and the number of the first opcode of packed words, and the words after it, if it tests for a number, is a group of its own and
// is not negated.
#[inline(always)]
pub(crate) fn number_known(words: &[u64]) -> Option<(u32, u64, &[u64])>
    ensures { MatchOption result (begins_with_number words.now ≡ false) (λ r. Some (number_opcode r.0 r.1, r.2.now) ≡ first_known words.now) }
{
    match words {
        [head, param, number, _, later @ ..] if *head == NUMBER_HEAD => {
            Some(((*param & 0xffff_ffff) as u32, *number, later))
        }
        _ => None,
    }
}

// The parameter and the cells of the first opcode of packed words, whether they are the whole string, and the words after it, if it tests for the
// front of a string, folded, is a group of its own and is not negated.
#[inline(always)]
#[tactic(auto, using(crate::proofs::KnownLemmas::cells_there))]
pub(crate) fn front_known<'a>(words: &'a [u64]) -> Option<(u32, &'a [u64], bool, &'a [u64])>
    requires { is_packed words.now ≡ true }
    ensures { MatchOption result (begins_with_front words.now ≡ false)
        (λ r. Some (front_opcode r.0 (map cell_of r.1.now) r.2, r.3.now) ≡ first_known words.now) }
{
    match words {
        [head, param, count, _, later @ ..] if *head == FRONT_HEAD || *head == WHOLE_HEAD => {
            let param = (*param & 0xffff_ffff) as u32;
            let (cells, later) = later.split_at(*count as usize);
            Some((param, cells, *head == WHOLE_HEAD, later))
        }
        _ => None,
    }
}

// What the first opcode of packed words says if it is an action without options.
#[inline(always)]
pub(crate) fn act_known(words: &[u64]) -> Option<Verdict>
    requires { is_packed words.now ≡ true }
    ensures { MatchOption result (begins_with_act words.now ≡ false)
        (λ verdict. (args : List Arg) → verdict ≡ rule_walk args Between (opcodes_of words.now)) }
{
    match words {
        [head, _, first, second, ..] if *head == ACT_HEAD => Some(Verdict::Rule {
            line: line_known(*second),
            action: action_known(*first),
        }),
        _ => None,
    }
}

// Whether the first opcode of packed words is an action, and the words after it.
#[tactic(auto, using(crate::proofs::KnownLemmas::cells_there))]
pub(crate) fn passed_known(words: &[u64]) -> Option<(bool, &[u64])>
    requires { is_packed words.now ≡ true }
    ensures { option_map (λ r. (r.0, r.1.now)) result ≡ passed_known words.now }
{
    match words {
        [head, _, first, _, later @ ..] => {
            Some((*head & 0xff > TEXT, after_known(*head, *first, later)))
        }
        _ => None,
    }
}

/// The opcodes that are left of packed words, each as its record. Contracts see the list of these opcodes.
#[derive(Drop)]
pub struct Records<'a> {
    rest: &'a [u64],
}

impl<'a> Model for Records<'a> {
    ghost use Rattle.std.specs.Prelude.{◌≡◌, List, true};
    ghost use Rattle.sb_opcode.specs.Unpacking.{is_packed, opcodes_of};
    ghost use Rattle.sb_opcode.specs.Opcodes.{Opcode};

    ghost Value = { List Opcode };

    ghost view = { λ r. opcodes_of r.rest.now };

    ghost invariant = { λ r. is_packed r.rest.now ≡ true };
}

impl<'a> Records<'a> {
    // The records of packed words.
    pub(crate) fn of(words: &'a [u64]) -> Records<'a>
        requires { is_packed words.now ≡ true }
        ensures { result ≡ opcodes_of words.now }
    {
        Records { rest: words }
    }

    #[inline(always)]
    #[tactic(auto, using(crate::proofs::KnownLemmas::no_opcode))]
    /// The next opcode. Nothing of its words is tested again.
    pub fn next_record(&mut self) -> Option<Opcode<'a>>
        ensures { MatchOption result ((self.old ≡ []) × (self.new ≡ [])) (λ r. self.old ≡ opcode_of r ∷ self.new) }
    {
        let (record, later) = first_known(self.rest)?;
        self.rest = later;
        Some(record)
    }

    #[tactic(auto, using(crate::proofs::KnownLemmas::no_passed))]
    /// Passes over the next opcode, and over its cells by their number. Returns whether it is an action, and None if
    /// there is no opcode.
    pub fn pass_record(&mut self) -> Option<bool>
        ensures { MatchOption result ((self.old ≡ []) × (self.new ≡ [])) (λ acts. IsPassed acts self.old self.new) }
    {
        let (acts, later) = passed_known(self.rest)?;
        self.rest = later;
        Some(acts)
    }
}
