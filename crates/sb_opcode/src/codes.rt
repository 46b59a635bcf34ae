// Codes: opcodes packed in words.
ghost use Rattle.std.specs.Prelude.{◌≡◌, ◌+◌, ◌*◌, ◌<◌, ◌^◌, ◌++◌, ◌∷◌, ◌↔◌, [], true, IsTrue, length, map, take, vec_len, nat_lt, IfOk, OnOk, OnErr};
ghost use Rattle.std.specs.List.{list_all};
ghost use Rattle.sb_opcode.specs.Packing.{cell_word, kind_number, seek_number, skip_number, kind_words, head_of, record_of, packed, is_sized, is_sized_kind, is_sized_cell};
ghost use Rattle.sb_rule.specs.declared.cells.Cell.TheVariants.{Lit};
ghost use Rattle.sb_opcode.specs.declared.opcodes.Seek.TheVariants.{Skip};
ghost use Rattle.sb_opcode.specs.Records.{kind_of, opcode_of, text_opcode};
ghost use Rattle.sb_opcode.specs.Unpacking.{cell_of, is_packed, opcodes_of};

use crate::opcodes::{Look, OpKind, Opcode, Seek};
use crate::options::Options;
use crate::records::{Records, after_record};
use bitflags::Flags;
use sb_base::NoMemory;
use sb_rule::Cell;
use std::alloc::Global;
use std::marker::Model;

/// Opcodes, packed in one list of words and seen as the list of opcodes whose packing the words are. There are fewer than
/// 2^32 opcodes.
///
/// Each opcode is a record of four words, followed by its cells if it is a text opcode. The first word is
/// `kind + options * 2^8 + seek * 2^16 + skip * 2^32`, where the kinds are numbered from `False` 0 to `Act` 6 in their
/// order and the seeks from `Skip` 0 to `ToEnd` 2, and seek and skip are 0 if there are none. The second word is the
/// parameter. The third and the fourth are the number and 0, `lo` and `hi`, the mask and 0, the number of cells and 0, the
/// number of the action and the line, or 0 and 0. A cell is one word: a unit is itself, `?` is 65536, `*` is 65537.
pub struct Code {
    words: Vec<u64>,
}

impl Drop for Code {
    fn drop(self) {
        let Code { words: _ } = self;
    }
}

impl Model for Code {
    ghost use Rattle.std.specs.Prelude.{◌≡◌, ◌<◌, ◌^◌, List, true, length};
    ghost use Rattle.sb_opcode.specs.Unpacking.{is_packed, opcodes_of};
    ghost use Rattle.sb_opcode.specs.Opcodes.{Opcode};

    ghost Value = { List Opcode };

    ghost view = { λ c. opcodes_of c.words.items };

    ghost invariant = { λ c. (is_packed c.words.items ≡ true) × (length (opcodes_of c.words.items) < 2 ^ 32) };
}

// The word of a cell.
fn cell_word(cell: Cell) -> u64
    ensures { cell_of result ≡ cell }
{
    match cell {
        Cell::Lit(unit) => u64::from(unit),
        Cell::One => 65536,
        Cell::Any => 65537,
    }
}

// The words of cells.
#[tactic(auto, using(crate::proofs::CellLemmas::cell_more))]
fn cell_words(alloc: Global, cells: &[Cell]) -> Result<Vec<u64>, NoMemory>
    ensures { IfOk result (λ words. map cell_of words.items ≡ cells.now) }
{
    let mut words = Vec::new(alloc);
    for cell in cells {
        words.push(cell_word(*cell))?;
    }
    Ok(words)
}

// The words of units, each of which matches itself.
#[tactic(auto, using(crate::proofs::CellLemmas::unit_more))]
fn unit_words(alloc: Global, units: &[u16]) -> Result<Vec<u64>, NoMemory>
    ensures { IfOk result (λ words. map cell_of words.items ≡ map Lit units.now) }
{
    let mut words = Vec::new(alloc);
    for unit in units {
        words.push(cell_word(Cell::Lit(*unit)))?;
    }
    Ok(words)
}

// The word of the cell that a word is.
fn same_cell_word(word: u64) -> u64
    ensures word { result ≡ cell_word (cell_of word) }
    ensures sized { is_sized_cell (cell_of word) ≡ true }
{
    if word < 65537 { word } else { 65537 }
}

fn kind_number(kind: &OpKind<'_>) -> u8
    ensures { result ≡ kind_number (kind_of kind.now) }
{
    match kind {
        OpKind::False => 0,
        OpKind::True => 1,
        OpKind::Num(_) => 2,
        OpKind::Range { .. } => 3,
        OpKind::Mask(_) => 4,
        OpKind::Text { .. } => 5,
        OpKind::Act { .. } => 6,
    }
}

fn seek_number(seek: Seek) -> u16
    ensures { result ≡ seek_number seek }
{
    match seek {
        Seek::Skip(_) => 0,
        Seek::Forward => 1,
        Seek::ToEnd => 2,
    }
}

fn skip_number(seek: Seek) -> u16
    ensures { result ≡ skip_number seek }
{
    match seek {
        Seek::Skip(skip) => skip,
        Seek::Forward | Seek::ToEnd => 0,
    }
}

// The parts of a first word together.
fn head(kind: u8, options: u8, seek: u16, skip: u16) -> u64
    ensures { result ≡ kind + options * 2 ^ 8 + (seek * 2 ^ 16 + skip * 2 ^ 32) }
{
    u64::from(kind) | u64::from(options) << 8 | u64::from(seek) << 16 | u64::from(skip) << 32
}

// The first word of an opcode.
fn head_of(opcode: &Opcode<'_>) -> u64
    ensures { result ≡ head_of (opcode_of opcode.now) }
{
    let kind = kind_number(&opcode.kind);
    let options = opcode.options.bits();
    match &opcode.kind {
        OpKind::Text { seek, .. } => head(kind, options, seek_number(*seek), skip_number(*seek)),
        _ => head(kind, options, 0, 0),
    }
}

// The number of a skip has 16 bits. It does nothing.
fn seek_is_sized(seek: Seek)
    ensures { nat_lt (skip_number seek) 65536 ≡ true }
{
    let _skip = skip_number(seek);
}

// A parameter has 32 bits, and the options have 8. It does nothing.
fn numbers_are_sized(param: u32, options: Options)
    ensures param { nat_lt param (2 ^ 32) ≡ true }
    ensures options { nat_lt options.0 (2 ^ 8) ≡ true }
{
    let _param = param;
    let _options = options.bits();
}

fn push_two(words: &mut Vec<u64>, first: u64, second: u64) -> Result<(), NoMemory>
    ensures ok { OnOk result (words.new.items ≡ words.old.items ++ (first ∷ second ∷ [])) }
    ensures err { OnErr result (take (vec_len words.old) words.new.items ≡ words.old.items) }
{
    words.push(first)?;
    words.push(second)?;
    Ok(())
}

// Appends the cells that words are.
fn push_words(words: &mut Vec<u64>, cells: &[u64]) -> Result<(), NoMemory>
    ensures ok { OnOk result (words.new.items ≡ words.old.items ++ map cell_word (map cell_of cells.now)) }
    ensures sized { OnOk result (list_all is_sized_cell (map cell_of cells.now) ≡ true) }
    ensures err { OnErr result (take (vec_len words.old) words.new.items ≡ words.old.items) }
{
    for cell in cells {
        words.push(same_cell_word(*cell))?;
    }
    Ok(())
}

fn push_kind(words: &mut Vec<u64>, kind: &OpKind<'_>) -> Result<(), NoMemory>
    ensures ok { OnOk result (words.new.items ≡ words.old.items ++ kind_words (kind_of kind.now)) }
    ensures sized { OnOk result (is_sized_kind (kind_of kind.now) ≡ true) }
    ensures err { OnErr result (take (vec_len words.old) words.new.items ≡ words.old.items) }
{
    match kind {
        OpKind::False | OpKind::True => push_two(words, 0, 0),
        OpKind::Num(number) => push_two(words, *number, 0),
        OpKind::Range { lo, hi } => push_two(words, *lo, *hi),
        OpKind::Mask(mask) => push_two(words, *mask, 0),
        OpKind::Text { cells, seek } => {
            seek_is_sized(*seek);
            push_two(words, cells.len() as u64, 0)?;
            push_words(words, cells)?;
            Ok(())
        }
        OpKind::Act { action, line } => push_two(words, *action as u64, u64::from(*line)),
    }
}

fn push_opcode(words: &mut Vec<u64>, opcode: &Opcode<'_>) -> Result<(), NoMemory>
    ensures ok { OnOk result (words.new.items ≡ words.old.items ++ record_of (opcode_of opcode.now)) }
    ensures sized { OnOk result (is_sized (opcode_of opcode.now) ≡ true) }
    ensures err { OnErr result (take (vec_len words.old) words.new.items ≡ words.old.items) }
{
    numbers_are_sized(opcode.param, opcode.options);
    push_two(words, head_of(opcode), u64::from(opcode.param))?;
    push_kind(words, &opcode.kind)?;
    Ok(())
}

// Whether words are the packing of some opcodes.
#[tactic(auto, using(crate::proofs::PackingLemmas::no_record))]
pub(crate) fn is_packed(words: &[u64]) -> bool
    ensures { result ≡ is_packed words.now }
{
    let mut rest = words;
    while let Some(later) = after_record(rest) {
        rest = later;
    }
    rest.is_empty()
}

// The code of words that are the packing of some opcodes.
pub(crate) fn code_of(words: Vec<u64>) -> Code
    requires packed { is_packed words.items ≡ true }
    requires few { length words.items < 2 ^ 32 }
    ensures { result ≡ opcodes_of words.items }
{
    Code { words }
}

impl Code {
    /// No opcodes. Those to come take their memory from this allocator.
    pub fn new(alloc: Global) -> Code
        ensures { result ≡ [] }
    {
        Code {
            words: Vec::new(alloc),
        }
    }

    #[tactic(auto, using(crate::proofs::PackingLemmas::pushed_opcodes))]
    /// Appends an opcode. After an error the code is as it was.
    ///
    /// # Errors
    /// `NoMemory` if there was none for the opcode's words.
    pub fn push(&mut self, opcode: Opcode<'_>) -> Result<(), NoMemory>
        requires { length self.old + 1 < 2 ^ 32 }
        ensures ok { OnOk result (self.new ≡ self.old ++ opcode_of opcode.entry ∷ []) }
        ensures err { OnErr result (self.new ≡ self.old) }
    {
        let before = self.words.len();
        match push_opcode(&mut self.words, &opcode) {
            Ok(()) => Ok(()),
            Err(error) => {
                self.words.truncate(before);
                Err(error)
            }
        }
    }

    // Appends a text opcode whose cells are these words. After an error the code is as it was.
    fn push_cells(&mut self, look: Look, seek: Seek, cells: &[u64]) -> Result<(), NoMemory>
        requires { length self.old + 1 < 2 ^ 32 }
        ensures ok { OnOk result (self.new ≡ self.old ++ text_opcode look (map cell_of cells.now) seek ∷ []) }
        ensures err { OnErr result (self.new ≡ self.old) }
    {
        self.push(Opcode {
            kind: OpKind::Text { cells, seek },
            param: look.param,
            options: look.options,
        })
    }

    /// Appends a text opcode with these cells. After an error the code is as it was.
    ///
    /// # Errors
    /// `NoMemory` if there was none for the opcode's words.
    pub fn push_text(&mut self, look: Look, seek: Seek, cells: &[Cell]) -> Result<(), NoMemory>
        requires { length self.old + 1 < 2 ^ 32 }
        ensures ok { OnOk result (self.new ≡ self.old ++ text_opcode look cells.now seek ∷ []) }
        ensures err { OnErr result (self.new ≡ self.old) }
    {
        let cells = cell_words(*self.words.allocator(), cells)?;
        self.push_cells(look, seek, &cells)
    }

    /// Appends a text opcode whose fragment is this string and is compared at the position. After an error the code is as it was.
    ///
    /// # Errors
    /// `NoMemory` if there was none for the opcode's words.
    pub fn push_string(&mut self, look: Look, units: &[u16]) -> Result<(), NoMemory>
        requires { length self.old + 1 < 2 ^ 32 }
        ensures ok { OnOk result (self.new ≡ self.old ++ text_opcode look (map Lit units.now) (Skip 0) ∷ []) }
        ensures err { OnErr result (self.new ≡ self.old) }
    {
        let cells = unit_words(*self.words.allocator(), units)?;
        self.push_cells(look, Seek::Skip(0), &cells)
    }

    #[tactic(auto, using(crate::proofs::PackingLemmas::packing_of_opcodes))]
    /// The words: the packing of the opcodes.
    pub fn words(&self) -> &[u64]
        ensures words { result.now ≡ packed self.now }
        ensures packed { is_packed result.now ≡ true }
        ensures opcodes { opcodes_of result.now ≡ self.now }
    {
        &self.words
    }

    #[tactic(auto, using(crate::proofs::PackingLemmas::packing_of_opcodes))]
    /// The words, given back.
    pub fn into_words(self) -> Vec<u64>
        ensures { result.items ≡ packed self }
    {
        let Code { words } = self;
        words
    }

    #[tactic(auto, using(crate::proofs::PackingLemmas::empty_words))]
    /// Whether there are no opcodes.
    pub fn is_empty(&self) -> bool
        ensures { IsTrue result ↔ (self.now ≡ []) }
    {
        self.words.is_empty()
    }

    /// The opcodes, in order.
    pub fn records(&self) -> Records<'_>
        ensures records { result ≡ self.now }
        ensures few { length self.now < 2 ^ 32 }
    {
        Records::of(&self.words)
    }
}
