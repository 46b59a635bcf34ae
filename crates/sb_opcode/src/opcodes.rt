// What an opcode is.

use crate::options::Options;
use sb_rule::Action;

/// Where in a string the fragment of a text opcode is to be. The position is 0 at the beginning of a group, and after
/// an opcode it is where that opcode's fragment ended.
#[derive(Clone, Copy)]
pub enum Seek {
    /// This many units after the position.
    Skip(u16),
    /// At the first place from the position on where it fits.
    Forward,
    /// At the end of the string, and not before the position.
    ToEnd,
}

/// What an opcode does. The cells of a fragment are words: a unit is itself, `?` is 65536, and any greater word is `*`.
#[derive(Clone, Copy)]
pub enum OpKind<'a> {
    /// Never holds.
    False,
    /// Always holds.
    True,
    /// Holds of this number.
    Num(u64),
    /// Holds of the numbers from `lo` to `hi`, both included.
    Range { lo: u64, hi: u64 },
    /// Holds of the numbers that have a bit of this mask.
    Mask(u64),
    /// Holds of a string in which the fragment is found where it is sought.
    Text { cells: &'a [u64], seek: Seek },
    /// Ends a rule: what the rule does, and the line on which it was written.
    Act { action: Action, line: u32 },
}

/// An opcode: what it does, the parameter of the call that it looks at, and its options. It borrows the cells of its
/// fragment from the words in which it is packed.
#[derive(Clone, Copy)]
pub struct Opcode<'a> {
    /// What it does.
    pub kind: OpKind<'a>,
    /// The parameter, from 0. An action, `True` and `False` look at none.
    pub param: u32,
    /// The options.
    pub options: Options,
}

/// At what an opcode looks, and how: the parameter and the options.
#[derive(Clone, Copy)]
pub struct Look {
    /// The parameter, from 0.
    pub param: u32,
    /// The options.
    pub options: Options,
}
