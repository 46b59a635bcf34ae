// The options of an opcode.
ghost use Rattle.std.specs.Prelude.{⊤, ◌∷◌, [], codes};

use bitflags::{Flag, Flags, bitflag_items};

/// The options of an opcode, a set of bits. Bits that have no name are kept and mean nothing.
#[derive(Clone, Copy)]
pub struct Options(u8);

bitflag_items! {
    impl Options: u8 {
        /// The result of the group is negated. It is set on the last opcode of a group.
        const NEGATE = 1;

        /// The opcode is the last of its group.
        const CLEAR = 2;

        /// The opcode is one of a group of which one is to hold; without it all are.
        const OR = 4;

        /// Units are compared after folding.
        const FOLD = 8;

        /// The string is to end with the fragment.
        const EXACT = 16;
    }
}

impl Flags for Options {
    type Bits = u8;

    ghost exact = { ⊤ };

    ghost table = { (codes "NEGATE", 1) ∷ (codes "CLEAR", 2) ∷ (codes "OR", 4) ∷ (codes "FOLD", 8) ∷ (codes "EXACT", 16) ∷ [] };

    ghost set_of = { λ o. o.0 };

    fn flags<'a>() -> &'a [Flag<Options>] {
        Options::FLAGS
    }

    fn bits(&self) -> u8 {
        self.0
    }

    fn from_bits_retain(bits: u8) -> Options {
        Options(bits)
    }
}
