// Accesses and sharing, sets of 32 bits. Contracts name each by its number.
ghost use Rattle.std.specs.Prelude.{⊤, ◌∷◌, [], codes};

use bitflags::{Flag, Flags, bitflag_items};

/// An access mask (`ACCESS_MASK`). All bits are kept; those that have no name take no part in sharing.
#[derive(Clone, Copy)]
pub struct Access(u32);

bitflag_items! {
    impl Access: u32 {
        /// The bits that read data or execute, by themselves or by a generic right.
        const READS = 0xB000_0021;

        /// The bits that write or append data, by themselves or by a generic right.
        const WRITES = 0x5000_0006;

        /// The bits that delete, by themselves or by the generic right to all.
        const DELETES = 0x1001_0000;

        /// The right to delete alone.
        const DELETE = 0x1_0000;
    }
}

impl Flags for Access {
    type Bits = u32;

    ghost exact = { ⊤ };

    ghost table = { (codes "READS", 0xB0000021) ∷ (codes "WRITES", 0x50000006) ∷ (codes "DELETES", 0x10010000) ∷ (codes "DELETE", 0x10000) ∷ [] };

    ghost set_of = { λ a. a.0 };

    fn flags<'a>() -> &'a [Flag<Access>] {
        Access::FLAGS
    }

    fn bits(&self) -> u32 {
        self.0
    }

    fn from_bits_retain(bits: u32) -> Access {
        Access(bits)
    }
}

/// What others may do to an object while a handle is open (`ShareAccess`). All bits are kept; those that have no name share
/// nothing.
#[derive(Clone, Copy)]
pub struct Sharing(u32);

bitflag_items! {
    impl Sharing: u32 {
        /// Others may read.
        const READ = 1;

        /// Others may write.
        const WRITE = 2;

        /// Others may delete.
        const DELETE = 4;

        /// Others may read, write and delete.
        const ALL = 7;
    }
}

impl Flags for Sharing {
    type Bits = u32;

    ghost exact = { ⊤ };

    ghost table = { (codes "READ", 1) ∷ (codes "WRITE", 2) ∷ (codes "DELETE", 4) ∷ (codes "ALL", 7) ∷ [] };

    ghost set_of = { λ s. s.0 };

    fn flags<'a>() -> &'a [Flag<Sharing>] {
        Sharing::FLAGS
    }

    fn bits(&self) -> u32 {
        self.0
    }

    fn from_bits_retain(bits: u32) -> Sharing {
        Sharing(bits)
    }
}
