// The numbers from which statements are made.
ghost use Rattle.std.specs.Prelude.{◌≡◌};
ghost use Rattle.sb_gen.specs.Generator.{next, kind_of, number_of};

use std::marker::Model;

// By how much the number rises before each statement: 2^64 divided by the golden ratio, an odd number.
const INCREMENT: u64 = 0x9E37_79B9_7F4A_7C15;

/// A number that rises before each statement, and from whose highest bits the statement is made.
#[derive(Drop)]
pub struct Generator {
    number: u64,
}

impl Model for Generator {
    ghost use Rattle.std.specs.Prelude.{ℕ};

    ghost Value = { ℕ };

    ghost view = { λ g. g.number };
}

impl Generator {
    /// The generator before the first statement. Its number is the seed.
    pub fn new(seed: u64) -> Generator
        ensures { result ≡ seed }
    {
        Generator { number: seed }
    }

    /// Goes on to the next statement: the number rises by 0x9E3779B97F4A7C15, modulo 2^64.
    pub fn advance(&mut self)
        ensures { self.new ≡ next self.old }
    {
        self.number = self.number.wrapping_add(INCREMENT);
    }

    /// The kind of the statement, from 0 to 7: the three highest bits.
    pub fn kind(&self) -> u64
        ensures { result ≡ kind_of self.now }
    {
        self.number >> 61
    }

    /// The number that the statement names, from 0 to 255: the eight bits below the kind.
    pub fn named_number(&self) -> u64
        ensures { result ≡ number_of self.now }
    {
        (self.number >> 53) % 256
    }
}
