// A wide string that owns its units.
ghost use Rattle.std.specs.Prelude.{◌≡◌, IfOk, length};
ghost use Rattle.std.specs.Str.{chars};
ghost use Rattle.sb_base.specs.Wide.{utf16_of};

use crate::memory::NoMemory;
use std::alloc::{AllocError, Global};
use std::marker::Model;

/// A list of UTF-16 units. They need not be well-formed UTF-16.
pub struct Wide {
    units: Vec<u16>,
}

impl Drop for Wide {
    fn drop(self) {
        let Wide { units: _ } = self;
    }
}

impl Model for Wide {
    ghost use Rattle.std.specs.Prelude.{List, ℕ};

    ghost Value = { List ℕ };

    ghost view = { λ w. w.units.items };
}

impl Wide {
    /// The wide string of these units. Does not allocate.
    pub fn new(units: Vec<u16>) -> Wide
        ensures { result ≡ units.items }
    {
        Wide { units }
    }

    /// The units, given back. Does not allocate.
    pub fn into_units(self) -> Vec<u16>
        ensures { result.items ≡ self }
    {
        let Wide { units } = self;
        units
    }

    /// The units.
    pub fn as_units(&self) -> &[u16]
        ensures { result.now ≡ self.now }
    {
        &self.units
    }

    /// How many units there are.
    pub fn len(&self) -> usize
        ensures { result ≡ length self.now }
    {
        self.units.len()
    }

    /// The UTF-16 units of a text: one for each character below 65,536, and a pair of surrogates for each other.
    ///
    /// # Errors
    /// `NoMemory` if there was none for the units.
    pub fn from_str(alloc: Global, text: &str) -> Result<Wide, NoMemory>
        ensures { IfOk result (λ w. w ≡ utf16_of (chars text.now)) }
    {
        let mut units = Vec::new(alloc);
        for character in text.chars() {
            let mut pair = [0; 2];
            units.extend_from_slice(character.encode_utf16(&mut pair))?;
        }
        Ok(Wide { units })
    }

    /// The wide string of a copy of these units.
    ///
    /// # Errors
    /// `NoMemory` if there was none for the copy.
    pub fn from_units(alloc: Global, units: &[u16]) -> Result<Wide, NoMemory>
        ensures { IfOk result (λ w. w ≡ units.now) }
    {
        let units = Vec::from_slice(alloc, units)?;
        Ok(Wide { units })
    }
}

impl Clone for Wide {
    ghost is_clone = { λ text clone. clone ≡ text };

    fn clone(&self) -> Result<Wide, AllocError> {
        Ok(Wide {
            units: Vec::from_slice(*self.units.allocator(), &self.units)?,
        })
    }
}

impl PartialEq for Wide {
    ghost use Rattle.std.specs.Prelude.{nat_eq};
    ghost use Rattle.std.specs.Cmp.Lexicographic.{pointwise};
    ghost use Rattle.std.specs.Cmp.Rules.{comparing};
    ghost use Rattle.std.proofs.Common.{rules};

    ghost eq = { pointwise nat_eq };

    ghost laws = { Prim.search (comparing, rules) };

    fn eq(&self, other: &Wide) -> bool {
        self.units == other.units
    }
}
