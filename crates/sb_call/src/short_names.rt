// The names of policies and targets.
ghost use Rattle.std.specs.Prelude.{◌≡◌, ◌↔◌, length, true, IfSome, IsSome};
ghost use Rattle.std.specs.List.{list_all};
ghost use Rattle.sb_call.specs.ShortNames.{is_short_name, is_name_byte};

use arrayvec::ArrayVec;
use std::marker::Model;

/// A name of 1 to 32 of the characters `a` to `z`, `0` to `9` and `_`.
#[derive(Drop)]
pub struct ShortName {
    bytes: ArrayVec<u8, 32>,
}

impl Model for ShortName {
    ghost use Rattle.std.specs.Prelude.{◌≡◌, List, ℕ, true};
    ghost use Rattle.sb_call.specs.ShortNames.{is_short_name};

    ghost Value = { List ℕ };

    ghost view = { λ n. n.bytes.items };

    ghost invariant = { λ n. is_short_name n.bytes.items ≡ true };
}

fn is_name_byte(byte: u8) -> bool
    ensures { result ≡ is_name_byte byte }
{
    matches!(byte, b'a'..=b'z' | b'0'..=b'9' | b'_')
}

fn are_name_bytes(bytes: &[u8]) -> bool
    ensures { result ≡ list_all is_name_byte bytes.now }
{
    bytes.iter().all(|byte| is_name_byte(*byte))
}

fn is_short_name(bytes: &[u8]) -> bool
    ensures { result ≡ is_short_name bytes.now }
{
    !bytes.is_empty() && bytes.len() <= 32 && are_name_bytes(bytes)
}

impl ShortName {
    /// The name of these bytes. None exactly if they are not 1 to 32 of the characters of a name.
    pub fn new(bytes: &[u8]) -> Option<ShortName>
        ensures some { IsSome result ↔ (is_short_name bytes.now ≡ true) }
        ensures value { IfSome result (λ name. name ≡ bytes.now) }
    {
        if !is_short_name(bytes) {
            return None;
        }
        let mut copy = ArrayVec::new();
        copy.try_extend_from_slice(bytes).ok()?;
        Some(ShortName { bytes: copy })
    }

    /// The bytes of the name.
    pub fn bytes(&self) -> &[u8]
        ensures bytes { result.now ≡ self.now }
        ensures short { is_short_name self.now ≡ true }
    {
        self.bytes.as_slice()
    }

    /// An equal name.
    pub fn copy(&self) -> ShortName
        ensures { result ≡ self.now }
    {
        let mut bytes = ArrayVec::new();
        let _fits = bytes.try_extend_from_slice(self.bytes.as_slice());
        ShortName { bytes }
    }
}

impl PartialEq for ShortName {
    ghost use Rattle.std.specs.Prelude.{nat_eq};
    ghost use Rattle.std.specs.Cmp.Lexicographic.{pointwise};
    ghost use Rattle.std.specs.Cmp.Rules.{comparing};
    ghost use Rattle.std.proofs.Common.{rules};

    ghost eq = { pointwise nat_eq };

    ghost laws = { Prim.search (comparing, rules) };

    fn eq(&self, other: &ShortName) -> bool {
        self.bytes.as_slice() == other.bytes.as_slice()
    }
}
