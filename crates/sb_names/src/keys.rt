// Names as keys: folded, compared, cut and hashed without regard to small and capital letters.
ghost use Rattle.std.specs.Prelude.{◌≡◌, length, IfOk};
ghost use Rattle.sb_names.specs.Maps.{is_key};
ghost use Rattle.sb_names.specs.Keys.{key_of, parent_of, is_below, is_backslash};
ghost use Rattle.sb_names.specs.Hashes.{hash_in, hash_of};
ghost use Rattle.sb_names.specs.Nodes.{number_of};

use sb_arena::NodeId;
use sb_base::{BACKSLASH, NoMemory, Wide, to_ascii_uppercase};
use std::alloc::Global;

// Whether a key is that of a name.
pub(crate) fn is_key(key: &[u16], name: &[u16]) -> bool
    ensures { result ≡ is_key (key_of name.now) key.now }
{
    let mut key = key;
    let mut name = name;
    while let Some((unit, more)) = key.split_first() {
        let Some((other, others)) = name.split_first() else {
            return false;
        };
        if *unit != to_ascii_uppercase(*other) {
            return false;
        }
        key = more;
        name = others;
    }
    name.is_empty()
}

// How many units are before the last `\`.
#[tactic(auto, using(crate::proofs::KeyLemmas::last_later))]
pub(crate) fn parent_len(name: &[u16]) -> usize
    ensures { result ≡ length (parent_of name.now) }
{
    let mut last = 0;
    let mut at = 0;
    let mut rest = name;
    while let Some((unit, more)) = rest.split_first() {
        if *unit == BACKSLASH {
            last = at;
        }
        at += 1;
        rest = more;
    }
    last
}

/// The name of the directory of a name: what is before its last `\`. It is empty for a name of one component, whose
/// directory is the root.
#[tactic(auto, using(crate::proofs::KeyLemmas::parent_start, crate::proofs::KeyLemmas::parent_short))]
pub fn parent(name: &[u16]) -> &[u16]
    ensures { result.now ≡ parent_of name.now }
{
    let (before, _) = name.split_at(parent_len(name));
    before
}

/// Whether the second name is below the first: it is the first, a `\`, and more.
pub fn is_below(name: &[u16], lower: &[u16]) -> bool
    ensures { result ≡ is_below (key_of name.now) (key_of lower.now) }
{
    let mut name = name;
    let mut lower = lower;
    while let Some((unit, more)) = name.split_first() {
        let Some((other, others)) = lower.split_first() else {
            return false;
        };
        if to_ascii_uppercase(*unit) != to_ascii_uppercase(*other) {
            return false;
        }
        name = more;
        lower = others;
    }
    match lower.split_first() {
        Some((unit, _)) => to_ascii_uppercase(*unit) == BACKSLASH,
        None => false,
    }
}

// A name folded, in the memory that it has.
#[tactic(auto, using(crate::proofs::FoldLemmas::folded_more, crate::proofs::FoldLemmas::folded_whole, crate::proofs::FoldLemmas::length_folded))]
fn into_folded(name: Wide) -> Wide
    ensures { result ≡ key_of name }
{
    let mut units = name.into_units();
    let mut at = 0;
    while at < units.len() {
        units[at] = to_ascii_uppercase(units[at]);
        at += 1;
    }
    Wide::new(units)
}

/// A name folded, as rows have it.
///
/// # Errors
/// `NoMemory` if there was none for its units.
pub fn fold_name(alloc: Global, name: &[u16]) -> Result<Wide, NoMemory>
    ensures { IfOk result (λ key. key ≡ key_of name.now) }
{
    Ok(into_folded(Wide::from_units(alloc, name)?))
}

// The factor of the FNV hash of 64 bits.
const FACTOR: u64 = 0x100_0000_01B3;

// The hash with which a directory begins.
fn hash_in(directory: Option<NodeId>) -> u64
    ensures { result ≡ hash_in (number_of directory) }
{
    match directory {
        Some(node) => node.0.wrapping_add(1),
        None => 0,
    }
}

// The hash of a component in a directory, in any letter case.
pub(crate) fn hash_of(directory: Option<NodeId>, part: &[u16]) -> u64
    ensures { result ≡ hash_of (number_of directory) (key_of part.now) }
{
    let mut hash = hash_in(directory);
    for unit in part {
        hash = hash
            .wrapping_mul(FACTOR)
            .wrapping_add(u64::from(to_ascii_uppercase(*unit)));
    }
    hash
}
