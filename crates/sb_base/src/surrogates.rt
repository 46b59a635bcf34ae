// Surrogate pairs: which units are well-formed UTF-16.
ghost use Rattle.std.specs.Prelude.{◌≡◌, false};
ghost use Rattle.sb_base.specs.Surrogates.{is_high, is_low, is_paired, is_paired_after};

/// Whether a unit is the first half of a surrogate pair.
pub fn is_high_surrogate(unit: u16) -> bool
    ensures { result ≡ is_high unit }
{
    matches!(unit, 0xD800..=0xDBFF)
}

/// Whether a unit is the second half of a surrogate pair.
pub fn is_low_surrogate(unit: u16) -> bool
    ensures { result ≡ is_low unit }
{
    matches!(unit, 0xDC00..=0xDFFF)
}

// Whether each second half is right after a first half, and each first half right before a second.
fn are_paired(units: &[u16]) -> bool
    ensures { result ≡ is_paired_after false units.now }
{
    let mut after_high = false;
    for unit in units {
        if is_low_surrogate(*unit) != after_high {
            return false;
        }
        after_high = is_high_surrogate(*unit);
    }
    !after_high
}

/// Whether the units are well-formed UTF-16: the two halves of each surrogate pair are side by side, and no other unit is
/// a surrogate.
#[tactic(auto, using(crate::proofs::Pairs::paired_after))]
pub fn is_well_formed_utf16(units: &[u16]) -> bool
    ensures { result ≡ is_paired units.now }
{
    are_paired(units)
}
