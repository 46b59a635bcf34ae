// The folding of units, and what a name is.
ghost use Rattle.std.specs.Prelude.{◌≡◌, ◌==◌};
ghost use Rattle.std.specs.List.{list_all};
ghost use Rattle.sb_base.specs.Wide.{folded, is_same};
ghost use Rattle.sb_base.specs.Names.{is_name_of, is_component, is_ordinary, ends_well, parts_of};

use crate::units::{BACKSLASH, SLASH, STAR};

/// A unit from 97 to 122, an ASCII letter `a` to `z`, as the capital letter 32 below it, and any other unit as it is.
///
/// No other letter has a folding: this is not Unicode's case folding.
pub fn to_ascii_uppercase(unit: u16) -> u16
    ensures { result ≡ folded unit }
{
    match unit {
        97..=122 => unit - 32,
        _ => unit,
    }
}

/// Whether two lists of units are equal after folding each unit.
pub fn eq_ignore_ascii_case(a: &[u16], b: &[u16]) -> bool
    ensures { result ≡ is_same a.now b.now }
{
    a.len() == b.len()
        && a.iter()
            .zip(b)
            .all(|(x, y)| to_ascii_uppercase(*x) == to_ascii_uppercase(*y))
}

fn is_ordinary(unit: u16) -> bool
    ensures { result ≡ is_ordinary unit }
{
    unit >= 32 && unit != BACKSLASH && unit != SLASH && unit != STAR
}

fn ends_well(part: &[u16]) -> bool
    ensures { result ≡ ends_well part.now }
{
    match part {
        [.., last] => *last != 32 && *last != 46,
        [] => false,
    }
}

/// Whether the units are one component of a name: at least one unit, none below 32, none of `\`, `/` and `*`, and the
/// last neither a space nor `.`. So it is neither `.` nor `..`.
pub fn is_component(units: &[u16]) -> bool
    ensures { result ≡ is_component units.now }
{
    ends_well(units) && units.iter().all(|unit| is_ordinary(*unit))
}

fn are_components(units: &[u16]) -> bool
    ensures { result ≡ list_all is_component (parts_of units.now) }
{
    units.split(|unit| *unit == BACKSLASH).all(is_component)
}

/// Whether the units are a name: one or more components, each after a `\`.
///
/// `?` and `:` are units like any other, so `\??\C:\docs` is a name.
pub fn is_name(units: &[u16]) -> bool
    ensures { result ≡ is_name_of units.now }
{
    match units.split_first() {
        Some((first, rest)) => *first == BACKSLASH && are_components(rest),
        None => false,
    }
}
