// How far a string is a name.
ghost use Rattle.std.specs.Prelude.{◌≡◌, if◌then◌else◌};
ghost use Rattle.sb_cover.specs.Modes.{mode_after, mode_inside, is_accepting};
ghost use Rattle.sb_base.specs.Names.{is_ordinary};

/// The mode of no name.
pub(crate) const DEAD: u32 = 0;

/// The mode before the first unit of a name.
pub(crate) const START: u32 = 1;

/// The mode of a string that need not be a name.
pub(crate) const ANY: u32 = 5;

/// Whether a unit may be in a component of a name.
pub(crate) fn is_ordinary(unit: u16) -> bool
    ensures { result ≡ is_ordinary unit }
{
    unit >= 32 && unit != 92 && unit != 47 && unit != 42
}

fn mode_inside(unit: u16) -> u32
    ensures { result ≡ mode_inside unit }
{
    if unit == 32 || unit == 46 { 4 } else { 3 }
}

/// The mode after a unit more.
pub(crate) fn mode_after(mode: u32, unit: u16) -> u32
    ensures { result ≡ mode_after mode unit }
{
    if mode == ANY {
        return ANY;
    }
    if unit == 92 {
        return if mode == 1 || mode == 3 { 2 } else { DEAD };
    }
    if is_ordinary(unit) && (mode == 2 || (mode == 3 || mode == 4)) {
        mode_inside(unit)
    } else {
        DEAD
    }
}

/// Whether a string with this mode is accepted.
pub(crate) fn is_accepting(mode: u32) -> bool
    ensures { result ≡ is_accepting mode }
{
    mode == 3 || mode == ANY
}
