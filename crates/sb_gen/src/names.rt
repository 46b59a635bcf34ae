// The names in generated scripts. Each is an ASCII text that ends with a number in decimal.
ghost use Rattle.std.specs.Prelude.{◌≡◌, ◌++◌, IfOk};
ghost use Rattle.std.specs.Fmt.{decimal};
ghost use Rattle.sb_gen.specs.Calls.{directory, name_within};

use sb_base::{NoMemory, Wide, put_named};
use std::alloc::Global;

// An ASCII text.
pub(crate) fn ascii(alloc: Global, text: &[u8]) -> Result<Wide, NoMemory>
    ensures { IfOk result (λ units. units ≡ text.now) }
{
    let mut units = Vec::with_capacity(alloc, text.len())?;
    for byte in text {
        units.push(u16::from(*byte))?;
    }
    Ok(Wide::new(units))
}

// An ASCII text and a number in decimal.
pub(crate) fn numbered(alloc: Global, text: &[u8], number: u64) -> Result<Wide, NoMemory>
    ensures { IfOk result (λ name. name ≡ text.now ++ decimal number) }
{
    let mut name = Vec::new(alloc);
    put_named(&mut name, text, number)?;
    ascii(alloc, &name)
}

// `\make\aT`: the directory of target T.
pub(crate) fn directory(alloc: Global, target: u32) -> Result<Wide, NoMemory>
    ensures { IfOk result (λ name. name ≡ directory target) }
{
    numbered(alloc, b"\\make\\a", u64::from(target))
}

// `\make\aT\kK`: a name in it.
pub(crate) fn name_within(alloc: Global, target: u32, number: u64) -> Result<Wide, NoMemory>
    ensures { IfOk result (λ name. name ≡ name_within target number) }
{
    let mut name = Vec::new(alloc);
    put_named(&mut name, b"\\make\\a", u64::from(target))?;
    put_named(&mut name, b"\\k", number)?;
    ascii(alloc, &name)
}
