// What a name resolves to.
ghost use Rattle.std.specs.Prelude.{◌≡◌, IfOk, true};
ghost use Rattle.sb_link.specs.Resolution.{is_under, replaced, resolve, resolve_within};

use crate::links::{Link, Links, MAX_STEPS};
use sb_base::{NoMemory, Wide};
use std::alloc::Global;

// The name with the FROM of a link replaced by its TO. The link applies to it.
#[tactic(auto, using(crate::proofs::Under::under_is_long))]
fn replaced(alloc: Global, name: &[u16], link: &Link) -> Result<Wide, NoMemory>
    requires { is_under link.now.from name.now ≡ true }
    ensures { IfOk result (λ wide. wide ≡ replaced name.now link.now) }
{
    let (_, rest) = name.split_at(link.from.len());
    let mut units = Vec::from_slice(alloc, link.to.as_units())?;
    units.extend_from_slice(rest)?;
    Ok(Wide::new(units))
}

// What a name resolves to by at most this many steps.
#[tactic(auto, using(crate::proofs::Steps::last_step, crate::proofs::Steps::one_step, crate::proofs::Longest::found_applies))]
fn resolve_within(
    alloc: Global,
    steps: u32,
    links: &Links,
    name: Wide,
) -> Result<Option<Wide>, NoMemory>
    ensures { IfOk result (λ resolved. resolved ≡ resolve_within steps links.now name) }
{
    let mut name = name;
    let mut steps = steps;
    while let Some(link) = links.applying(name.as_units()) {
        if steps == 0 {
            return Ok(None);
        }
        name = replaced(alloc, name.as_units(), link)?;
        steps -= 1;
    }
    Ok(Some(name))
}

impl Links {
    /// The name to which no link applies, after at most 8 steps. One step takes of the links that apply the one with the longest
    /// FROM, and replaces that part of the name by its TO. A link applies to the names that are its FROM, or have it before a `\`,
    /// except for the case of letters. None exactly if a link still applies after 8 steps.
    ///
    /// # Errors
    /// `NoMemory` if there was none for a name.
    #[tactic(auto, using(crate::proofs::Steps::last_step, crate::proofs::Steps::one_step, crate::proofs::Longest::found_applies))]
    pub fn resolve(&self, alloc: Global, name: &[u16]) -> Result<Option<Wide>, NoMemory>
        ensures { IfOk result (λ resolved. resolved ≡ resolve self.now name.now) }
    {
        match self.applying(name) {
            Some(link) => {
                let next = replaced(alloc, name, link)?;
                resolve_within(alloc, MAX_STEPS - 1, self, next)
            }
            None => Ok(Some(Wide::from_units(alloc, name)?)),
        }
    }
}
