// The kernel at the start.
ghost use Rattle.std.specs.Prelude.{◌≡◌, ◌≤◌, true, length, Ok, IfOk, IfErr};
ghost use Rattle.std.specs.List.{list_all};
ghost use Rattle.sb_statements.specs.Limits.{most_start_lines};
ghost use Rattle.sb_kernel.specs.Openings.{opened, is_named, IsStartRefused};

use crate::kernels::Kernel;
use sb_base::NoMemory;
use sb_statements::StartLine;
use std::alloc::Global;
use thiserror::Error;

/// Why there is no opening namespace.
#[derive(Clone, Copy, Debug, Error)]
pub enum StartRefused {
    /// The object at this place, from 0, cannot be placed: its parent is missing or no directory, or its name is taken.
    #[error("object {at} of the opening cannot be placed")]
    BadStart { at: u32 },
    /// There was no memory.
    #[error("out of memory")]
    NoMemory,
}

impl From<NoMemory> for StartRefused {
    ghost use Rattle.std.specs.Prelude.{◌≡◌};
    ghost use Rattle.sb_kernel.specs.declared.openings.StartRefused.TheVariants.{NoMemory};

    ghost from_gives = { λ _ refused. refused ≡ NoMemory };

    fn from(_error: NoMemory) -> StartRefused {
        StartRefused::NoMemory
    }
}

impl Kernel {
    #[tactic(auto, using(crate::proofs::Placing::made_more, crate::proofs::Placing::placed_made, crate::proofs::Placing::opened_more, crate::proofs::Placing::opened_none))]
    /// The namespace after the objects of the opening, placed in turn. They are at most 4,096, and each name is a name.
    ///
    /// # Errors
    /// `BadStart` exactly if one cannot be placed, with the place of the first, and `NoMemory` if there was none.
    pub fn start(alloc: Global, lines: &[StartLine]) -> Result<Kernel, StartRefused>
        requires few { length lines.now ≤ most_start_lines }
        requires names { list_all is_named lines.now ≡ true }
        ensures ok { IfOk result (λ kernel. opened lines.now ≡ Ok kernel) }
        ensures err { IfErr result (λ refused. IsStartRefused (opened lines.now) refused) }
    {
        let mut kernel = Kernel::new(alloc);
        let mut at = 0;
        let mut rest = lines;
        while let Some((line, later)) = rest.split_first() {
            if !kernel.place(line)? {
                return Err(StartRefused::BadStart { at });
            }
            at += 1;
            rest = later;
        }
        Ok(kernel)
    }
}
