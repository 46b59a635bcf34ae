// The opening lines so far, and whether one more can be placed after them.
ghost use Rattle.std.specs.Prelude.{◌≡◌, ◌<◌, [], true, length};
ghost use Rattle.sb_kernel.specs.Openings.{is_named, opening};
ghost use Rattle.sb_scripttext.specs.Openings.{can_place, with_line};
ghost use Rattle.sb_scripttext.specs.StartFaults.{start_fault};
ghost use Rattle.sb_statements.specs.Limits.{most_start_lines};
ghost use Rattle.sb_base.specs.Refusals.{Gives};

use crate::faults::{KindRefused, ScriptKind, StartFault};
use crate::start_faults::start_fault;
use sb_kernel::{Kernel, openings_make_few};
use sb_statements::{StartLine, StartLines};
use std::alloc::Global;
use std::marker::Model;

/// The opening lines so far, and the kernel in which they are placed.
#[derive(Drop)]
pub(crate) struct Placed {
    lines: StartLines,
    kernel: Kernel,
}

impl Model for Placed {
    ghost use Rattle.std.specs.Prelude.{◌≡◌, List, Ok};
    ghost use Rattle.sb_kernel.specs.Openings.{opened};
    ghost use Rattle.sb_statements.specs.declared.scripts.StartLine.{StartLine};

    ghost Value = { List StartLine };

    ghost view = { λ p. p.lines };

    ghost invariant = { λ p. opened p.lines ≡ Ok p.kernel };
}

impl Placed {
    /// No opening line.
    pub(crate) fn new(alloc: Global) -> Placed
        ensures { result ≡ [] }
    {
        Placed {
            lines: StartLines::new(Vec::new(alloc)),
            kernel: Kernel::new(alloc),
        }
    }

    /// How many there are.
    pub(crate) fn len(&self) -> usize
        ensures { result ≡ length self.now }
    {
        self.lines.len()
    }

    /// The opening lines, and the kernel in which they are placed.
    pub(crate) fn into_parts(self) -> (StartLines, Kernel)
        ensures lines { result.0 ≡ self }
        ensures kernel { result.1 ≡ opening self }
    {
        let Placed { lines, kernel } = self;
        (lines, kernel)
    }

    /// Whether another line can be placed.
    pub(crate) fn can_place(&self, line: &StartLine) -> bool
        requires name { is_named line.now ≡ true }
        ensures { result ≡ can_place self.now line.now }
    {
        self.kernel.can_place(line)
    }

    /// Why another line cannot be placed, if it cannot.
    pub(crate) fn fault_of(&self, line: &StartLine) -> StartFault
        ensures { result ≡ start_fault self.now line.now }
    {
        start_fault(self.lines.as_slice(), line)
    }

    /// With one more line, while there are fewer than 4,096. One that cannot be placed is a bad start.
    pub(crate) fn with(self, line: StartLine) -> Result<Placed, KindRefused>
        requires name { is_named line ≡ true }
        requires few { length self < most_start_lines }
        ensures { Gives (with_line self line) result }
    {
        openings_make_few();
        let Placed {
            mut lines,
            mut kernel,
        } = self;
        if !kernel.place(&line)? {
            let fault = start_fault(lines.as_slice(), &line);
            return Err(KindRefused::Fault(ScriptKind::BadStart(fault)));
        }
        lines.push(line)?;
        Ok(Placed { lines, kernel })
    }
}
