// What a run begins with.
ghost use Rattle.std.specs.Prelude.{◌≡◌};
ghost use Rattle.sb_kernel.specs.Openings.{opening};

use crate::ready_scripts::ReadyScript;
use sb_kernel::Kernel;
use std::marker::Model;

/// What a run begins with: a ready script, and the namespace that it opens with, which the run takes over. Contracts see the plain
/// policies and the plain script.
pub struct RunStart<'a> {
    ready: &'a ReadyScript,
    kernel: Kernel,
}

impl<'a> Drop for RunStart<'a> {
    fn drop(self) {
        let RunStart {
            ready: _,
            kernel: _,
        } = self;
    }
}

impl<'a> Model for RunStart<'a> {
    ghost use Rattle.std.specs.Prelude.{◌≡◌};
    ghost use Rattle.sb_kernel.specs.Openings.{opening};
    ghost use Rattle.sb_book.specs.ReadyScripts.{Ready};

    ghost Value = { Ready };

    ghost view = { λ s. s.ready.now };

    ghost invariant = { λ s. s.kernel ≡ opening s.ready.now.script.start };
}

impl<'a> RunStart<'a> {
    /// A ready script, and the kernel in which its opening lines were placed.
    pub fn of(ready: &'a ReadyScript, kernel: Kernel) -> RunStart<'a>
        requires opens { kernel ≡ opening ready.now.script.start }
        ensures { result ≡ ready.now }
    {
        RunStart { ready, kernel }
    }

    /// The ready script.
    pub fn ready(&self) -> &'a ReadyScript
        ensures { result.now ≡ self.now }
    {
        self.ready
    }

    /// The namespace that the script opens with, taken out.
    pub fn into_kernel(self) -> Kernel
        ensures { result ≡ opening self.entry.script.start }
    {
        let RunStart { ready: _, kernel } = self;
        kernel
    }
}
