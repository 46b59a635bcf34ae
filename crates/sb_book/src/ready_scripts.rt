// Scripts that are ready for policies, and the namespace that they open with.
ghost use Rattle.std.specs.Prelude.{◌≡◌, ◌≤◌, true, false, length, is_ok, IfOk, MatchOption};
ghost use Rattle.std.specs.List.{list_all};
ghost use Rattle.sb_kernel.specs.Openings.{is_named, opened, opening};
ghost use Rattle.sb_rule.specs.WellMade.{are_well_made};
ghost use Rattle.sb_statements.specs.Limits.{most_start_lines};
ghost use Rattle.sb_statements.specs.Soundness.{is_sound};
ghost use Rattle.sb_book.specs.Readiness.{IsReady, is_judged, is_ready};
ghost use Rattle.sb_book.specs.ReadyScripts.{Ready};

use crate::run_starts::RunStart;
use sb_base::NoMemory;
use sb_kernel::{Kernel, StartRefused};
use sb_rule::WellMadePolicies;
use sb_statements::{SoundScript, StartLine, TargetScript};
use std::alloc::Global;
use std::marker::Model;

/// Policies, and a script that is ready for them: each of its targets names one of them, and what is there at the start can be
/// placed in turn. Contracts see the plain policies and the plain script.
pub struct ReadyScript {
    policies: WellMadePolicies,
    script: SoundScript,
}

impl Drop for ReadyScript {
    fn drop(self) {
        let ReadyScript {
            policies: _,
            script: _,
        } = self;
    }
}

impl Model for ReadyScript {
    ghost use Rattle.std.specs.Prelude.{◌≡◌, true};
    ghost use Rattle.sb_book.specs.Readiness.{is_ready};
    ghost use Rattle.sb_book.specs.ReadyScripts.{Ready};

    ghost Value = { Ready };

    ghost view = { λ r. record { policies = r.policies.list; script = r.script } };

    ghost invariant = { λ r. is_ready r.policies.list r.script ≡ true };
}

impl ReadyScript {
    /// Policies, and a script that is known to be ready for them.
    pub fn of(policies: WellMadePolicies, script: SoundScript) -> ReadyScript
        requires { is_ready policies.list script ≡ true }
        ensures policies { result.policies ≡ policies.list }
        ensures script { result.script ≡ script }
    {
        ReadyScript { policies, script }
    }

    /// The policies.
    pub fn policies(&self) -> &WellMadePolicies
        ensures { result.now.list ≡ self.now.policies }
    {
        &self.policies
    }

    /// The script.
    #[inline(always)]
    pub fn script(&self) -> &SoundScript
        ensures { result.now ≡ self.now.script }
    {
        &self.script
    }

    /// What a run of the script begins with: its opening lines are placed in turn. A script that was read comes with them placed.
    ///
    /// # Errors
    /// `NoMemory` if there was none for the namespace.
    #[tactic(auto, using(crate::proofs::Ready::named_starts))]
    pub fn start(&self, alloc: Global) -> Result<RunStart<'_>, NoMemory>
        ensures { IfOk result (λ start. start ≡ self.now) }
    {
        self.establish_ready();
        // Each line can be placed, so the one refusal is that memory ran out.
        let Ok(kernel) = Kernel::start(alloc, &self.script.start) else {
            return Err(NoMemory);
        };
        Ok(RunStart::of(self, kernel))
    }

    /// What holds of every ready script. It does nothing.
    pub fn establish_ready(&self)
        ensures { IsReady self.now.policies self.now.script }
    {
        self.script.establish_sound();
    }
}

/// A ready script with the namespace that it opens with. Contracts see the plain policies and the plain script.
pub struct OpenedScript {
    ready: ReadyScript,
    kernel: Kernel,
}

impl Drop for OpenedScript {
    fn drop(self) {
        let OpenedScript {
            ready: _,
            kernel: _,
        } = self;
    }
}

impl Model for OpenedScript {
    ghost use Rattle.std.specs.Prelude.{◌≡◌};
    ghost use Rattle.sb_kernel.specs.Openings.{opening};
    ghost use Rattle.sb_book.specs.ReadyScripts.{Ready};

    ghost Value = { Ready };

    ghost view = { λ o. o.ready };

    ghost invariant = { λ o. o.kernel ≡ opening o.ready.script.start };
}

// Whether each target names one of this many policies.
fn are_judged(targets: &[TargetScript], count: usize) -> bool
    ensures { result ≡ list_all (is_judged count) targets.now }
{
    targets
        .iter()
        .all(|target| (target.policy as usize) < count)
}

impl OpenedScript {
    /// Policies and a script, if the script is ready for them. None exactly if a target names no policy of them, or an opening
    /// line cannot be placed.
    ///
    /// # Errors
    /// `NoMemory` if there was none for the namespace.
    #[tactic(auto, using(crate::proofs::Ready::named_starts, crate::proofs::Ready::ready_by, crate::proofs::Ready::unready_by))]
    pub fn new(
        alloc: Global,
        policies: WellMadePolicies,
        script: SoundScript,
    ) -> Result<Option<OpenedScript>, NoMemory>
        ensures { IfOk result (λ made. MatchOption made (is_ready policies.list script ≡ false)
            (λ opened. opened ≡ record { policies = policies.list; script = script })) }
    {
        script.establish_sound();
        let count = policies.policies().list.len();
        if !are_judged(script.targets.as_slice(), count) {
            return Ok(None);
        }
        match Kernel::start(alloc, script.start.as_slice()) {
            Ok(kernel) => {
                let ready = ReadyScript::of(policies, script);
                Ok(Some(OpenedScript { ready, kernel }))
            }
            Err(StartRefused::BadStart { .. }) => Ok(None),
            Err(StartRefused::NoMemory) => Err(NoMemory),
        }
    }

    /// A ready script, and the kernel in which its opening lines were placed.
    pub fn of(ready: ReadyScript, kernel: Kernel) -> OpenedScript
        requires { kernel ≡ opening ready.script.start }
        ensures { result ≡ ready }
    {
        OpenedScript { ready, kernel }
    }

    /// The script.
    pub fn script(&self) -> &SoundScript
        ensures { result.now ≡ self.now.script }
    {
        self.ready.script()
    }

    /// The ready script, and the namespace that it opens with.
    pub fn into_parts(self) -> (ReadyScript, Kernel)
        ensures ready { result.0 ≡ self }
        ensures kernel { result.1 ≡ opening self.script.start }
    {
        let OpenedScript { ready, kernel } = self;
        (ready, kernel)
    }
}
