// What all threads of a run share.
ghost use Rattle.sb_run.specs.Contexts.{IsContext};

use crate::works::Work;
use sb_outside::Gate;
use sb_pool::Pool;
use sb_rule::Judge;
use sb_shared::SharedWorld;
use sb_statements::SoundScript;
use std::marker::Model;

/// The judge, the gate, the script, the shared world, and the pool that deals the seats of the workers to those who serve. The world was opened with this script,
/// and the judge judges its targets by their policies.
#[derive(Drop)]
pub(crate) struct RunContext<'a, J: Judge, G: Gate> {
    pub(crate) judge: &'a J,
    pub(crate) gate: &'a G,
    pub(crate) script: &'a SoundScript,
    pub(crate) world: &'a SharedWorld,
    pub(crate) pool: &'a Pool<Work>,
    /// How many threads serve targets.
    pub(crate) serving: usize,
}

impl<'a, J: Judge, G: Gate> Model for RunContext<'a, J, G> {
    ghost use Rattle.sb_run.specs.Contexts.{ContextAt, IsContext};

    ghost Value = { ContextAt };

    ghost view = { λ x. record { script = x.script.now; world = x.world.now; pool = x.pool.now; policies = J.policies x.judge.now } };

    ghost invariant = { λ x. IsContext (record { script = x.script.now; world = x.world.now; pool = x.pool.now; policies = J.policies x.judge.now }) };
}

impl<'a, J: Judge, G: Gate> RunContext<'a, J, G> {
    /// Establishes what holds of the context. It does nothing when it runs.
    pub(crate) fn establish_kept(&self)
        ensures { IsContext self.now }
    {
        let _script = self.script;
    }
}
