// Who makes the steps of a run on one thread, and in which order.
ghost use Rattle.std.specs.Prelude.{◌≡◌};
ghost use Rattle.sb_statements.specs.Actors.{is_there};

use crate::scripts::Script;
use sb_base::Items;

/// Who makes a step. Targets and threads are numbered from 0.
#[derive(Clone, Copy, PartialEq, Eq)]
pub enum Actor {
    /// The worker that serves a target's channels.
    Worker { target: u32 },
    /// A thread of a target.
    Thread { target: u32, thread: u32 },
}

/// Actors in turn, each with how many steps it makes.
pub type Steps = Items<(Actor, u32)>;

/// A schedule: the steps, and then how many rounds there are at most, where in each round each actor makes one step.
#[derive(PartialEq)]
pub struct Schedule {
    /// The steps.
    pub steps: Steps,
    /// How many rounds there are at most.
    pub rounds: u32,
}

impl Drop for Schedule {
    fn drop(self) {
        let Schedule {
            steps: _,
            rounds: _,
        } = self;
    }
}

/// Whether a script has the actor: the target is there, and so is its thread.
pub fn is_there(script: &Script, actor: Actor) -> bool
    ensures { result ≡ is_there script.now.targets actor }
{
    match actor {
        Actor::Worker { target } => (target as usize) < script.targets.len(),
        Actor::Thread { target, thread } => match script.targets.get(target as usize) {
            Some(found) => (thread as usize) < found.threads.len(),
            None => false,
        },
    }
}
