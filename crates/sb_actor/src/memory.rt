// What actors make their steps on.
ghost use Rattle.std.specs.Prelude.{◌≡◌};
ghost use Rattle.sb_actor.specs.Acts.{observation};

use crate::acts::{Act, Observed};

/// The memory that actors share.
pub trait Memory {
    ghost use Rattle.sb_actor.specs.declared.acts.Act.{Act};
    ghost use Rattle.sb_actor.specs.Observations.{Observation};

    // Whether a step may be made there.
    ghost allows: { Self → Act → Type 0 };

    // What a step finds.
    ghost finds: { Self → Act → Observation };

    // And what it leaves.
    ghost leaves: { Self → Act → Self };

    /// Makes one step, and returns what it found. At Answer that is not the reply.
    fn access(&mut self, act: Act) -> Observed
        requires allowed { allows self.old act }
        ensures seen { observation result ≡ finds self.old act }
        ensures left { self.new ≡ leaves self.old act };
}

// A step that was made elsewhere, and found this.
impl Memory for Observed {
    ghost use Rattle.std.specs.Prelude.{◌≡◌, true};
    ghost use Rattle.sb_actor.specs.Acts.{observation};

    ghost allows = { λ o a. true ≡ true };

    ghost finds = { λ o a. observation o };

    ghost leaves = { λ o a. o };

    fn access(&mut self, _act: Act) -> Observed {
        *self
    }
}
