// What a handle may hold.
ghost use Rattle.std.specs.Prelude.{◌≡◌, option_map};
ghost use Rattle.sb_c.specs.Contents.{set_of, worker_of};

use sb_host::{HostWorker, PolicySet};
use sb_kernel::Kernel;

/// What a handle may hold.
#[derive(Drop)]
pub(crate) enum Held {
    /// Policies with their programs.
    Policies(PolicySet),
    /// The worker of a target.
    Worker(HostWorker),
    /// A namespace in which calls are performed.
    Space(Kernel),
}

impl Held {
    /// The policies, if policies are there.
    pub(crate) fn policies(&self) -> Option<&PolicySet>
        ensures { option_map (λ set. set.now) result ≡ set_of self.now }
    {
        match self {
            Held::Policies(set) => Some(set),
            Held::Worker(_) | Held::Space(_) => None,
        }
    }

    /// The worker, if a worker is there.
    pub(crate) fn worker(&self) -> Option<&HostWorker>
        ensures { option_map (λ host. host.now) result ≡ worker_of self.now }
    {
        match self {
            Held::Worker(host) => Some(host),
            Held::Policies(_) | Held::Space(_) => None,
        }
    }
}
