// A namespace of the product's own, in which calls are performed.
ghost use Rattle.std.specs.Prelude.{◌≡◌, ◌<◌, Some};
ghost use Rattle.sb_host.specs.HostWorkers.{after_performing, space_after_performing};
ghost use Rattle.sb_c.specs.Contents.{space_in, worker_in};
ghost use Rattle.sb_c.specs.Handles.{content};
ghost use Rattle.sb_c.specs.Spaces.{IsNewSpace, IsPerformed, after_performing_in, space_after_performing_by, with_space};
ghost use Rattle.sb_c.specs.Statuses.{status_number, status_of};
ghost use Rattle.sb_c.specs.Workers.{with_worker};

use crate::handles::Handle;
use crate::helds::Held;
use crate::statuses::Status;
use sb_base::NoMemory;
use sb_host::HostWorker;
use sb_kernel::Kernel;
use std::alloc::Global;

/// Puts a namespace in which nothing is made, and nothing granted, into an empty handle. A bad call exactly if the handle holds something.
#[unsafe(no_mangle)]
pub extern "C" fn sb_space_new(alloc: Global, space: &mut Handle) -> u32
    ensures status { IsNewSpace (content space.old) (content space.new) (status_of result) }
    ensures same { 0 < result → content space.new ≡ content space.old }
{
    if space.holds() {
        return Status::BadCall.number();
    }
    match Box::new(alloc, Held::Space(Kernel::new(alloc))) {
        Ok(held) => {
            space.put(held);
            Status::Ok.number()
        }
        Err(_) => Status::NoMemory.number(),
    }
}

// Performs what is decided of the copy of a worker, and goes on by the reply.
#[tactic(auto, using(crate::proofs::Performing::not_performed, crate::proofs::Performing::space_kept))]
fn perform(host: &mut HostWorker, kernel: &mut Kernel, target: u32) -> Status
    ensures status { IsPerformed (Some host.old) (Some kernel.old) target (Some result) }
    ensures host { status_number result ≡ 0 → host.new ≡ after_performing host.old kernel.old target }
    ensures space { status_number result ≡ 0 → kernel.new ≡ space_after_performing host.old kernel.old target }
    ensures same { 0 < status_number result → (host.new ≡ host.old) × (kernel.new ≡ kernel.old) }
{
    match host.perform(kernel, target) {
        Ok(true) => Status::Ok,
        Ok(false) => Status::BadCall,
        Err(NoMemory) => Status::NoMemory,
    }
}

/// Performs what is decided of the copy of a worker in a namespace, for the target with this number, and goes on from the answer by its reply. A bad call
/// exactly if there is no worker with a copy to answer that is decided, or no namespace.
#[unsafe(no_mangle)]
#[tactic(auto, using(crate::proofs::Performing::performed_as))]
pub extern "C" fn sb_worker_perform(
    alloc: Global,
    worker: &mut Handle,
    space: &mut Handle,
    target: u32,
) -> u32
    ensures status { IsPerformed (worker_in (content worker.old)) (space_in (content space.old)) target (status_of result) }
    ensures worker { result ≡ 0 → content worker.new ≡ with_worker (after_performing_in (space_in (content space.old)) target) (content worker.old) }
    ensures space { result ≡ 0 → content space.new ≡ with_space (space_after_performing_by (worker_in (content worker.old)) target) (content space.old) }
    ensures same { 0 < result → (content worker.new ≡ content worker.old) × (content space.new ≡ content space.old) }
{
    let Some(mut held) = worker.take(alloc) else {
        return Status::BadCall.number();
    };
    let Some(mut room) = space.take(alloc) else {
        worker.put(held);
        return Status::BadCall.number();
    };
    let status = match (&mut *held, &mut *room) {
        (Held::Worker(host), Held::Space(kernel)) => perform(host, kernel, target),
        _ => Status::BadCall,
    };
    worker.put(held);
    space.put(room);
    status.number()
}
