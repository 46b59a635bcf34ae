// What is promised of a thread that is started, by which it is known what its join returns.

use crate::returns::{ServerReturn, ThreadReturn};
use crate::works::Server;
use sb_shared::ThreadSeat;
use std::snapshot::Snapshot;
use std::thread::{Promise, PromisedHandle};

/// The thread returns what running the thread of this seat may return.
#[derive(Drop)]
pub(crate) struct ThreadPromise {
    pub(crate) seat: Snapshot<ThreadSeat>,
}

impl Promise<ThreadReturn> for ThreadPromise {
    ghost use Rattle.sb_run.specs.Returns.{IsThreadReturn};

    ghost kept_by = { λ p r. IsThreadReturn p.seat.value r };
}

/// The thread returns with this seat of the pool.
#[derive(Drop)]
pub(crate) struct ServerPromise {
    pub(crate) server: Snapshot<Server>,
}

impl Promise<ServerReturn> for ServerPromise {
    ghost use Rattle.sb_run.specs.Returns.{IsServerReturn};

    ghost kept_by = { λ p r. IsServerReturn p.server.value r };
}

/// Who makes the steps of a thread of the script.
#[derive(Drop)]
pub(crate) enum ThreadHost {
    /// A thread of the scope.
    Thread(PromisedHandle<ThreadReturn, ThreadPromise>),
    /// The caller.
    Caller(ThreadSeat),
}

/// Who serves targets with a seat of the pool.
#[derive(Drop)]
pub(crate) enum ServerHost {
    /// A thread of the scope.
    Thread(PromisedHandle<ServerReturn, ServerPromise>),
    /// The caller.
    Caller(Server),
    /// Nobody: memory ran out.
    Stopped,
}
