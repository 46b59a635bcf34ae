// What a thread gives back to the one that started it.

use crate::works::Server;
use sb_shared::ThreadSeat;

/// What a thread gives back that runs a thread of the script.
#[derive(Drop)]
pub(crate) enum ThreadReturn {
    /// Each statement has ended.
    Ended(ThreadSeat),
    /// The thread could not be started, and has made no step.
    Back(ThreadSeat),
    /// Memory ran out, here or elsewhere.
    Stopped,
}

/// What a thread gives back that serves targets.
#[derive(Drop)]
pub(crate) enum ServerReturn {
    /// It served until the stop word was set.
    Ended(Server),
    /// The thread could not be started, and has served nothing.
    Back(Server),
    /// Memory ran out.
    Stopped,
}
