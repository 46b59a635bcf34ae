// The call that a mark belongs to.
ghost use Rattle.std.specs.Prelude.{◌≡◌};
ghost use Rattle.sb_explain.specs.Marks.{call_of_mark};

use sb_actor::statement_at;
use sb_statements::{SoundScript, Statement};

/// A call of a target: its thread, and its place in the thread, both numbered from 0.
#[derive(Clone, Copy, PartialEq)]
pub struct CallPlace {
    /// The thread.
    pub thread: u64,
    /// The place of the statement in the thread.
    pub place: u64,
}

/// The call of a target that has this mark, if one has: the mark is `(thread + 1) * 65536 + place`.
pub fn call_of_mark(script: &SoundScript, target: u32, mark: u64) -> Option<CallPlace>
    ensures { result ≡ call_of_mark script.now target mark }
{
    let thread = (mark / 65536).checked_sub(1)?;
    let place = mark % 65536;
    match statement_at(script, target, thread as usize, place as usize) {
        Some(Statement::Call { .. }) => Some(CallPlace { thread, place }),
        _ => None,
    }
}
