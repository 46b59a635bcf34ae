// The command `run`: a script that was read is run on threads, and its transcript is put line by line.
ghost use Rattle.std.specs.Prelude.{◌≤◌, IfOk};
ghost use Rattle.sb_top.specs.Run.{IsThreadsEnd};

use crate::threads::run_judged;
use sb_base::NoMemory;
use sb_book::{OpenedScript, RunStart};
use sb_core::Ran;
use sb_outside::Gate;
use sb_plain::{CommandEnd, end_of_run};
use std::alloc::Global;
use std::sync::Wait;
use std::thread::Threads;

/// Runs a script that was read, on threads by 1 to 8 workers. It waits for the threads of the run, and for the gate.
///
/// # Errors
/// `NoMemory` if there was none for the run or its transcript.
pub fn run_script<R: Threads + Wait + Sync, G: Gate>(
    rt: &R,
    alloc: Global,
    opened: OpenedScript,
    workers: u32,
    gate: &G,
) -> Result<CommandEnd, NoMemory>
    requires workers { (1 ≤ workers) × (workers ≤ 8) }
    ensures { IfOk result (IsThreadsEnd opened.policies opened.script) }
{
    let (ready, kernel) = opened.into_parts();
    let report = run_judged(rt, alloc, RunStart::of(&ready, kernel), workers, gate)?;
    let ran = Ran {
        report,
        unfinished: None,
    };
    end_of_run(alloc, ready.script(), ran)
}
