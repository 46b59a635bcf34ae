// The command `make`: a script is made from a seed and run on threads under a fixed policy, and what was made and its totals are put.
ghost use Rattle.std.specs.Prelude.{◌≡◌, ◌≤◌, ◌<◌, ◌^◌, ◌++◌, IfOk};
ghost use Rattle.sb_book.specs.Reports.{result_count};
ghost use Rattle.sb_outside.specs.Outside.{joined};
ghost use Rattle.sb_transcript.specs.Totals.{totals_line};
ghost use Rattle.sb_top.specs.Make.{IsMadeEnd, IsMadeReport, made_line, made_text};

use crate::laws::{runs_are_sound, totals_are_of_verdicts};
use crate::threads::run_judged;
use sb_base::{Items, NoMemory};
use sb_book::{Report, RunStart};
use sb_gen::make;
use sb_outside::{Bytes, Gate};
use sb_plain::{CommandEnd, two_texts};
use sb_transcript::totals;
use std::alloc::Global;
use std::sync::Wait;
use std::thread::Threads;

/// How many workers serve a generated script.
const WORKERS: u32 = 2;

// `made targets A threads B calls C`, with its LF.
fn made_line(alloc: Global, targets: u32, calls: u32) -> Result<Vec<u8>, NoMemory>
    requires targets { targets ≤ 8 }
    requires calls { calls ≤ 4096 }
    ensures { IfOk result (λ line. line.items ≡ made_line targets calls) }
{
    let threads = targets * 2;
    let all = threads * calls;
    let line = format!(in alloc; "made targets {targets} threads {threads} calls {all}\n")?;
    Ok(line.into_bytes())
}

// The two lines: what was made, and the totals of the report.
fn made_texts(
    alloc: Global,
    targets: u32,
    calls: u32,
    report: &Report,
) -> Result<Items<Bytes>, NoMemory>
    requires targets { targets ≤ 8 }
    requires calls { calls ≤ 4096 }
    requires few { result_count report.now.results < 2 ^ 62 }
    ensures { IfOk result (λ texts. joined texts ≡ made_line targets calls ++ totals_line report.now) }
{
    two_texts(
        alloc,
        made_line(alloc, targets, calls)?,
        totals(alloc, report)?,
    )
}

// The report of a run of the script that is made from a seed.
fn run_made<R: Threads + Wait + Sync, G: Gate>(
    rt: &R,
    alloc: Global,
    seed: u64,
    targets: u32,
    calls: u32,
    gate: &G,
) -> Result<Report, NoMemory>
    requires targets { (1 ≤ targets) × (targets ≤ 8) }
    requires calls { (1 ≤ calls) × (calls ≤ 4096) }
    ensures report { IfOk result (λ r. IsMadeReport seed targets calls r) }
    ensures few { IfOk result (λ r. result_count r.results < 2 ^ 62) }
    ensures totals { IfOk result (λ r. made_line targets calls ++ totals_line r ≡ made_text seed targets calls) }
{
    runs_are_sound();
    totals_are_of_verdicts();
    let (ready, kernel) = make(alloc, seed, targets, calls)?.into_parts();
    ready.establish_ready();
    run_judged(rt, alloc, RunStart::of(&ready, kernel), WORKERS, gate)
}

/// Makes a script from a seed, with 1 to 8 targets and 1 to 4,096 calls a thread, and runs it on threads with two workers under a fixed policy.
/// Two lines are to be put, what was made and the totals of the run. They are the same at each run of the same three numbers. It reads no file. It
/// waits for the threads of the run, and for the gate.
///
/// # Errors
/// `NoMemory` if there was none for the script, the run or the lines.
pub fn make_script<R: Threads + Wait + Sync, G: Gate>(
    rt: &R,
    alloc: Global,
    seed: u64,
    targets: u32,
    calls: u32,
    gate: &G,
) -> Result<CommandEnd, NoMemory>
    requires targets { (1 ≤ targets) × (targets ≤ 8) }
    requires calls { (1 ≤ calls) × (calls ≤ 4096) }
    ensures { IfOk result (IsMadeEnd seed targets calls) }
{
    let report = run_made(rt, alloc, seed, targets, calls, gate)?;
    let texts = made_texts(alloc, targets, calls, &report)?;
    Ok(CommandEnd::with_report(texts, report))
}
