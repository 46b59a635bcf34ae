// Works that no command does alone, done many times, so that their time can be taken.

use crate::inputs::read_inputs;
use crate::{crowding, judging, writing};
use sb_book::ReadyScript;
use sb_rows::{RowFault, number};
use std::alloc::Global;
use std::rt::Files;

/// What is told of a work, which is done in the rounds of `ROUNDS`, or of `ROUNDS | POLICY | SCRIPT` with the names of two files.
pub fn value_of<R: Files + AllocGlobal>(
    rt: &R,
    alloc: Global,
    name: &str,
    parts: &[&str],
) -> Result<String, RowFault> {
    match parts {
        [rounds] => work_alone(alloc, name, number(rounds)?),
        [rounds, policy, script] => {
            let rounds = number(rounds)?;
            let inputs = read_inputs(rt, alloc, policy, script)?;
            work_on(alloc, name, rounds, &inputs)
        }
        _ => Err(RowFault::Unknown),
    }
}

// A work that needs no policy and no script.
fn work_alone(alloc: Global, work: &str, rounds: u64) -> Result<String, RowFault> {
    match work {
        "crowd-add" => crowding::adds(alloc, rounds),
        "crowd-find" => crowding::finds(alloc, rounds),
        "crowd-rename" => crowding::renames(alloc, rounds),
        _ => Err(RowFault::Unknown),
    }
}

// A work on a policy and a script.
fn work_on(
    alloc: Global,
    work: &str,
    rounds: u64,
    inputs: &ReadyScript,
) -> Result<String, RowFault> {
    match work {
        "judge" => judging::verdicts_by_code(alloc, inputs, rounds),
        "judge-plain" => judging::verdicts_by_rules(alloc, inputs, rounds),
        "transcript" => writing::transcripts(alloc, inputs, rounds),
        _ => Err(RowFault::Unknown),
    }
}
