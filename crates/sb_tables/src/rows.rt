// The value of a row.

use crate::inputs::inputs_of;
use crate::{
    arenas, codes, crews, disks, explained, host, indexes, lines, messages, plays, policies, pools,
    scripts, stops, works,
};
use sb_book::ReadyScript;
use sb_rows::{RowFault, arguments, number};
use std::alloc::Global;
use std::rt::Files;
use std::sync::Wait;
use std::thread::Threads;

/// What the function of a row gives for its arguments. The function is the first word; the arguments follow, separated by bars.
pub fn value_of<R: Files + AllocGlobal + Threads + Wait + Sync>(
    rt: &R,
    alloc: Global,
    row: &str,
) -> Result<String, RowFault> {
    let (name, rest) = row.split_once(' ').unwrap_or((row, ""));
    let parts = arguments(alloc, rest)?;
    value_by(rt, alloc, name, parts.as_slice())
}

// What the function of this name gives for its arguments.
fn value_by<R: Files + AllocGlobal + Threads + Wait + Sync>(
    rt: &R,
    alloc: Global,
    name: &str,
    parts: &[&str],
) -> Result<String, RowFault> {
    match name {
        "HostFiles::read" => host::reads_of(rt, alloc, parts),
        "HostSink::put" => host::puts_of(alloc, parts),
        "Disk::read" => disks::read_of(alloc, parts),
        "messages" | "candidates" => plain_value(alloc, name, parts),
        "all_well_made" | "matches_plain" | "read_notes" | "verdict_plain" | "well_made" => {
            policies::value_of(alloc, name, parts)
        }
        "verify" | "verify_words" | "eval" => codes::value_of(alloc, name, parts),
        "sound" | "SoundScript::new" | "clean" => scripts::value_of(alloc, name, parts),
        "judge_text" | "why_text" => explained::value_of(alloc, name, parts),
        "arena" => arenas::told_steps(alloc, parts),
        "line" => lines::told_line(alloc, parts),
        "Pool::draw" | "Pool::close" => pools::value_of(rt, alloc, name, parts),
        "steps" | "stops" | "looks" | "threads" => script_value(rt, alloc, name, parts),
        "crowd-add" | "crowd-find" | "crowd-rename" | "judge" | "judge-plain" | "transcript" => {
            works::value_of(rt, alloc, name, parts)
        }
        _ => Err(RowFault::Unknown),
    }
}

// What a function gives that needs no more than its arguments.
fn plain_value(alloc: Global, name: &str, parts: &[&str]) -> Result<String, RowFault> {
    match parts {
        [text] => match name {
            "messages" => messages::messages(alloc, text),
            _ => Err(RowFault::Unknown),
        },
        [first, second, third] => match name {
            "candidates" => indexes::candidates(alloc, first, second, third),
            _ => Err(RowFault::Unknown),
        },
        _ => Err(RowFault::Unknown),
    }
}

// What a function gives whose first argument is a script.
fn script_value<R: Threads + Sync>(
    rt: &R,
    alloc: Global,
    name: &str,
    parts: &[&str],
) -> Result<String, RowFault> {
    let [script, second] = parts else {
        return Err(RowFault::Unknown);
    };
    let inputs = inputs_of(alloc, script)?;
    told_of(rt, alloc, name, &inputs, second)
}

// What is told of the actors of a script.
fn told_of<R: Threads + Sync>(
    rt: &R,
    alloc: Global,
    name: &str,
    inputs: &ReadyScript,
    second: &str,
) -> Result<String, RowFault> {
    match name {
        "steps" => plays::told_steps(alloc, inputs, second),
        "stops" => stops::told_stops(alloc, inputs, second),
        "looks" => plays::told_looks(alloc, inputs, number(second)?),
        "threads" => crews::told_threads(rt, alloc, inputs, second),
        _ => Err(RowFault::Unknown),
    }
}
