// The lines of the statements of a script.
ghost use Rattle.std.specs.Prelude.{◌≡◌, drop, slice_get, take};
ghost use Rattle.sb_actor.specs.Places.{threads_of};
ghost use Rattle.sb_explain.specs.LineNumbers.{after_targets, after_threads, line_of_statement};

use crate::marks::CallPlace;
use sb_book::ReadyScript;
use sb_statements::{Script, Statements, TargetScript};

/// A script that was read, and the lines of its statements in its text, in the order of the script: by target, thread and place.
#[derive(Clone, Copy)]
pub struct ScriptLines<'a> {
    /// The script, with its policies.
    pub ready: &'a ReadyScript,
    /// The number of the line of each statement, from 1.
    pub lines: &'a [u32],
}

// The lines after the given number of them.
fn after(lines: &[u32], count: usize) -> &[u32]
    ensures { result.now ≡ drop count lines.now }
{
    if count < lines.len() {
        &lines[count..]
    } else {
        &[]
    }
}

// The lines after those of the statements of these threads.
fn after_threads<'a>(threads: &[Statements], lines: &'a [u32]) -> &'a [u32]
    ensures { result.now ≡ after_threads threads.now lines.now }
{
    let mut threads = threads;
    let mut lines = lines;
    while let Some((statements, more)) = threads.split_first() {
        lines = after(lines, statements.len());
        threads = more;
    }
    lines
}

// The lines after those of the statements of these targets.
fn after_targets<'a>(targets: &[TargetScript], lines: &'a [u32]) -> &'a [u32]
    ensures { result.now ≡ after_targets targets.now lines.now }
{
    let mut targets = targets;
    let mut lines = lines;
    while let Some((target, more)) = targets.split_first() {
        lines = after_threads(&target.threads, lines);
        targets = more;
    }
    lines
}

// The first elements of a list, all if there are fewer.
fn front<T>(items: &[T], count: usize) -> &[T]
    ensures { result.now ≡ take count items.now }
{
    if count < items.len() {
        &items[..count]
    } else {
        items
    }
}

// The threads of a target, none if it is not there.
fn threads_of(script: &Script, target: u32) -> &[Statements]
    ensures { result.now ≡ threads_of (slice_get script.now.targets target) }
{
    match script.targets.as_slice().get(target as usize) {
        Some(target) => target.threads.as_slice(),
        None => &[],
    }
}

/// The line of a statement of a target, from 1, or 0 if there is none.
pub(crate) fn line_of_statement(script: &Script, lines: &[u32], target: u32, call: CallPlace) -> u32
    ensures { result ≡ line_of_statement script.now lines.now target call }
{
    let lines = after_targets(front(script.targets.as_slice(), target as usize), lines);
    let lines = after_threads(
        front(threads_of(script, target), call.thread as usize),
        lines,
    );
    match lines.get(call.place as usize) {
        Some(line) => *line,
        None => 0,
    }
}
