// When a script is sound.
ghost use Rattle.std.specs.Prelude.{◌≡◌, ◌&&◌, nat_eq};
ghost use Rattle.std.specs.List.{list_all, list_any};
ghost use Rattle.std.specs.Cmp.Lexicographic.{pointwise};
ghost use Rattle.sb_statements.specs.Soundness.{is_sound, is_patience, is_start, has_word, is_statement, is_thread, is_target, names_differ, are_targets};

use crate::limits::{
    LAST_PLACE, MAX_CHANNELS, MAX_PATIENCE, MAX_START_LINES, MAX_STATEMENTS, MAX_TARGETS,
    MAX_THREADS,
};
use crate::scripts::{Script, StartLine, TargetScript};
use crate::statements::{Statement, Statements, Word};
use sb_base::is_name;
use sb_block::encodes;
use sb_call::ShortName;

fn is_patience(count: u32) -> bool
    ensures { result ≡ is_patience count }
{
    count >= 1 && count <= MAX_PATIENCE
}

fn is_start(line: &StartLine) -> bool
    ensures { result ≡ is_start line.now }
{
    match line {
        StartLine::Dir { name } | StartLine::Key { name } => is_name(name.as_units()),
        StartLine::File { name, attributes } => {
            is_name(name.as_units()) && *attributes < 1 << 32
        }
        StartLine::Event {
            name,
            kind,
            initial,
        } => is_name(name.as_units()) && *kind <= 1 && *initial <= 1,
    }
}

fn are_starts(lines: &[StartLine]) -> bool
    ensures { result ≡ list_all is_start lines.now }
{
    lines.iter().all(is_start)
}

fn has_word(targets: &[TargetScript], target: u32, word: Word) -> bool
    ensures { result ≡ has_word targets.now target word }
{
    match targets.get(target as usize) {
        Some(target) => word.channel < target.channels && word.at <= LAST_PLACE,
        None => false,
    }
}

fn is_statement(targets: &[TargetScript], statement: &Statement) -> bool
    ensures { result ≡ is_statement targets.now statement.now }
{
    match statement {
        Statement::Call { tag, args } => encodes(*tag, args.as_slice()),
        Statement::Store { target, word, .. }
        | Statement::Exchange { target, word, .. }
        | Statement::Load { target, word } => has_word(targets, *target, *word),
        Statement::Wait {
            target,
            word,
            most,
            ..
        } => has_word(targets, *target, *word) && is_patience(*most),
    }
}

fn are_statements(targets: &[TargetScript], statements: &[Statement]) -> bool
    ensures { result ≡ list_all (is_statement targets.now) statements.now }
{
    statements
        .iter()
        .all(|statement| is_statement(targets, statement))
}

fn is_thread(targets: &[TargetScript], statements: &Statements) -> bool
    ensures { result ≡ is_thread targets.now statements.now }
{
    statements.len() <= MAX_STATEMENTS && are_statements(targets, statements.as_slice())
}

fn are_threads(targets: &[TargetScript], threads: &[Statements]) -> bool
    ensures { result ≡ list_all (is_thread targets.now) threads.now }
{
    threads
        .iter()
        .all(|statements| is_thread(targets, statements))
}

fn is_target(targets: &[TargetScript], target: &TargetScript) -> bool
    ensures { result ≡ is_target targets.now target.now }
{
    target.channels >= 1
        && target.channels <= MAX_CHANNELS
        && target.threads.len() <= MAX_THREADS
        && are_threads(targets, target.threads.as_slice())
}

fn has_name(targets: &[TargetScript], name: &ShortName) -> bool
    ensures { result ≡ list_any (λ other. pointwise nat_eq other.name name.now) targets.now }
{
    targets.iter().any(|other| other.name == *name)
}

fn names_differ(targets: &[TargetScript]) -> bool
    ensures { result ≡ names_differ targets.now }
{
    let mut rest = targets;
    while let Some((target, others)) = rest.split_first() {
        if has_name(others, &target.name) {
            return false;
        }
        rest = others;
    }
    true
}

fn each_is_target(targets: &[TargetScript]) -> bool
    ensures { result ≡ list_all (is_target targets.now) targets.now }
{
    targets.iter().all(|target| is_target(targets, target))
}

fn are_targets(targets: &[TargetScript]) -> bool
    ensures { result ≡ are_targets targets.now }
{
    targets.len() <= MAX_TARGETS && names_differ(targets) && each_is_target(targets)
}

/// Whether a script is sound. Does not allocate. A sound script has
/// - a patience from 1 to 1,000,000,
/// - at most 4,096 objects at the start, each with a name, attributes below 2^32, and a kind and an
///   initial state of 0 or 1,
/// - at most 8 targets with different names, 1 to 8 channels each and at most 4 threads,
/// - at most 4,096 statements in each thread: each call fits and has a block of at most 64 words,
///   each word named is there, and each wait makes from 1 to 1,000,000 loads.
pub fn sound(script: &Script) -> bool
    ensures { result ≡ is_sound script.now }
{
    let start = script.start.as_slice();
    is_patience(script.patience)
        && start.len() <= MAX_START_LINES
        && are_starts(start)
        && are_targets(script.targets.as_slice())
}
