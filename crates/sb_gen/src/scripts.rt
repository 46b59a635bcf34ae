// The generated script.
ghost use Rattle.std.specs.Prelude.{◌≡◌, ◌<◌, ◌≤◌, ◌∷◌, ◌++◌, [], IfOk, OnOk};
ghost use Rattle.sb_gen.specs.Generator.{after};
ghost use Rattle.sb_statements.specs.Limits.{most_targets};
ghost use Rattle.sb_gen.specs.Calls.{statements_of};
ghost use Rattle.sb_gen.specs.Scripts.{directories_of, start_of, name_of, threads_of, target_of, targets_of, script_of};

use crate::calls::statement;
use crate::generator::Generator;
use crate::names::{ascii, directory};
use sb_base::NoMemory;
use sb_call::ShortName;
use sb_statements::{Script, StartLine, StartLines, Statements, TargetScript, Targets, Threads};
use std::alloc::Global;

// How many loads or rounds a call waits.
const PATIENCE: u32 = 10_000;

// The next statements of a target's thread.
fn statements(
    alloc: Global,
    target: u32,
    calls: u32,
    generator: &mut Generator,
) -> Result<Statements, NoMemory>
    ensures made { IfOk result (λ made. made ≡ statements_of target calls generator.old) }
    ensures after { OnOk result (generator.new ≡ after calls generator.old) }
{
    let mut statements = Vec::with_capacity(alloc, calls as usize)?;
    let mut left = calls;
    while left > 0 {
        generator.advance();
        statements.push(statement(alloc, target, generator)?)?;
        left -= 1;
    }
    Ok(Statements::new(statements))
}

// The two threads of a target.
fn threads(
    alloc: Global,
    target: u32,
    calls: u32,
    generator: &mut Generator,
) -> Result<Threads, NoMemory>
    ensures made { IfOk result (λ made. made ≡ threads_of target calls generator.old) }
    ensures after { OnOk result (generator.new ≡ after calls (after calls generator.old)) }
{
    let mut threads = Vec::with_capacity(alloc, 2)?;
    threads.push(statements(alloc, target, calls, generator)?)?;
    threads.push(statements(alloc, target, calls, generator)?)?;
    Ok(Threads::new(threads))
}

// The name of a target.
#[tactic(auto, using(crate::proofs::TargetNames::name_is_made, crate::proofs::TargetNames::name_is_short))]
fn name_of(target: u32) -> ShortName
    requires { target < most_targets }
    ensures { result ≡ name_of target }
{
    match ShortName::new(&[b'm', b'0' + target as u8]) {
        Some(name) => name,
        None => unreachable!(),
    }
}

// A target with its two channels and its threads.
fn target_of(
    alloc: Global,
    target: u32,
    calls: u32,
    generator: &mut Generator,
) -> Result<TargetScript, NoMemory>
    requires { target < most_targets }
    ensures made { IfOk result (λ made. made ≡ target_of target calls generator.old) }
    ensures after { OnOk result (generator.new ≡ after calls (after calls generator.old)) }
{
    let threads = threads(alloc, target, calls, generator)?;
    Ok(TargetScript {
        name: name_of(target),
        policy: 0,
        channels: 2,
        threads,
    })
}

// The targets.
fn targets(
    alloc: Global,
    count: u32,
    calls: u32,
    generator: &mut Generator,
) -> Result<Targets, NoMemory>
    requires { count ≤ most_targets }
    ensures { IfOk result (λ made. made ≡ targets_of 0 count calls generator.old) }
{
    let mut targets = Vec::with_capacity(alloc, count as usize)?;
    for target in 0..count {
        targets.push(target_of(alloc, target, calls, generator)?)?;
    }
    Ok(Targets::new(targets))
}

// What is there at the start.
fn start(alloc: Global, count: u32) -> Result<StartLines, NoMemory>
    requires { count ≤ most_targets }
    ensures { IfOk result (λ start. start ≡ start_of count) }
{
    let mut start = Vec::with_capacity(alloc, count as usize + 1)?;
    start.push(StartLine::Dir {
        name: ascii(alloc, b"\\make")?,
    })?;
    for target in 0..count {
        start.push(StartLine::Dir {
            name: directory(alloc, target)?,
        })?;
    }
    Ok(StartLines::new(start))
}

// The script with this number of targets, and of statements in each thread.
pub(crate) fn script(alloc: Global, seed: u64, count: u32, calls: u32) -> Result<Script, NoMemory>
    requires { count ≤ most_targets }
    ensures { IfOk result (λ script. script ≡ script_of seed count calls) }
{
    let mut generator = Generator::new(seed);
    Ok(Script {
        patience: PATIENCE,
        start: start(alloc, count)?,
        targets: targets(alloc, count, calls, &mut generator)?,
    })
}
