// The top calls.
ghost use Rattle.std.specs.Prelude.{◌≡◌, ◌≤◌, ◌<◌, ◌^◌, [], IfErr, IfOk, IsOk, OnErr, Ok, is_err, map};
ghost use Rattle.sb_commands.specs.Commands.{HasNumbers, command_of, files_of, needs_threads, threaded};
ghost use Rattle.sb_commands.specs.Usage.{texts};
ghost use Rattle.sb_commands.specs.Values.{values_of};
ghost use Rattle.sb_outside.specs.Outside.{Rose};
ghost use Rattle.sb_plain.specs.Effects.{IsOrderly, effect};
ghost use Rattle.sb_plain.specs.Endings.{IsEnding};
ghost use Rattle.sb_plain.specs.Ends.{OnThreads};
ghost use Rattle.sb_plain.specs.Readings.{IsFound, IsFoundBy, KeepsFiles, end_or_refusal, reported};
ghost use Rattle.sb_top.specs.Top.{EndsAsMeant, HasFiles, HasThreadedFiles, files_for, meaning_of, plain_meaning, threaded_meaning};

use crate::make::make_script;
use crate::run::run_script;
use sb_base::NoMemory;
use sb_commands::{
    CommandValues, CommandWords, PlainWork, ThreadedWords, ThreadedWork, Work, command_of,
    number_of,
};
use sb_message::{Refusal, Status};
use sb_outside::{Files, Gate, Sink};
use sb_plain::{
    CommandEnd, LinksFile, MovesFile, NoFile, Outcome, Refused, ScheduleFile, TranscriptFile,
    audit_text, check_policy, dup_script, linked_script, local_script, only_text, read_script,
    replay_script,
};
use std::alloc::Global;
use std::sync::Wait;
use std::thread::Threads;

// An end that was made, or that there was no memory for it.
fn end_or_refusal(made: Result<CommandEnd, NoMemory>) -> Result<CommandEnd, Refused>
    ensures { result ≡ end_or_refusal made }
{
    match made {
        Ok(end) => Ok(end),
        Err(error) => Err(Refused::from(error)),
    }
}

// What a command comes to that runs without threads, by the names of its files.
fn carry_out<F: Files>(
    alloc: Global,
    work: PlainWork,
    names: &[&str],
    files: &mut F,
) -> Result<CommandEnd, Refused>
    requires { HasFiles work (map (λ name. name.now) names.now) }
    ensures files { KeepsFiles F.held F.faults files.old files.new result }
    ensures found { IsFound reported 1 (plain_meaning work) (map (λ name. name.now) names.now) (F.held files.old) result }
{
    match work {
        PlainWork::Check => {
            let text = only_text(alloc, files, names)?;
            check_policy(alloc, text)
        }
        PlainWork::Replay => {
            let (opened, schedule) = read_script(alloc, files, names, &ScheduleFile)?;
            end_or_refusal(replay_script(alloc, opened, &schedule))
        }
        PlainWork::Linked => {
            let (opened, links) = read_script(alloc, files, names, &LinksFile)?;
            end_or_refusal(linked_script(alloc, opened, links))
        }
        PlainWork::Dup => {
            let (opened, moves) = read_script(alloc, files, names, &MovesFile)?;
            end_or_refusal(dup_script(alloc, opened, &moves))
        }
        PlainWork::Local => {
            let (opened, schedule) = read_script(alloc, files, names, &ScheduleFile)?;
            end_or_refusal(local_script(alloc, opened, &schedule))
        }
        PlainWork::Audit => {
            let (opened, text) = read_script(alloc, files, names, &TranscriptFile)?;
            audit_text(alloc, opened, text)
        }
    }
}

// A number below 2^32 in 32 bits.
fn small(number: u64) -> u32
    requires { number < 2 ^ 32 }
    ensures { result ≡ number }
{
    number as u32
}

// What a command comes to that runs on threads, by the names of its files and its numbers.
fn carry_out_on_threads<R: Threads + Wait + Sync, F: Files, G: Gate>(
    rt: &R,
    alloc: Global,
    work: ThreadedWork,
    names: &[&str],
    values: CommandValues<'_>,
    files: &mut F,
    gate: &G,
) -> Result<CommandEnd, Refused>
    requires numbers { HasNumbers (threaded work (values_of values)) }
    requires files { HasThreadedFiles work (map (λ name. name.now) names.now) }
    ensures files { KeepsFiles F.held F.faults files.old files.new result }
    ensures found { IsFoundBy (OnThreads (threaded_meaning work (values_of values.entry))) (map (λ name. name.now) names.now) (F.held files.old) result }
    ensures unread { names.now ≡ [] → files.new ≡ files.old }
{
    match work {
        ThreadedWork::Run => {
            let (opened, ()) = read_script(alloc, files, names, &NoFile)?;
            let workers = small(values.first_option.unwrap_or(0));
            end_or_refusal(run_script(rt, alloc, opened, workers, gate))
        }
        ThreadedWork::Make => {
            let targets = small(number_of(values.second));
            let calls = small(number_of(values.third));
            let seed = number_of(values.first);
            end_or_refusal(make_script(rt, alloc, seed, targets, calls, gate))
        }
    }
}

// Carries out a command that runs without threads, and puts what it comes to.
fn plain_outcome<'a, F: Files, K: Sink>(
    alloc: Global,
    work: PlainWork,
    command: &CommandWords<'a>,
    files: &mut F,
    out: &mut K,
) -> Outcome<'a>
    requires { command.now.work ≡ Work.Plain work }
    ensures ends { IsEnding (meaning_of command.now) (files_of command.now)
        (effect F.held F.faults K.written K.pending K.faults files.old files.new out.old out.new) result }
    ensures orderly { IsOrderly (files_of command.now)
        (effect F.held F.faults K.written K.pending K.faults files.old files.new out.old out.new) result }
{
    let values = match command.values(alloc) {
        Ok(values) => values,
        Err(NoMemory) => return Outcome::bare(Status::Refused(Refusal::NoMemory)),
    };
    let names = command.files(values);
    match carry_out(alloc, work, names.as_slice(), files) {
        Ok(end) => end.put(names, out),
        Err(refused) => refused.into_outcome(names),
    }
}

/// Carries out a command that runs on threads, and puts what it comes to. It waits for them. A call that a worker judges passes the gate, which no clause says.
pub fn threads_top<'a, R: Threads + Wait + Sync, F: Files, K: Sink, G: Gate>(
    rt: &R,
    alloc: Global,
    command: &ThreadedWords<'a>,
    files: &mut F,
    out: &mut K,
    gate: &G,
) -> Outcome<'a>
    ensures ends { IsEnding (meaning_of command.now) (files_of command.now)
        (effect F.held F.faults K.written K.pending K.faults files.old files.new out.old out.new) result }
    ensures orderly { IsOrderly (files_of command.now)
        (effect F.held F.faults K.written K.pending K.faults files.old files.new out.old out.new) result }
{
    let values = match command.values(alloc) {
        Ok(values) => values,
        Err(NoMemory) => return Outcome::bare(Status::Refused(Refusal::NoMemory)),
    };
    let names = command.files(values);
    let work = command.work();
    match carry_out_on_threads(rt, alloc, work, names.as_slice(), values, files, gate) {
        Ok(end) => end.put(names, out),
        Err(refused) => refused.into_outcome(names),
    }
}

/// All that the program does without threads, over any files and any output: reads the arguments, and carries out the command that they are. A command
/// that runs on threads is handed back, and then nothing was read, and nothing was put. It waits for nobody.
///
/// # Errors
/// The command, if and only if it runs on threads.
pub fn plain_top<'a, F: Files, K: Sink>(
    alloc: Global,
    words: &'a [String],
    files: &mut F,
    out: &mut K,
) -> Result<Outcome<'a>, ThreadedWords<'a>>
    // There is no outcome exactly if the arguments are a command that runs on threads, and then this command is handed back.
    ensures answered { is_err result ≡ needs_threads (command_of (texts words.now)) }
    ensures handed { IfErr result (λ command. command_of (texts words.now) ≡ Ok command) }
    ensures unread { OnErr result (files.new ≡ files.old) }
    ensures unwritten { OnErr result (out.new ≡ out.old) }

    // The command ends as it means over the contents of its files: with the status, the report, the line that is shown and the text that are given by
    // its meaning; or a file of it that was reached was not read, or the output failed where a text was due, or there was no memory. Arguments
    // that are no command end with Usage and their fault.
    ensures ends { IfOk result (EndsAsMeant (command_of (texts words.now))
        (effect F.held F.faults K.written K.pending K.faults files.old files.new out.old out.new)) }

    // What the files hold stays, no count of faults falls, a command without files reads nothing, nothing is put except with Done and
    // WriteFault, and with Done nothing is pending.
    ensures orderly { IfOk result (IsOrderly (files_for (command_of (texts words.now)))
        (effect F.held F.faults K.written K.pending K.faults files.old files.new out.old out.new)) }
{
    match command_of(words) {
        Ok(command) => match command.work() {
            Work::Plain(work) => Ok(plain_outcome(alloc, work, &command, files, out)),
            Work::Threaded(work) => Err(ThreadedWords::new(work, command)),
        },
        Err(fault) => Ok(Outcome::bare(Status::Refused(Refusal::Usage(fault)))),
    }
}

/// All that the program does, over any files and any output: reads the arguments, and carries out the command that they are, without threads or on
/// them.
pub fn broker_top<'a, R: Threads + Wait + Sync, F: Files, K: Sink, G: Gate>(
    rt: &R,
    alloc: Global,
    words: &'a [String],
    files: &mut F,
    out: &mut K,
    gate: &G,
) -> Outcome<'a>
    // The command ends as it means over the contents of its files: with the status, the report, the line that is shown and the text that are given by
    // its meaning; or a file of it that was reached was not read, or the output failed where a text was due, or there was no memory. A command
    // that runs on threads has such an end for some order of steps that leaves no thread unfinished. Arguments that are no command end with Usage
    // and their fault.
    ensures ends { EndsAsMeant (command_of (texts words.now))
        (effect F.held F.faults K.written K.pending K.faults files.old files.new out.old out.new) result }

    // What the files hold stays, no count of faults falls, a command without files reads nothing, nothing is put except with Done and
    // WriteFault, and with Done nothing is pending.
    ensures orderly { IsOrderly (files_for (command_of (texts words.now)))
        (effect F.held F.faults K.written K.pending K.faults files.old files.new out.old out.new) result }
{
    match plain_top(alloc, words, files, out) {
        Ok(outcome) => outcome,
        Err(command) => threads_top(rt, alloc, &command, files, out, gate),
    }
}
