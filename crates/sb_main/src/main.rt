// The program: the arguments of its command line, real files and standard output, and how it ends.
#![tactic(auto)]

mod arguments;
mod complaints;

ghost use Rattle.std.specs.Prelude.{◌≡◌, None, Err, [], IfErr, IfOk, IfSome, IsSome, if◌then◌else◌};
ghost use Rattle.sb_outside.specs.Outside.{Rose};
ghost use Rattle.sb_commands.specs.Commands.{command_of};
ghost use Rattle.sb_commands.specs.Inquiries.{answer_text, asked, asked_of};
ghost use Rattle.sb_commands.specs.Usage.{fault_of, texts};
ghost use Rattle.sb_commands.specs.declared.usage_faults.UsageFault.{UsageFault};
ghost use Rattle.sb_plain.specs.Effects.{effect};
ghost use Rattle.sb_message.specs.Statuses.{code_of};
ghost use Rattle.sb_main.specs.Answers.{IsAnswer, IsTold};
ghost use Rattle.sb_main.specs.Faulty.{IsFaulty};
ghost use Rattle.sb_main.specs.Program.{IsComplaint, IsUnanswered, IsSettled, bare, output};

use crate::arguments::given_arguments;
use crate::complaints::complain;
use sb_base::NoMemory;
use sb_commands::{Inquiry, inquiry_of, inquiry_text};
use sb_message::{Refusal, Status};
use sb_outside::{
    Files, HostDisk, HostFiles, HostOutput, HostSink, OpenGate, PIECE, Sink, put_text,
};
use sb_plain::Outcome;
use sb_top::{plain_top, statuses_are_of_commands, threads_top};
use std::alloc::Global;
use std::io::{self, IsTerminal, Write};
use std::process::ExitCode;
use std::sync::Wait;
use std::thread::Threads;

fn main(rt: HostRuntime) -> ExitCode {
    let arguments = given_arguments(&rt);
    let mut files = HostFiles::new(HostDisk::new(&rt));
    let piece = piece_for(rt.stdout().is_terminal());
    let mut out = stream(rt.alloc(), io::writer(&rt), piece);
    let mut errors = stream(rt.alloc(), rt.stderr(), 0);
    ExitCode::from(run(&rt, arguments, &mut files, &mut out, &mut errors))
}

// How many bytes a piece of the output has: none to a terminal, where each put is written at once.
fn piece_for(is_terminal: bool) -> usize
    ensures { result ≡ if is_terminal then 0 else 65536 }
{
    if is_terminal { 0 } else { PIECE }
}

// A stream of the system as an output, which holds back less than a piece. There need be no memory for a piece: without it all is written at once.
fn stream<W: Write + Drop>(alloc: Global, writer: W, piece: usize) -> HostSink<HostOutput<W>>
    ensures writer { result.writer.writer ≡ writer }
    ensures piece { result.piece ≡ piece }
    ensures empty { result.pending.items ≡ [] }
    ensures faults { result.faults ≡ 0 }
{
    HostSink {
        writer: HostOutput { writer },
        pending: Vec::new(alloc),
        piece,
        faults: 0,
    }
}

// All that the program does with the arguments after its name, over any files and any two outputs: does what they ask, tells on the second output what went wrong, and
// returns the exit code.
fn run<R: AllocGlobal + Threads + Wait + Sync, F: Files, K: Sink, E: Sink>(
    rt: &R,
    arguments: Result<Vec<String>, Refusal>,
    files: &mut F,
    out: &mut K,
    errors: &mut E,
) -> u8
    // What the arguments ask is done once; the message of its outcome is told once; and the exit code is that of its status.
    ensures settled { IfOk arguments (λ all. IsSettled (texts all.items)
        (effect F.held F.faults K.written K.pending K.faults files.old files.new out.old out.new)
        (output E.written E.pending E.faults errors.old) (output E.written E.pending E.faults errors.new) result) }

    // If there are none, why is told once, the exit code is that of it, and nothing else is done.
    ensures refused { IfErr arguments (λ refusal. IsUnanswered (Status.Refused refusal)
        (effect F.held F.faults K.written K.pending K.faults files.old files.new out.old out.new)
        (output E.written E.pending E.faults errors.old) (output E.written E.pending E.faults errors.new) result) }
{
    let words = match &arguments {
        Ok(words) => words,
        Err(refusal) => return refuse(rt.alloc(), Status::Refused(*refusal), errors),
    };
    let outcome = answer(rt, words, files, out);
    complain(rt.alloc(), words, &outcome, errors);
    outcome.status.exit_code()
}

// Tells why there are no arguments: the exit code.
fn refuse<E: Sink>(alloc: Global, status: Status, errors: &mut E) -> u8
    ensures told { IsComplaint [] (bare status) (output E.written E.pending E.faults errors.old) (output E.written E.pending E.faults errors.new) }
    ensures code { result ≡ code_of status }
{
    complain(alloc, &[], &Outcome::bare(status), errors);
    status.exit_code()
}

// Answers what is asked of the program itself, and carries out the command that all other arguments are, with the meaning of `broker_top`, over any files and any
// output. It can wait only after the call that cannot wait has handed back a command that runs on threads. It ends with Usage only if the arguments are no command,
// and with their fault.
fn answer<'a, R: AllocGlobal + Threads + Wait + Sync, F: Files, K: Sink>(
    rt: &R,
    words: &'a [String],
    files: &mut F,
    out: &mut K,
) -> Outcome<'a>
    ensures usage { (fault : UsageFault) → result.status ≡ Status.Refused (Refusal.Usage fault) → IsFaulty (fault_of fault) (texts words.now) }
    ensures command { asked_of (texts words.now) ≡ None → IsAnswer (command_of (texts words.now))
        (effect F.held F.faults K.written K.pending K.faults files.old files.new out.old out.new) result }
    ensures asked { IfSome (asked_of (texts words.now)) (λ a. IsTold (answer_text a) (K.written out.old) (K.pending out.old) (K.written out.new) (K.pending out.new)
        (Rose (K.faults out.old) (K.faults out.new)) result.status) }
    ensures unshown { IsSome (asked_of (texts words.now)) → result.shown ≡ None }
    ensures untouched { IsSome (asked_of (texts words.now)) → files.new ≡ files.old }
{
    statuses_are_of_commands::<F, K>();
    if let Some(inquiry) = inquiry_of(words) {
        return Outcome::bare(tell(rt.alloc(), inquiry, out));
    }
    match plain_top(rt.alloc(), words, files, out) {
        Ok(outcome) => outcome,
        Err(command) => threads_top(rt, rt.alloc(), &command, files, out, &OpenGate),
    }
}

// Puts the text that answers an inquiry, and finishes.
fn tell<S: Sink>(alloc: Global, inquiry: Inquiry, sink: &mut S) -> Status
    ensures { IsTold (answer_text (asked inquiry)) (S.written sink.old) (S.pending sink.old) (S.written sink.new) (S.pending sink.new)
        (Rose (S.faults sink.old) (S.faults sink.new)) result }
{
    match inquiry_text(alloc, inquiry) {
        Ok(text) => put_whole(text.as_bytes(), sink),
        Err(NoMemory) => Status::Refused(Refusal::NoMemory),
    }
}

// Puts a text, and finishes.
fn put_whole<S: Sink>(text: &[u8], sink: &mut S) -> Status
    ensures { IsTold text.now (S.written sink.old) (S.pending sink.old) (S.written sink.new) (S.pending sink.new)
        (Rose (S.faults sink.old) (S.faults sink.new)) result }
{
    match put_text(sink, text) {
        Ok(()) => Status::Done,
        Err(fault) => Status::WriteFault(fault),
    }
}
