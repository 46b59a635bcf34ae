// Ends of commands, and how they are put.
ghost use Rattle.std.specs.Prelude.{◌≡◌, ◌≤◌, ◌++◌, [], IfOk, OnOk, None, Some};
ghost use Rattle.sb_outside.specs.Outside.{Rose, joined};
ghost use Rattle.sb_plain.specs.Outcomes.{IsWhole};
ghost use Rattle.sb_plain.specs.Putting.{IsEnded, IsPut, bytes_of, end_status, text_of};

use crate::outcomes::Outcome;
use sb_base::{Items, NoMemory};
use sb_book::Report;
use sb_commands::FileNames;
use sb_message::{EndStatus, Shown, Status};
use sb_outside::{Bytes, Sink, SinkFault, put_lines};
use sb_transcript::LineBuffer;
use std::alloc::Global;
use std::marker::Model;

/// What is put: some texts, or the lines of a transcript, each by one put.
pub enum Lines {
    /// Texts, one after another.
    Texts(Items<Bytes>),
    /// The lines of a transcript.
    Transcript(LineBuffer),
}

impl Drop for Lines {
    fn drop(self) {
        match self {
            Lines::Texts(_) => {}
            Lines::Transcript(_) => {}
        }
    }
}

impl Lines {
    // Puts each of them in turn, and finishes. After a put that failed neither a put nor the finish follows.
    fn put<K: Sink>(&self, out: &mut K) -> Result<(), SinkFault>
        ensures counted { K.faults out.old ≤ K.faults out.new }
        ensures put { IsPut (bytes_of self.now) (K.written out.old) (K.pending out.old) (K.written out.new) (Rose (K.faults out.old) (K.faults out.new)) result }
        ensures done_count { OnOk result (K.faults out.new ≡ K.faults out.old) }
        ensures finished { OnOk result (K.pending out.new ≡ []) }
    {
        match self {
            Lines::Texts(texts) => put_lines(out, texts),
            Lines::Transcript(lines) => lines.put_each(out),
        }
    }
}

/// A text alone.
///
/// # Errors
/// `NoMemory` if there was none for the list of one.
#[tactic(auto, using(crate::proofs::Texts::one_text))]
pub fn one_text(alloc: Global, text: Vec<u8>) -> Result<Items<Bytes>, NoMemory>
    ensures { IfOk result (λ texts. joined texts ≡ text.items) }
{
    let mut texts = Items::empty(alloc);
    texts.push(Bytes::new(text))?;
    Ok(texts)
}

/// Two texts, one after the other.
///
/// # Errors
/// `NoMemory` if there was none for the list of two.
#[tactic(auto, using(crate::proofs::Texts::two_texts))]
pub fn two_texts(alloc: Global, first: Vec<u8>, second: Vec<u8>) -> Result<Items<Bytes>, NoMemory>
    ensures { IfOk result (λ texts. joined texts ≡ first.items ++ second.items) }
{
    let mut texts = Items::empty(alloc);
    texts.push(Bytes::new(first))?;
    texts.push(Bytes::new(second))?;
    Ok(texts)
}

/// What a command puts at its end, and its status.
pub enum Ending {
    /// This text is put, and then the command has this status.
    Text(Lines, EndStatus),
    /// Nothing is put: the run left a thread unfinished, and the first such one is this thread of this target.
    Unfinished { target: u32, thread: u32 },
}

impl Drop for Ending {
    fn drop(self) {
        match self {
            Ending::Text(_, _) => {}
            Ending::Unfinished {
                target: _,
                thread: _,
            } => {}
        }
    }
}

impl Ending {
    // The status, after the text was put.
    fn put<K: Sink>(&self, out: &mut K) -> Status
        ensures counted { K.faults out.old ≤ K.faults out.new }
        ensures ended { IsEnded (text_of self.now) (end_status self.now) out.old out.new
            (K.written out.old) (K.pending out.old) (K.written out.new) (Rose (K.faults out.old) (K.faults out.new)) result }
        ensures done_count { IsWhole result → K.faults out.new ≡ K.faults out.old }
        ensures finished { IsWhole result → K.pending out.new ≡ [] }
    {
        match self {
            Ending::Text(lines, status) => match lines.put(out) {
                Ok(()) => Status::from(*status),
                Err(fault) => Status::WriteFault(fault),
            },
            Ending::Unfinished { target, thread } => Status::Unfinished {
                target: *target,
                thread: *thread,
            },
        }
    }
}

/// How a command ends that is not refused: what it puts, and its status; the report of its run, if it makes one; and the policy text whose notes are told, if it has
/// them told.
pub struct CommandEnd {
    pub(crate) ending: Ending,
    pub(crate) report: Option<Report>,
    pub(crate) notes: Option<Shown>,
}

impl Drop for CommandEnd {
    fn drop(self) {
        let CommandEnd {
            ending: _,
            report: _,
            notes: _,
        } = self;
    }
}

impl Model for CommandEnd {
    ghost use Rattle.sb_plain.specs.Readings.{ReportedEnd};
    ghost use Rattle.sb_plain.specs.Putting.{end_status, text_of};

    ghost Value = { ReportedEnd };

    ghost view = { λ end. record { text = text_of end.ending; status = end_status end.ending; report = end.report; notes = end.notes } };
}

impl CommandEnd {
    /// The end that puts this text and is done, and has no report.
    ///
    /// # Errors
    /// `NoMemory` if there was none for the list of one.
    pub(crate) fn with_text(alloc: Global, text: Vec<u8>) -> Result<CommandEnd, NoMemory>
        ensures { IfOk result (λ end. end ≡ record { text = Some text.items; status = EndStatus.Done; report = None; notes = None }) }
    {
        Ok(CommandEnd {
            ending: Ending::Text(Lines::Texts(one_text(alloc, text)?), EndStatus::Done),
            report: None,
            notes: None,
        })
    }

    /// The end that puts these texts and is done, with the report of a run.
    pub fn with_report(texts: Items<Bytes>, report: Report) -> CommandEnd
        ensures { result ≡ record { text = Some (joined texts); status = EndStatus.Done; report = Some report; notes = None } }
    {
        CommandEnd {
            ending: Ending::Text(Lines::Texts(texts), EndStatus::Done),
            report: Some(report),
            notes: None,
        }
    }

    /// The end of a run that left this thread of this target unfinished, with its report: nothing is put.
    pub(crate) fn unfinished(target: u32, thread: u32, report: Report) -> CommandEnd
        ensures { result ≡ record { text = None; status = EndStatus.Unfinished target thread; report = Some report; notes = None } }
    {
        CommandEnd {
            ending: Ending::Unfinished { target, thread },
            report: Some(report),
            notes: None,
        }
    }

    /// The end of a run that put the lines of its transcript and is done, with its report.
    pub(crate) fn with_transcript(lines: LineBuffer, report: Report) -> CommandEnd
        ensures { result ≡ record { text = Some (joined lines); status = EndStatus.Done; report = Some report; notes = None } }
    {
        CommandEnd {
            ending: Ending::Text(Lines::Transcript(lines), EndStatus::Done),
            report: Some(report),
            notes: None,
        }
    }

    /// Puts what is to be put, and finishes: the outcome of a command with these files.
    pub fn put<'a, K: Sink>(self, files: FileNames<'a>, out: &mut K) -> Outcome<'a>
        ensures counted { K.faults out.old ≤ K.faults out.new }
        ensures ended { IsEnded self.text self.status out.old out.new
            (K.written out.old) (K.pending out.old) (K.written out.new) (Rose (K.faults out.old) (K.faults out.new)) result.status }
        ensures files { result.files ≡ files.entry }
        ensures report { result.report ≡ self.report }
        ensures shown { result.shown ≡ self.notes }
        ensures done_count { IsWhole result.status → K.faults out.new ≡ K.faults out.old }
        ensures finished { IsWhole result.status → K.pending out.new ≡ [] }
    {
        let CommandEnd {
            ending,
            report,
            notes,
        } = self;
        let status = ending.put(out);
        Outcome {
            status,
            files,
            shown: notes,
            report,
        }
    }
}
