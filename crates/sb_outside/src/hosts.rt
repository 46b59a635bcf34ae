// A writer as an output, as standard output. What is held back of it is kept here and not by std's `BufWriter`, which does not tell it.
ghost use Rattle.std.specs.Prelude.{◌≡◌, ◌≤◌, ◌+◌, ◌-◌, ◌++◌, ℕ, List, Option, [], None, ⊤, length, IfErr, IfOk, OnOk, OnErr};
ghost use Rattle.std.specs.Io.KnownBytes.{Appends};
ghost use Rattle.sb_outside.specs.Outside.{next_count};
ghost use Rattle.sb_outside.specs.Hosts.{Gives, IsBroken, sink_fault};

use crate::sink::{Sink, SinkFault};
use sb_base::NoMemory;
use std::alloc::Global;
use std::io::{ErrorKind, Write};

/// How many bytes a piece has in which a file or a pipe is written.
pub const PIECE: usize = 65_536;

/// What writes bytes. A relation between its states says that a write failed; a caller that is generic over outputs has it from a write alone.
pub trait Output {
    ghost use Rattle.std.specs.declared.io.ErrorKind.{ErrorKind};

    // The bytes that were written, where they are known.
    ghost contents: { Self → Option (List ℕ) };

    // A write failed, for this reason.
    ghost fails: { Self → ErrorKind → Self → Type 0 };

    /// Writes all of `bytes`.
    ///
    /// # Errors
    /// Why they were not all written. Some of the first may be.
    fn write_whole(&mut self, bytes: &[u8]) -> Result<(), ErrorKind>
        ensures appended { OnOk result (Appends (contents self.old) (contents self.new) bytes.now) }
        ensures failed { IfErr result (λ kind. fails self.old kind self.new) };
}

/// A writer of the standard library as an output. That a write of it failed tells nothing, since no contract of the standard library does.
#[derive(Drop)]
pub struct HostOutput<W: Write + Drop> {
    /// What writes.
    pub writer: W,
}

impl<W: Write + Drop> Output for HostOutput<W> {
    ghost contents = { λ o. W.contents o.writer };

    ghost fails = { λ _ _ _. ⊤ };

    fn write_whole(&mut self, bytes: &[u8]) -> Result<(), ErrorKind> {
        match self.writer.write_all(bytes) {
            Ok(()) => Ok(()),
            Err(error) => Err(error.kind()),
        }
    }
}

/// A writer as an output, which holds back less than a piece. It fails only if a write failed, and for the reason of that.
#[derive(Drop)]
pub struct HostSink<W: Output + Drop> {
    /// What writes.
    pub writer: W,
    /// The bytes that are held back.
    pub pending: Vec<u8>,
    /// How many bytes a piece has. If it is 0, each put is written at once.
    pub piece: usize,
    /// The count of faults, which stays at its last value.
    pub faults: u64,
}

impl<W: Output + Drop> HostSink<W> {
    /// The output that `writer` writes in pieces of this many bytes, and each put at once if there are none. It has no fault so far.
    ///
    /// # Errors
    /// `NoMemory` if memory for a piece runs out.
    pub fn new(alloc: Global, writer: W, piece: usize) -> Result<HostSink<W>, NoMemory>
        ensures writer { IfOk result (λ s. s.writer ≡ writer) }
        ensures empty { IfOk result (λ s. s.pending.items ≡ []) }
        ensures piece { IfOk result (λ s. s.piece ≡ piece) }
        ensures faults { IfOk result (λ s. s.faults ≡ 0) }
    {
        let pending = Vec::with_capacity(alloc, piece)?;
        Ok(HostSink {
            writer,
            pending,
            piece,
            faults: 0,
        })
    }

    // Writes all that is pending. After a fault nothing is pending either, since it is not known how much of it was written.
    fn write_pending(&mut self) -> Result<(), SinkFault>
        ensures appended { OnOk result (Appends (W.contents self.old.writer) (W.contents self.new.writer) self.old.pending.items) }
        ensures emptied { self.new.pending.items ≡ [] }
        ensures piece { self.new.piece ≡ self.old.piece }
        ensures ok_count { OnOk result (self.new.faults ≡ self.old.faults) }
        ensures failed { OnErr result (self.new.faults ≡ next_count self.old.faults) }
        ensures counted { self.old.faults ≤ self.new.faults }
        ensures broken { IfErr result (λ fault. IsBroken W.fails self.new.writer fault) }
    {
        let result = write_to(&mut self.writer, &mut self.faults, &self.pending);
        self.pending.clear();
        result
    }

    // Writes what is pending and then these bytes.
    #[tactic(auto, using(crate::proofs::Passing::gives_all))]
    fn write_behind(&mut self, bytes: &[u8]) -> Result<(), SinkFault>
        ensures gives { OnOk result (Gives (W.contents self.old.writer) (self.old.pending.items ++ bytes.now)
            (W.contents self.new.writer) self.new.pending.items) }
        ensures emptied { self.new.pending.items ≡ [] }
        ensures piece { self.new.piece ≡ self.old.piece }
        ensures ok_count { OnOk result (self.new.faults ≡ self.old.faults) }
        ensures failed { OnErr result (self.new.faults ≡ next_count self.old.faults) }
        ensures counted { self.old.faults ≤ self.new.faults }
        ensures broken { IfErr result (λ fault. IsBroken W.fails self.new.writer fault) }
    {
        self.write_pending()?;
        write_to(&mut self.writer, &mut self.faults, bytes)
    }

    // Holds back bytes that are fewer than a piece lacks. The room for a piece was reserved; without it all is written.
    #[tactic(auto, using(crate::proofs::Passing::gives_none))]
    fn hold(&mut self, bytes: &[u8]) -> Result<(), SinkFault>
        ensures gives { OnOk result (Gives (W.contents self.old.writer) (self.old.pending.items ++ bytes.now)
            (W.contents self.new.writer) self.new.pending.items) }
        ensures short { OnOk result (length self.new.pending.items ≤ length self.old.pending.items + length bytes.now) }
        ensures piece { self.new.piece ≡ self.old.piece }
        ensures ok_count { OnOk result (self.new.faults ≡ self.old.faults) }
        ensures failed { OnErr result (self.new.faults ≡ next_count self.old.faults) }
        ensures counted { self.old.faults ≤ self.new.faults }
        ensures broken { IfErr result (λ fault. IsBroken W.fails self.new.writer fault) }
    {
        match self.pending.extend_from_slice(bytes) {
            Ok(()) => Ok(()),
            Err(_) => self.write_behind(bytes),
        }
    }
}

// Writes bytes, and counts the fault if they are not all written.
fn write_to<W: Output>(writer: &mut W, faults: &mut u64, bytes: &[u8]) -> Result<(), SinkFault>
    ensures appended { OnOk result (Appends (W.contents writer.old) (W.contents writer.new) bytes.now) }
    ensures ok_count { OnOk result (faults.new ≡ faults.old) }
    ensures failed { OnErr result (faults.new ≡ next_count faults.old) }
    ensures counted { faults.old ≤ faults.new }
    ensures broken { IfErr result (λ fault. IsBroken W.fails writer.new fault) }
{
    match writer.write_whole(bytes) {
        Ok(()) => Ok(()),
        Err(kind) => {
            *faults = faults.saturating_add(1);
            Err(sink_fault(kind))
        }
    }
}

fn sink_fault(kind: ErrorKind) -> SinkFault
    ensures { result ≡ sink_fault kind }
{
    match kind {
        ErrorKind::BrokenPipe => SinkFault::Closed,
        ErrorKind::WouldBlock => SinkFault::Full,
        _ => SinkFault::Failed,
    }
}

impl<W: Output + Drop> Sink for HostSink<W> {
    ghost written = { λ _. None };

    ghost pending = { λ h. h.pending.items };

    ghost faults = { λ h. h.faults };

    #[tactic(auto, using(crate::proofs::Passing::gives_across, crate::proofs::Passing::grows_unknown))]
    fn put(&mut self, bytes: &[u8]) -> Result<(), SinkFault>
        // A writer that tells its bytes has the first that were due, and the others are pending: fewer than a piece.
        ensures gives { OnOk result (Gives (W.contents self.old.writer) (self.old.pending.items ++ bytes.now)
            (W.contents self.new.writer) self.new.pending.items) }
        ensures short { OnOk result (length self.new.pending.items ≤ self.old.piece - 1) }
        ensures piece { self.new.piece ≡ self.old.piece }
        ensures ok_count { OnOk result (self.new.faults ≡ self.old.faults) }
        ensures failed { OnErr result (self.new.faults ≡ next_count self.old.faults) }
        ensures counted { self.old.faults ≤ self.new.faults }
        ensures broken { IfErr result (λ fault. IsBroken W.fails self.new.writer fault) }
    {
        let room = self.piece.saturating_sub(self.pending.len());
        if bytes.len() < room {
            return self.hold(bytes);
        }
        let (front, rest) = bytes.split_at(room);
        self.hold(front)?;
        self.write_pending()?;
        if rest.len() < self.piece {
            self.hold(rest)
        } else {
            self.write_behind(rest)
        }
    }

    fn finish(&mut self) -> Result<(), SinkFault>
        // A writer that tells its bytes has all that were pending.
        ensures appended { OnOk result (Appends (W.contents self.old.writer) (W.contents self.new.writer) self.old.pending.items) }
        ensures emptied { self.new.pending.items ≡ [] }
        ensures piece { self.new.piece ≡ self.old.piece }
        ensures ok_count { OnOk result (self.new.faults ≡ self.old.faults) }
        ensures failed { OnErr result (self.new.faults ≡ next_count self.old.faults) }
        ensures counted { self.old.faults ≤ self.new.faults }
        ensures broken { IfErr result (λ fault. IsBroken W.fails self.new.writer fault) }
    {
        self.write_pending()
    }
}
