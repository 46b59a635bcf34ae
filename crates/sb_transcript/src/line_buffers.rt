// Lines in one buffer, and how they are put one by one and finished.
ghost use Rattle.std.specs.Prelude.{◌≡◌, ◌≤◌, ◌++◌, [], length, OnOk, OnErr};
ghost use Rattle.sb_outside.specs.Outside.{GrowsBy, GrowsByPrefix, Rose, joined};
ghost use Rattle.sb_transcript.specs.LineBuffers.{total};

use sb_outside::{Sink, SinkFault};
use std::marker::Model;

/// Lines one after the other in one buffer, with the length of each. Contracts see the list of the lines.
pub struct LineBuffer {
    pub(crate) bytes: Vec<u8>,
    pub(crate) lengths: Vec<usize>,
}

impl Drop for LineBuffer {
    fn drop(self) {
        let LineBuffer {
            bytes: _,
            lengths: _,
        } = self;
    }
}

impl Model for LineBuffer {
    ghost use Rattle.std.specs.Prelude.{◌≡◌, List, ℕ, length};
    ghost use Rattle.sb_transcript.specs.LineBuffers.{cut_by, total};

    ghost Value = { List (List ℕ) };

    ghost view = { λ l. cut_by l.lengths.items l.bytes.items };

    ghost invariant = { λ l. total l.lengths.items ≡ length l.bytes.items };
}

// Puts bytes in pieces of these lengths, one put each, and finishes. After a put that failed neither a put nor the finish follows.
#[tactic(auto, using(crate::proofs::CutLaws::grown_start, crate::proofs::CutLaws::grown_to_end, crate::proofs::CutLaws::fault_at_end, crate::proofs::CutLaws::first_within))]
fn put_pieces<S: Sink>(bytes: &[u8], lengths: &[usize], sink: &mut S) -> Result<(), SinkFault>
    requires { total lengths.now ≡ length bytes.now }
    ensures counted { S.faults sink.old ≤ S.faults sink.new }
    ensures ok { OnOk result (GrowsBy (S.written sink.old) (S.pending sink.old ++ bytes.now) (S.written sink.new)) }
    ensures emptied { OnOk result (S.pending sink.new ≡ []) }
    ensures ok_count { OnOk result (S.faults sink.new ≡ S.faults sink.old) }
    ensures failed { OnErr result (Rose (S.faults sink.old) (S.faults sink.new)) }
    ensures prefix { OnErr result (GrowsByPrefix (S.written sink.old) (S.pending sink.old ++ bytes.now) (S.written sink.new)) }
{
    let mut rest = bytes;
    let mut lengths = lengths;
    while let Some((count, later)) = lengths.split_first() {
        let (line, others) = rest.split_at(*count);
        match sink.put(line) {
            Ok(()) => {}
            Err(fault) => return Err(fault),
        }
        rest = others;
        lengths = later;
    }
    sink.finish()
}

impl LineBuffer {
    /// All lines, one after the other.
    #[tactic(auto, using(crate::proofs::CutLaws::joined_cut))]
    pub fn bytes(&self) -> &[u8]
        ensures { result.now ≡ joined self.now }
    {
        &self.bytes
    }

    /// All lines, one after the other, in the memory that holds them. Does not allocate.
    #[tactic(auto, using(crate::proofs::CutLaws::joined_cut))]
    pub fn into_bytes(self) -> Vec<u8>
        ensures { result.items ≡ joined self }
    {
        let LineBuffer { bytes, lengths: _ } = self;
        bytes
    }

    /// Puts each line in turn, one put each, and finishes. After a put that failed neither a put nor the finish follows. It allocates no
    /// memory.
    ///
    /// # Errors
    /// `Failed` only if the count of faults rose in this call. Then a prefix of what was due was written: of what was pending, and then the
    /// lines, one after another.
    #[tactic(auto, using(crate::proofs::CutLaws::joined_cut))]
    pub fn put_each<S: Sink>(&self, sink: &mut S) -> Result<(), SinkFault>
        ensures counted { S.faults sink.old ≤ S.faults sink.new }
        ensures ok { OnOk result (GrowsBy (S.written sink.old) (S.pending sink.old ++ joined self.now) (S.written sink.new)) }
        ensures emptied { OnOk result (S.pending sink.new ≡ []) }
        ensures ok_count { OnOk result (S.faults sink.new ≡ S.faults sink.old) }
        ensures failed { OnErr result (Rose (S.faults sink.old) (S.faults sink.new)) }
        ensures prefix { OnErr result (GrowsByPrefix (S.written sink.old) (S.pending sink.old ++ joined self.now) (S.written sink.new)) }
    {
        put_pieces(&self.bytes, &self.lengths, sink)
    }
}
