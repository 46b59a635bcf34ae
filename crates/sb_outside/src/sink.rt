// An output, and lists of bytes put into it one after another.
ghost use Rattle.std.specs.Prelude.{◌≡◌, ◌≤◌, ◌++◌, Option, ℕ, List, [], OnOk, OnErr};
ghost use Rattle.sb_outside.specs.Outside.{GrowsBy, GrowsByPrefix, GrowsUpTo, Rose, joined};

use crate::lists::Bytes;
use thiserror::Error;

/// Why bytes were not written.
#[derive(Clone, Copy, Debug, Error)]
pub enum SinkFault {
    /// The reader of the output has closed it.
    #[error("the output is closed")]
    Closed,
    /// The output is full, and does not wait until there is room.
    #[error("the output is full")]
    Full,
    /// The output did not take all of them, for another reason.
    #[error("the output failed")]
    Failed,
}

/// An output.
///
/// It has written some bytes, and may hold others back, which are pending: they were put, and will be written after those that were
/// written. What was written so far may be told or not, and what is pending is always told. Its count of faults never falls. A count
/// that is kept in 64 bits stays at its last value, so one that is there is taken as one that rose.
pub trait Sink {
    ghost written: { Self → Option (List ℕ) };

    ghost pending: { Self → List ℕ };

    ghost faults: { Self → ℕ };

    /// Appends `bytes` to what is pending, and writes any number of the first bytes of that. It allocates no memory.
    ///
    /// # Errors
    /// Why the output did not take all of it, only if the count of faults rose in this call. Then a prefix of what was due was written: of what was
    /// pending, and then `bytes`. What is pending then is not told, so that neither a put nor a finish should follow.
    fn put(&mut self, bytes: &[u8]) -> Result<(), SinkFault>
        ensures counted { faults self.old ≤ faults self.new }
        ensures ok { OnOk result (GrowsUpTo (written self.old) (pending self.old ++ bytes.now) (written self.new) (pending self.new)) }
        ensures ok_count { OnOk result (faults self.new ≡ faults self.old) }
        ensures failed { OnErr result (Rose (faults self.old) (faults self.new)) }
        ensures prefix { OnErr result (GrowsByPrefix (written self.old) (pending self.old ++ bytes.now) (written self.new)) };

    /// Writes all that is pending. It allocates no memory.
    ///
    /// # Errors
    /// Why the output did not take all of it, only if the count of faults rose in this call. Then a prefix of what was pending was written.
    fn finish(&mut self) -> Result<(), SinkFault>
        ensures counted { faults self.old ≤ faults self.new }
        ensures ok { OnOk result (GrowsBy (written self.old) (pending self.old) (written self.new)) }
        ensures emptied { OnOk result (pending self.new ≡ []) }
        ensures ok_count { OnOk result (faults self.new ≡ faults self.old) }
        ensures failed { OnErr result (Rose (faults self.old) (faults self.new)) }
        ensures prefix { OnErr result (GrowsByPrefix (written self.old) (pending self.old) (written self.new)) };
}

/// Puts each line in turn, one `put` each, and finishes. After a put that failed neither a put nor the finish follows.
///
/// # Errors
/// Why the output did not take all of it, only if the count of faults rose in this call. Then a prefix of what was due was written: of what was pending,
/// and then the lines, one after another.
#[tactic(auto, using(crate::proofs::Prefixes::none_left))]
pub fn put_lines<S: Sink>(sink: &mut S, lines: &[Bytes]) -> Result<(), SinkFault>
    ensures counted { S.faults sink.old ≤ S.faults sink.new }
    ensures ok { OnOk result (GrowsBy (S.written sink.old) (S.pending sink.old ++ joined lines.now) (S.written sink.new)) }
    ensures emptied { OnOk result (S.pending sink.new ≡ []) }
    ensures ok_count { OnOk result (S.faults sink.new ≡ S.faults sink.old) }
    ensures failed { OnErr result (Rose (S.faults sink.old) (S.faults sink.new)) }
    ensures prefix { OnErr result (GrowsByPrefix (S.written sink.old) (S.pending sink.old ++ joined lines.now) (S.written sink.new)) }
{
    for line in lines {
        match sink.put(line.as_slice()) {
            Ok(()) => {}
            Err(fault) => return Err(fault),
        }
    }
    sink.finish()
}

/// Puts a text by one `put`, and finishes. After a put that failed the finish does not follow.
///
/// # Errors
/// Why the output did not take all of it, only if the count of faults rose in this call. Then a prefix of what was due was written: of what was pending,
/// and then the text.
#[tactic(auto, using(crate::proofs::Prefixes::none_left, crate::proofs::Prefixes::fault_left))]
pub fn put_text<S: Sink>(sink: &mut S, text: &[u8]) -> Result<(), SinkFault>
    ensures counted { S.faults sink.old ≤ S.faults sink.new }
    ensures ok { OnOk result (GrowsBy (S.written sink.old) (S.pending sink.old ++ text.now) (S.written sink.new)) }
    ensures emptied { OnOk result (S.pending sink.new ≡ []) }
    ensures ok_count { OnOk result (S.faults sink.new ≡ S.faults sink.old) }
    ensures failed { OnErr result (Rose (S.faults sink.old) (S.faults sink.new)) }
    ensures prefix { OnErr result (GrowsByPrefix (S.written sink.old) (S.pending sink.old ++ text.now) (S.written sink.new)) }
{
    match sink.put(text) {
        Ok(()) => sink.finish(),
        Err(fault) => Err(fault),
    }
}
