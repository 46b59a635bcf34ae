// Laws of how long lines and transcripts are. None of these functions does anything: each contract is a law.
ghost use Rattle.sb_transcript.specs.Lengths.{EntryLinesAreShort, ResultLinesAreShort, TotalsAreShort, TranscriptsAreShort};

use sb_block::faultless_copies_fit;

/// The line of an entry that follows from its copy has at most 3,600 bytes, that of a result at most 400, and the totals at most 200, if
/// the numbers that they show are in the ranges of their types.
pub fn lines_are_short()
    ensures entries { EntryLinesAreShort }
    ensures results { ResultLinesAreShort }
    ensures totals { TotalsAreShort }
{
    faultless_copies_fit();
}

/// No transcript of a report within the limits of scripts has more than 536,870,912 bytes: it has at most 131,072 entries and as many
/// results.
pub fn transcripts_are_short()
    ensures { TranscriptsAreShort }
{
    faultless_copies_fit();
}
