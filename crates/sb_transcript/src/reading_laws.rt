// Laws of the lines that are read. None of these functions does anything: each contract is a law.
ghost use Rattle.sb_transcript.specs.ReadingLaws.{LinesAreRead, LinesDiffer, LinesEndWithoutCr, ReadLinesAreWritten, ReadingIsExact};

/// What is read of bytes is the line that is written as exactly these bytes, or none if there is no such line.
pub fn reading_is_exact()
    ensures { ReadingIsExact }
{}

/// What is written of a line is read as that line.
pub fn lines_are_read()
    ensures { LinesAreRead }
{}

/// A line that is read is written as exactly the bytes that were read.
pub fn read_lines_are_written()
    ensures { ReadLinesAreWritten }
{}

/// What is written of a line does not end with CR, so a line whose LF has a CR before it is read as the line without it.
pub fn lines_end_without_cr()
    ensures { LinesEndWithoutCr }
{}

/// No two lines are written alike.
pub fn lines_differ()
    ensures { LinesDiffer }
{}
