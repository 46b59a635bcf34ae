// Laws of the transcript. None of these functions changes anything: each contract is a law.
ghost use Rattle.sb_transcript.specs.Laws.{LinesAreCounted, EntriesComeFirst, ResultsFollow, TotalsEnd, NumbersAreResults, ResultsAreInOrder, LinesEndOnce, TranscriptsTellTheirLines};

/// The transcript has as many lines as are counted: one for each entry, one for each result, and one more.
pub fn lines_are_counted()
    ensures { LinesAreCounted }
{}

/// Line `n` is that of entry `n`, if there is such an entry.
pub fn entries_come_first()
    ensures { EntriesComeFirst }
{}

/// The line of a result comes after those of all entries and of the results before it.
pub fn results_follow()
    ensures { ResultsFollow }
{}

/// The line after those of all entries and results is the totals.
pub fn totals_end()
    ensures { TotalsEnd }
{}

/// Each number below that of all results is how many come before one of them. So each line between the entries' and the
/// totals is that of a result.
pub fn numbers_are_results()
    ensures { NumbersAreResults }
{}

/// More results come before the later of two, by target, thread and place. So the lines of results are in this order, and
/// no two results share a line.
pub fn results_are_in_order()
    ensures { ResultsAreInOrder }
{}

/// Each line of the transcript of a ready script ends with LF and holds no other.
pub fn lines_end_once()
    ensures { LinesEndOnce }
{}

/// So the text of its transcript, cut after each LF, falls into its lines.
pub fn transcripts_tell_their_lines()
    ensures { TranscriptsTellTheirLines }
{}
