// What an audit's yes says. None of these functions does anything: each contract is a law.
ghost use Rattle.sb_audit.specs.Laws.{EntriesAreRight, YesIsOfLines};

use sb_transcript::read_lines_are_written;

/// A text to which the answer is yes is lines, each with LF or with CR and LF, at none of which a clause fails, with the totals and as many entries and
/// results as the answer shows.
pub fn yes_is_of_lines()
    ensures { YesIsOfLines }
{
    read_lines_are_written();
}

/// An entry at which no clause fails: its target and channel are there. If its call was performed, the first rule that holds for it allows
/// exactly the arguments shown, or it shows a `readonly` rule for this call and its access has no other bits than those that read. Its reply
/// is that of the namespace which the performed calls before it led to. On a clean channel it is the answer to a call of a thread of its
/// target, above the thread's earlier ones, decided as the policy says.
pub fn entries_are_right()
    ensures { EntriesAreRight }
{}
