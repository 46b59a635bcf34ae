// The help of `audit`.
use crate::forms::CommandHelp;

const ABOUT: &str = "Anybody may have made TRANSCRIPT. It passes if no clause below fails at any of
its lines. It does not follow that some run prints it: entries on channels that
SCRIPT writes directly may be invented. It may have up to 536870912 bytes.

example:
  sandbox replay examples/first.policy examples/first.script > my.transcript
  sandbox audit examples/first.policy examples/first.script my.transcript
";

const CLAUSES: &str = "clauses (status 14 names the first line where one fails, and the lowest one):
   1  form: the line is not the one that is due, or there is none
   2  place: no such target or channel
   3  rule: POLICY does not decide so
   4  reply: not the reply to this decision after the lines before
   5  own: not a call of a thread of the target in its order, or not what POLICY
      decides of it; only on channels that SCRIPT does not write directly
   6  result: not one of its statement, or not the reply of its entry
   7  totals: not the numbers of the lines
";

const STATUSES: &str = "exit status:
   0  done              7  file too long
   2  usage             8  read fault
   3  policy refused    9  write fault
   4  script refused   11  no memory
   6  missing file     14  a clause fails
";

/// The help of the command.
pub(crate) const HELP: CommandHelp<'static> = CommandHelp {
    about: ABOUT,
    after: &[CLAUSES, STATUSES],
};
