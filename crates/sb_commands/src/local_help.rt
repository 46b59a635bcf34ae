// The help of `local`.
use crate::forms::CommandHelp;
use crate::help_texts::BLOCK_FAULTS;

const ABOUT: &str = "A target that knows its policy need not send a call that will be denied. Calls
that a deny rule or no rule decides are left out of SCRIPT, and printed first.
The rest is run as replay does, and the broker judges all that is sent. SCHEDULE
is one of the rest. If a thread has not ended after all steps and rounds, local
is unfinished, and nothing is printed.

example:
  sandbox local examples/files.policy examples/files.script
";

const STATUSES: &str = "exit status:
   0  done              7  file too long
   2  usage             8  read fault
   3  policy refused    9  write fault
   4  script refused   10  unfinished
   5  schedule refused 11  no memory
   6  missing file
";

/// The help of the command.
pub(crate) const HELP: CommandHelp<'static> = CommandHelp {
    about: ABOUT,
    after: &[BLOCK_FAULTS, STATUSES],
};
