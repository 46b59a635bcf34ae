// The help of `replay`.
use crate::forms::CommandHelp;
use crate::help_texts::BLOCK_FAULTS;

const ABOUT: &str = "Without SCHEDULE the steps are made in rounds, at most 20000000. A replay is
unfinished if a thread has not ended after all steps and rounds. Then nothing
is printed.

examples:
  sandbox replay examples/first.policy examples/first.script
  sandbox replay examples/race.policy examples/race.script examples/race.schedule
";

const STATUSES: &str = "exit status:
   0  done              7  file too long
   2  usage             8  read fault
   3  policy refused    9  write fault
   4  script refused   10  unfinished
   5  schedule refused 11  no memory
   6  missing file
";

/// The help of the command.
pub(crate) const HELP: CommandHelp<'static> = CommandHelp {
    about: ABOUT,
    after: &[BLOCK_FAULTS, STATUSES],
};
