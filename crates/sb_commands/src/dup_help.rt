// The help of `dup`.
use crate::forms::CommandHelp;
use crate::help_texts::BLOCK_FAULTS;

const ABOUT: &str = "SCRIPT is run in rounds, as replay does without SCHEDULE. A move then gives the
target TO a handle on the object of HANDLE, which FROM holds, with ACCESS, which
HANDLE has to have. The policies of both targets judge it, as if each opened the
object by its name. If a thread has not ended, dup is unfinished, and nothing is
printed.

example:
  sandbox dup examples/moves.policy examples/moves.script examples/moves.moves
";

const STATUSES: &str = "exit status:
   0  done              8  read fault
   2  usage             9  write fault
   3  policy refused   10  unfinished
   4  script refused   11  no memory
   6  missing file     13  moves refused
   7  file too long
";

/// The help of the command.
pub(crate) const HELP: CommandHelp<'static> = CommandHelp {
    about: ABOUT,
    after: &[BLOCK_FAULTS, STATUSES],
};
