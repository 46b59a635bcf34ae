// The help of `run`.
use crate::forms::CommandHelp;
use crate::help_texts::BLOCK_FAULTS;

const ABOUT: &str =
    "There is one thread for each thread of SCRIPT, and N workers, from 1 to 8, serve
the targets. Without the option N is 2. The option is before the files or after
them, and may be one word, --workers=N.

A run has no bound of time. A call on a clean channel waits for its reply. A
`wait` makes up to 1000000 loads, and a call on channels that are not clean up
to 8000000 tries and 1000000 loads, so the 131072 statements of the largest
script make up to 1179648000000 of these.

example:
  sandbox run examples/files.policy examples/files.script --workers 4
";

const STATUSES: &str = "exit status:
   0  done              7  file too long
   2  usage             8  read fault
   3  policy refused    9  write fault
   4  script refused   11  no memory
   6  missing file
";

/// The help of the command.
pub(crate) const HELP: CommandHelp<'static> = CommandHelp {
    about: ABOUT,
    after: &[BLOCK_FAULTS, STATUSES],
};
