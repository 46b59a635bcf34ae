// The help of `make`.
use crate::forms::CommandHelp;

const ABOUT: &str =
    "SEED is a number below 2^64. The script has 1 to 8 TARGETS with two threads of 1
to 4096 CALLS each. It is run under a fixed policy by 2 workers. What was made
and the totals are printed, which are the same at each run.

example:
  sandbox make 1 4 100
";

const STATUSES: &str = "exit status:
   0  done
   2  usage
   9  write fault
  11  no memory
";

/// The help of the command.
pub(crate) const HELP: CommandHelp<'static> = CommandHelp {
    about: ABOUT,
    after: &[STATUSES],
};
