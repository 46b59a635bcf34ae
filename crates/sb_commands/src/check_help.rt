// The help of `check`.
use crate::forms::CommandHelp;

const ABOUT: &str = "Each grant is printed as the rules that it stands for. After the policies comes
the code of each call that has rules.

example:
  sandbox check examples/first.policy
";

const STATUSES: &str = "exit status:
   0  done              7  file too long
   2  usage             8  read fault
   3  policy refused    9  write fault
   6  missing file     11  no memory
";

/// The help of the command.
pub(crate) const HELP: CommandHelp<'static> = CommandHelp {
    about: ABOUT,
    after: &[STATUSES],
};
