// The help of `linked`.
use crate::forms::CommandHelp;

const ABOUT: &str = "A link applies to the name FROM and to the names below it, and puts TO in place
of FROM. The link with the longest FROM goes first. A call is stopped if a link
still applies after 8 steps, or if its block then has more than 64 words. POLICY
judges the names after all steps. The calls are answered in the order of SCRIPT,
without threads; its other statements are passed over.

example:
  sandbox linked examples/links.policy examples/links.script examples/links.links
";

const STATUSES: &str = "exit status:
   0  done              7  file too long
   2  usage             8  read fault
   3  policy refused    9  write fault
   4  script refused   11  no memory
   6  missing file     12  links refused
";

/// The help of the command.
pub(crate) const HELP: CommandHelp<'static> = CommandHelp {
    about: ABOUT,
    after: &[STATUSES],
};
