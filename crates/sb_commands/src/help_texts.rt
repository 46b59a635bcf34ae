// What the help texts have beside the table of forms.
/// The version, and the toolchain that proved it.
pub(crate) const VERSION: &str = "sandbox 0.1.0
rattle-kit-13f logic dac8208d650f15bf
";

/// What the program is, before the forms of all commands.
pub(crate) const BEFORE: &str = "sandbox: the broker side of a two-party sandbox

usage:
";

/// What all commands have in common, after their forms.
pub(crate) const AFTER: &str = "  sandbox help COMMAND
      print the help of a command, as sandbox COMMAND --help does
  sandbox --help
      print this text
  sandbox --version
      print the version, and the toolchain that proved it

A file whose name begins with `-` is written `./-x`. An option is before the
files or after them, and is written --workers N or --workers=N.

exit status:
   0  done
   2  usage
   3  policy refused
   4  script refused
   5  schedule refused
   6  missing file
   7  file too long (more than 4194304 bytes; a TRANSCRIPT more than 536870912)
   8  read fault
   9  write fault
  10  unfinished
  11  no memory
  12  links refused
  13  moves refused
  14  a clause of the audit fails
";

/// The faults of a policy.
pub(crate) const POLICY_FAULTS: &str = "faults of POLICY (status 3):
   1  not UTF-8
   2  bad version
   3  unknown word: or one that is missing, broken or extra
   4  unknown call
   5  unknown parameter
   6  wrong kind: of condition or value
   7  bad number
   8  empty range
   9  bad pattern
  10  too many
  11  same name
  12  no heading
  13  not read-only: not a call that can be
";

/// The faults of a script.
pub(crate) const SCRIPT_FAULTS: &str = "faults of SCRIPT (status 4):
   1  not UTF-8
   2  unknown word: or one that is missing, broken or extra
   3  unknown call
   4  wrong arguments
   5  bad number
   6  bad name
   7  no such policy
   8  no such target
   9  no such channel
  10  no such word
  11  too many
  12  too big: the block of the call
  13  same name
  14  bad start: no parent, or the name is there
";

/// The faults of a schedule.
pub(crate) const SCHEDULE_FAULTS: &str = "faults of SCHEDULE (status 5):
   1  unknown word: or one that is missing or extra
   2  unknown actor
   3  bad number
   4  too many: steps
   5  no rounds
";

/// The faults of a file of links.
pub(crate) const LINKS_FAULTS: &str = "faults of LINKS (status 12):
   1  not UTF-8
   2  unknown word: or one that is missing, broken or extra
   3  bad name
   4  same name: an earlier link has this FROM
   5  too many: more than 64 links
";

/// The faults of a file of moves.
pub(crate) const MOVES_FAULTS: &str = "faults of MOVES (status 13):
   1  unknown word: or one that is missing or extra
   2  no such target
   3  bad number
   4  too many: more than 4096 moves
";

/// The faults of a block.
pub(crate) const BLOCK_FAULTS: &str = "faults of a block, as the first extended word of its reply:
   1  too-many-params
   2  bad-end
   3  count-changed
   4  end-changed
   5  bad-param-type
   6  bad-place
   7  unknown-tag
   8  wrong-shape
   9  bad-size
  10  bad-name
";
