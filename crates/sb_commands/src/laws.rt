// Laws of the command line. None of these functions does anything: each contract is a law.
ghost use Rattle.sb_commands.specs.CommandLaws.{ReadCommandsAreWritable, WrittenCommandsAreRead, WrittenNumbersAreRead};
ghost use Rattle.sb_commands.specs.UsageLaws.{UsageMessagesAreClean};

use sb_text::decimals_are_read;

/// What is written of a command is read as this command, and every command that is read can be written: exactly the commands whose files have names of
/// files and whose numbers are in their ranges are read from some arguments. Three numbers in the ranges of `make`, written in decimal, are read as
/// the command `make` with these numbers.
pub fn commands_are_read()
    ensures written { WrittenCommandsAreRead }
    ensures read { ReadCommandsAreWritable }
    ensures numbers { WrittenNumbersAreRead }
{
    decimals_are_read();
}

/// The message of arguments that are not UTF-8, or are no command, is UTF-8 without control characters, except LF and tab, and without format
/// characters, whatever the bytes of the arguments are.
pub fn usage_messages_are_clean()
    ensures { UsageMessagesAreClean }
{}
