// The law of all messages. The function does nothing: its contract is the law.
ghost use Rattle.sb_message.specs.MessageLaws.{MessagesAreClean};

use sb_commands::usage_messages_are_clean;

/// Every message is UTF-8 without control characters, except LF and tab, and without format characters.
pub fn messages_are_clean()
    ensures { MessagesAreClean }
{
    usage_messages_are_clean();
}
