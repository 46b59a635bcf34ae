// Laws of printing. None of these functions does anything: each contract is a law.
ghost use Rattle.sb_scripttext.specs.SchedulePrintingLaws.{WrittenSchedulesAreRead, OrdersAreRead, ActorsMakeSteps, ReadSchedulesAreReadAgain, WrittenSchedulesAreShort, OrdersAreShort};

use sb_text::{decimals_are_read, plain_lines_are_read};

/// Each schedule within the limits, whose actors the script has, is read back from its text as itself, if each of its entries
/// makes at least one step. So every order of at most 100,000 steps of these actors can be written. Each entry of a schedule that
/// was read makes one, and so it is read again from its text.
pub fn written_schedules_are_read()
    ensures schedules { WrittenSchedulesAreRead }
    ensures orders { OrdersAreRead }
    ensures made { ActorsMakeSteps }
    ensures again { ReadSchedulesAreReadAgain }
{
    plain_lines_are_read();
    decimals_are_read();
}

/// The text of each schedule within the limits, each of whose entries makes at least one step, has at most 4,194,304 bytes, and so has that
/// of every order of at most 100,000 steps: so it can be read from a file.
pub fn written_schedules_are_short()
    ensures schedules { WrittenSchedulesAreShort }
    ensures orders { OrdersAreShort }
{}
