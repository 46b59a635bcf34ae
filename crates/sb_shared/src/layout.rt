// Where the words of a run lie in its table.
ghost use Rattle.std.specs.Prelude.{◌≡◌, ◌<◌, ◌≤◌};
ghost use Rattle.sb_shared.specs.Plays.{IsSpot};
ghost use Rattle.sb_shared.specs.Rule.{turn_word};

use sb_statements::{LAST_PLACE, MAX_CHANNELS, MAX_TARGETS, WORDS_OF_CHANNEL, Word};

// The words of two cache lines, which a processor may fetch together. What different threads change often is that far apart.
const LINE_PAIR: usize = 16;

/// From one channel of a target to the next: its words, and unused ones up to the end of a pair of cache lines. No two channels share a cache line.
pub(crate) const CHANNEL_STRIDE: usize = (WORDS_OF_CHANNEL + LINE_PAIR - 1) / LINE_PAIR * LINE_PAIR;

/// From one target to the next.
pub(crate) const TARGET_STRIDE: usize = MAX_CHANNELS as usize * CHANNEL_STRIDE;

/// The turn word: 0, or one more than the target of the worker that has the turn.
pub(crate) const TURN: usize = MAX_TARGETS * TARGET_STRIDE;

/// The stop word: 0, 1 once all threads have ended, and 2 once an actor ran out of memory.
pub(crate) const STOP: usize = TURN + LINE_PAIR;

/// How many words the table has.
pub(crate) const WORD_COUNT: usize = STOP + LINE_PAIR;

// The number, if it is not more than this.
#[inline(always)]
fn at_most(number: u32, most: u32) -> usize
    ensures small { result ≤ most }
    ensures same { number ≤ most → result ≡ number }
{
    if number > most {
        most as usize
    } else {
        number as usize
    }
}

/// The place of a word among those of all targets.
#[inline(always)]
pub(crate) fn index_of(target: u32, word: Word) -> usize
    ensures inside { result < turn_word }
    ensures spot { IsSpot target word result }
{
    at_most(target, MAX_TARGETS as u32 - 1) * TARGET_STRIDE
        + at_most(word.channel, MAX_CHANNELS - 1) * CHANNEL_STRIDE
        + at_most(word.at, LAST_PLACE)
}
