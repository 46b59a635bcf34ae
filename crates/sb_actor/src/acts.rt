// What an actor does in one step, and what it finds there.
ghost use Rattle.std.specs.Prelude.{◌≡◌, ◌<◌};
ghost use Rattle.sb_actor.specs.declared.acts.Act.TheVariants.{Load, Store, Exchange};
ghost use Rattle.sb_actor.specs.Acts.{observation, value_in, turn_in, state_word, block_word};

use sb_statements::Word;

/// The state of a channel that nobody uses.
pub const FREE: u64 = 1;
/// The state of a channel that a thread fills.
pub const BUSY: u64 = 2;
/// The state of a channel whose block is whole.
pub const READY: u64 = 3;
/// The state of a channel that holds a reply.
pub const ACKNOWLEDGED: u64 = 4;
/// The state of a channel whose thread waits no more.
pub const ABANDONED: u64 = 5;

/// The one next step of an actor. Each is atomic. Targets and channels are numbered from 0.
#[derive(Clone, Copy)]
pub enum Act {
    /// It loads a word of a target's channels.
    Load {
        target: u32,
        word: Word,
    },
    /// It stores a value into a word.
    Store {
        target: u32,
        word: Word,
        value: u64,
    },
    /// It stores `to` into a word if that holds `from`.
    Exchange {
        target: u32,
        word: Word,
        from: u64,
        to: u64,
    },
    /// A worker takes the turn, if nobody has it.
    Take,
    /// The book answers a worker's copy.
    Answer,
    /// A worker gives the turn back.
    Give,
    /// Nothing: the thread is finished.
    Idle,
}

/// What a step on a word or on the turn found. What the book replied is handed on beside it (`WorkerState::accept_reply`).
#[derive(Clone, Copy)]
pub enum Observed {
    /// The value that a load or an exchange found.
    Value(u64),
    /// Nothing: a value was stored, or the turn given back.
    Done,
    /// Whether the turn was taken.
    Turn(bool),
}

impl Observed {
    /// The value that was found, 0 if the step found none.
    pub(crate) fn value(self) -> u64
        ensures { result ≡ value_in (observation self) }
    {
        match self {
            Observed::Value(value) => value,
            Observed::Done | Observed::Turn(_) => 0,
        }
    }

    /// Whether the turn was taken.
    pub(crate) fn turn(self) -> bool
        ensures { result ≡ turn_in (observation self) }
    {
        match self {
            Observed::Turn(got) => got,
            Observed::Value(_) | Observed::Done => false,
        }
    }
}

/// The state of a channel.
pub(crate) fn state_word(channel: u32) -> Word
    ensures { result ≡ state_word channel }
{
    Word { channel, at: 0 }
}

/// Word `at` of a channel's block, from 0 to 63.
pub(crate) fn block_word(channel: u32, at: u32) -> Word
    requires { at < 64 }
    ensures { result ≡ block_word channel at }
{
    Word {
        channel,
        at: 1 + at,
    }
}

/// A load.
pub(crate) fn load(target: u32, word: Word) -> Act
    ensures { result ≡ Load target word }
{
    Act::Load { target, word }
}

/// A store.
pub(crate) fn store(target: u32, word: Word, value: u64) -> Act
    ensures { result ≡ Store target word value }
{
    Act::Store {
        target,
        word,
        value,
    }
}

/// An exchange.
pub(crate) fn exchange(target: u32, word: Word, from: u64, to: u64) -> Act
    ensures { result ≡ Exchange target word from to }
{
    Act::Exchange {
        target,
        word,
        from,
        to,
    }
}
