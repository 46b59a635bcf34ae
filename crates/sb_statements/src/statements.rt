// What the threads of a target do.
ghost use Rattle.std.specs.Prelude.{◌≡◌};
ghost use Rattle.sb_statements.specs.Scripts.{writes_channel};
ghost use Rattle.sb_statements.specs.Words.{place_of};

use sb_base::Items;
use sb_call::{Args, CallTag};
use std::alloc::AllocError;

/// How many words a channel has: its state, and the 64 words of a block.
pub const WORDS_OF_CHANNEL: usize = 65;

/// A word of a target's channels.
#[derive(Clone, Copy, PartialEq, Eq)]
pub struct Word {
    /// The channel, from 0.
    pub channel: u32,
    /// The place in the channel: 0 is the state, and 1 + i is block word i, for i from 0 to 63.
    pub at: u32,
}

impl Word {
    /// Where the word is among the words of its target: word j of channel c is at `c * 65 + j`.
    #[inline(always)]
    pub fn place(self) -> usize
        ensures { result ≡ place_of self }
    {
        self.channel as usize * WORDS_OF_CHANNEL + self.at as usize
    }
}

/// What a thread does. Targets are numbered from 0.
#[derive(PartialEq)]
pub enum Statement {
    /// Forwards a call of its own target.
    Call {
        tag: CallTag,
        args: Args,
    },
    /// Stores a value into a word directly.
    Store {
        target: u32,
        word: Word,
        value: u64,
    },
    /// Stores `to` into a word directly, if it holds `from`.
    Exchange {
        target: u32,
        word: Word,
        from: u64,
        to: u64,
    },
    /// Loads a word.
    Load {
        target: u32,
        word: Word,
    },
    /// Loads a word until it holds the value, at most `most` times.
    Wait {
        target: u32,
        word: Word,
        value: u64,
        most: u32,
    },
}

impl Drop for Statement {
    fn drop(self) {
        match self {
            Statement::Call { tag: _, args: _ } => {}
            Statement::Store {
                target: _,
                word: _,
                value: _,
            } => {}
            Statement::Exchange {
                target: _,
                word: _,
                from: _,
                to: _,
            } => {}
            Statement::Load { target: _, word: _ } => {}
            Statement::Wait {
                target: _,
                word: _,
                value: _,
                most: _,
            } => {}
        }
    }
}

impl Clone for Statement {
    ghost is_clone = { λ statement clone. clone ≡ statement };

    fn clone(&self) -> Result<Statement, AllocError> {
        Ok(match self {
            Statement::Call { tag, args } => Statement::Call {
                tag: *tag,
                args: args.clone()?,
            },
            Statement::Store {
                target,
                word,
                value,
            } => Statement::Store {
                target: *target,
                word: *word,
                value: *value,
            },
            Statement::Exchange {
                target,
                word,
                from,
                to,
            } => Statement::Exchange {
                target: *target,
                word: *word,
                from: *from,
                to: *to,
            },
            Statement::Load { target, word } => Statement::Load {
                target: *target,
                word: *word,
            },
            Statement::Wait {
                target,
                word,
                value,
                most,
            } => Statement::Wait {
                target: *target,
                word: *word,
                value: *value,
                most: *most,
            },
        })
    }
}

impl Statement {
    // Whether this is a store or an exchange that names a word of the channel.
    pub(crate) fn writes_channel(&self, target: u32, channel: u32) -> bool
        ensures { result ≡ writes_channel target channel self.now }
    {
        match self {
            Statement::Store {
                target: named,
                word,
                ..
            } => *named == target && word.channel == channel,
            Statement::Exchange {
                target: named,
                word,
                ..
            } => *named == target && word.channel == channel,
            _ => false,
        }
    }
}

/// The statements of a thread, numbered from 0.
pub type Statements = Items<Statement>;

/// The threads of a target, numbered from 0.
pub type Threads = Items<Statements>;
