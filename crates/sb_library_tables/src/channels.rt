// The words of one channel, in the memory of this program.

use sb_actor::{ACKNOWLEDGED, Act, FREE, Observed, READY};
use sb_statements::Word;

const WORDS: usize = 65;

/// The state of a channel, and its block.
pub struct Channel {
    words: [u64; WORDS],
}

impl Drop for Channel {
    fn drop(self) {
        let Channel { words: _ } = self;
    }
}

impl Channel {
    /// A channel in this state, with zeros in its block.
    pub fn new(state: u64) -> Channel {
        let mut words = [0; WORDS];
        words[0] = state;
        Channel { words }
    }

    /// A free channel.
    pub fn free() -> Channel {
        Channel::new(FREE)
    }

    /// A channel with a block that is handed over, of which at most 64 words count.
    pub fn ready(block: &[u64]) -> Channel {
        let mut channel = Channel::new(READY);
        for (at, word) in block.iter().enumerate() {
            channel.set(at.saturating_add(1), *word);
        }
        channel
    }

    /// Whether a reply is there.
    pub fn is_acknowledged(&self) -> bool {
        self.words[0] == ACKNOWLEDGED
    }

    /// The word at this place, 0 beyond the last.
    pub fn get(&self, at: usize) -> u64 {
        match self.words.get(at) {
            Some(word) => *word,
            None => 0,
        }
    }

    fn set(&mut self, at: usize, value: u64) {
        if at < WORDS {
            self.words[at] = value;
        }
    }

    fn at(word: Word) -> usize {
        word.at as usize
    }

    /// Makes a step, and gives what it found. The turn is always free.
    pub fn step(&mut self, act: Act) -> Observed {
        match act {
            Act::Load { word, .. } => Observed::Value(self.get(Channel::at(word))),
            Act::Store { word, value, .. } => {
                self.set(Channel::at(word), value);
                Observed::Done
            }
            Act::Exchange { word, from, to, .. } => {
                let found = self.get(Channel::at(word));
                if found == from {
                    self.set(Channel::at(word), to);
                }
                Observed::Value(found)
            }
            Act::Take => Observed::Turn(true),
            Act::Answer | Act::Give | Act::Idle => Observed::Done,
        }
    }
}
