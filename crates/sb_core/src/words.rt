// The channel words of a target.
ghost use Rattle.std.specs.Prelude.{◌≡◌, ◌+◌, ◌<◌, length, IfOk};
ghost use Rattle.sb_core.specs.Words.{free_channel, free_channels, loaded, stored, exchanged, has_ready};
ghost use Rattle.sb_statements.specs.Words.{place_of};

use sb_actor::{FREE, READY};
use sb_base::{Items, NoMemory};
use sb_statements::{WORDS_OF_CHANNEL, Word};
use std::alloc::Global;
use std::marker::Model;

/// The words of a target's channels: word j of channel c is at `c * 65 + j`. Contracts see them as a list.
///
/// Each load, store and exchange is one atomic step of the actor that makes it. Actors here take turns, step by step.
#[derive(Drop)]
pub(crate) struct TargetWords {
    words: Vec<u64>,
}

impl Model for TargetWords {
    ghost use Rattle.std.specs.Prelude.{List, ℕ};

    ghost Value = { List ℕ };

    ghost view = { λ t. t.words.items };
}

// A free channel whose block words are 0.
fn free_channel() -> [u64; WORDS_OF_CHANNEL]
    ensures { result ≡ free_channel }
{
    let mut words = [0; WORDS_OF_CHANNEL];
    words[0] = FREE;
    words
}

impl TargetWords {
    /// The words of this many free channels.
    ///
    /// # Errors
    /// `NoMemory` if there was none for the words.
    #[tactic(auto, using(crate::proofs::Starting::channels_more))]
    pub(crate) fn free(alloc: Global, channels: u32) -> Result<TargetWords, NoMemory>
        ensures { IfOk result (λ t. t ≡ free_channels channels) }
    {
        let mut words = Vec::new(alloc);
        let channel = free_channel();
        for _channel in 0..channels {
            words.extend_from_slice(&channel)?;
        }
        Ok(TargetWords { words })
    }

    /// The words of a list. Does not allocate.
    pub(crate) fn new(words: Items<u64>) -> TargetWords
        ensures { result ≡ words }
    {
        TargetWords {
            words: words.into_items(),
        }
    }

    /// The words as a list. Does not allocate.
    pub(crate) fn into_list(self) -> Items<u64>
        ensures { result ≡ self }
    {
        Items::new(self.words)
    }

    /// What a word holds.
    pub(crate) fn load(&self, word: Word) -> u64
        requires { place_of word < length self.now }
        ensures { result ≡ loaded self.now word }
    {
        self.words[word.place()]
    }

    /// Stores a value into a word.
    pub(crate) fn store(&mut self, word: Word, value: u64)
        requires { place_of word < length self.old }
        ensures { self.new ≡ stored self.old word value }
    {
        let at = word.place();
        self.words[at] = value;
    }

    /// Stores `to` into a word that holds `from`, and gives what it held.
    pub(crate) fn exchange(&mut self, word: Word, from: u64, to: u64) -> u64
        requires { place_of word < length self.old }
        ensures found { result ≡ loaded self.old word }
        ensures after { self.new ≡ stored self.old word (exchanged (loaded self.old word) from to) }
    {
        let at = word.place();
        let found = self.words[at];
        self.words[at] = if found == from { to } else { found };
        found
    }

    /// Whether the state of a channel is 3.
    pub(crate) fn has_ready(&self) -> bool
        ensures { result ≡ has_ready self.now }
    {
        let mut left = self.words.len() / WORDS_OF_CHANNEL;
        while left > 0 {
            left -= 1;
            if self.words[left * WORDS_OF_CHANNEL] == READY {
                return true;
            }
        }
        false
    }
}
