// The memory that `close` fills, taken at opening.
ghost use Rattle.std.specs.Prelude.{◌≡◌, ◌<◌, ◌≤◌, length, take, drop, true, IfOk};
ghost use Rattle.core.specs.Mem.Slots.{IsFull, slots_items, slots_len};
ghost use Rattle.std.specs.Vec.Iter.{into_iter_items, into_iter_len};
ghost use Rattle.sb_shared.specs.Opening.{thread_places};
ghost use Rattle.sb_shared.specs.Rooms.{AreRooms, channel_counts, thread_counts, words_from};
ghost use Rattle.sb_shared.specs.Rule.{word_count};

use crate::layout::{CHANNEL_STRIDE, TARGET_STRIDE};
use crate::protocol::Slot;
use atomic_table::Closed;
use sb_actor::WorkerState;
use sb_base::NoMemory;
use sb_book::{TargetResults, ThreadResults, WordList};
use sb_statements::{SoundScript, WORDS_OF_CHANNEL};
use std::alloc::Global;
use std::marker::Model;
use std::vec::IntoIter;

/// Room for the words of a target. Contracts see how many channels it has.
pub(crate) struct WordRoom {
    channels: usize,
    words: Vec<u64>,
}

impl Drop for WordRoom {
    fn drop(self) {
        let WordRoom {
            channels: _,
            words: _,
        } = self;
    }
}

impl Model for WordRoom {
    ghost use Rattle.std.specs.Prelude.{ℕ, ◌*◌, ◌≡◌, ◌≤◌, [], vec_capacity};

    ghost Value = { ℕ };

    ghost view = { λ r. r.channels };

    ghost invariant = { λ r. (r.channels ≤ 8) × (r.words.items ≡ []) × (r.channels * 65 ≤ vec_capacity r.words) };
}

impl WordRoom {
    // Room for the words of this many channels.
    fn new(alloc: Global, channels: u32) -> Result<WordRoom, NoMemory>
        requires { channels ≤ 8 }
        ensures { IfOk result (λ room. room ≡ channels) }
    {
        let channels = channels as usize;
        Ok(WordRoom {
            channels,
            words: Vec::with_capacity(alloc, channels * WORDS_OF_CHANNEL)?,
        })
    }

    // The words of a target, from a table that is closed.
    pub(crate) fn fill(self, closed: &Closed<Slot, Global>, target: usize) -> WordList
        requires full { IsFull closed.now.words }
        requires count { slots_len closed.now.words ≡ word_count }
        requires target { target < 8 }
        ensures { result ≡ words_from (slots_items closed.now.words) target self }
    {
        let WordRoom {
            channels,
            mut words,
        } = self;
        for place in 0..channels * WORDS_OF_CHANNEL {
            let (channel, at) = (place / WORDS_OF_CHANNEL, place % WORDS_OF_CHANNEL);
            words.push_reserved(closed.word(
                target * TARGET_STRIDE + channel * CHANNEL_STRIDE + at,
            ));
        }
        WordList::new(words)
    }
}

/// Room for the results of a target's threads. Contracts see how many threads it has.
pub(crate) struct ResultRoom {
    threads: usize,
    results: Vec<ThreadResults>,
}

impl Drop for ResultRoom {
    fn drop(self) {
        let ResultRoom {
            threads: _,
            results: _,
        } = self;
    }
}

impl Model for ResultRoom {
    ghost use Rattle.std.specs.Prelude.{ℕ, ◌≡◌, ◌≤◌, [], vec_capacity};

    ghost Value = { ℕ };

    ghost view = { λ r. r.threads };

    ghost invariant = { λ r. (r.results.items ≡ []) × (r.threads ≤ vec_capacity r.results) };
}

impl ResultRoom {
    // Room for the results of this many threads.
    fn new(alloc: Global, threads: u32) -> Result<ResultRoom, NoMemory>
        ensures { IfOk result (λ room. room ≡ threads) }
    {
        let threads = threads as usize;
        Ok(ResultRoom {
            threads,
            results: Vec::with_capacity(alloc, threads)?,
        })
    }

    // The results of the target's threads, which are the next ones.
    pub(crate) fn fill(self, next: &mut IntoIter<ThreadResults>) -> TargetResults
        requires counted { into_iter_len next.old ≡ length (into_iter_items next.old) }
        ensures counted { into_iter_len next.new ≡ length (into_iter_items next.new) }
        ensures taken { result ≡ take self (into_iter_items next.old) }
        ensures left { into_iter_items next.new ≡ drop self (into_iter_items next.old) }
    {
        let ResultRoom {
            threads,
            mut results,
        } = self;
        for _thread in 0..threads {
            if let Some(taken) = next.next() {
                results.push_reserved(taken);
            }
        }
        TargetResults::new(results)
    }
}

/// Room for what a closed run consists of.
#[derive(Drop)]
pub(crate) struct Rooms {
    // For the words of each target, and for the list of them.
    pub(crate) words: Vec<WordRoom>,
    pub(crate) all_words: Vec<WordList>,
    // For the workers.
    pub(crate) workers: Vec<WorkerState>,
    // For the results of all threads in one list, for those of each target, and for the list of these.
    pub(crate) threads: Vec<ThreadResults>,
    pub(crate) results: Vec<ResultRoom>,
    pub(crate) all_results: Vec<TargetResults>,
}

// For the words of each target.
fn word_rooms(alloc: Global, script: &SoundScript) -> Result<Vec<WordRoom>, NoMemory>
    ensures { IfOk result (λ rooms. rooms.items ≡ channel_counts script.now.targets) }
{
    let mut rooms = Vec::new(alloc);
    for target in 0..script.target_count() {
        rooms.push(WordRoom::new(alloc, script.channel_count(target))?)?;
    }
    Ok(rooms)
}

// For the results of each target.
fn result_rooms(alloc: Global, script: &SoundScript) -> Result<Vec<ResultRoom>, NoMemory>
    ensures { IfOk result (λ rooms. rooms.items ≡ thread_counts script.now.targets) }
{
    let mut rooms = Vec::new(alloc);
    for target in 0..script.target_count() {
        rooms.push(ResultRoom::new(alloc, script.thread_count(target))?)?;
    }
    Ok(rooms)
}

/// Room for what the run of a script is closed into. The script has this many threads in all.
///
/// # Errors
/// `NoMemory` if there is not enough.
pub(crate) fn make_rooms(
    alloc: Global,
    script: &SoundScript,
    threads: usize,
) -> Result<Rooms, NoMemory>
    requires threads { threads ≡ length (thread_places script.now.targets) }
    ensures { IfOk result (λ rooms. AreRooms script.now.targets rooms) }
{
    let targets = script.target_count() as usize;
    Ok(Rooms {
        words: word_rooms(alloc, script)?,
        all_words: Vec::with_capacity(alloc, targets)?,
        workers: Vec::with_capacity(alloc, targets)?,
        threads: Vec::with_capacity(alloc, threads)?,
        results: result_rooms(alloc, script)?,
        all_results: Vec::with_capacity(alloc, targets)?,
    })
}
