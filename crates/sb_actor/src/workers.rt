// The worker of a target.
ghost use Rattle.std.specs.Prelude.{◌≡◌, ◌+◌, ◌%◌, ◌<◌, ◌≤◌, [], length, option_map};
ghost use Rattle.sb_block.specs.Copies.{copied};
ghost use Rattle.sb_actor.specs.Ranges.{IsSoundStage};
ghost use Rattle.sb_actor.specs.WorkerStages.{Look};
ghost use Rattle.sb_actor.specs.Acts.{observation};
ghost use Rattle.sb_actor.specs.Observations.{Answered};
ghost use Rattle.sb_actor.specs.WorkerTable.{worker_plan, worker_after, after_count, after_end, look_next, at_stage, IsAnswer, taken_in, is_looking};
ghost use Rattle.sb_actor.specs.declared.acts.Act.TheVariants.{Answer};

use crate::acts::{
    ACKNOWLEDGED, Act, Observed, READY, block_word, exchange, load, state_word, store,
};
use crate::memory::Memory;
use crate::stages::WorkerStage;
use sb_block::{
    BlockCopy, COUNT_WORD, FIRST_DESCRIPTOR, FIRST_REPLY_WORD, MAX_PARAMETERS, REPLY_LENGTH, Words,
    is_end, offset_of, reply_words,
};
use sb_call::Reply;
use std::marker::Model;

/// The worker of a target, which serves its channels in turn: it looks for one whose block is whole, copies the block word by
/// word, has the book answer the copy, and stores the reply. Contracts see its stage, with what belongs to it.
#[derive(Drop)]
pub struct WorkerState {
    target: u32,
    channels: u32,
    channel: u32,
    stage: WorkerStage,
    words: Words,
    taken: BlockCopy,
    reply: [u64; 12],
}

impl Model for WorkerState {
    ghost use Rattle.std.specs.Prelude.{◌≡◌, ◌<◌, ◌≤◌, length};
    ghost use Rattle.sb_actor.specs.Ranges.{IsSoundStage};
    ghost use Rattle.sb_actor.specs.WorkerStages.{WorkerAt, worker_stage};

    ghost Value = { WorkerAt };

    ghost view = { λ w. record {
      target = w.target;
      channels = w.channels;
      channel = w.channel;
      stage = worker_stage w.stage w.words w.taken w.reply;
    } };

    ghost invariant = { λ w. (w.channel < w.channels) × (w.channels ≤ 8) × (length w.words ≤ 64) × (length w.reply ≡ 12)
        × IsSoundStage (worker_stage w.stage w.words w.taken w.reply) };
}

// The channel after this one, in turn.
pub(crate) fn next_channel(channel: u32, channels: u32) -> u32
    requires within { channel < channels }
    requires few { channels ≤ 8 }
    ensures next { result ≡ (channel + 1) % channels }
    ensures within { result < channels }
{
    let next = channel + 1;
    if next == channels { 0 } else { next }
}

// A copy that ended before its first word, since its count is too large.
fn no_copy() -> BlockCopy
    ensures { result ≡ copied 10 0 [] }
{
    BlockCopy::of(10, 0, Words::empty()).unwrap()
}

impl WorkerState {
    /// A worker of a target that has 1 to 8 channels. It begins with a look at channel 0.
    pub fn new(target: u32, channels: u32) -> WorkerState
        requires some { 0 < channels }
        requires few { channels ≤ 8 }
        ensures { result ≡ record { target = target; channels = channels; channel = 0; stage = Look } }
    {
        WorkerState {
            target,
            channels,
            channel: 0,
            stage: WorkerStage::Look,
            words: Words::empty(),
            taken: no_copy(),
            reply: [0; REPLY_LENGTH],
        }
    }

    /// Its one next step.
    #[inline(always)]
    pub fn plan(&self) -> Act
        ensures plan { result ≡ worker_plan self.now }
    {
        let target = self.target;
        let channel = self.channel;
        match self.stage {
            WorkerStage::Look => load(target, state_word(channel)),
            WorkerStage::Count => load(target, block_word(channel, COUNT_WORD as u32)),
            WorkerStage::End { count } => {
                load(
                    target,
                    block_word(channel, (FIRST_DESCRIPTOR + count) as u32),
                )
            }
            WorkerStage::Copy { .. } => load(target, block_word(channel, self.words.len() as u32)),
            WorkerStage::Take => Act::Take,
            WorkerStage::Answer => Act::Answer,
            WorkerStage::Give => Act::Give,
            WorkerStage::Reply { at } => {
                let value = self.reply[at as usize];
                store(target, block_word(channel, FIRST_REPLY_WORD + at), value)
            }
            WorkerStage::Ack => exchange(target, state_word(channel), READY, ACKNOWLEDGED),
        }
    }

    // It looks at the next channel, after the last at channel 0.
    fn look_next(&mut self)
        ensures { self.new ≡ look_next self.old }
    {
        self.channel = next_channel(self.channel, self.channels);
        self.stage = WorkerStage::Look;
    }

    // By the count of parameters. A count that no block has ends the copy before its first word.
    fn after_count(&mut self, count: u64)
        ensures { self.new ≡ at_stage self.old (after_count count) }
    {
        if count > MAX_PARAMETERS {
            self.words.clear();
            self.taken.assign(count, 0, &self.words);
            self.stage = WorkerStage::Take;
        } else {
            self.stage = WorkerStage::End { count };
        }
    }

    // By the end of a block with this many parameters. So does an end that no such block has.
    fn after_end(&mut self, count: u64, end: u64)
        requires few { count ≤ 9 }
        ensures { self.new ≡ at_stage self.old (after_end count end) }
    {
        self.words.clear();
        if is_end(count, end) {
            self.stage = WorkerStage::Copy { count, end };
        } else {
            self.taken.assign(count, end, &self.words);
            self.stage = WorkerStage::Take;
        }
    }

    /// Makes its next step, which is one row of its table and not at Answer. At Answer it goes on by the reply (`accept_reply`).
    #[inline(always)]
    pub fn step<M: Memory>(&mut self, memory: &mut M)
        requires allowed { M.allows memory.old (worker_plan self.old) }
        requires answer { IsAnswer self.old.stage (M.finds memory.old (worker_plan self.old)) }
        ensures memory { memory.new ≡ M.leaves memory.old (worker_plan self.old) }
        ensures worker { self.new ≡ worker_after self.old (M.finds memory.old (worker_plan self.old)) }
    {
        let act = self.plan();
        match self.stage {
            WorkerStage::Look => {
                if memory.access(act).value() == READY {
                    self.stage = WorkerStage::Count;
                } else {
                    self.look_next();
                }
            }
            WorkerStage::Count => {
                let count = memory.access(act).value();
                self.after_count(count);
            }
            WorkerStage::End { count } => {
                let end = offset_of(memory.access(act).value());
                self.after_end(count, end);
            }
            WorkerStage::Copy { count, end } => {
                self.words.push(memory.access(act).value());
                if self.words.len() as u64 == end {
                    self.taken.assign(count, end, &self.words);
                    self.stage = WorkerStage::Take;
                }
            }
            WorkerStage::Take => {
                if memory.access(act).turn() {
                    self.stage = WorkerStage::Answer;
                }
            }
            WorkerStage::Answer => {
                memory.access(act);
                self.reply = [0; REPLY_LENGTH];
                self.stage = WorkerStage::Give;
            }
            WorkerStage::Give => {
                memory.access(act);
                self.stage = WorkerStage::Reply { at: 0 };
            }
            WorkerStage::Reply { at } if at as usize + 1 == REPLY_LENGTH => {
                memory.access(act);
                self.stage = WorkerStage::Ack;
            }
            WorkerStage::Reply { at } => {
                memory.access(act);
                self.stage = WorkerStage::Reply { at: at + 1 };
            }
            WorkerStage::Ack => {
                memory.access(act);
                self.look_next();
            }
        }
    }

    /// Goes on by what its next step found, which was made elsewhere and not at Answer.
    pub fn after(&mut self, observed: Observed)
        requires answer { IsAnswer self.old.stage (observation observed) }
        ensures { self.new ≡ worker_after self.old (observation observed) }
    {
        let mut found = observed;
        self.step(&mut found);
    }

    /// Goes on from Answer by what the book replied, which has the mark of the copy.
    pub fn accept_reply(&mut self, reply: &Reply)
        requires plan { worker_plan self.old ≡ Answer }
        requires answer { IsAnswer self.old.stage (Answered reply.now) }
        ensures { self.new ≡ worker_after self.old (Answered reply.now) }
    {
        self.reply = reply_words(reply);
        self.stage = WorkerStage::Give;
    }

    /// The copy, exactly from its end until the turn is given back.
    pub fn taken(&self) -> Option<&BlockCopy>
        ensures { option_map (λ t. t.now) result ≡ taken_in self.now.stage }
    {
        match self.stage {
            WorkerStage::Take | WorkerStage::Answer | WorkerStage::Give => Some(&self.taken),
            _ => None,
        }
    }

    /// What holds of every worker: it is at one of its 1 to 8 channels, the numbers of its stage are in their ranges, what it has
    /// copied keeps the rule of a copy, and its reply has twelve words, the first of which is the mark of its copy. It does nothing:
    /// its contract is the facts.
    pub fn establish_sound(&self)
        ensures within { self.now.channel < self.now.channels }
        ensures few { self.now.channels ≤ 8 }
        ensures stage { IsSoundStage self.now.stage }
    {
        let _words = self.taken.words();
    }

    /// The target, from 0.
    pub fn target(&self) -> u32
        ensures { result ≡ self.now.target }
    {
        self.target
    }

    /// How many channels the target has, from 1 to 8.
    pub fn channels(&self) -> u32
        ensures channels { result ≡ self.now.channels }
        ensures some { 0 < result }
        ensures few { result ≤ 8 }
    {
        self.channels
    }

    /// The channel at which it is, from 0.
    pub fn channel(&self) -> u32
        ensures channel { result ≡ self.now.channel }
        ensures within { result < self.now.channels }
    {
        self.channel
    }

    /// Whether its next step is a look at the state of a channel.
    pub fn looking(&self) -> bool
        ensures { result ≡ is_looking self.now.stage }
    {
        matches!(self.stage, WorkerStage::Look)
    }
}
