// A call in plain memory: the caller's side of it, one atomic step at a time. It needs no heap and no script, and it trusts none of the numbers
// in that memory, which its owner may have overwritten.
ghost use Rattle.std.specs.Prelude.{◌≡◌, ◌<◌, ◌&&◌, ◌==◌, take, true, false};
ghost use Rattle.sb_block.specs.Layout.{mark_in};
ghost use Rattle.sb_actor.specs.Acts.{abandoned, state_word, block_word};
ghost use Rattle.sb_actor.specs.ThreadTable.{reply_by};
ghost use Rattle.sb_actor.specs.declared.acts.Act.TheVariants.{Store, Exchange};
ghost use Rattle.sb_host.specs.declared.calls.CallPhase.TheVariants.{Try, Fill, Send, Wait, Fetch};
ghost use Rattle.sb_actor.specs.ThreadStages as stage;
ghost use Rattle.sb_host.specs.Calls.{after_round, goes_on, call_in, call_plan, call_after, call_begun, can_begin, has_range, is_call, is_calling, is_placed, phase_in, phase_numbered};

use sb_actor::{ABANDONED, ACKNOWLEDGED, Act, BUSY, FREE, READY};
use sb_block::read_reply;
use sb_call::Reply;
use sb_statements::{CallResult, Word};

/// The phase of a call, named by its next step, or how it ended.
#[derive(Clone, Copy)]
pub(crate) enum CallPhase {
    Idle,
    Try,
    Fill,
    Send,
    Wait,
    Fetch,
    Free,
    Abandon,
    Replied,
    NoChannel,
    SendLost,
    TimedOut,
}

const IDLE: u32 = 0;

const TRY: u32 = 1;

const FILL: u32 = 2;

const SEND: u32 = 3;

const WAIT: u32 = 4;

const FETCH: u32 = 5;

const RELEASE: u32 = 6;

const ABANDON: u32 = 7;

const REPLIED: u32 = 8;

const NO_CHANNEL: u32 = 9;

const SEND_LOST: u32 = 10;

const TIMED_OUT: u32 = 11;

// How many words a reply has.
const REPLY_WORDS: u32 = 12;

/// A call of a target, from its block to its result, in memory of its caller. All zeros is a call that never began. The fields are for
/// `ClientCall` alone; contracts speak of the call that they mean, whatever their numbers are.
#[repr(C)]
#[derive(Drop)]
pub struct ClientCall {
    /// How many channels the target has.
    pub channels: u32,
    /// The channel at which the call is, from 0.
    pub channel: u32,
    /// The phase, as a number.
    pub phase: u32,
    /// How many words of the block are stored, or of the reply loaded.
    pub at: u32,
    /// How many words the block has.
    pub len: u32,
    /// 1 if all channels that were tried in this round are abandoned.
    pub all_abandoned: u32,
    /// After how many rounds of tries, or loads of the state, the call gives up; 0 if it never does.
    pub patience: u64,
    /// How many rounds, or loads, are counted.
    pub count: u64,
    /// The state of the channel that was lost.
    pub found: u64,
    /// The block.
    pub block: [u64; 64],
    /// The reply.
    pub reply: [u64; 12],
}

fn phase_numbered(number: u32) -> CallPhase
    ensures { result ≡ phase_numbered number }
{
    match number {
        TRY => CallPhase::Try,
        FILL => CallPhase::Fill,
        SEND => CallPhase::Send,
        WAIT => CallPhase::Wait,
        FETCH => CallPhase::Fetch,
        RELEASE => CallPhase::Free,
        ABANDON => CallPhase::Abandon,
        REPLIED => CallPhase::Replied,
        NO_CHANNEL => CallPhase::NoChannel,
        SEND_LOST => CallPhase::SendLost,
        TIMED_OUT => CallPhase::TimedOut,
        _ => CallPhase::Idle,
    }
}

fn is_placed(phase: CallPhase, at: u32, len: u32) -> bool
    ensures { result ≡ is_placed phase at len }
{
    match phase {
        CallPhase::Fill => at < len,
        CallPhase::Fetch => at < REPLY_WORDS,
        CallPhase::Free => at == REPLY_WORDS,
        _ => true,
    }
}

fn state_word(channel: u32) -> Word
    ensures { result ≡ state_word channel }
{
    Word { channel, at: 0 }
}

fn block_word(channel: u32, at: u32) -> Word
    requires { at < 64 }
    ensures { result ≡ block_word channel at }
{
    Word {
        channel,
        at: 1 + at,
    }
}

fn exchange(channel: u32, from: u64, to: u64) -> Act
    ensures { result ≡ Exchange 0 (state_word channel) from to }
{
    Act::Exchange {
        target: 0,
        word: state_word(channel),
        from,
        to,
    }
}

fn store_state(channel: u32, value: u64) -> Act
    ensures { result ≡ Store 0 (state_word channel) value }
{
    Act::Store {
        target: 0,
        word: state_word(channel),
        value,
    }
}

// What a fetched reply makes of the call with this mark.
fn reply_by(channel: u32, mark: u64, reply: Reply) -> CallResult
    ensures { result ≡ reply_by channel mark reply }
{
    if reply.mark == mark {
        CallResult::Reply { channel, reply }
    } else {
        CallResult::Foreign {
            channel,
            mark: reply.mark,
        }
    }
}

impl ClientCall {
    /// Memory that holds no call.
    pub fn new() -> ClientCall
        ensures { is_call result ≡ false }
    {
        ClientCall {
            channels: 0,
            channel: 0,
            phase: IDLE,
            at: 0,
            len: 0,
            all_abandoned: 0,
            patience: 0,
            count: 0,
            found: 0,
            block: [0; 64],
            reply: [0; 12],
        }
    }

    fn has_range(&self) -> bool
        ensures { result ≡ has_range self.now }
    {
        self.channel < self.channels
            && self.channels <= 8
            && self.len >= 16
            && self.len <= 64
            && (self.patience == 0 || self.count < self.patience)
    }

    // The phase, idle if the memory holds no call.
    fn phase(&self) -> CallPhase
        ensures { result ≡ phase_in self.now }
    {
        let phase = phase_numbered(self.phase);
        if self.has_range() && is_placed(phase, self.at, self.len) {
            phase
        } else {
            CallPhase::Idle
        }
    }

    /// Whether a call goes on: it began, and has not ended.
    pub fn is_calling(&self) -> bool
        ensures { result ≡ is_calling (call_in self.now).stage }
    {
        !matches!(
            self.phase(),
            CallPhase::Idle
                | CallPhase::Replied
                | CallPhase::NoChannel
                | CallPhase::SendLost
                | CallPhase::TimedOut
        )
    }

    /// Begins a call with a block of 16 to 64 words on the 1 to 8 channels of a target. After `patience` rounds of tries, or loads of the
    /// state of its channel, it gives up; with patience 0 it never does. Its mark is word 1 of the block, and is not 0: calls whose replies
    /// must not be mistaken for each other have different marks. False exactly if one of these does not hold, or a call goes on; then
    /// nothing changes.
    pub fn begin(&mut self, channels: u32, patience: u64, block: &[u64]) -> bool
        ensures done { result ≡ can_begin (call_in self.old) channels block.now }
        ensures begun { result ≡ true → call_in self.new ≡ call_begun channels patience block.now }
        ensures same { result ≡ false → self.new ≡ self.old }
    {
        if self.is_calling()
            || channels == 0
            || channels > 8
            || block.len() < 16
            || block.len() > 64
            || block[1] == 0
        {
            return false;
        }
        self.block[..block.len()].copy_from_slice(block);
        self.len = block.len() as u32;
        self.channels = channels;
        self.channel = 0;
        self.patience = patience;
        self.count = 0;
        self.all_abandoned = 1;
        self.at = 0;
        self.phase = TRY;
        true
    }

    /// Its one next step, `Idle` if no call goes on. The target of a step is 0.
    pub fn plan(&self) -> Act
        ensures { result ≡ call_plan (call_in self.now) }
    {
        match self.phase() {
            CallPhase::Try => exchange(self.channel, FREE, BUSY),
            CallPhase::Fill => Act::Store {
                target: 0,
                word: block_word(self.channel, self.at),
                value: self.block[self.at as usize],
            },
            CallPhase::Send => exchange(self.channel, BUSY, READY),
            CallPhase::Wait => Act::Load {
                target: 0,
                word: state_word(self.channel),
            },
            CallPhase::Fetch => Act::Load {
                target: 0,
                word: block_word(self.channel, 3 + self.at),
            },
            CallPhase::Free => store_state(self.channel, FREE),
            CallPhase::Abandon => store_state(self.channel, ABANDONED),
            CallPhase::Idle
            | CallPhase::Replied
            | CallPhase::NoChannel
            | CallPhase::SendLost
            | CallPhase::TimedOut => Act::Idle,
        }
    }

    /// Goes on by the value that its next step found; a store finds none, and any value will do.
    pub fn after(&mut self, found: u64)
        ensures { call_in self.new ≡ call_after (call_in self.old) found }
    {
        match self.phase() {
            CallPhase::Try => self.after_try(found),
            CallPhase::Fill => self.after_fill(),
            CallPhase::Send => self.after_send(found),
            CallPhase::Wait => self.after_wait(found),
            CallPhase::Fetch => self.after_fetch(found),
            CallPhase::Free => self.phase = REPLIED,
            CallPhase::Abandon => self.phase = TIMED_OUT,
            CallPhase::Idle
            | CallPhase::Replied
            | CallPhase::NoChannel
            | CallPhase::SendLost
            | CallPhase::TimedOut => {}
        }
    }

    // The channel is the call's.
    #[tactic(auto, using(crate::proofs::CallRanges::fills))]
    fn start_filling(&mut self)
        requires { phase_in self.old ≡ Try }
        ensures { call_in self.new ≡ goes_on (call_in self.old) (stage.Fill self.old.channel 0) }
    {
        self.at = 0;
        self.phase = FILL;
    }

    // Whether all channels that were tried in this round are abandoned, with one more that was found in this state.
    fn are_abandoned(&self, found: u64) -> bool
        ensures { result ≡ (self.now.all_abandoned == 1 && found == abandoned) }
    {
        self.all_abandoned == 1 && found == ABANDONED
    }

    // By what the exchange from free to busy found.
    fn after_try(&mut self, found: u64)
        requires { phase_in self.old ≡ Try }
        ensures { call_in self.new ≡ call_after (call_in self.old) found }
    {
        if found == FREE {
            self.start_filling();
            return;
        }
        if self.channel + 1 == self.channels {
            self.after_round(self.are_abandoned(found));
            return;
        }
        if found != ABANDONED {
            self.all_abandoned = 0;
        }
        self.channel += 1;
    }

    // After the last channel.
    fn after_round(&mut self, all_abandoned: bool)
        requires { phase_in self.old ≡ Try }
        ensures { call_in self.new ≡ after_round (call_in self.old) self.old.count all_abandoned }
    {
        if all_abandoned {
            self.phase = NO_CHANNEL;
            return;
        }
        if self.patience != 0 {
            if self.count + 1 == self.patience {
                self.phase = NO_CHANNEL;
                return;
            }
            self.count += 1;
        }
        self.channel = 0;
        self.all_abandoned = 1;
    }

    // After a word of the block was stored.
    fn after_fill(&mut self)
        requires { phase_in self.old ≡ Fill }
        ensures { call_in self.new ≡ call_after (call_in self.old) 0 }
    {
        self.at += 1;
        if self.at == self.len {
            self.phase = SEND;
        }
    }

    // By what the exchange from busy to ready found.
    fn after_send(&mut self, found: u64)
        requires { phase_in self.old ≡ Send }
        ensures { call_in self.new ≡ call_after (call_in self.old) found }
    {
        if found == BUSY {
            self.count = 0;
            self.phase = WAIT;
        } else {
            self.found = found;
            self.phase = SEND_LOST;
        }
    }

    // By the state that a load found.
    fn after_wait(&mut self, found: u64)
        requires { phase_in self.old ≡ Wait }
        ensures { call_in self.new ≡ call_after (call_in self.old) found }
    {
        if found == ACKNOWLEDGED {
            self.at = 0;
            self.phase = FETCH;
        } else if self.patience != 0 {
            if self.count + 1 == self.patience {
                self.phase = ABANDON;
            } else {
                self.count += 1;
            }
        }
    }

    // By a word of the reply.
    fn after_fetch(&mut self, found: u64)
        requires { phase_in self.old ≡ Fetch }
        ensures { call_in self.new ≡ call_after (call_in self.old) found }
    {
        self.reply[self.at as usize] = found;
        self.at += 1;
        if self.at == REPLY_WORDS {
            self.phase = RELEASE;
        }
    }

    /// How the call ended. None if it goes on or none began.
    pub fn result(&self) -> Option<CallResult>
        ensures { result ≡ (call_in self.now).result }
    {
        match self.phase() {
            CallPhase::Replied => Some(reply_by(
                self.channel,
                self.mark(),
                read_reply(&self.reply),
            )),
            CallPhase::NoChannel => Some(CallResult::NoChannel),
            CallPhase::SendLost => Some(CallResult::SendLost {
                channel: self.channel,
                found: self.found,
            }),
            CallPhase::TimedOut => Some(CallResult::TimedOut {
                channel: self.channel,
            }),
            _ => None,
        }
    }

    // The mark of the block.
    fn mark(&self) -> u64
        requires { is_call self.now ≡ true }
        ensures { result ≡ mark_in (take self.now.len self.now.block) }
    {
        self.block[1]
    }
}
