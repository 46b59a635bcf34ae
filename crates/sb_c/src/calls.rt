// The caller's side of a call, in memory of C: it needs no handle and no heap.
ghost use Rattle.std.specs.Prelude.{◌≡◌, true, false};
ghost use Rattle.sb_host.specs.Calls.{call_after, call_begun, call_in, call_plan, can_begin};
ghost use Rattle.sb_c.specs.Endings.{ending_shown, plain_ending, reply_shown};
ghost use Rattle.sb_c.specs.Statuses.{done_or_bad};
ghost use Rattle.sb_c.specs.Steps.{step_shown};

use crate::shapes::{CallEnding, Step};
use crate::statuses::Status;
use crate::steps::step_shown;
use sb_block::reply_words;
use sb_host::ClientCall;
use sb_statements::CallResult;

/// Begins a call with a block of 16 to 64 words, as `sb_block_encode` lays it out, on the 1 to 8 channels of a target. With a patience it gives up
/// after as many rounds of tries, or loads of the state; with patience 0 it never does. A bad call exactly if one of these numbers is out of range,
/// the mark is 0, or a call goes on in this memory.
#[unsafe(no_mangle)]
pub extern "C" fn sb_call_begin(
    call: &mut ClientCall,
    channels: u32,
    patience: u64,
    words: &[u64],
) -> u32
    ensures status { result ≡ done_or_bad (can_begin (call_in call.old) channels words.now) }
    ensures begun { result ≡ 0 → call_in call.new ≡ call_begun channels patience words.now }
    ensures same { result ≡ 1 → call.new ≡ call.old }
{
    if call.begin(channels, patience, words) {
        Status::Ok.number()
    } else {
        Status::BadCall.number()
    }
}

/// Writes the one next step of a call, of kind 0 if none goes on.
#[unsafe(no_mangle)]
pub extern "C" fn sb_call_plan(call: &ClientCall, step: &mut Step)
    ensures { step.new ≡ step_shown (call_plan (call_in call.now)) }
{
    *step = step_shown(call.plan());
}

/// Goes on by the value that the next step found; of a store any number.
#[unsafe(no_mangle)]
pub extern "C" fn sb_call_after(call: &mut ClientCall, found: u64)
    ensures { call_in call.new ≡ call_after (call_in call.old) found }
{
    call.after(found);
}

fn plain_ending(kind: u32, channel: u32, found: u64) -> CallEnding
    ensures { result ≡ plain_ending kind channel found }
{
    CallEnding {
        kind,
        channel,
        found,
        outcome: 0,
        status: 0,
        handle: 0,
        count: 0,
        words: [0; 7],
    }
}

fn reply_shown(channel: u32, words: &[u64; 12]) -> CallEnding
    ensures { result ≡ reply_shown channel words.now }
{
    CallEnding {
        kind: 1,
        channel,
        found: words[0],
        outcome: words[1],
        status: words[2],
        handle: words[3],
        count: words[4],
        words: [
            words[5], words[6], words[7], words[8], words[9], words[10], words[11],
        ],
    }
}

fn ending_shown(ended: Option<CallResult>) -> CallEnding
    ensures { result ≡ ending_shown ended }
{
    match ended {
        None => plain_ending(0, 0, 0),
        Some(CallResult::Reply { channel, reply }) => {
            let words = reply_words(&reply);
            reply_shown(channel, &words)
        }
        Some(CallResult::Foreign { channel, mark }) => plain_ending(2, channel, mark),
        Some(CallResult::NoChannel) => plain_ending(3, 0, 0),
        Some(CallResult::SendLost { channel, found }) => plain_ending(4, channel, found),
        Some(CallResult::TimedOut { channel }) => plain_ending(5, channel, 0),
    }
}

/// Writes how a call ended, of kind 0 if it goes on or none began.
#[unsafe(no_mangle)]
pub extern "C" fn sb_call_result(call: &ClientCall, ending: &mut CallEnding)
    ensures { ending.new ≡ ending_shown (call_in call.now).result }
{
    *ending = ending_shown(call.result());
}
