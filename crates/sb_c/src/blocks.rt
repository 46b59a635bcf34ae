// Blocks: a copy that C made is checked, and a call is laid out.
ghost use Rattle.std.specs.Prelude.{◌≡◌, ◌<◌, ◌==◌, ◌∷◌, [], IfErr, IfOk, OnOk, length, take, true, false};
ghost use Rattle.sb_call.specs.Tags.{tag_of};
ghost use Rattle.sb_host.specs.Blocks.{copy_of};
ghost use Rattle.sb_c.specs.Blocks.{IsChecked, IsFaultShown, IsLaid, IsNoBlock, block_of_call, call_of_c, has_block};
ghost use Rattle.sb_c.specs.Statuses.{status_of};

use crate::arguments::{are_within, arguments_meant};
use crate::rooms::put;
use crate::shapes::{Argument, CopyFault};
use crate::statuses::Status;
use sb_block::{BlockFault, Words, fault_of};
use sb_call::CallTag;
use sb_host::{NoBlock, block_of, copy_of};
use std::alloc::Global;

fn shown(number: u32, count: u32, first: u64, second: u64) -> CopyFault
    ensures { result ≡ record { number = number; count = count; values = first ∷ second ∷ [] } }
{
    CopyFault {
        number,
        count,
        values: [first, second],
    }
}

// A fault as C sees it.
pub(crate) fn fault_shown(fault: BlockFault) -> CopyFault
    ensures { IsFaultShown fault result }
{
    match fault {
        BlockFault::TooManyParams(count) => shown(1, 1, count, 0),
        BlockFault::BadEnd(end) => shown(2, 1, end, 0),
        BlockFault::CountChanged(seen, copied) => shown(3, 2, seen, copied),
        BlockFault::EndChanged(seen, copied) => shown(4, 2, seen, copied),
        BlockFault::BadParamType(param) => shown(5, 1, u64::from(param), 0),
        BlockFault::BadPlace(param) => shown(6, 1, u64::from(param), 0),
        BlockFault::UnknownTag(tag) => shown(7, 1, tag, 0),
        BlockFault::WrongShape => shown(8, 0, 0, 0),
        BlockFault::BadSize(param) => shown(9, 1, u64::from(param), 0),
        BlockFault::BadName(param) => shown(10, 1, u64::from(param), 0),
    }
}

/// Looks for the first fault of a copy, before which this count and this end were loaded. The words are a copy that nobody writes, and never
/// the channel. A bad call exactly if a worker makes no such copy. Does not allocate.
#[unsafe(no_mangle)]
pub extern "C" fn sb_block_check(count: u64, end: u64, words: &[u64], fault: &mut CopyFault) -> u32
    ensures status { IsChecked (copy_of count end words.now) fault.new (status_of result) }
    ensures same { (result == 3) ≡ false → fault.new ≡ fault.old }
{
    let Some(copy) = copy_of(count, end, words) else {
        return Status::BadCall.number();
    };
    match fault_of(&copy) {
        None => Status::Ok.number(),
        Some(found) => {
            *fault = fault_shown(found);
            Status::Fault.number()
        }
    }
}

/// The call with this number.
pub(crate) fn tag_of(call: u64) -> Option<CallTag>
    ensures { result ≡ tag_of call }
{
    CallTag::try_from(call).ok()
}

// The block of a call of C.
fn block_for(
    alloc: Global,
    call: u64,
    mark: u64,
    arguments: &[Argument],
    units: &[u16],
) -> Result<Words, Status>
    ensures block { IfOk result (λ words. words ≡ block_of_call (call_of_c call arguments.now units.now) mark) }
    ensures some { OnOk result (has_block (call_of_c call arguments.now units.now) ≡ true) }
    ensures none { IfErr result (IsNoBlock (call_of_c call arguments.now units.now)) }
{
    if !are_within(units, arguments) {
        return Err(Status::BadCall);
    }
    let Some(tag) = tag_of(call) else {
        return Err(Status::BadCall);
    };
    let Ok(args) = arguments_meant(alloc, units, arguments) else {
        return Err(Status::NoMemory);
    };
    match block_of(tag, args.as_slice(), mark) {
        Ok(words) => Ok(words),
        Err(NoBlock::Unfit) => Err(Status::BadCall),
        Err(NoBlock::TooBig) => Err(Status::TooBig),
    }
}

/// Lays out the block of a call with a mark, and writes how many words it has. A bad call if there is no such call, a string does not lie within the
/// units, or the arguments are not those of the call.
#[unsafe(no_mangle)]
#[tactic(auto, using(crate::proofs::StatusLemmas::refused_as))]
pub extern "C" fn sb_block_encode(
    alloc: Global,
    call: u64,
    mark: u64,
    arguments: &[Argument],
    units: &[u16],
    words: &mut [u64],
    count: &mut usize,
) -> u32
    ensures status { IsLaid (call_of_c call arguments.now units.now) mark (length words.old) count.new (take count.new words.new) (status_of result) }
    ensures same { 0 < result → (words.new ≡ words.old) × (count.new ≡ count.old) }
{
    let block = match block_for(alloc, call, mark, arguments, units) {
        Ok(block) => block,
        Err(status) => return status.number(),
    };
    if put(block.as_slice(), words, count) {
        Status::Ok.number()
    } else {
        Status::NoRoom.number()
    }
}
