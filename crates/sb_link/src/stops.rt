// Copies whose names are resolved, and why a call stops.
ghost use Rattle.std.specs.Prelude.{◌≡◌, ◌<◌, ◌^◌, IfOk, Ok, length, true};
ghost use Rattle.sb_block.specs.Calls.{called, decoded};
ghost use Rattle.sb_call.specs.Arguments.{fits};
ghost use Rattle.sb_base.specs.Refusals.{Gives, GivesAs};
ghost use Rattle.sb_link.specs.Answers.{IsFittingCall, IsResolvedCall, copy_of, linked, resolved_arg, resolved_copy, resolved_from, stopped_reply};

use crate::links::Links;
use sb_base::{NoMemory, Refused};
use sb_block::{BlockCopy, BlockFault, BlockRefused, Call, decode, encode};
use sb_call::{Arg, Args, CallTag, Extended, PATH_NOT_FOUND, ParamKind, Reply, shape};
use std::alloc::Global;

/// Why a call stops before it is judged.
#[derive(Clone, Copy)]
pub enum Stop {
    /// This parameter, from 0, is a name to which a link still applies after 8 steps; no earlier parameter is.
    Loop(u32),
    /// The block of the call with its names resolved needs more than 64 words.
    TooBig,
}

/// A call that stops.
#[derive(Clone, Copy)]
pub struct StoppedCall {
    /// The tag of the call.
    pub tag: CallTag,
    /// Why it stops.
    pub stop: Stop,
}

/// A copy whose names are resolved, with what it says: its call, or its first fault.
#[derive(Drop)]
pub(crate) struct LinkedCopy {
    /// The copy.
    pub(crate) copy: BlockCopy,
    /// Its call, or its first fault.
    pub(crate) call: Result<Call, BlockFault>,
}

// An argument of a kind: a name as what it resolves to, None if it does not, and any other as it is.
fn resolve_arg(
    alloc: Global,
    links: &Links,
    kind: ParamKind,
    arg: &Arg,
) -> Result<Option<Arg>, NoMemory>
    ensures { IfOk result (λ a. a ≡ resolved_arg links.now kind arg.now) }
{
    match (kind, arg) {
        (ParamKind::Name, Arg::Str(name)) => match links.resolve(alloc, name.as_units())? {
            Some(resolved) => Ok(Some(Arg::Str(resolved))),
            None => Ok(None),
        },
        _ => Ok(Some(arg.clone()?)),
    }
}

// The arguments of these kinds, resolved.
#[tactic(auto, using(crate::proofs::Resolved::one_resolved, crate::proofs::Resolved::none_resolved, crate::proofs::Resolved::no_args, crate::proofs::Resolved::no_kinds, crate::proofs::Resolved::at_first))]
fn resolve_from(
    alloc: Global,
    links: &Links,
    kinds: &[ParamKind],
    args: &[Arg],
) -> Result<Args, Refused<Stop>>
    requires { length kinds.now < 2 ^ 32 }
    ensures { Gives (resolved_from links.now 0 kinds.now args.now) result }
{
    let mut resolved = Args::empty(alloc);
    let mut parameter = 0;
    let mut kinds = kinds;
    let mut args = args;
    while let Some((kind, more_kinds)) = kinds.split_first() {
        let Some((arg, more_args)) = args.split_first() else {
            return Ok(resolved);
        };
        match resolve_arg(alloc, links, *kind, arg)? {
            Some(other) => resolved.push(other)?,
            None => return Err(Refused::Fault(Stop::Loop(parameter))),
        }
        parameter += 1;
        kinds = more_kinds;
        args = more_args;
    }
    Ok(resolved)
}

// The copy of the whole block of a call.
fn copy_of(tag: CallTag, mark: u64, args: &[Arg]) -> Result<BlockCopy, Refused<Stop>>
    requires { fits tag args.now ≡ true }
    ensures copy { Gives (copy_of tag mark args.now) result }
    ensures back { IfOk result (λ copy. decoded copy ≡ Ok (called tag mark args.now)) }
{
    match encode(tag, args, mark) {
        Ok(words) => {
            let end = words.len() as u64;
            Ok(BlockCopy::of(args.len() as u64, end, words).unwrap())
        }
        Err(_) => Err(Refused::Fault(Stop::TooBig)),
    }
}

// A call whose names are resolved, and the copy of its whole block.
#[tactic(auto, using(crate::proofs::Resolved::shapes_are_short, crate::proofs::Resolved::resolved_fit, crate::proofs::Resolved::names_resolved))]
fn link_call(alloc: Global, links: &Links, call: &Call) -> Result<LinkedCopy, Refused<Stop>>
    requires { fits call.now.tag call.now.args ≡ true }
    ensures copy { GivesAs (λ linked. linked.copy) (resolved_copy links.now call.now) result }
    ensures call { IfOk result (λ linked. decoded linked.copy ≡ linked.call) }
    ensures fits { IfOk result (λ linked. IsFittingCall linked.call) }
    ensures resolved { IfOk result (λ linked. IsResolvedCall links.now linked.call) }
{
    links.establish_links();
    let args = resolve_from(alloc, links, shape(call.tag), call.args.as_slice())?;
    let copy = copy_of(call.tag, call.mark, args.as_slice())?;
    let call = Call {
        tag: call.tag,
        mark: call.mark,
        args,
    };
    Ok(LinkedCopy {
        copy,
        call: Ok(call),
    })
}

/// The copy with its names resolved, and its call; a copy with a fault stays as it is.
///
/// # Errors
/// `Fault` exactly if a name of the call does not resolve, or its block with the names resolved needs more than 64 words. `NoMemory`
/// if there was none for the call.
pub(crate) fn link(
    alloc: Global,
    links: &Links,
    taken: &BlockCopy,
) -> Result<LinkedCopy, Refused<StoppedCall>>
    ensures copy { GivesAs (λ linked. linked.copy) (linked links.now taken.now) result }
    ensures call { IfOk result (λ linked. decoded linked.copy ≡ linked.call) }
    ensures fits { IfOk result (λ linked. IsFittingCall linked.call) }
    ensures resolved { IfOk result (λ linked. IsResolvedCall links.now linked.call) }
{
    let call = match decode(alloc, taken) {
        Ok(call) => call,
        Err(BlockRefused::Fault(fault)) => {
            return Ok(LinkedCopy {
                copy: taken.copy(),
                call: Err(fault),
            });
        }
        Err(BlockRefused::NoMemory) => return Err(Refused::NoMemory),
    };
    match link_call(alloc, links, &call) {
        Ok(linked) => Ok(linked),
        Err(Refused::Fault(stop)) => Err(Refused::Fault(StoppedCall {
            tag: call.tag,
            stop,
        })),
        Err(Refused::NoMemory) => Err(Refused::NoMemory),
    }
}

/// The reply to a call that stops.
pub(crate) fn stopped_reply(mark: u64) -> Reply
    ensures { result ≡ stopped_reply mark }
{
    Reply {
        mark,
        outcome: 2,
        status: u64::from(PATH_NOT_FOUND),
        handle: 0,
        ext: Extended::empty(),
    }
}
