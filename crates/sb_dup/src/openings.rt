// The calls by which objects are opened.
ghost use Rattle.std.specs.Prelude.{◌≡◌, ◌∷◌, [], true, Some, IfOk, IfSome};
ghost use Rattle.sb_call.specs.Arguments.{fits};
ghost use Rattle.sb_call.specs.declared.arguments.Arg.TheVariants.{Num, Str};
ghost use Rattle.sb_call.specs.declared.tags.CallTag.TheVariants as tags;
ghost use Rattle.sb_base.specs.Names.{is_name_of};
ghost use Rattle.sb_dup.specs.Openings.{opening_named, opening_of};

use crate::names::object_name;
use bitflags::Flags;
use sb_base::{NoMemory, Wide};
use sb_call::{Arg, Args, CallTag};
use sb_handles::{Held, Service};
use sb_kernel::Kernel;
use std::alloc::Global;

/// A call that opens an object.
#[derive(Drop)]
pub struct Opening {
    /// Its tag.
    pub tag: CallTag,
    /// Its arguments.
    pub args: Args,
}

// The call of a tag with a name and an access.
fn with_access(alloc: Global, tag: CallTag, name: Wide, access: u32) -> Result<Opening, NoMemory>
    ensures { IfOk result (λ call. call ≡ record { tag = tag; args = Str name ∷ Num access ∷ [] }) }
{
    let mut args = Args::empty(alloc);
    args.push(Arg::Str(name))?;
    args.push(Arg::Num(u64::from(access)))?;
    Ok(Opening { tag, args })
}

// `file.open` with a name, an access and a sharing.
fn file_open(alloc: Global, name: Wide, access: u32, sharing: u32) -> Result<Opening, NoMemory>
    ensures { IfOk result (λ call. call ≡ record { tag = tags.FileOpen; args = Str name ∷ Num access ∷ Num sharing ∷ Num 0 ∷ [] }) }
{
    let Opening { tag, mut args } = with_access(alloc, CallTag::FileOpen, name, access)?;
    args.push(Arg::Num(u64::from(sharing)))?;
    args.push(Arg::Num(0))?;
    Ok(Opening { tag, args })
}

// The call that opens an object under its name.
fn opening_named(
    alloc: Global,
    name: Wide,
    held: Held,
    access: u32,
) -> Result<Option<Opening>, NoMemory>
    requires { is_name_of name ≡ true }
    ensures call { IfOk result (λ call. call ≡ opening_named (Some name) held access) }
    ensures fits { IfOk result (λ call. IfSome call (λ call. fits call.tag call.args ≡ true)) }
{
    let call = match held.object.service {
        Service::File => file_open(alloc, name, access, held.sharing.bits())?,
        Service::Pipe => return Ok(None),
        Service::Key => with_access(alloc, CallTag::KeyOpen, name, access)?,
        Service::Event => with_access(alloc, CallTag::EventOpen, name, access)?,
    };
    Ok(Some(call))
}

/// The call that opens with an access what a handle is open on, with the sharing of the handle. None if no call opens it.
///
/// # Errors
/// `NoMemory` if there was none for the call.
pub(crate) fn opening_of(
    alloc: Global,
    kernel: &Kernel,
    held: Held,
    access: u32,
) -> Result<Option<Opening>, NoMemory>
    ensures call { IfOk result (λ call. call ≡ opening_of kernel.now held access) }
    ensures fits { IfOk result (λ call. IfSome call (λ call. fits call.tag call.args ≡ true)) }
{
    match object_name(kernel, held.object)? {
        Some(name) => opening_named(alloc, name, held, access),
        None => Ok(None),
    }
}
