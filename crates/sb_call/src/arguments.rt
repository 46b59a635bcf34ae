// The arguments of a call.
ghost use Rattle.std.specs.Prelude.{◌≡◌};
ghost use Rattle.sb_call.specs.Arguments.{fits_kind, fit, fits};

use crate::tags::{CallTag, ParamKind, shape};
use sb_base::{Items, Wide, is_name};
use std::alloc::AllocError;

/// An argument of a call: a number, also for a handle, or a wide string, also for a name.
#[derive(PartialEq)]
pub enum Arg {
    /// A number.
    Num(u64),
    /// A wide string.
    Str(Wide),
}

impl Drop for Arg {
    fn drop(self) {
        match self {
            Arg::Num(_) => {}
            Arg::Str(_) => {}
        }
    }
}

impl Clone for Arg {
    ghost is_clone = { λ arg clone. clone ≡ arg };

    fn clone(&self) -> Result<Arg, AllocError> {
        match self {
            Arg::Num(number) => Ok(Arg::Num(*number)),
            Arg::Str(text) => Ok(Arg::Str(text.clone()?)),
        }
    }
}

/// The arguments of a call, in the order of its parameters.
pub type Args = Items<Arg>;

fn fits_kind(kind: ParamKind, arg: &Arg) -> bool
    ensures { result ≡ fits_kind kind arg.now }
{
    match (kind, arg) {
        (ParamKind::Text, Arg::Str(_)) => true,
        (ParamKind::Name, Arg::Str(text)) => is_name(text.as_units()),
        (ParamKind::Num, Arg::Num(number)) => *number < 1 << 32,
        (ParamKind::Handle, Arg::Num(_)) => true,
        _ => false,
    }
}

fn fit(kinds: &[ParamKind], args: &[Arg]) -> bool
    ensures { result ≡ fit kinds.now args.now }
{
    let mut kinds = kinds;
    let mut args = args;
    while let Some((kind, more_kinds)) = kinds.split_first() {
        let Some((arg, more_args)) = args.split_first() else {
            return false;
        };
        if !fits_kind(*kind, arg) {
            return false;
        }
        kinds = more_kinds;
        args = more_args;
    }
    args.is_empty()
}

/// Whether the arguments are those of a call: as many as its parameters, and each of the kind of its parameter. A text
/// is any string, a name is a string that is a name, a number is below 2^32, and a handle is any number.
pub fn fits(tag: CallTag, args: &[Arg]) -> bool
    ensures { result ≡ fits tag args.now }
{
    fit(shape(tag), args)
}
