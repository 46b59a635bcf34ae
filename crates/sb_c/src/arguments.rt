// The arguments of a call, from C.
ghost use Rattle.std.specs.Prelude.{◌≡◌, IfOk, true};
ghost use Rattle.sb_c.specs.Arguments.{argument_meant, is_within, are_within, arguments_meant};

use crate::shapes::Argument;
use sb_base::{NoMemory, Wide};
use sb_call::{Arg, Args};
use std::alloc::Global;

fn is_within(units: &[u16], argument: &Argument) -> bool
    ensures { result ≡ is_within units.now argument.now }
{
    argument.is_text == 0 || argument.start as usize + argument.length as usize <= units.len()
}

/// Whether each string lies within the units.
pub(crate) fn are_within(units: &[u16], arguments: &[Argument]) -> bool
    ensures { result ≡ are_within units.now arguments.now }
{
    for argument in arguments {
        if !is_within(units, argument) {
            return false;
        }
    }
    true
}

// An argument, whose string lies within the units.
fn argument_meant(alloc: Global, units: &[u16], argument: &Argument) -> Result<Arg, NoMemory>
    requires { is_within units.now argument.now ≡ true }
    ensures { IfOk result (λ a. a ≡ argument_meant units.now argument.now) }
{
    if argument.is_text == 0 {
        return Ok(Arg::Num(argument.number));
    }
    let text = &units[argument.start as usize..];
    let text = &text[..argument.length as usize];
    Ok(Arg::Str(Wide::from_units(alloc, text)?))
}

/// The arguments that C means.
///
/// # Errors
/// `NoMemory` if there was none for the list or a string.
#[tactic(auto, using(crate::proofs::ArgumentLemmas::first_within, crate::proofs::ArgumentLemmas::later_within))]
pub(crate) fn arguments_meant(
    alloc: Global,
    units: &[u16],
    arguments: &[Argument],
) -> Result<Args, NoMemory>
    requires { are_within units.now arguments.now ≡ true }
    ensures { IfOk result (λ args. args ≡ arguments_meant units.now arguments.now) }
{
    let mut items = Vec::new(alloc);
    for argument in arguments {
        items.push(argument_meant(alloc, units, argument)?)?;
    }
    Ok(Args::new(items))
}
