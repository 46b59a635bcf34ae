// The calls of generated scripts: eight kinds, each with a number.
ghost use Rattle.std.specs.Prelude.{◌≡◌, ◌∷◌, map, IfOk};
ghost use Rattle.sb_call.specs.declared.arguments.Arg.TheVariants.{Num, Str};
ghost use Rattle.sb_statements.specs.declared.statements.Statement.TheVariants.{Call};
ghost use Rattle.sb_gen.specs.Calls.{ping, call_of, statement_of};

use crate::generator::Generator;
use crate::names::{ascii, name_within, numbered};
use sb_base::{NoMemory, Wide};
use sb_call::{Arg, Args, CallTag};
use sb_statements::Statement;
use std::alloc::Global;

// The call of a name and these numbers.
fn named_call(
    alloc: Global,
    tag: CallTag,
    name: Wide,
    numbers: &[u64],
) -> Result<Statement, NoMemory>
    ensures { IfOk result (λ made. made ≡ Call tag (Str name ∷ map Num numbers.now)) }
{
    let mut args = Vec::with_capacity(alloc, 1 + numbers.len())?;
    args.push(Arg::Str(name))?;
    for number in numbers {
        args.push(Arg::Num(*number))?;
    }
    Ok(Statement::Call {
        tag,
        args: Args::new(args),
    })
}

// Pings with the number and a text.
fn ping(alloc: Global, number: u64) -> Result<Statement, NoMemory>
    ensures { IfOk result (λ made. made ≡ ping number) }
{
    let mut args = Vec::with_capacity(alloc, 2)?;
    args.push(Arg::Num(number))?;
    args.push(Arg::Str(ascii(alloc, b"made")?))?;
    Ok(Statement::Call {
        tag: CallTag::Ping,
        args: Args::new(args),
    })
}

// The call of a kind, from 0 to 7, with its number, by a thread of a target.
fn call_of(alloc: Global, target: u32, kind: u64, number: u64) -> Result<Statement, NoMemory>
    ensures { IfOk result (λ made. made ≡ call_of target kind number) }
{
    match kind {
        0 => {
            let name = name_within(alloc, target, number)?;
            named_call(alloc, CallTag::FileCreate, name, &[0, 3, 7, 3, 0x40])
        }
        1 => {
            let name = name_within(alloc, target, number)?;
            named_call(alloc, CallTag::FileQuery, name, &[])
        }
        2 => {
            let name = numbered(alloc, b"\\other\\k", number)?;
            named_call(alloc, CallTag::FileOpen, name, &[1, 7, 0x40])
        }
        6 => ping(alloc, number),
        _ => {
            let name = numbered(alloc, b"\\k", number)?;
            match kind {
                3 => named_call(alloc, CallTag::EventCreate, name, &[0, 0]),
                4 => named_call(alloc, CallTag::EventOpen, name, &[0]),
                5 => named_call(alloc, CallTag::KeyOpen, name, &[number]),
                _ => named_call(alloc, CallTag::PipeCreate, name, &[3, 0, 255]),
            }
        }
    }
}

/// The statement that the generator's number denotes, in a thread of this target.
///
/// # Errors
/// `NoMemory` if memory runs out.
pub fn statement(alloc: Global, target: u32, generator: &Generator) -> Result<Statement, NoMemory>
    ensures { IfOk result (λ made. made ≡ statement_of target generator.now) }
{
    call_of(alloc, target, generator.kind(), generator.named_number())
}
