// The opcodes of tests of numbers.
ghost use Rattle.std.specs.Prelude.{◌≡◌, ◌+◌, ◌<◌, ◌≤◌, ◌^◌, ◌++◌, map, length, OnOk};
ghost use Rattle.sb_opcode.specs.Opcodes as op;
ghost use Rattle.sb_opcode.specs.Options.{OR};
ghost use Rattle.sb_compile.specs.Compiling.{opcode, closed, numbers_code};

use crate::groups::{Group, is_none};
use bitflags::Flags;
use sb_base::NoMemory;
use sb_opcode::{Code, OpKind, Options};

// Appends an opcode for each number, of which one is enough.
#[tactic(auto, using(crate::proofs::Steps::choices_step))]
fn push_choices(code: &mut Code, group: Group, numbers: &[u64]) -> Result<(), NoMemory>
    requires { length code.old + length numbers.now + 1 < 2 ^ 32 }
    ensures ok { OnOk result (code.new ≡ code.old ++ closed group.negated (map (λ k. opcode group.param OR (op.Num k)) numbers.now)) }
    ensures few { OnOk result (length code.new ≤ length code.old + length numbers.now) }
{
    let mut rest = numbers;
    while let Some((number, later)) = rest.split_first() {
        group.push(code, Options::OR, OpKind::Num(*number), is_none(later))?;
        rest = later;
    }
    Ok(())
}

// Appends the opcodes of a list of numbers.
pub(crate) fn push_numbers(code: &mut Code, group: Group, numbers: &[u64]) -> Result<(), NoMemory>
    requires { length code.old + length numbers.now + 1 < 2 ^ 32 }
    ensures ok { OnOk result (code.new ≡ code.old ++ closed group.negated (numbers_code group.param numbers.now)) }
    ensures few { OnOk result (length code.new ≤ length code.old + length numbers.now) }
{
    match numbers {
        [] => Ok(()),
        [number] => group.push(code, Options::empty(), OpKind::Num(*number), true),
        _ => push_choices(code, group, numbers),
    }
}
