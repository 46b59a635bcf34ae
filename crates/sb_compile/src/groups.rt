// Groups of opcodes: what one condition becomes.
ghost use Rattle.std.specs.Prelude.{◌≡◌, ◌+◌, ◌<◌, ◌^◌, ◌++◌, ◌∷◌, [], bit_or, length, map, OnOk};
ghost use Rattle.sb_opcode.specs.Options.{FOLD, EXACT};
ghost use Rattle.sb_rule.specs.declared.cells.Cell.TheVariants.{Lit};
ghost use Rattle.sb_opcode.specs.Opcodes as op;
ghost use Rattle.sb_opcode.specs.declared.opcodes.Seek.TheVariants.{Skip};
ghost use Rattle.sb_opcode.specs.Records.{kind_of};
ghost use Rattle.sb_compile.specs.Compiling.{opcode, closed, end_bits, with_options};
ghost use Rattle.sb_compile.specs.Steps.{is_none, last_if};

use bitflags::Flags;
use sb_base::NoMemory;
use sb_opcode::{Code, Look, OpKind, Opcode, Options, Seek};
use sb_rule::Cell;

// What the opcodes of one condition have in common: the parameter at which they look, and whether what they say is
// negated.
#[derive(Clone, Copy)]
pub(crate) struct Group {
    /// The number of the parameter, from 0.
    pub param: u32,
    /// Whether the condition is met if its opcodes say that it is not.
    pub negated: bool,
}

// The options of an opcode whose string ends with its fragment.
pub(crate) fn whole_string() -> Options
    ensures { result.0 ≡ bit_or FOLD EXACT }
{
    Options::FOLD.union(Options::EXACT)
}

// Whether there is no item.
pub(crate) fn is_none<T>(items: &[T]) -> bool
    ensures { result ≡ is_none items.now }
{
    matches!(items, [])
}

// The options that the last opcode of a group has besides.
fn end_options(negated: bool) -> Options
    ensures { result.0 ≡ end_bits negated }
{
    if negated {
        Options::CLEAR.union(Options::NEGATE)
    } else {
        Options::CLEAR
    }
}

// Appends an opcode without a fragment.
pub(crate) fn push(
    code: &mut Code,
    param: u32,
    options: Options,
    kind: OpKind<'_>,
) -> Result<(), NoMemory>
    requires { length code.old + 1 < 2 ^ 32 }
    ensures { OnOk result (code.new ≡ code.old ++ opcode param options.0 (kind_of kind.entry) ∷ []) }
{
    code.push(Opcode {
        kind,
        param,
        options,
    })
}

impl Group {
    /// Appends an opcode of the group without a fragment. It may be the group's last.
    pub fn push(
        self,
        code: &mut Code,
        options: Options,
        kind: OpKind<'_>,
        is_last: bool,
    ) -> Result<(), NoMemory>
        requires { length code.old + 1 < 2 ^ 32 }
        ensures { OnOk result (code.new ≡ code.old ++ last_if is_last self.negated (opcode self.param options.0 (kind_of kind.entry)) ∷ []) }
    {
        let options = if is_last {
            options.union(end_options(self.negated))
        } else {
            options
        };
        push(code, self.param, options, kind)
    }

    /// Appends a text opcode of the group with these cells. It may be the group's last.
    pub fn push_text(
        self,
        code: &mut Code,
        options: Options,
        seek: Seek,
        cells: &[Cell],
        is_last: bool,
    ) -> Result<(), NoMemory>
        requires { length code.old + 1 < 2 ^ 32 }
        ensures { OnOk result (code.new ≡ code.old ++ last_if is_last self.negated (opcode self.param options.0 (op.Text cells.now seek)) ∷ []) }
    {
        let options = if is_last {
            options.union(end_options(self.negated))
        } else {
            options
        };
        let param = self.param;
        code.push_text(Look { param, options }, seek, cells)
    }

    /// Appends the one opcode of a group whose string is to be the same as this one.
    pub fn push_string(self, code: &mut Code, units: &[u16]) -> Result<(), NoMemory>
        requires { length code.old + 1 < 2 ^ 32 }
        ensures { OnOk result (code.new ≡ code.old ++ closed self.negated (opcode self.param (bit_or FOLD EXACT) (op.Text (map Lit units.now) (Skip 0)) ∷ [])) }
    {
        let options = whole_string().union(end_options(self.negated));
        let param = self.param;
        code.push_string(Look { param, options }, units)
    }
}
