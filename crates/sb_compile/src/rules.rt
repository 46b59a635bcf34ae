// The code of rules.
ghost use Rattle.std.specs.Prelude.{◌≡◌, ◌≢◌, ◌+◌, ◌*◌, ◌<◌, ◌≤◌, ◌^◌, ◌++◌, ◌∷◌, [], true, bit_or, length, map, OnOk, OnErr, IfOk};
ghost use Rattle.std.specs.List.{flat_map, list_all};
ghost use Rattle.sb_rule.specs.declared.cells.Cell.TheVariants.{Lit};
ghost use Rattle.sb_rule.specs.WellMade.{is_sensible, is_well_made_rule};
ghost use Rattle.sb_opcode.specs.Opcodes as op;
ghost use Rattle.sb_opcode.specs.declared.opcodes.Seek.TheVariants.{Skip};
ghost use Rattle.sb_opcode.specs.Options.{FOLD, EXACT};
ghost use Rattle.sb_compile.specs.Compiling.{cond_code, rule_code, code_of};

use crate::groups::{Group, push};
use crate::numbers::push_numbers;
use crate::patterns::push_pattern;
use bitflags::Flags;
use sb_base::NoMemory;
use sb_call::CallTag;
use sb_opcode::{Code, OpKind, Options};
use sb_rule::{Cond, Rule, Test, WellMadePolicy};
use std::alloc::Global;

// Appends the group of a condition.
fn push_cond(code: &mut Code, cond: &Cond) -> Result<(), NoMemory>
    requires room { length code.old + 258 < 2 ^ 32 }
    requires sensible { is_sensible cond.now.test ≡ true }
    ensures ok { OnOk result (code.new ≡ code.old ++ cond_code cond.now) }
    ensures few { OnOk result (length code.new ≤ length code.old + 257) }
{
    let group = Group {
        param: cond.param,
        negated: cond.negated,
    };
    match &cond.test {
        Test::OneOf(numbers) => push_numbers(code, group, numbers.as_slice()),
        Test::Range { lo, hi } => {
            let (lo, hi) = (*lo, *hi);
            group.push(code, Options::empty(), OpKind::Range { lo, hi }, true)
        }
        Test::Mask(mask) => group.push(code, Options::empty(), OpKind::Mask(*mask), true),
        Test::Equal(text) => group.push_string(code, text.as_units()),
        Test::Like(pattern) => push_pattern(code, group, pattern.cells()),
    }
}

// Appends the groups of conditions.
fn push_conds(code: &mut Code, conds: &[Cond]) -> Result<(), NoMemory>
    requires room { length code.old + 257 * length conds.now + 1 < 2 ^ 32 }
    requires sensible { list_all (λ c. is_sensible c.test) conds.now ≡ true }
    ensures ok { OnOk result (code.new ≡ code.old ++ flat_map cond_code conds.now) }
    ensures few { OnOk result (length code.new ≤ length code.old + 257 * length conds.now) }
{
    let mut rest = conds;
    while let Some((cond, later)) = rest.split_first() {
        push_cond(code, cond)?;
        rest = later;
    }
    Ok(())
}

#[tactic(auto, using(crate::proofs::Steps::formed_sensible))]
// Appends the code of a rule: at most 8 conditions of 257 opcodes, and the action.
fn push_rule(code: &mut Code, rule: &Rule) -> Result<(), NoMemory>
    requires room { length code.old + 2057 < 2 ^ 32 }
    requires made { is_well_made_rule rule.now ≡ true }
    ensures ok { OnOk result (code.new ≡ code.old ++ rule_code rule.now) }
    ensures few { OnOk result (length code.new ≤ length code.old + 2057) }
{
    push_conds(code, rule.conds.as_slice())?;
    let (action, line) = (rule.action, rule.line);
    push(code, 0, Options::empty(), OpKind::Act { action, line })
}

// The code of the rules that are for a call. If no rule is, it does not allocate.
#[tactic(auto, using(crate::proofs::Steps::some_code))]
pub(crate) fn code_of(
    alloc: Global,
    policy: &WellMadePolicy<'_>,
    tag: CallTag,
) -> Result<Code, NoMemory>
    ensures code { IfOk result (λ code. code ≡ code_of policy.now.rules tag) }
    ensures memory { OnErr result (code_of policy.now.rules tag ≢ []) }
{
    let mut code = Code::new(alloc);
    let mut rest = policy.policy().rules.as_slice();
    while let Some((rule, later)) = rest.split_first() {
        if rule.is_for(tag) {
            push_rule(&mut code, rule)?;
        }
        rest = later;
    }
    Ok(code)
}
