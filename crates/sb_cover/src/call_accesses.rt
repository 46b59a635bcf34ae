// The accesses of calls.
ghost use Rattle.std.specs.Prelude.{◌≡◌, IfOk};
ghost use Rattle.sb_call.specs.declared.arguments.Arg.{Arg};
ghost use Rattle.sb_cover.specs.CallAccesses.{access_param, access_rules, has_writing_bits, writes};

use sb_base::{Items, NoMemory};
use sb_call::{Arg, CallTag};
use sb_rule::{Action, Cond, Rule, Rules, Test, WRITING_BITS};
use std::alloc::Global;

/// The parameter that is the access of a call, from 0. None if its calls have no access.
pub(crate) fn access_param(tag: CallTag) -> Option<u32>
    ensures { result ≡ access_param tag }
{
    match tag {
        CallTag::FileCreate => Some(2),
        CallTag::FileOpen | CallTag::KeyCreate | CallTag::KeyOpen | CallTag::EventOpen => Some(1),
        CallTag::Ping
        | CallTag::FileQuery
        | CallTag::FileRename
        | CallTag::PipeCreate
        | CallTag::EventCreate
        | CallTag::HandleClose => None,
    }
}

fn has_writing_bits(arg: &Arg) -> bool
    ensures { result ≡ has_writing_bits arg.now }
{
    match arg {
        Arg::Num(access) => *access & WRITING_BITS != 0,
        Arg::Str(_) => false,
    }
}

/// Whether a call has an access, and that has a bit that does more than read.
pub fn writes(tag: CallTag, args: &[Arg]) -> bool
    ensures { result ≡ writes tag args.now }
{
    let Some(param) = access_param(tag) else {
        return false;
    };
    match args.get(param as usize) {
        Some(access) => has_writing_bits(access),
        None => false,
    }
}

// A rule that holds of the calls of a tag whose access does more than read, in a list; no rule if they have none.
pub(crate) fn access_rules(alloc: Global, tag: CallTag) -> Result<Rules, NoMemory>
    ensures { IfOk result (λ rules. rules ≡ access_rules tag) }
{
    let mut rules = Items::empty(alloc);
    let Some(param) = access_param(tag) else {
        return Ok(rules);
    };
    let mut conds = Items::empty(alloc);
    conds.push(Cond {
        param,
        negated: false,
        test: Test::Mask(WRITING_BITS),
    })?;
    rules.push(Rule {
        tag,
        conds,
        action: Action::Allow,
        line: 0,
    })?;
    Ok(rules)
}
