// Whether a condition holds, by its definition.
ghost use Rattle.std.specs.Prelude.{◌≡◌, ◌==◌, option_map};
ghost use Rattle.std.specs.List.{list_any};
ghost use Rattle.sb_call.specs.Arguments.{arg_at};
ghost use Rattle.sb_explain.specs.Reasons.{first_failing};
ghost use Rattle.sb_rule.specs.Verdicts.{cond_holds, test_holds};

use sb_base::eq_ignore_ascii_case;
use sb_call::Arg;
use sb_rule::{Cond, Test};

fn is_one_of(numbers: &[u64], value: u64) -> bool
    ensures { result ≡ list_any (λ n. n == value) numbers.now }
{
    numbers.iter().any(|number| *number == value)
}

fn test_holds(test: &Test, arg: &Arg) -> bool
    ensures { result ≡ test_holds test.now arg.now }
{
    match (test, arg) {
        (Test::OneOf(numbers), Arg::Num(value)) => is_one_of(numbers, *value),
        (Test::Range { lo, hi }, Arg::Num(value)) => *lo <= *value && *value <= *hi,
        (Test::Mask(mask), Arg::Num(value)) => *value & *mask != 0,
        (Test::Equal(text), Arg::Str(units)) => eq_ignore_ascii_case(
            units.as_units(),
            text.as_units(),
        ),
        (Test::Like(pattern), Arg::Str(units)) => pattern.matches_plain(units.as_units()),
        _ => false,
    }
}

// A condition of a parameter that the call lacks tests the number 0.
fn param_passes(cond: &Cond, args: &[Arg]) -> bool
    ensures { result ≡ test_holds cond.now.test (arg_at args.now cond.now.param) }
{
    match args.get(cond.param as usize) {
        Some(arg) => test_holds(&cond.test, arg),
        None => test_holds(&cond.test, &Arg::Num(0)),
    }
}

fn cond_holds(cond: &Cond, args: &[Arg]) -> bool
    ensures { result ≡ cond_holds cond.now args.now }
{
    param_passes(cond, args) != cond.negated
}

/// The first of these conditions that does not hold, if there is one.
pub(crate) fn first_failing<'a>(conds: &'a [Cond], args: &[Arg]) -> Option<&'a Cond>
    ensures { option_map (λ cond. cond.now) result ≡ first_failing conds.now args.now }
{
    for cond in conds {
        if !cond_holds(cond, args) {
            return Some(cond);
        }
    }
    None
}
