// Whether arguments are the same.
ghost use Rattle.std.specs.Prelude.{◌≡◌, ◌∷◌, bit_and};
ghost use Rattle.sb_book.specs.Decisions.{read_only_args};
ghost use Rattle.sb_rule.specs.Accesses.{read_only_bits};
ghost use Rattle.sb_call.specs.declared.arguments.Arg.TheVariants.{Num};
ghost use Rattle.sb_audit.specs.Comparing.{same_argument, same_arguments};

use sb_call::Arg;
use sb_rule::READ_ONLY_BITS;

fn same_argument(a: &Arg, b: &Arg) -> bool
    ensures { result ≡ same_argument a.now b.now }
{
    match (a, b) {
        (Arg::Num(a), Arg::Num(b)) => *a == *b,
        (Arg::Str(a), Arg::Str(b)) => a.as_units() == b.as_units(),
        _ => false,
    }
}

/// Whether arguments are the same.
pub(crate) fn same_arguments(a: &[Arg], b: &[Arg]) -> bool
    ensures { result ≡ same_arguments a.now b.now }
{
    let mut left = a;
    let mut right = b;
    while let Some((first, more)) = left.split_first() {
        let Some((other, others)) = right.split_first() else {
            return false;
        };
        if !same_argument(first, other) {
            return false;
        }
        left = more;
        right = others;
    }
    match right.split_first() {
        Some(_) => false,
        None => true,
    }
}

// Whether arguments are those from the access on, with the access cut to the bits that only read.
fn same_from_access(given: &[Arg], access: u64, more: &[Arg]) -> bool
    ensures { result ≡ same_arguments given.now (Num (bit_and access read_only_bits) ∷ more.now) }
{
    match given.split_first() {
        Some((first, others)) => {
            same_argument(first, &Arg::Num(access & READ_ONLY_BITS)) && same_arguments(others, more)
        }
        None => false,
    }
}

/// Whether arguments are those asked for, with the access, the second of them, cut to the bits that only read.
pub(crate) fn same_read_only(given: &[Arg], asked: &[Arg]) -> bool
    ensures { result ≡ same_arguments given.now (read_only_args asked.now) }
{
    let Some((name, rest)) = asked.split_first() else {
        return same_arguments(given, asked);
    };
    let Some((Arg::Num(access), more)) = rest.split_first() else {
        return same_arguments(given, asked);
    };
    match given.split_first() {
        Some((first, others)) => same_argument(first, name)
            && same_from_access(others, *access, more),
        None => false,
    }
}
