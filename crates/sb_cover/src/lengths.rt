// How long calls are.
ghost use Rattle.std.specs.Prelude.{◌≡◌, ◌≤◌, ◌*◌, ◌^◌, length};
ghost use Rattle.sb_cover.specs.Choices.{units_in};
ghost use Rattle.sb_cover.specs.Lengths.{is_sendable, is_shorter, units_of, words_in, words_of};

use sb_call::Arg;

fn words_in(arg: &Arg) -> u128
    ensures words { result ≡ words_in arg.now }
    ensures few { result ≤ 2 ^ 64 }
{
    match arg {
        Arg::Num(_) => 1,
        Arg::Str(text) => (text.as_units().len() as u128 + 3) / 4,
    }
}

fn units_in(arg: &Arg) -> u128
    ensures units { result ≡ units_in arg.now }
    ensures few { result ≤ 2 ^ 64 }
{
    match arg {
        Arg::Num(_) => 0,
        Arg::Str(text) => text.as_units().len() as u128,
    }
}

fn words_of(args: &[Arg]) -> u128
    ensures words { result ≡ words_of args.now }
    ensures few { result ≤ length args.now * 2 ^ 64 }
{
    let mut words = 0;
    for at in 0..args.len() {
        words += words_in(&args[at]);
    }
    words
}

fn units_of(args: &[Arg]) -> u128
    ensures { result ≡ units_of args.now }
{
    let mut units = 0;
    for at in 0..args.len() {
        units += units_in(&args[at]);
    }
    units
}

/// Whether a call is shorter than another: its block has fewer words, or as many and its strings fewer units. The calls are of one tag.
pub fn is_shorter(a: &[Arg], b: &[Arg]) -> bool
    ensures { result ≡ is_shorter a.now b.now }
{
    let words = words_of(a);
    let other_words = words_of(b);
    words < other_words || (words == other_words && units_of(a) < units_of(b))
}

/// Whether a call can be sent: its block has at most 64 words.
pub fn is_sendable(args: &[Arg]) -> bool
    ensures { result ≡ is_sendable args.now }
{
    args.len() as u128 + words_of(args) <= 48
}
