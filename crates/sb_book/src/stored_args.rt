// The arguments of entries as they are stored: numbers as they are, and of each string where its units lie in one buffer.
ghost use Rattle.std.specs.Prelude.{◌≡◌, ◌≤◌, ◌+◌, ◌^◌, ◌++◌, ◌∷◌, [], length, vec_capacity, vec_len, MatchOption};
ghost use Rattle.sb_book.specs.StoredArgs.{arg_rows, arg_seen, arg_units};

use sb_call::Arg;
use std::marker::Model;

/// What is stored of an argument.
#[derive(Clone, Copy)]
pub(crate) enum ArgRow {
    /// A number.
    Num(u64),
    /// A wide string: where its units begin in their buffer, and how many they are.
    Str { first: usize, len: usize },
}

/// An argument that is borrowed from what stores it.
#[derive(Clone, Copy)]
pub enum StoredArg<'a> {
    /// A number.
    Num(u64),
    /// The units of a wide string.
    Str(&'a [u16]),
}

/// Arguments that are borrowed from the entries that store them. Contracts see the list of the arguments.
pub struct StoredArgs<'a> {
    pub(crate) rows: &'a [ArgRow],
    pub(crate) units: &'a [u16],
}

impl<'a> Drop for StoredArgs<'a> {
    fn drop(self) {
        let StoredArgs { rows: _, units: _ } = self;
    }
}

impl<'a> Model for StoredArgs<'a> {
    ghost use Rattle.std.specs.Prelude.{◌≡◌, List, map, true};
    ghost use Rattle.std.specs.List.{list_all};
    ghost use Rattle.sb_call.specs.declared.arguments.Arg.{Arg};
    ghost use Rattle.sb_book.specs.StoredArgs.{has_units, stored_arg};

    ghost Value = { List Arg };

    ghost view = { λ a. map (stored_arg a.units.now) a.rows.now };

    ghost invariant = { λ a. list_all (has_units a.units.now) a.rows.now ≡ true };
}

impl<'a> StoredArg<'a> {
    /// An argument, borrowed.
    pub fn of(arg: &'a Arg) -> StoredArg<'a>
        ensures { arg_seen result ≡ arg.now }
    {
        match arg {
            Arg::Num(number) => StoredArg::Num(*number),
            Arg::Str(text) => StoredArg::Str(text.as_units()),
        }
    }
}

impl<'a> StoredArgs<'a> {
    /// The first argument and those after it, or None if there are none.
    #[tactic(auto, using(crate::proofs::Storing::first_has_units, crate::proofs::Storing::rest_has_units))]
    pub fn split_first(&self) -> Option<(StoredArg<'a>, StoredArgs<'a>)>
        ensures { MatchOption result (self.now ≡ []) (λ parts. self.now ≡ arg_seen parts.0 ∷ parts.1) }
    {
        let units = self.units;
        let (row, rows) = self.rows.split_first()?;
        let arg = match *row {
            ArgRow::Num(number) => StoredArg::Num(number),
            ArgRow::Str { first, len } => StoredArg::Str(&units[first..first + len]),
        };
        Some((arg, StoredArgs { rows, units }))
    }
}

/// How many units the strings of these arguments have, or None if that is not below 2^64.
pub(crate) fn unit_count(args: &[Arg]) -> Option<usize>
    ensures { MatchOption result (2 ^ 64 ≤ length (arg_units args.now)) (λ count. count ≡ length (arg_units args.now)) }
{
    let mut count: usize = 0;
    let mut rest = args;
    while let Some((arg, later)) = rest.split_first() {
        if let Arg::Str(text) = arg {
            count = count.checked_add(text.len())?;
        }
        rest = later;
    }
    Some(count)
}

/// Appends arguments. There must be room for them, and for the units of their strings. Does not allocate.
pub(crate) fn put_args(rows: &mut Vec<ArgRow>, units: &mut Vec<u16>, args: &[Arg])
    requires rows_room { vec_len rows.old + length args.now ≤ vec_capacity rows.old }
    requires units_room { vec_len units.old + length (arg_units args.now) ≤ vec_capacity units.old }
    ensures rows { rows.new.items ≡ rows.old.items ++ arg_rows (length units.old.items) args.now }
    ensures units { units.new.items ≡ units.old.items ++ arg_units args.now }
{
    let mut rest = args;
    while let Some((arg, later)) = rest.split_first() {
        match arg {
            Arg::Num(number) => rows.push_reserved(ArgRow::Num(*number)),
            Arg::Str(text) => {
                rows.push_reserved(ArgRow::Str {
                    first: units.len(),
                    len: text.len(),
                });
                let _fits = units.extend_from_slice(text.as_units());
            }
        }
        rest = later;
    }
}
