// What every crate uses: lists of values, one type for every list of the repository; wide strings, which are lists of UTF-16 units, how they are folded and
// compared, which of them are names and which well-formed UTF-16, and how they are written between quotes; and the errors of calls that may run out of memory.
#![tactic(auto)]

mod items;
mod laws;
mod memory;
mod names;
mod numbers;
mod quoting;
mod refusals;
mod strings;
mod surrogates;
mod units;

pub use items::Items;
pub use laws::{
    characters_are_paired, dots_are_no_components, folds_once, names_are_paths, paths_are_names,
    quotes_are_printable, quotes_differ, same_as_folded, same_at_each_place, same_is_equivalence,
    tests_same, walks_find_pairs,
};
pub use memory::NoMemory;
pub use names::{eq_ignore_ascii_case, is_component, is_name, to_ascii_uppercase};
pub use numbers::{put_decimal, put_eight_digits, put_hexadecimal, put_named};
pub use quoting::quote_into;
pub use refusals::{Refused, UnknownNumber};
pub use strings::Wide;
pub use surrogates::{is_high_surrogate, is_low_surrogate, is_well_formed_utf16};
pub use units::{BACKSLASH, QUESTION, QUOTE, SLASH, STAR};
