// Numbers on the command line: 1 to 20 decimal digits, leading zeros included.
ghost use Rattle.std.specs.Prelude.{◌≡◌};
ghost use Rattle.sb_commands.specs.NumberWords.{is_number, number_of};

use sb_text::decimal_of;

/// Whether an argument is a number from the lowest to the highest.
pub(crate) fn is_number(low: u64, high: u64, word: &[u8]) -> bool
    ensures { result ≡ is_number low high word.now }
{
    match decimal_of(word) {
        Some(number) => low <= number && number <= high,
        None => false,
    }
}

/// The number that an argument is, and 0 if it is none.
pub fn number_of(word: &str) -> u64
    ensures { result ≡ number_of word.now }
{
    match decimal_of(word.as_bytes()) {
        Some(number) => number,
        None => 0,
    }
}
