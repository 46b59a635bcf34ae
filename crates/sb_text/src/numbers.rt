// Numbers below 2^64.
ghost use Rattle.std.specs.Prelude.{◌≡◌, ◌≤◌, ◌*◌, ◌+◌};
ghost use Rattle.std.specs.List.{list_all};
ghost use Rattle.sb_text.specs.Numbers.{number_of, decimal_of, hexadecimal_of, is_decimal_digit, is_hexadecimal_digit, digit_of, value_from, below_2_64};

fn is_decimal_digit(byte: u8) -> bool
    ensures { result ≡ is_decimal_digit byte }
{
    matches!(byte, b'0'..=b'9')
}

fn is_hexadecimal_digit(byte: u8) -> bool
    ensures { result ≡ is_hexadecimal_digit byte }
{
    matches!(byte, b'0'..=b'9' | b'A'..=b'F' | b'a'..=b'f')
}

fn digit_of(byte: u8) -> u64
    ensures { result ≡ digit_of byte }
{
    match byte {
        b'a'.. => u64::from(byte) - 87,
        b'A'.. => u64::from(byte) - 55,
        _ => u64::from(byte).saturating_sub(48),
    }
}

// The value of digits with one more after them.
fn with_digit(base: u64, value: u64, digit: u8) -> Option<u64>
    ensures { result ≡ below_2_64 (value * base + digit_of digit) }
{
    value.checked_mul(base)?.checked_add(digit_of(digit))
}

// The value of digits, highest first, if it is below 2^64.
#[tactic(auto, using(crate::proofs::Values::value_past))]
fn value_of(base: u64, digits: &[u8]) -> Option<u64>
    requires { 1 ≤ base }
    ensures { result ≡ below_2_64 (value_from base 0 digits.now) }
{
    let mut value = 0u64;
    for digit in digits {
        value = with_digit(base, value, *digit)?;
    }
    Some(value)
}

fn are_decimal_digits(word: &[u8]) -> bool
    ensures { result ≡ list_all is_decimal_digit word.now }
{
    word.iter().all(|byte| is_decimal_digit(*byte))
}

fn are_hexadecimal_digits(word: &[u8]) -> bool
    ensures { result ≡ list_all is_hexadecimal_digit word.now }
{
    word.iter().all(|byte| is_hexadecimal_digit(*byte))
}

/// The value of 1 to 20 decimal digits, if it is below 2^64.
pub fn decimal_of(word: &[u8]) -> Option<u64>
    ensures { result ≡ decimal_of word.now }
{
    if word.is_empty() || word.len() > 20 || !are_decimal_digits(word) {
        return None;
    }
    value_of(10, word)
}

// The value of 1 to 16 hexadecimal digits in either case.
fn hexadecimal_of(word: &[u8]) -> Option<u64>
    ensures { result ≡ hexadecimal_of word.now }
{
    if word.is_empty() || word.len() > 16 || !are_hexadecimal_digits(word) {
        return None;
    }
    value_of(16, word)
}

/// The value of 1 to 20 decimal digits, or of `0x` and 1 to 16 hexadecimal digits in either case, if it is below 2^64.
pub fn number_of(word: &[u8]) -> Option<u64>
    ensures { result ≡ number_of word.now }
{
    match word {
        [b'0', b'x', digits @ ..] => hexadecimal_of(digits),
        _ => decimal_of(word),
    }
}
