// Hexadecimal digits without `0x` before them.
ghost use Rattle.std.specs.Prelude.{◌≡◌, ◌<◌};
ghost use Rattle.sb_text.specs.Numbers.{digit_of};
ghost use Rattle.sb_transcript.specs.Strings.{hexadecimal_value};

/// The value of a hexadecimal digit, below 256 of any byte.
pub fn digit_of(byte: u8) -> u16
    ensures value { result ≡ digit_of byte }
    ensures small { result < 256 }
{
    match byte {
        b'a'.. => u16::from(byte) - 87,
        b'A'.. => u16::from(byte) - 55,
        _ => u16::from(byte).saturating_sub(48),
    }
}

/// The value of hexadecimal digits, highest first, if it is below 2^64.
#[tactic(auto, using(sb_text::proofs::Values::value_past))]
pub fn hexadecimal_value(digits: &[u8]) -> Option<u64>
    ensures { result ≡ hexadecimal_value digits.now }
{
    let mut value = 0u64;
    for digit in digits {
        value = value
            .checked_mul(16)?
            .checked_add(u64::from(digit_of(*digit)))?;
    }
    Some(value)
}
