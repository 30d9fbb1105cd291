//! Numbers among words.

ghost use Rattle.std.specs.Prelude.{◌≡◌, ◌≤◌, ◌<◌};
ghost use Rattle.hb_command.specs.Numbers;
ghost use Rattle.hb_command.specs.Numbers.{with_digit, number_of, stack_of, sample_number};

use hb_base::limits::{LEAST_STACK_BYTES, STACK_BYTES, STANDARD_STACK_BYTES};

/// The greatest number of a sample.
const SAMPLES: u64 = 3_000;

fn with_digit(number: u64, byte: u8) -> Option<u64>
    ensures { result ≡ with_digit number byte }
{
    if !byte.is_ascii_digit() {
        return None;
    }
    number.checked_mul(10)?.checked_add(u64::from(byte - b'0'))
}

/// The number that these decimal digits write, if it is below 2^64.
pub fn number_of(digits: &[u8]) -> Option<u64>
    ensures { result ≡ number_of digits.now }
{
    if digits.is_empty() {
        return None;
    }
    let mut number = 0;
    for byte in digits {
        number = with_digit(number, *byte)?;
    }
    Some(number)
}

/// The bytes of the stack: the standard ones where none are said, and nothing where the number is out of its range.
pub fn stack_of(said: Option<u64>) -> Option<u32>
    ensures { result ≡ stack_of said }
{
    let Some(number) = said else {
        return Some(STANDARD_STACK_BYTES);
    };
    if number < u64::from(LEAST_STACK_BYTES) {
        return None;
    }
    if number > u64::from(STACK_BYTES) {
        return None;
    }
    Some(number as u32)
}

/// The number of a sample, which is 1 to 3,000.
pub fn sample_number(digits: &[u8]) -> Option<u32>
    ensures { result ≡ sample_number digits.now }
{
    let number = number_of(digits)?;
    if number < 1 {
        return None;
    }
    if number > SAMPLES {
        return None;
    }
    Some(number as u32)
}
