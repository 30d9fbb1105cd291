//! The value of an input.

ghost use Rattle.std.specs.Prelude.{◌≡◌, ◌+◌, ◌*◌, ◌^◌, if◌then◌else◌, Some, None};
ghost use Rattle.std.specs.Str.Parse.{digits_value};
ghost use Rattle.hb_base.specs.Ports.{IsWidth};
ghost use Rattle.hb_script.specs.Scripts.{is_value};

fn greatest(width: u8) -> u32
    requires { IsWidth width }
    ensures { result + 1 ≡ 2 ^ (8 * width) }
{
    match width {
        1 => 0xFF,
        2 => 0xFFFF,
        _ => 0xFFFF_FFFF,
    }
}

/// The number that these hexadecimal digits of either case write, if it has so many bytes.
pub fn value_of(digits: &[u8], width: u8) -> Option<u32>
    requires { IsWidth width }
    ensures { result ≡ (if is_value width digits.now then Some (digits_value 16 digits.now) else None) }
{
    let greatest = u64::from(greatest(width));
    let mut value: u64 = 0;
    for byte in digits {
        value = 16 * value + u64::from(char::from(*byte).to_digit(16)?);
        if value > greatest {
            return None;
        }
    }
    Some(value as u32)
}
