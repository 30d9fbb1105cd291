ghost use Rattle.std.specs.Prelude.{◌≡◌, ◌+◌, ◌^◌, ◌<◌, ◌≤◌, length};
ghost use Rattle.hb_isa.specs.Memory.{number_at, put_number};

/// The number in one byte.
#[tactic(auto, unfolding(hb_isa::specs::Memory::number_at))]
pub fn byte(bytes: &[u8], place: usize) -> u32
    requires { place < length bytes.now }
    ensures value { result ≡ number_at bytes.now place 1 }
    ensures small { result < 2 ^ 8 }
{
    u32::from(bytes[place])
}

/// The number in two bytes, the lower one first.
#[tactic(auto, using(crate::proofs::LittleLaws::number_at_2))]
pub fn half(bytes: &[u8], place: usize) -> u32
    requires { place + 2 ≤ length bytes.now }
    ensures value { result ≡ number_at bytes.now place 2 }
    ensures small { result < 2 ^ 16 }
{
    byte(bytes, place) + 256 * byte(bytes, place + 1)
}

/// The number in four bytes, the lowest first.
#[tactic(auto, using(crate::proofs::LittleLaws::number_at_4))]
pub fn word(bytes: &[u8], place: usize) -> u32
    requires { place + 4 ≤ length bytes.now }
    ensures { result ≡ number_at bytes.now place 4 }
{
    half(bytes, place) + 65536 * half(bytes, place + 2)
}

/// Puts the lowest byte of a number.
#[tactic(auto, unfolding(hb_isa::specs::Memory::put_number))]
pub fn put_byte(bytes: &mut [u8], place: usize, number: u32)
    requires { place < length bytes.old }
    ensures { bytes.new ≡ put_number bytes.old place 1 number }
{
    bytes[place] = (number % 256) as u8;
}

/// Puts the two lowest bytes of a number.
#[tactic(auto, using(crate::proofs::LittleLaws::put_number_2))]
pub fn put_half(bytes: &mut [u8], place: usize, number: u32)
    requires { place + 2 ≤ length bytes.old }
    ensures { bytes.new ≡ put_number bytes.old place 2 number }
{
    put_byte(bytes, place, number);
    put_byte(bytes, place + 1, number / 256);
}

/// Puts the four bytes of a number.
#[tactic(auto, using(crate::proofs::LittleLaws::put_number_4))]
pub fn put_word(bytes: &mut [u8], place: usize, number: u32)
    requires { place + 4 ≤ length bytes.old }
    ensures { bytes.new ≡ put_number bytes.old place 4 number }
{
    put_half(bytes, place, number);
    put_half(bytes, place + 2, number / 65536);
}
