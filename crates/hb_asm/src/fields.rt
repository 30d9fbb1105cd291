ghost use Rattle.std.specs.Prelude.{◌≡◌, ◌^◌, ◌+◌, ◌<◌, ◌≤◌};
ghost use Rattle.hb_asm.specs.Bits.{bits, sign_extend, to_bits};
ghost use Rattle.hb_asm.specs.InRange.{IsBranchOffset, IsImmediate, IsJumpOffset};

/// The field of `count` bits from bit `low` up.
#[tactic(auto, using(std::proofs::lemmas::Nat::one_shl))]
pub(crate) fn bits(low: u32, count: u32, number: u32) -> u32
    requires within { low < 32 }
    requires part { count < 32 }
    ensures { result ≡ bits low count number }
{
    (number >> low) % (1 << count)
}

/// The signed number that `count` bits stand for in two's complement.
#[tactic(auto, using(std::proofs::lemmas::Nat::one_shl))]
pub(crate) fn sign_extend(count: u32, number: u32) -> i32
    requires some { 1 ≤ count }
    requires few { count < 31 }
    requires fits { number < 2 ^ count }
    ensures { result ≡ sign_extend count number }
{
    if number < 1 << (count - 1) {
        number as i32
    } else {
        number as i32 - (1 << count)
    }
}

/// The 12 bits of an immediate in two's complement.
pub(crate) fn low_12(immediate: i32) -> u32
    requires { IsImmediate immediate }
    ensures value { result ≡ to_bits 12 immediate }
    ensures fits { result < 2 ^ 12 }
{
    immediate.cast_unsigned() & 0xfff
}

/// The 13 bits of a branch's offset in two's complement.
pub(crate) fn low_13(offset: i32) -> u32
    requires { IsBranchOffset offset }
    ensures value { result ≡ to_bits 13 offset }
    ensures fits { result < 2 ^ 13 }
{
    offset.cast_unsigned() & 0x1fff
}

/// The 21 bits of a jump's offset in two's complement.
pub(crate) fn low_21(offset: i32) -> u32
    requires { IsJumpOffset offset }
    ensures value { result ≡ to_bits 21 offset }
    ensures fits { result < 2 ^ 21 }
{
    offset.cast_unsigned() & 0x1f_ffff
}
