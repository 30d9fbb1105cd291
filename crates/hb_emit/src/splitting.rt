//! A number is its upper part times 4,096 and its signed lower part, wrapped at 32 bits.

/// The part of a number that LUI puts into a register, so that the lower part completes it.
pub fn upper_part(number: u32) -> u32 {
    let rounded = u64::from(number) + 2_048;
    (rounded / 4_096 % 1_048_576) as u32
}

/// The signed low 12 bits of a number.
pub fn lower_part(number: u32) -> i32 {
    let low = (number % 4_096) as i32;
    if low < 2_048 { low } else { low - 4_096 }
}
