use super::*;
use std::alloc::Global;
use std::test::Fail;

fn length_of(alloc: Global, last: u32) -> Result<usize, Fail> {
    let text = sample(alloc, last)?;
    Ok(text.len())
}

#[test]
fn the_second_sample_is_this_text(rt: HostRuntime) -> Result<(), Fail> {
    let text = sample(rt.alloc(), 2)?;
    let wanted = b"port tx :: Out Unsigned at X80000000\n\
f0 :: Unsigned -> Unsigned\n\
f0 x = x\n\
f1 :: Unsigned -> Unsigned\n\
f1 x = f0 (x * 2 + 1)\n\
f2 :: Unsigned -> Unsigned\n\
f2 x = f1 (x * 3 + 2)\n\
main :: M Unit\n\
main = writePort tx (f2 1)\n";
    assert_eq!(rt; text.as_slice(), wanted.as_slice());
    Ok(())
}

/// The port, `f0` and `main` have 115 bytes and a byte for each digit of the number. The function of number i has 45
/// bytes, three for each digit of i and one for each of i - 1. The numbers from 1 to 3,000 have 10,893 digits, those
/// from 0 to 2,999 have 10,890: so the last sample has 115 + 4 + 3,000 * 45 + 3 * 10,893 + 10,890 less 1 bytes.
#[test]
fn samples_have_these_lengths(rt: HostRuntime) -> Result<(), Fail> {
    let alloc = rt.alloc();
    assert_eq!(rt; length_of(alloc, 1)?, 164);
    assert_eq!(rt; length_of(alloc, 2)?, 213);
    assert_eq!(rt; length_of(alloc, 3_000)?, 178_687);
    Ok(())
}
