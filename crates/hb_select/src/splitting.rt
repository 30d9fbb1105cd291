ghost use Rattle.std.specs.Prelude.{◌≡◌};
ghost use Rattle.hb_select.specs.Code.{address_of, lower_part, upper_part};

/// Where the words of frames end. Above them are the 1,024 bytes beside the stack.
const FRAMES_END: u32 = 0x3FFF_FC00;

/// How many words there could be below that.
const FRAMES_WORDS: u32 = FRAMES_END / 4;

/// The address of a word of the frame: the first word is the highest, and there is none past the last one.
pub fn address_of(word: u32) -> u32
    ensures { result ≡ address_of word }
{
    if word < FRAMES_WORDS {
        FRAMES_END - 4 * (word + 1)
    } else {
        0
    }
}

/// The part of a number that LUI puts into a register, so that the lower part completes it.
pub fn upper_part(number: u32) -> u32
    ensures { result ≡ upper_part number }
{
    let rounded = u64::from(number) + 2_048;
    (rounded / 4_096 % 1_048_576) as u32
}

/// The signed low 12 bits of a number.
pub fn lower_part(number: u32) -> i32
    ensures { result ≡ lower_part number }
{
    let low = (number % 4_096) as i32;
    if low < 2_048 { low } else { low - 4_096 }
}
