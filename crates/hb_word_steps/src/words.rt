ghost use Rattle.std.specs.Prelude.{◌≡◌, ◌≤◌, ◌++◌, OnOk};
ghost use Rattle.hb_word_steps.specs.Code.{bits_from, cut_code, has_code, is_zero_code, low_bits, low_word, place_code};

use crate::push::{push_alu, push_set};
use hb_asm::AluOp;
use hb_base::{List, Memory};
use hb_frames::{Operand, Step};

/// The low 32 bits of a number.
pub fn low_word(number: u64) -> u32
    ensures { result ≡ low_word number }
{
    (number % 4_294_967_296) as u32
}

/// The word whose so many low bits are set, and no other; all 32 from there on.
pub fn low_bits(width: u32) -> u32
    ensures { result ≡ low_bits width }
{
    if width == 0 {
        return 0;
    }
    if width > 31 {
        return u32::MAX;
    }
    u32::MAX >> (32 - width)
}

/// Puts the steps that set a word to so many bits of an operand from a place on.
pub fn push_cut(
    steps: &mut List<Step>,
    word: u32,
    a: Operand,
    place: u32,
    width: u32,
) -> Result<(), Memory>
    ensures { OnOk result (steps.new ≡ steps.old ++ cut_code word a place width) }
{
    if place > 31 {
        return push_set(steps, word, Operand::Number(0));
    }
    push_alu(steps, word, AluOp::Srl, a, Operand::Number(place))?;
    let mask = Operand::Number(low_bits(width));
    push_alu(steps, word, AluOp::And, Operand::Word(word), mask)
}

/// Puts the steps that set a word to an operand with so many bits from a place on replaced by a part: where the part, brought to its
/// place, differs from the operand in these bits, the operand is turned.
pub fn push_place(
    steps: &mut List<Step>,
    word: u32,
    a: Operand,
    place: u32,
    width: u32,
    part: Operand,
) -> Result<(), Memory>
    ensures { OnOk result (steps.new ≡ steps.old ++ place_code word a place width part) }
{
    if place > 31 {
        return push_set(steps, word, a);
    }
    let mask = Operand::Number(bits_from(place, width));
    push_alu(steps, word, AluOp::Sll, part, Operand::Number(place))?;
    push_alu(steps, word, AluOp::Xor, Operand::Word(word), a)?;
    push_alu(steps, word, AluOp::And, Operand::Word(word), mask)?;
    push_alu(steps, word, AluOp::Xor, Operand::Word(word), a)
}

/// The word in which so many bits from a place on are set, and no other.
fn bits_from(place: u32, width: u32) -> u32
    requires { place ≤ 31 }
    ensures { result ≡ bits_from place width }
{
    low_bits(width) << place
}

/// Puts the steps that set a word to 1 where an operand has the bits of a value in the mask, and else to 0.
pub fn push_has(
    steps: &mut List<Step>,
    word: u32,
    a: Operand,
    mask: u64,
    value: u64,
) -> Result<(), Memory>
    ensures { OnOk result (steps.new ≡ steps.old ++ has_code word a mask value) }
{
    let value = Operand::Number(low_word(value));
    push_alu(steps, word, AluOp::And, a, Operand::Number(low_word(mask)))?;
    push_alu(steps, word, AluOp::Xor, Operand::Word(word), value)?;
    push_is_zero(steps, word, Operand::Word(word))
}

/// Puts the step that sets a word to 1 where an operand is 0, and else to 0.
pub(crate) fn push_is_zero(steps: &mut List<Step>, word: u32, a: Operand) -> Result<(), Memory>
    ensures { OnOk result (steps.new ≡ steps.old ++ is_zero_code word a) }
{
    push_alu(steps, word, AluOp::Sltu, a, Operand::Number(1))
}
