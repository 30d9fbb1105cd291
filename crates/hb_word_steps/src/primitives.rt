use crate::push::{push_alu, push_divide, push_multiply, push_remainder, push_set};
use crate::rule::{Rule, rule_of};
use crate::words::{low_bits, low_word, push_is_zero};
use hb_asm::AluOp;
use hb_base::{List, Memory};
use hb_frames::{Operand, Step};

/// The word 0.
const ZERO: Operand = Operand::Number(0);

/// The word 1.
const ONE: Operand = Operand::Number(1);

/// Puts the steps that set words to what a primitive, by its number, gives for the numbers that it rests on and its arguments, which
/// are none of these words. A result of one word goes to the first word; of a `Maybe` the first word gets 1 for `Just` and else 0,
/// and the second one what it holds.
pub fn push_primitive(
    steps: &mut List<Step>,
    words: (u32, u32),
    number: u32,
    numbers: &[u64],
    arguments: &[Operand],
) -> Result<(), Memory> {
    let rule = rule_of(number);
    let a = argument(arguments, 0);
    match rule {
        Rule::FirstIx | Rule::LastIx | Rule::Action => push_none(steps, words.0, rule, numbers),
        Rule::NonZero | Rule::ToIx | Rule::IncIx | Rule::DecIx => {
            push_maybe(steps, words, rule, numbers, a)
        }
        Rule::Not | Rule::Same | Rule::ToBit | Rule::HighBits | Rule::LowBits => {
            push_one(steps, words.0, rule, numbers, a)
        }
        _ => push_two(steps, words.0, rule, numbers, (a, argument(arguments, 1))),
    }
}

/// The argument at a place.
fn argument(arguments: &[Operand], place: usize) -> Operand {
    match arguments.get(place) {
        Some(operand) => *operand,
        None => ZERO,
    }
}

/// The number at a place, as a word.
fn number_at(numbers: &[u64], place: usize) -> u32 {
    match numbers.get(place) {
        Some(number) => low_word(*number),
        None => 0,
    }
}

/// Puts the step of a primitive without arguments.
fn push_none(steps: &mut List<Step>, word: u32, rule: Rule, numbers: &[u64]) -> Result<(), Memory> {
    match rule {
        Rule::LastIx => {
            let last = number_at(numbers, 0).saturating_sub(1);
            push_set(steps, word, Operand::Number(last))
        }
        _ => push_set(steps, word, ZERO),
    }
}

/// Puts the steps of a primitive that takes one argument and gives one word.
fn push_one(
    steps: &mut List<Step>,
    word: u32,
    rule: Rule,
    numbers: &[u64],
    a: Operand,
) -> Result<(), Memory> {
    match rule {
        Rule::Not => push_alu(steps, word, AluOp::Xor, a, Operand::Number(u32::MAX)),
        Rule::ToBit => push_low(steps, word, a, number_at(numbers, 0)),
        Rule::HighBits => {
            let low = Operand::Number(number_at(numbers, 1));
            push_alu(steps, word, AluOp::Srl, a, low)
        }
        Rule::LowBits => push_low(steps, word, a, number_at(numbers, 1)),
        _ => push_set(steps, word, a),
    }
}

/// Puts the step that leaves so many low bits.
fn push_low(steps: &mut List<Step>, word: u32, a: Operand, width: u32) -> Result<(), Memory> {
    push_alu(steps, word, AluOp::And, a, Operand::Number(low_bits(width)))
}

/// Puts the steps of a primitive that takes one argument and gives a `Maybe`.
fn push_maybe(
    steps: &mut List<Step>,
    words: (u32, u32),
    rule: Rule,
    numbers: &[u64],
    a: Operand,
) -> Result<(), Memory> {
    let (tag, held) = words;
    let limit = Operand::Number(number_at(numbers, 0));
    match rule {
        Rule::ToIx => {
            push_alu(steps, tag, AluOp::Sltu, a, limit)?;
            push_set(steps, held, a)
        }
        Rule::IncIx => {
            push_alu(steps, held, AluOp::Add, a, ONE)?;
            push_alu(steps, tag, AluOp::Sltu, Operand::Word(held), limit)
        }
        Rule::DecIx => {
            push_alu(steps, tag, AluOp::Sltu, ZERO, a)?;
            push_alu(steps, held, AluOp::Sub, a, ONE)
        }
        _ => {
            push_alu(steps, tag, AluOp::Sltu, ZERO, a)?;
            push_set(steps, held, a)
        }
    }
}

/// Puts the steps of a primitive that takes two arguments.
fn push_two(
    steps: &mut List<Step>,
    word: u32,
    rule: Rule,
    numbers: &[u64],
    (a, b): (Operand, Operand),
) -> Result<(), Memory> {
    match rule {
        Rule::Alu(op) => push_alu(steps, word, op, a, b),
        Rule::Multiply => push_multiply(steps, word, a, b),
        Rule::Divide => push_divide(steps, word, a, b),
        Rule::Remainder => push_remainder(steps, word, a, b),
        Rule::JoinBits => {
            let low = Operand::Number(number_at(numbers, 1));
            push_alu(steps, word, AluOp::Sll, a, low)?;
            push_alu(steps, word, AluOp::Or, Operand::Word(word), b)
        }
        Rule::ElemRef => {
            let stride = Operand::Number(number_at(numbers, 1));
            push_multiply(steps, word, b, stride)?;
            push_alu(steps, word, AluOp::Add, Operand::Word(word), a)
        }
        _ => push_equal(steps, word, a, b),
    }
}

/// Puts the steps that set a word to 1 where two operands are equal, and else to 0.
fn push_equal(steps: &mut List<Step>, word: u32, a: Operand, b: Operand) -> Result<(), Memory> {
    push_alu(steps, word, AluOp::Xor, a, b)?;
    push_is_zero(steps, word, Operand::Word(word))
}
