ghost use Rattle.std.specs.Prelude.{◌≡◌, ◌++◌, OnOk};
ghost use Rattle.hb_word_steps.specs.Code.{halves_exchanged_code, joined_code, read_code, turned_code, turned_halves_code, write_code};

use crate::push::{push_alu, push_load, push_multiply, push_set, push_store};
use hb_area::CellForm;
use hb_asm::AluOp;
use hb_base::{List, Memory};
use hb_frames::{Operand, Step};

/// The bytes 0 and 2 of a word.
const EVEN_BYTES: Operand = Operand::Number(0x00FF_00FF);

/// Puts the steps that set a word to an operand with the two bytes of each of its halves exchanged. They set a second word too; the
/// operand is no longer needed when the first word is set.
fn push_turned_halves(
    steps: &mut List<Step>,
    word: u32,
    a: Operand,
    second: u32,
) -> Result<(), Memory>
    ensures { OnOk result (steps.new ≡ steps.old ++ turned_halves_code word a second) }
{
    let eight = Operand::Number(8);
    push_alu(steps, second, AluOp::And, a, EVEN_BYTES)?;
    push_alu(steps, second, AluOp::Sll, Operand::Word(second), eight)?;
    push_alu(steps, word, AluOp::Srl, a, eight)?;
    push_joined(steps, word, second)
}

/// Puts the steps that set a word to its even bytes, joined with those of a second word.
fn push_joined(steps: &mut List<Step>, word: u32, second: u32) -> Result<(), Memory>
    ensures { OnOk result (steps.new ≡ steps.old ++ joined_code word second) }
{
    let (low, high) = (Operand::Word(word), Operand::Word(second));
    push_alu(steps, word, AluOp::And, low, EVEN_BYTES)?;
    push_alu(steps, word, AluOp::Or, low, high)
}

/// Puts the steps that exchange the halves of a word. They set a second word too.
fn push_halves_exchanged(steps: &mut List<Step>, word: u32, second: u32) -> Result<(), Memory>
    ensures { OnOk result (steps.new ≡ steps.old ++ halves_exchanged_code word second) }
{
    let (low, high) = (Operand::Word(word), Operand::Word(second));
    let half = Operand::Number(16);
    push_alu(steps, second, AluOp::Sll, low, half)?;
    push_alu(steps, word, AluOp::Srl, low, half)?;
    push_alu(steps, word, AluOp::Or, low, high)
}

/// Puts the steps that set a word to an operand of so many bytes with these in the other order. They set a second word too.
fn push_turned(
    steps: &mut List<Step>,
    word: u32,
    a: Operand,
    bytes: u8,
    second: u32,
) -> Result<(), Memory>
    ensures { OnOk result (steps.new ≡ steps.old ++ turned_code word a bytes second) }
{
    if bytes == 1 {
        return push_set(steps, word, a);
    }
    push_turned_halves(steps, word, a, second)?;
    if bytes == 2 {
        return Ok(());
    }
    push_halves_exchanged(steps, word, second)
}

/// Puts the steps that set a word to the value of the cell at an address. They set a second word too.
pub fn push_read_cell(
    steps: &mut List<Step>,
    word: u32,
    address: Operand,
    form: CellForm,
    second: u32,
) -> Result<(), Memory>
    ensures { OnOk result (steps.new ≡ steps.old ++ read_code word address form second) }
{
    push_load(steps, word, address, form.bytes)?;
    if form.big {
        return push_turned(steps, word, Operand::Word(word), form.bytes, second);
    }
    Ok(())
}

/// Puts the steps that write a value to the cell at an address. They set two words, which no operand is.
pub fn push_write_cell(
    steps: &mut List<Step>,
    address: Operand,
    form: CellForm,
    value: Operand,
    words: (u32, u32),
) -> Result<(), Memory>
    ensures { OnOk result (steps.new ≡ steps.old ++ write_code address form value words.0 words.1) }
{
    if form.big {
        push_turned(steps, words.0, value, form.bytes, words.1)?;
        return push_store(steps, address, form.bytes, Operand::Word(words.0));
    }
    push_store(steps, address, form.bytes, value)
}

/// Puts the steps that set a word to the address of a cell: the base, and a stride for each index. They set a second word too.
pub fn push_cell_at(
    steps: &mut List<Step>,
    word: u32,
    base: u32,
    indices: &[(Operand, u32)],
    second: u32,
) -> Result<(), Memory> {
    push_set(steps, word, Operand::Number(base))?;
    for (index, stride) in indices {
        push_multiply(steps, second, *index, Operand::Number(*stride))?;
        let (so_far, more) = (Operand::Word(word), Operand::Word(second));
        push_alu(steps, word, AluOp::Add, so_far, more)?;
    }
    Ok(())
}
