ghost use Rattle.std.specs.Prelude.{◌≡◌, [], ◌∷◌, ◌++◌, OnOk};
ghost use Rattle.hb_frames.specs.declared.form.Step.TheVariants as step;

use hb_asm::AluOp;
use hb_base::{List, Memory};
use hb_frames::{Operand, Step};

/// Puts the step that sets a word to an operand.
pub fn push_set(steps: &mut List<Step>, word: u32, a: Operand) -> Result<(), Memory>
    ensures { OnOk result (steps.new ≡ steps.old ++ step.Set word a ∷ []) }
{
    steps.push(Step::Set(word, a))?;
    Ok(())
}

/// Puts the step that sets a word to what an operation computes.
pub fn push_alu(
    steps: &mut List<Step>,
    word: u32,
    op: AluOp,
    a: Operand,
    b: Operand,
) -> Result<(), Memory>
    ensures { OnOk result (steps.new ≡ steps.old ++ step.Alu word op a b ∷ []) }
{
    steps.push(Step::Alu(word, op, a, b))?;
    Ok(())
}

/// Puts the step that sets a word to what stands in so many bytes at an address.
pub fn push_load(
    steps: &mut List<Step>,
    word: u32,
    address: Operand,
    bytes: u8,
) -> Result<(), Memory>
    ensures { OnOk result (steps.new ≡ steps.old ++ step.Load word address bytes ∷ []) }
{
    steps.push(Step::Load(word, address, bytes))?;
    Ok(())
}

/// Puts the step that writes so many low bytes of an operand to an address.
pub fn push_store(
    steps: &mut List<Step>,
    address: Operand,
    bytes: u8,
    a: Operand,
) -> Result<(), Memory>
    ensures { OnOk result (steps.new ≡ steps.old ++ step.Store address bytes a ∷ []) }
{
    steps.push(Step::Store(address, bytes, a))?;
    Ok(())
}

/// Puts the step that sets a word to the low 32 bits of a product.
pub(crate) fn push_multiply(
    steps: &mut List<Step>,
    word: u32,
    a: Operand,
    b: Operand,
) -> Result<(), Memory>
    ensures { OnOk result (steps.new ≡ steps.old ++ step.Multiply word a b ∷ []) }
{
    steps.push(Step::Multiply(word, a, b))?;
    Ok(())
}

/// Puts the step that sets a word to a quotient.
pub(crate) fn push_divide(
    steps: &mut List<Step>,
    word: u32,
    a: Operand,
    b: Operand,
) -> Result<(), Memory>
    ensures { OnOk result (steps.new ≡ steps.old ++ step.Divide word a b ∷ []) }
{
    steps.push(Step::Divide(word, a, b))?;
    Ok(())
}

/// Puts the step that sets a word to a remainder.
pub(crate) fn push_remainder(
    steps: &mut List<Step>,
    word: u32,
    a: Operand,
    b: Operand,
) -> Result<(), Memory>
    ensures { OnOk result (steps.new ≡ steps.old ++ step.Remainder word a b ∷ []) }
{
    steps.push(Step::Remainder(word, a, b))?;
    Ok(())
}
