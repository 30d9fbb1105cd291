use hb_asm::{BranchOp, Instr};
use hb_base::List;

/// One part of a program whose jumps go to labels. A label stands for the place of the next instruction. `Goto` goes to a label,
/// by way of register x5; `Call` does and leaves in x1 the address after it; `Branch` goes to a label where its condition holds of
/// two registers, by way of x5, and else on.
#[derive(Clone, Copy, Debug, PartialEq, Eq)]
pub enum Part {
    Instr(Instr),
    Label(u32),
    Goto(u32),
    Call(u32),
    Branch(BranchOp, u8, u8, u32),
}

/// A program for the machine before its words: it begins with its first part.
#[derive(Debug, Drop)]
pub struct Labelled {
    pub parts: List<Part>,
}
