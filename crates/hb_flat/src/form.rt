use hb_asm::AluOp;
use hb_base::List;

/// What a step computes with: the word of the frame with this number, from 0, or a number of 32 bits.
#[derive(Clone, Copy, Debug, PartialEq, Eq)]
pub enum Operand {
    Word(u32),
    Number(u32),
}

/// One step of a block. Where it sets a word of the frame, it names that word first.
#[derive(Clone, Copy, Debug, PartialEq, Eq)]
pub enum FlatStep {
    /// The word gets the operand.
    Set(u32, Operand),
    /// The word gets what the operation computes from the operands, in their order.
    Alu(u32, AluOp, Operand, Operand),
    /// The word gets what stands at the address, so many bytes of it: 1, 2 or 4. The bytes above are zeros.
    Load(u32, Operand, u8),
    /// So many low bytes of the last operand, 1, 2 or 4, are written to the address.
    Store(Operand, u8, Operand),
}

/// What comes after the last step of a block.
#[derive(Clone, Copy, Debug, PartialEq, Eq)]
pub enum FlatTail {
    /// The program is done.
    Done,
}

/// Steps in their order and what comes after them. The frame has so many words, all zero before the first step.
#[derive(Debug, Drop)]
pub struct FlatBlock {
    pub words: u32,
    pub steps: List<FlatStep>,
    pub tail: FlatTail,
}

/// A flat program: its blocks, for each block the bytes of stack that its body takes, the number of the block with
/// which it begins, and the bytes of its stack.
#[derive(Debug, Drop)]
pub struct Flat {
    pub blocks: List<FlatBlock>,
    pub rooms: List<u32>,
    pub entry: u32,
    pub stack: u32,
}
