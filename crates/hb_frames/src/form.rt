use hb_asm::AluOp;
use hb_base::List;

/// What a step computes with: the word of the frame with this number, from 0, or a number of 32 bits.
#[derive(Clone, Copy, Debug, PartialEq, Eq)]
pub enum Operand {
    Word(u32),
    Number(u32),
}

/// One step of a block. Where it sets a word of the frame, it names that word first. A word has no value before it is set: `Set`,
/// the arguments of a call and results may copy that, and every other use of it is wrong.
#[derive(Debug, Drop)]
pub enum Step {
    /// The word gets the operand.
    Set(u32, Operand),
    /// The word gets what the operation computes from the operands, in their order.
    Alu(u32, AluOp, Operand, Operand),
    /// The word gets the low 32 bits of the product.
    Multiply(u32, Operand, Operand),
    /// The word gets the quotient of numbers without sign. The last operand is not 0.
    Divide(u32, Operand, Operand),
    /// The word gets the remainder of numbers without sign. The last operand is not 0.
    Remainder(u32, Operand, Operand),
    /// The word gets what stands at the address, so many bytes of it: 1, 2 or 4. The bytes above are zeros.
    Load(u32, Operand, u8),
    /// So many low bytes of the last operand, 1, 2 or 4, are written to the address.
    Store(Operand, u8, Operand),
    /// The block, which has an entry, is called with these arguments. The k-th word of its result goes to the k-th word that is
    /// named here; results past the end of the list are dropped.
    Call(u32, List<Operand>, List<u32>),
}

/// What comes after the last step of a block.
#[derive(Debug, Drop)]
pub enum Tail {
    /// The program is done.
    Done,
    /// The program halts with this code.
    Halt(Operand),
    /// The call is over, and these are the words of its result.
    Return(List<Operand>),
    /// Another block of the same home, on the same words.
    Goto(u32),
    /// The block, which has an entry, is called in the place of this one.
    Jump(u32, List<Operand>),
    /// The block of the number that the operand is, from 0; of the same home, on the same words.
    Switch(Operand, List<u32>),
}

/// Where the words of a block stand. `Stack` is a frame of so many bytes on the stack, a multiple of 4 and at least 16, in whose
/// last word the return address stands. `Shared` are the words from 0 to 214 of the region of arguments: such a block calls no
/// block, and its parameters stay where they are passed. `Start` are the 40 words from 216 on of that region, for the blocks with
/// which the program begins, which never return; other blocks leave them alone.
#[derive(Clone, Copy, Debug, PartialEq, Eq)]
pub enum Home {
    Stack(u32),
    Shared,
    Start,
}

/// Steps in their order and what comes after them. A block that is called has an entry: the k-th argument word goes to the word of
/// the frame that is named there, if one is. In a `Shared` block the k-th argument stays in word k.
#[derive(Debug, Drop)]
pub struct Block {
    pub home: Home,
    pub entry: Option<List<Option<u32>>>,
    pub steps: List<Step>,
    pub tail: Tail,
}

/// A flat program: its blocks, the number of the one with which it begins, which is a `Start` block, and the bytes of its stack.
#[derive(Debug, Drop)]
pub struct Frames {
    pub blocks: List<Block>,
    pub entry: u32,
    pub stack: u32,
}
