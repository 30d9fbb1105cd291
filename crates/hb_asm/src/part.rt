use crate::instr::Instr;
use hb_base::List;

/// One part of a program for the machine.
#[derive(Clone, Copy, Debug, PartialEq, Eq)]
pub enum AsmPart {
    /// An instruction as it stands.
    Instr(Instr),
}

/// A program for the machine before its words: its parts in their order, and the number of the block with which
/// it begins.
#[derive(Debug, Drop)]
pub struct Asm {
    pub parts: List<AsmPart>,
    pub entry: u32,
}
