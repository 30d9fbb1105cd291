/// When a branch is taken. `Blt` and `Bge` compare signed numbers, `Bltu` and `Bgeu` unsigned ones.
#[derive(Clone, Copy, Debug, PartialEq, Eq)]
pub enum BranchOp {
    Beq,
    Bne,
    Blt,
    Bge,
    Bltu,
    Bgeu,
}

/// How many bytes a load reads, and whether it extends their sign (`Lb`, `Lh`) or fills with zeros (`Lbu`, `Lhu`).
#[derive(Clone, Copy, Debug, PartialEq, Eq)]
pub enum LoadOp {
    Lb,
    Lh,
    Lw,
    Lbu,
    Lhu,
}

/// How many low bytes a store writes.
#[derive(Clone, Copy, Debug, PartialEq, Eq)]
pub enum StoreOp {
    Sb,
    Sh,
    Sw,
}

/// What an arithmetic instruction computes. `OpImm` has all of these but `Sub`.
#[derive(Clone, Copy, Debug, PartialEq, Eq)]
pub enum AluOp {
    Add,
    Sub,
    Sll,
    Slt,
    Sltu,
    Xor,
    Srl,
    Sra,
    Or,
    And,
}

/// An instruction of RV32I. Registers are numbers from 0 to 31. The immediate of `Lui` and `Auipc` is bits 31:12
/// of what is added, as a number below 2^20; that of `Branch` and `Jal` is the even offset in bytes from the
/// instruction; that of `OpImm` with a shift is the amount, 0 to 31. The field `high` of `Fence` is bits 31:15.
#[derive(Clone, Copy, Debug, PartialEq, Eq)]
pub enum Instr {
    Lui {
        rd: u8,
        imm: u32,
    },
    Auipc {
        rd: u8,
        imm: u32,
    },
    Jal {
        rd: u8,
        imm: i32,
    },
    Jalr {
        rd: u8,
        rs1: u8,
        imm: i32,
    },
    Branch {
        op: BranchOp,
        rs1: u8,
        rs2: u8,
        imm: i32,
    },
    Load {
        op: LoadOp,
        rd: u8,
        rs1: u8,
        imm: i32,
    },
    Store {
        op: StoreOp,
        rs1: u8,
        rs2: u8,
        imm: i32,
    },
    OpImm {
        op: AluOp,
        rd: u8,
        rs1: u8,
        imm: i32,
    },
    Op {
        op: AluOp,
        rd: u8,
        rs1: u8,
        rs2: u8,
    },
    Fence {
        high: u32,
        rd: u8,
    },
    Ecall,
    Ebreak,
}
