ghost use Rattle.std.specs.Prelude.{◌≡◌, ◌%◌, ◌==◌};
ghost use Rattle.hb_asm.specs.Arithmetic.{alu_of, load_size, store_size};
ghost use Rattle.hb_asm.specs.Arithmetic as arithmetic;

use hb_asm::{AluOp, BranchOp, LoadOp, StoreOp};

/// What an arithmetic instruction computes of two words.
#[tactic(auto, unfolding(hb_asm::specs::Arithmetic::alu_of))]
pub fn alu(op: AluOp, a: u32, b: u32) -> u32
    ensures { result ≡ alu_of op a b }
{
    match op {
        AluOp::Add => a.wrapping_add(b),
        AluOp::Sub => a.wrapping_sub(b),
        AluOp::Sll => a.wrapping_shl(b),
        AluOp::Slt => u32::from(a.cast_signed() < b.cast_signed()),
        AluOp::Sltu => u32::from(a < b),
        AluOp::Xor => a ^ b,
        AluOp::Srl => a.wrapping_shr(b),
        AluOp::Sra => a.cast_signed().wrapping_shr(b).cast_unsigned(),
        AluOp::Or => a | b,
        AluOp::And => a & b,
    }
}

/// Whether a branch on two words is taken.
#[tactic(auto, unfolding(hb_asm::specs::Arithmetic::is_taken))]
pub fn is_taken(op: BranchOp, a: u32, b: u32) -> bool
    ensures { result ≡ arithmetic.is_taken op a b }
{
    match op {
        BranchOp::Beq => a == b,
        BranchOp::Bne => a != b,
        BranchOp::Blt => a.cast_signed() < b.cast_signed(),
        BranchOp::Bge => a.cast_signed() >= b.cast_signed(),
        BranchOp::Bltu => a < b,
        BranchOp::Bgeu => a >= b,
    }
}

/// Whether the size of a load divides its address.
#[tactic(auto, unfolding(hb_asm::specs::Arithmetic::load_size))]
pub fn is_load_aligned(op: LoadOp, address: u32) -> bool
    ensures { result ≡ (address % load_size op == 0) }
{
    match op {
        LoadOp::Lb | LoadOp::Lbu => true,
        LoadOp::Lh | LoadOp::Lhu => address % 2 == 0,
        LoadOp::Lw => address % 4 == 0,
    }
}

/// Whether the size of a store divides its address.
#[tactic(auto, unfolding(hb_asm::specs::Arithmetic::store_size))]
pub fn is_store_aligned(op: StoreOp, address: u32) -> bool
    ensures { result ≡ (address % store_size op == 0) }
{
    match op {
        StoreOp::Sb => true,
        StoreOp::Sh => address % 2 == 0,
        StoreOp::Sw => address % 4 == 0,
    }
}

/// How many bytes a load reads.
#[tactic(auto, unfolding(hb_asm::specs::Arithmetic::load_size))]
pub fn bytes_loaded(op: LoadOp) -> u8
    ensures { result ≡ load_size op }
{
    match op {
        LoadOp::Lb | LoadOp::Lbu => 1,
        LoadOp::Lh | LoadOp::Lhu => 2,
        LoadOp::Lw => 4,
    }
}

/// How many bytes a store writes.
#[tactic(auto, unfolding(hb_asm::specs::Arithmetic::store_size))]
pub fn bytes_stored(op: StoreOp) -> u8
    ensures { result ≡ store_size op }
{
    match op {
        StoreOp::Sb => 1,
        StoreOp::Sh => 2,
        StoreOp::Sw => 4,
    }
}

/// What a load leaves in the register, of the number that its bytes hold.
#[tactic(auto, unfolding(hb_asm::specs::Arithmetic::extended))]
pub fn extended(op: LoadOp, number: u32) -> u32
    ensures { result ≡ arithmetic.extended op number }
{
    match op {
        LoadOp::Lb => sign_extended_byte(number),
        LoadOp::Lh => sign_extended_half(number),
        LoadOp::Lw | LoadOp::Lbu | LoadOp::Lhu => number,
    }
}

fn sign_extended_byte(number: u32) -> u32
    ensures { result ≡ arithmetic.sign_extended 8 number }
{
    if number < 0x80 {
        number
    } else {
        number.wrapping_add(0xFFFF_FF00)
    }
}

fn sign_extended_half(number: u32) -> u32
    ensures { result ≡ arithmetic.sign_extended 16 number }
{
    if number < 0x8000 {
        number
    } else {
        number.wrapping_add(0xFFFF_0000)
    }
}

/// The part of a register that a store writes.
#[tactic(auto, unfolding(hb_asm::specs::Arithmetic::low_part))]
pub fn low_part(op: StoreOp, word: u32) -> u32
    ensures { result ≡ arithmetic.low_part op word }
{
    match op {
        StoreOp::Sb => word % 0x100,
        StoreOp::Sh => word % 0x1_0000,
        StoreOp::Sw => word,
    }
}
