use crate::{AluOp, BranchOp, Instr, LoadOp, StoreOp, decode, encode};

/// The words are those that the RISC-V tools give for the text beside them.
#[test]
fn instructions_have_the_words_of_the_standard_tools(rt: HostRuntime) {
    // lui x1, 0x80000
    assert_eq!(rt;
        encode(Instr::Lui {
            rd: 1,
            imm: 0x80000
        }),
        0x8000_00B7
    );
    // auipc x1, 0
    assert_eq!(rt; encode(Instr::Auipc { rd: 1, imm: 0 }), 0x0000_0097);
    // jal x0, -8
    assert_eq!(rt; encode(Instr::Jal { rd: 0, imm: -8 }), 0xFF9F_F06F);
    // jalr x0, 0(x1)
    assert_eq!(rt;
        encode(Instr::Jalr {
            rd: 0,
            rs1: 1,
            imm: 0
        }),
        0x0000_8067
    );
    // beq x0, x0, -4
    assert_eq!(rt;
        encode(Instr::Branch {
            op: BranchOp::Beq,
            rs1: 0,
            rs2: 0,
            imm: -4
        }),
        0xFE00_0EE3
    );
    // lw x1, 12(x2)
    assert_eq!(rt;
        encode(Instr::Load {
            op: LoadOp::Lw,
            rd: 1,
            rs1: 2,
            imm: 12
        }),
        0x00C1_2083
    );
    // sw x1, 12(x2)
    assert_eq!(rt;
        encode(Instr::Store {
            op: StoreOp::Sw,
            rs1: 2,
            rs2: 1,
            imm: 12
        }),
        0x0011_2623
    );
    // addi x2, x2, -16
    assert_eq!(rt;
        encode(Instr::OpImm {
            op: AluOp::Add,
            rd: 2,
            rs1: 2,
            imm: -16
        }),
        0xFF01_0113
    );
    // srai x10, x10, 31
    assert_eq!(rt;
        encode(Instr::OpImm {
            op: AluOp::Sra,
            rd: 10,
            rs1: 10,
            imm: 31
        }),
        0x41F5_5513
    );
    // sub x10, x10, x11
    assert_eq!(rt;
        encode(Instr::Op {
            op: AluOp::Sub,
            rd: 10,
            rs1: 10,
            rs2: 11
        }),
        0x40B5_0533
    );
    // fence iorw, iorw
    assert_eq!(rt;
        encode(Instr::Fence {
            high: 0x1FE0,
            rd: 0
        }),
        0x0FF0_000F
    );
    assert_eq!(rt; encode(Instr::Ecall), 0x0000_0073);
    assert_eq!(rt; encode(Instr::Ebreak), 0x0010_0073);
}

#[test]
fn words_of_the_standard_tools_decode(rt: HostRuntime) {
    // addi x17, x0, 1
    assert_eq!(rt;
        decode(0x0010_0893),
        Some(Instr::OpImm {
            op: AluOp::Add,
            rd: 17,
            rs1: 0,
            imm: 1
        })
    );
    // sb x2, 0(x1)
    assert_eq!(rt;
        decode(0x0020_8023),
        Some(Instr::Store {
            op: StoreOp::Sb,
            rs1: 1,
            rs2: 2,
            imm: 0
        })
    );
    // bne x10, x0, 8
    assert_eq!(rt;
        decode(0x0005_1463),
        Some(Instr::Branch {
            op: BranchOp::Bne,
            rs1: 10,
            rs2: 0,
            imm: 8
        })
    );
    // jal x0, -8
    assert_eq!(rt; decode(0xFF9F_F06F), Some(Instr::Jal { rd: 0, imm: -8 }));
    // slli x10, x10, 2
    assert_eq!(rt;
        decode(0x0025_1513),
        Some(Instr::OpImm {
            op: AluOp::Sll,
            rd: 10,
            rs1: 10,
            imm: 2
        })
    );
    // sra x10, x10, x11
    assert_eq!(rt;
        decode(0x40B5_5533),
        Some(Instr::Op {
            op: AluOp::Sra,
            rd: 10,
            rs1: 10,
            rs2: 11
        })
    );
}

#[test]
fn words_outside_the_base_code_nothing(rt: HostRuntime) {
    // two words that the ISA keeps illegal
    assert_eq!(rt; decode(0x0000_0000), None);
    assert_eq!(rt; decode(0xFFFF_FFFF), None);
    // mul x10, x10, x11
    assert_eq!(rt; decode(0x02B5_0533), None);
    // srai with another funct7
    assert_eq!(rt; decode(0x21F5_5513), None);
    // fence.i
    assert_eq!(rt; decode(0x0000_100F), None);
    // rdcycle x10
    assert_eq!(rt; decode(0xC000_2573), None);
    // mret
    assert_eq!(rt; decode(0x3020_0073), None);
}
