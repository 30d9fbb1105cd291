//! The instructions of RV32I, each with its least, greatest and sign-changing operands, as the ISA says what they do.
//!
//! The words are those of a standard assembler. In the comments, offsets and immediates are decimal, and addresses are
//! hexadecimal.

use crate::seen::{Seen, exec, image_of, setting};
use std::alloc::Global;
use std::process::Abort;
use std::test::Fail;

/// ADDI x17, x0, 1; ECALL: the run halts with the code in x10.
const HALT: [u32; 2] = [0x0010_0893, 0x0000_0073];

/// Where the areas of an image begin.
const AREAS: u32 = 0x2000_0000;

/// Runs an image of this code and `HALT` on an empty script. The code stands at 10000.
fn run_code(rt: &impl Abort, alloc: Global, code: &[u32]) -> Seen {
    let mut whole = Vec::from_slice(alloc, code).expect(rt, "memory");
    whole.extend_from_slice(&HALT).expect(rt, "memory");
    let image = image_of(rt, alloc, whole.as_slice());
    exec(rt, alloc, b"exec b.img a.script", image.as_slice(), b"")
}

/// The same with these words in x5 and x6. Four instructions set them, so the code stands at 10010.
fn run_with(rt: &impl Abort, alloc: Global, x5: u32, x6: u32, code: &[u32]) -> Seen {
    let mut whole = Vec::from_slice(alloc, &setting(5, x5)).expect(rt, "memory");
    whole
        .extend_from_slice(&setting(6, x6))
        .expect(rt, "memory");
    whole.extend_from_slice(code).expect(rt, "memory");
    run_code(rt, alloc, whole.as_slice())
}

/// ADD x10, x5, x6.
const ADD: u32 = 0x0062_8533;

/// SUB x10, x5, x6.
const SUB: u32 = 0x4062_8533;

/// SLL x10, x5, x6.
const SLL: u32 = 0x0062_9533;

/// SLT x10, x5, x6.
const SLT: u32 = 0x0062_A533;

/// SLTU x10, x5, x6.
const SLTU: u32 = 0x0062_B533;

/// XOR x10, x5, x6.
const XOR: u32 = 0x0062_C533;

/// SRL x10, x5, x6.
const SRL: u32 = 0x0062_D533;

/// SRA x10, x5, x6.
const SRA: u32 = 0x4062_D533;

/// OR x10, x5, x6.
const OR: u32 = 0x0062_E533;

/// AND x10, x5, x6.
const AND: u32 = 0x0062_F533;

#[test]
fn two_registers_make_a_third(rt: HostRuntime) -> Result<(), Fail> {
    let alloc = rt.alloc();
    let cases: &[(u32, u32, u32, u32)] = &[
        (ADD, 0, 0, 0),
        (ADD, 0x7FFF_FFFF, 1, 0x8000_0000),
        (ADD, 0x8000_0000, 0x8000_0000, 0),
        (ADD, 0xFFFF_FFFF, 1, 0),
        (ADD, 0xFFFF_FFFF, 0xFFFF_FFFF, 0xFFFF_FFFE),
        (ADD, 0x8000_0000, 0xFFFF_FFFF, 0x7FFF_FFFF),
        (SUB, 0, 1, 0xFFFF_FFFF),
        (SUB, 0x8000_0000, 1, 0x7FFF_FFFF),
        (SUB, 0x7FFF_FFFF, 0xFFFF_FFFF, 0x8000_0000),
        (SUB, 0x8000_0000, 0x8000_0000, 0),
        (SUB, 0, 0x8000_0000, 0x8000_0000),
        (SLL, 0x8000_0001, 0, 0x8000_0001),
        (SLL, 0x8000_0001, 1, 2),
        (SLL, 1, 0x0000_001F, 0x8000_0000),
        (SLL, 1, 0x0000_0020, 1),
        (SLL, 1, 0xFFFF_FFFF, 0x8000_0000),
        (SLT, 0x8000_0000, 0x7FFF_FFFF, 1),
        (SLT, 0x7FFF_FFFF, 0x8000_0000, 0),
        (SLT, 0xFFFF_FFFF, 0, 1),
        (SLT, 0, 0xFFFF_FFFF, 0),
        (SLT, 0x8000_0000, 0x8000_0000, 0),
        (SLTU, 0x8000_0000, 0x7FFF_FFFF, 0),
        (SLTU, 0x7FFF_FFFF, 0x8000_0000, 1),
        (SLTU, 0xFFFF_FFFF, 0, 0),
        (SLTU, 0, 0xFFFF_FFFF, 1),
        (SLTU, 0x8000_0000, 0x8000_0000, 0),
        (XOR, 0x55AA_00FF, 0x0FF0_FFFF, 0x5A5A_FF00),
        (XOR, 0xFFFF_FFFF, 0xFFFF_FFFF, 0),
        (XOR, 0x8000_0000, 0x7FFF_FFFF, 0xFFFF_FFFF),
        (SRL, 0x8000_0001, 0, 0x8000_0001),
        (SRL, 0x8000_0000, 1, 0x4000_0000),
        (SRL, 0x8000_0000, 0x0000_001F, 1),
        (SRL, 0x8000_0000, 0x0000_0020, 0x8000_0000),
        (SRL, 0xFFFF_FFFF, 0xFFFF_FFFF, 1),
        (SRA, 0x8000_0001, 0, 0x8000_0001),
        (SRA, 0x8000_0000, 1, 0xC000_0000),
        (SRA, 0x8000_0000, 0x0000_001F, 0xFFFF_FFFF),
        (SRA, 0x8000_0000, 0x0000_0020, 0x8000_0000),
        (SRA, 0x7FFF_FFFF, 0x0000_001F, 0),
        (SRA, 0xFFFF_FFFF, 0xFFFF_FFFF, 0xFFFF_FFFF),
        (OR, 0x55AA_00FF, 0x0FF0_0F00, 0x5FFA_0FFF),
        (OR, 0x8000_0000, 0x7FFF_FFFF, 0xFFFF_FFFF),
        (OR, 0, 0, 0),
        (AND, 0x55AA_00FF, 0x0FF0_FF0F, 0x05A0_000F),
        (AND, 0x8000_0000, 0x7FFF_FFFF, 0),
        (AND, 0xFFFF_FFFF, 0xFFFF_FFFF, 0xFFFF_FFFF),
    ];
    for &(word, left, right, result) in cases {
        let seen = run_with(&rt, alloc, left, right, &[word]);
        let text = format!(in alloc; "end halt {result} 7\n")?;
        assert_eq!(rt; seen.text.as_slice(), text.as_bytes());
    }
    Ok(())
}

#[test]
fn a_register_and_an_immediate_make_another(rt: HostRuntime) -> Result<(), Fail> {
    let alloc = rt.alloc();
    let cases: &[(u32, u32, u32)] = &[
        // ADDI x10, x5, -2048
        (0x8002_8513, 0, 0xFFFF_F800),
        (0x8002_8513, 0x8000_0000, 0x7FFF_F800),
        // ADDI x10, x5, 2047
        (0x7FF2_8513, 0x7FFF_FFFF, 0x8000_07FE),
        (0x7FF2_8513, 0xFFFF_FFFF, 0x0000_07FE),
        // ADDI x10, x5, -1
        (0xFFF2_8513, 1, 0),
        // SLTI x10, x5, -2048
        (0x8002_A513, 0xFFFF_F7FF, 1),
        (0x8002_A513, 0xFFFF_F800, 0),
        // SLTI x10, x5, -1
        (0xFFF2_A513, 0x8000_0000, 1),
        (0xFFF2_A513, 0, 0),
        // SLTI x10, x5, 2047
        (0x7FF2_A513, 0x0000_07FE, 1),
        (0x7FF2_A513, 0x7FFF_FFFF, 0),
        (0x7FF2_A513, 0xFFFF_FFFF, 1),
        // SLTIU x10, x5, -2048
        (0x8002_B513, 0xFFFF_F7FF, 1),
        (0x8002_B513, 0xFFFF_F800, 0),
        // SLTIU x10, x5, -1
        (0xFFF2_B513, 0, 1),
        (0xFFF2_B513, 0xFFFF_FFFF, 0),
        // SLTIU x10, x5, 2047
        (0x7FF2_B513, 0x0000_07FE, 1),
        (0x7FF2_B513, 0x8000_0000, 0),
        // SLTIU x10, x5, 1
        (0x0012_B513, 0, 1),
        // XORI x10, x5, -2048
        (0x8002_C513, 0x55AA_00FF, 0xAA55_F8FF),
        // XORI x10, x5, -1
        (0xFFF2_C513, 0x55AA_00FF, 0xAA55_FF00),
        // XORI x10, x5, 2047
        (0x7FF2_C513, 0x55AA_00FF, 0x55AA_0700),
        // ORI x10, x5, -2048
        (0x8002_E513, 0x55AA_00FF, 0xFFFF_F8FF),
        // ORI x10, x5, -1
        (0xFFF2_E513, 0, 0xFFFF_FFFF),
        // ORI x10, x5, 2047
        (0x7FF2_E513, 0x8000_0000, 0x8000_07FF),
        // ANDI x10, x5, -2048
        (0x8002_F513, 0xFFFF_FFFF, 0xFFFF_F800),
        (0x8002_F513, 0x55AA_00FF, 0x55AA_0000),
        // ANDI x10, x5, -1
        (0xFFF2_F513, 0x55AA_00FF, 0x55AA_00FF),
        // ANDI x10, x5, 2047
        (0x7FF2_F513, 0xFFFF_FFFF, 0x0000_07FF),
        // SLLI x10, x5, 0
        (0x0002_9513, 0x8000_0001, 0x8000_0001),
        // SLLI x10, x5, 1
        (0x0012_9513, 0x8000_0001, 2),
        // SLLI x10, x5, 31
        (0x01F2_9513, 0xFFFF_FFFF, 0x8000_0000),
        // SRLI x10, x5, 0
        (0x0002_D513, 0x8000_0001, 0x8000_0001),
        // SRLI x10, x5, 1
        (0x0012_D513, 0x8000_0000, 0x4000_0000),
        // SRLI x10, x5, 31
        (0x01F2_D513, 0x8000_0000, 1),
        // SRAI x10, x5, 0
        (0x4002_D513, 0x8000_0001, 0x8000_0001),
        // SRAI x10, x5, 1
        (0x4012_D513, 0x8000_0000, 0xC000_0000),
        // SRAI x10, x5, 31
        (0x41F2_D513, 0x8000_0000, 0xFFFF_FFFF),
        (0x41F2_D513, 0x7FFF_FFFF, 0),
    ];
    for &(word, left, result) in cases {
        let seen = run_with(&rt, alloc, left, 0, &[word]);
        let text = format!(in alloc; "end halt {result} 7\n")?;
        assert_eq!(rt; seen.text.as_slice(), text.as_bytes());
    }
    Ok(())
}

#[test]
fn upper_immediates_stand_alone_or_above_the_address(rt: HostRuntime) -> Result<(), Fail> {
    let alloc = rt.alloc();
    let cases: &[(u32, u32)] = &[
        // LUI x10, 0
        (0x0000_0537, 0),
        // LUI x10, 1
        (0x0000_1537, 0x0000_1000),
        // LUI x10, 524287
        (0x7FFF_F537, 0x7FFF_F000),
        // LUI x10, 524288
        (0x8000_0537, 0x8000_0000),
        // LUI x10, 1048575
        (0xFFFF_F537, 0xFFFF_F000),
        // AUIPC x10, 0
        (0x0000_0517, 0x0001_0010),
        // AUIPC x10, 1
        (0x0000_1517, 0x0001_1010),
        // AUIPC x10, 524287
        (0x7FFF_F517, 0x8000_F010),
        // AUIPC x10, 524288
        (0x8000_0517, 0x8001_0010),
        // AUIPC x10, 1048575
        (0xFFFF_F517, 0x0000_F010),
    ];
    for &(word, result) in cases {
        let seen = run_with(&rt, alloc, 0, 0, &[word]);
        let text = format!(in alloc; "end halt {result} 7\n")?;
        assert_eq!(rt; seen.text.as_slice(), text.as_bytes());
    }
    Ok(())
}

const BRANCHES: [u32; 6] = [
    // BEQ x5, x6, 8
    0x0062_8463,
    // BNE x5, x6, 8
    0x0062_9463,
    // BLT x5, x6, 8
    0x0062_C463,
    // BGE x5, x6, 8
    0x0062_D463,
    // BLTU x5, x6, 8
    0x0062_E463,
    // BGEU x5, x6, 8
    0x0062_F463,
];

#[test]
fn each_branch_is_taken_where_its_comparison_holds(rt: HostRuntime) {
    // x5, x6, and which of `BRANCHES` are taken
    let cases: &[(u32, u32, [bool; 6])] = &[
        (0, 0, [true, false, false, true, false, true]),
        (
            0x7FFF_FFFF,
            0x8000_0000,
            [false, true, false, true, true, false],
        ),
        (
            0x8000_0000,
            0x7FFF_FFFF,
            [false, true, true, false, false, true],
        ),
        (0xFFFF_FFFF, 0, [false, true, true, false, false, true]),
        (0, 0xFFFF_FFFF, [false, true, false, true, true, false]),
        (
            0x8000_0000,
            0x8000_0000,
            [true, false, false, true, false, true],
        ),
        (0xFFFF_FFFF, 1, [false, true, true, false, false, true]),
        (1, 2, [false, true, true, false, true, false]),
        (2, 1, [false, true, false, true, false, true]),
        (
            0xFFFF_FFFF,
            0xFFFF_FFFE,
            [false, true, false, true, false, true],
        ),
    ];
    for &(left, right, taken) in cases {
        for place in 0..6 {
            // the branch goes over ADDI x10, x0, 1
            let code = [BRANCHES[place], 0x0010_0513];
            let seen = run_with(&rt, rt.alloc(), left, right, &code);
            let text = if taken[place] {
                b"end halt 0 7\n".as_slice()
            } else {
                b"end halt 1 8\n".as_slice()
            };
            assert_eq!(rt; seen.text.as_slice(), text);
        }
    }
}

#[test]
fn jumps_and_branches_go_where_their_offsets_say(rt: HostRuntime) {
    let cases: &[(&[u32], &[u8])] = &[
        // JAL x10, 8; EBREAK
        (
            [0x0080_056F, 0x0010_0073].as_slice(),
            b"end halt 65540 3\n".as_slice(),
        ),
        // JAL x0, 8; JAL x0, 12; JAL x10, -4; EBREAK
        (
            [0x0080_006F, 0x00C0_006F, 0xFFDF_F56F, 0x0010_0073].as_slice(),
            b"end halt 65548 5\n".as_slice(),
        ),
        // LUI x5, 16; JALR x10, 12(x5); EBREAK
        (
            [0x0001_02B7, 0x00C2_8567, 0x0010_0073].as_slice(),
            b"end halt 65544 4\n".as_slice(),
        ),
        // LUI x5, 16; JALR x10, 13(x5); EBREAK
        (
            [0x0001_02B7, 0x00D2_8567, 0x0010_0073].as_slice(),
            b"end halt 65544 4\n".as_slice(),
        ),
        // LUI x10, 16; JALR x10, 12(x10); EBREAK
        (
            [0x0001_0537, 0x00C5_0567, 0x0010_0073].as_slice(),
            b"end halt 65544 4\n".as_slice(),
        ),
        // LUI x5, 17; ADDI x5, x5, -2036; JALR x10, -2048(x5)
        (
            [0x0001_12B7, 0x80C2_8293, 0x8002_8567].as_slice(),
            b"end halt 65548 5\n".as_slice(),
        ),
        // LUI x5, 16; ADDI x5, x5, -2035; JALR x10, 2047(x5)
        (
            [0x0001_02B7, 0x80D2_8293, 0x7FF2_8567].as_slice(),
            b"end halt 65548 5\n".as_slice(),
        ),
        // ADDI x5, x0, 3; ADDI x10, x10, 2; ADDI x5, x5, -1; BNE x5, x0, -8
        (
            [0x0030_0293, 0x0025_0513, 0xFFF2_8293, 0xFE02_9CE3].as_slice(),
            b"end halt 6 12\n".as_slice(),
        ),
        // BNE x0, x0, 2
        ([0x0000_1163].as_slice(), b"end halt 0 3\n".as_slice()),
        // BEQ x0, x0, 2
        ([0x0000_0163].as_slice(), b"end misaligned 1\n".as_slice()),
        // BEQ x0, x0, -4096
        ([0x8000_0063].as_slice(), b"end unmapped 2\n".as_slice()),
        // BEQ x0, x0, 4092
        ([0x7E00_0EE3].as_slice(), b"end unmapped 2\n".as_slice()),
        // BEQ x0, x0, 4094
        ([0x7E00_0FE3].as_slice(), b"end misaligned 1\n".as_slice()),
        // JAL x10, 2
        ([0x0020_056F].as_slice(), b"end misaligned 1\n".as_slice()),
        // JAL x10, 1048572
        ([0x7FDF_F56F].as_slice(), b"end unmapped 2\n".as_slice()),
        // JAL x10, 1048574
        ([0x7FFF_F56F].as_slice(), b"end misaligned 1\n".as_slice()),
        // JAL x10, -1048576
        ([0x8000_056F].as_slice(), b"end unmapped 2\n".as_slice()),
        // JALR x10, 1(x0)
        ([0x0010_0567].as_slice(), b"end unmapped 2\n".as_slice()),
        // JALR x10, 2(x0)
        ([0x0020_0567].as_slice(), b"end misaligned 1\n".as_slice()),
        // JALR x10, 3(x0)
        ([0x0030_0567].as_slice(), b"end misaligned 1\n".as_slice()),
    ];
    for &(code, text) in cases {
        let seen = run_code(&rt, rt.alloc(), code);
        assert_eq!(rt; seen.text.as_slice(), text);
    }
}

#[test]
fn fences_calls_breakpoints_and_words_without_an_instruction(rt: HostRuntime) {
    let cases: &[(&[u32], &[u8])] = &[
        // FENCE iorw, iorw
        ([0x0FF0_000F].as_slice(), b"end halt 0 3\n".as_slice()),
        // ECALL
        ([0x0000_0073].as_slice(), b"end done 1\n".as_slice()),
        // ADDI x17, x0, 2; ECALL
        (
            [0x0020_0893, 0x0000_0073].as_slice(),
            b"end stack 2\n".as_slice(),
        ),
        // ADDI x17, x0, 3; ECALL
        (
            [0x0030_0893, 0x0000_0073].as_slice(),
            b"end illegal 2\n".as_slice(),
        ),
        // ADDI x17, x0, -1; ECALL
        (
            [0xFFF0_0893, 0x0000_0073].as_slice(),
            b"end illegal 2\n".as_slice(),
        ),
        // EBREAK
        ([0x0010_0073].as_slice(), b"end break 1\n".as_slice()),
        // ADDI x0, x0, 5; LUI x0, 1; ADD x10, x0, x0
        (
            [0x0050_0013, 0x0000_1037, 0x0000_0533].as_slice(),
            b"end halt 0 5\n".as_slice(),
        ),
        // FENCE.I
        ([0x0000_100F].as_slice(), b"end illegal 1\n".as_slice()),
        // CSRRW x0, mstatus, x0
        ([0x3000_1073].as_slice(), b"end illegal 1\n".as_slice()),
    ];
    for &(code, text) in cases {
        let seen = run_code(&rt, rt.alloc(), code);
        assert_eq!(rt; seen.text.as_slice(), text);
    }
}

#[test]
fn loads_extend_the_bytes_that_a_store_left(rt: HostRuntime) -> Result<(), Fail> {
    let alloc = rt.alloc();
    let cases: &[(u32, u32, u32)] = &[
        // LB x10, 0(x5)
        (0x0002_8503, 0x80FF_7F01, 1),
        // LB x10, 1(x5)
        (0x0012_8503, 0x80FF_7F01, 0x0000_007F),
        // LB x10, 2(x5)
        (0x0022_8503, 0x80FF_7F01, 0xFFFF_FFFF),
        // LB x10, 3(x5)
        (0x0032_8503, 0x80FF_7F01, 0xFFFF_FF80),
        // LBU x10, 0(x5)
        (0x0002_C503, 0x80FF_7F01, 1),
        // LBU x10, 1(x5)
        (0x0012_C503, 0x80FF_7F01, 0x0000_007F),
        // LBU x10, 2(x5)
        (0x0022_C503, 0x80FF_7F01, 0x0000_00FF),
        // LBU x10, 3(x5)
        (0x0032_C503, 0x80FF_7F01, 0x0000_0080),
        // LH x10, 0(x5)
        (0x0002_9503, 0x80FF_7F01, 0x0000_7F01),
        (0x0002_9503, 0x0000_8000, 0xFFFF_8000),
        (0x0002_9503, 0x0000_7FFF, 0x0000_7FFF),
        (0x0002_9503, 0x0000_FFFF, 0xFFFF_FFFF),
        // LH x10, 2(x5)
        (0x0022_9503, 0x80FF_7F01, 0xFFFF_80FF),
        // LHU x10, 0(x5)
        (0x0002_D503, 0x80FF_7F01, 0x0000_7F01),
        (0x0002_D503, 0x0000_8000, 0x0000_8000),
        (0x0002_D503, 0x0000_FFFF, 0x0000_FFFF),
        // LHU x10, 2(x5)
        (0x0022_D503, 0x80FF_7F01, 0x0000_80FF),
        // LW x10, 0(x5)
        (0x0002_A503, 0x80FF_7F01, 0x80FF_7F01),
        (0x0002_A503, 0x8000_0000, 0x8000_0000),
        (0x0002_A503, 0x7FFF_FFFF, 0x7FFF_FFFF),
        (0x0002_A503, 0xFFFF_FFFF, 0xFFFF_FFFF),
        (0x0002_A503, 0, 0),
    ];
    for &(word, stored, result) in cases {
        // SW x6, 0(x5) comes first
        let seen = run_with(&rt, alloc, AREAS, stored, &[0x0062_A023, word]);
        let text = format!(in alloc; "end halt {result} 8\n")?;
        assert_eq!(rt; seen.text.as_slice(), text.as_bytes());
    }
    Ok(())
}

#[test]
fn stores_change_only_the_bytes_of_their_size(rt: HostRuntime) -> Result<(), Fail> {
    let alloc = rt.alloc();
    let cases: &[(u32, u32, u32)] = &[
        // SB x6, 0(x5)
        (0x0062_8023, 0x1234_5680, 0xFFFF_FF80),
        (0x0062_8023, 0xFFFF_FF00, 0xFFFF_FF00),
        // SB x6, 1(x5)
        (0x0062_80A3, 0x1234_5680, 0xFFFF_80FF),
        // SB x6, 2(x5)
        (0x0062_8123, 0x1234_5680, 0xFF80_FFFF),
        // SB x6, 3(x5)
        (0x0062_81A3, 0x1234_5680, 0x80FF_FFFF),
        // SH x6, 0(x5)
        (0x0062_9023, 0x1234_8000, 0xFFFF_8000),
        // SH x6, 2(x5)
        (0x0062_9123, 0x1234_8000, 0x8000_FFFF),
        (0x0062_9123, 0xFFFF_0000, 0x0000_FFFF),
        // SW x6, 0(x5)
        (0x0062_A023, 0x8000_0000, 0x8000_0000),
        (0x0062_A023, 0x7FFF_FFFF, 0x7FFF_FFFF),
        (0x0062_A023, 0, 0),
    ];
    for &(word, stored, result) in cases {
        // ADDI x7, x0, -1; SW x7, 0(x5); the store; LW x10, 0(x5)
        let code = [0xFFF0_0393, 0x0072_A023, word, 0x0002_A503];
        let seen = run_with(&rt, alloc, AREAS, stored, &code);
        let text = format!(in alloc; "end halt {result} 10\n")?;
        assert_eq!(rt; seen.text.as_slice(), text.as_bytes());
    }
    Ok(())
}

#[test]
fn loads_and_stores_reach_the_first_and_last_bytes_of_memory(rt: HostRuntime) {
    // the address in x5, a store and a load
    let cases: &[(u32, u32, u32)] = &[
        // SW x6, -2048(x5); LW x10, -2048(x5)
        (0x2000_0800, 0x8062_A023, 0x8002_A503),
        // SW x6, 2044(x5); LW x10, 2044(x5)
        (0x2000_0800, 0x7E62_AE23, 0x7FC2_A503),
        // SB x6, 2047(x5); LB x10, 2047(x5)
        (0x2000_0800, 0x7E62_8FA3, 0x7FF2_8503),
        // SW x6, 0(x5); LW x10, 0(x5)
        (0x3FFF_EC00, 0x0062_A023, 0x0002_A503),
        // SW x6, 0(x5); LW x10, 0(x5)
        (0x3FFF_FFFC, 0x0062_A023, 0x0002_A503),
        // SH x6, -2(x5); LH x10, -2(x5)
        (0x4000_0000, 0xFE62_9F23, 0xFFE2_9503),
        // SB x6, -1(x5); LB x10, -1(x5)
        (0x4000_0000, 0xFE62_8FA3, 0xFFF2_8503),
    ];
    for &(address, store, load) in cases {
        let seen = run_with(&rt, rt.alloc(), address, 100, &[store, load]);
        assert_eq!(rt; seen.text.as_slice(), b"end halt 100 8\n".as_slice());
    }
}

#[test]
fn accesses_that_their_size_does_not_divide_are_misaligned(rt: HostRuntime) {
    let words: &[u32] = &[
        // LH x10, 1(x5)
        0x0012_9503,
        // LH x10, 3(x5)
        0x0032_9503,
        // LHU x10, 1(x5)
        0x0012_D503,
        // LHU x10, 3(x5)
        0x0032_D503,
        // LW x10, 1(x5)
        0x0012_A503,
        // LW x10, 2(x5)
        0x0022_A503,
        // LW x10, 3(x5)
        0x0032_A503,
        // SH x6, 1(x5)
        0x0062_90A3,
        // SH x6, 3(x5)
        0x0062_91A3,
        // SW x6, 1(x5)
        0x0062_A0A3,
        // SW x6, 2(x5)
        0x0062_A123,
        // SW x6, 3(x5)
        0x0062_A1A3,
    ];
    for &word in words {
        let seen = run_with(&rt, rt.alloc(), AREAS, 0, &[word]);
        assert_eq!(rt; seen.text.as_slice(), b"end misaligned 5\n".as_slice());
    }
}

#[test]
fn accesses_beside_memory_are_unmapped(rt: HostRuntime) {
    let words: &[u32] = &[
        // LB x10, -1(x5)
        0xFFF2_8503,
        // LBU x10, -1(x5)
        0xFFF2_C503,
        // LH x10, -2(x5)
        0xFFE2_9503,
        // LHU x10, -2(x5)
        0xFFE2_D503,
        // LW x10, -4(x5)
        0xFFC2_A503,
        // SB x6, -1(x5)
        0xFE62_8FA3,
        // SH x6, -2(x5)
        0xFE62_9F23,
        // SW x6, -4(x5)
        0xFE62_AE23,
    ];
    // before the areas, behind them, before the stack region, and behind it
    for address in [AREAS, 0x2000_1004, 0x3FFF_EC00, 0x4000_0004] {
        for &word in words {
            let seen = run_with(&rt, rt.alloc(), address, 0, &[word]);
            assert_eq!(rt; seen.text.as_slice(), b"end unmapped 5\n".as_slice());
        }
    }
}
