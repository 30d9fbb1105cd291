use hb_asm::AluOp;

/// How the words of a primitive's result come from the words of its arguments.
#[derive(Clone, Copy, Debug, PartialEq, Eq)]
pub(crate) enum Rule {
    /// By one operation on two words.
    Alu(AluOp),
    Multiply,
    Divide,
    Remainder,
    Not,
    Equal,
    /// The result is the argument.
    Same,
    NonZero,
    ToBit,
    JoinBits,
    HighBits,
    LowBits,
    ToIx,
    FirstIx,
    LastIx,
    IncIx,
    DecIx,
    ElemRef,
    /// An action, which computes nothing.
    Action,
}

/// The rule of the primitive of this number.
pub(crate) fn rule_of(number: u32) -> Rule {
    match number {
        0..=13 => arithmetic_rule(number),
        16 => Rule::NonZero,
        19 => Rule::ToBit,
        20 => Rule::JoinBits,
        21 => Rule::HighBits,
        22 => Rule::LowBits,
        26 => Rule::ToIx,
        27 => Rule::FirstIx,
        28 => Rule::LastIx,
        29 => Rule::IncIx,
        30 => Rule::DecIx,
        31 => Rule::ElemRef,
        14..=25 => Rule::Same,
        _ => Rule::Action,
    }
}

/// The rules of the primitives `addU` to `ltS`.
fn arithmetic_rule(number: u32) -> Rule {
    match number {
        0 => Rule::Alu(AluOp::Add),
        1 => Rule::Alu(AluOp::Sub),
        2 => Rule::Multiply,
        3 => Rule::Alu(AluOp::And),
        4 => Rule::Alu(AluOp::Or),
        5 => Rule::Alu(AluOp::Xor),
        6 => Rule::Not,
        7 => Rule::Alu(AluOp::Sll),
        8 => Rule::Alu(AluOp::Srl),
        9 => Rule::Divide,
        10 => Rule::Remainder,
        11 => Rule::Equal,
        12 => Rule::Alu(AluOp::Sltu),
        _ => Rule::Alu(AluOp::Slt),
    }
}
