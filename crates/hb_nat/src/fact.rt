/// A number that is known, or one that is still open. Two open arguments of one number are the same.
#[derive(Clone, Copy, Debug, PartialEq, Eq)]
pub enum NatArg {
    Known(u64),
    Open(u32),
}

/// A fact about natural numbers up to 2^64 - 1: `n + m = p`, `n * m = p`, `n <= m`, and `2 ^ n = m`.
#[derive(Clone, Copy, Debug, PartialEq, Eq)]
pub enum NatFact {
    Sum(NatArg, NatArg, NatArg),
    Product(NatArg, NatArg, NatArg),
    AtMost(NatArg, NatArg),
    Power(NatArg, NatArg),
}

/// What a fact says of its open arguments: nothing yet, that one of them is this number, or that the fact can
/// never hold.
#[derive(Clone, Copy, Debug, PartialEq, Eq)]
pub enum Improvement {
    Nothing,
    Know(u32, u64),
    Never,
}
