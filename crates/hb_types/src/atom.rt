/// A type that has no parts: a variable of a scheme by its place among the variables, a constructor by its number, or
/// a number.
#[derive(Clone, Copy, Debug, PartialEq, Eq, Hash)]
pub enum Atom {
    Var(u32),
    Con(u32),
    Nat(u64),
}
