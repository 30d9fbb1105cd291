/// Why an equation was not taken in.
#[derive(Clone, Copy, Debug, PartialEq, Eq)]
pub enum EquateError {
    /// No finite types make the equations so far and this one true.
    Clash,
    Memory,
}
