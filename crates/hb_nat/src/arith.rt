//! Arithmetic on numbers up to 2^64 - 1 that tells where a result is none of them.
ghost use Rattle.std.specs.Prelude.{◌≡◌, ◌≢◌, ℕ, ◌+◌, ◌*◌, ◌^◌, ◌<◌, ◌↔◌, IsTrue, IfSome, IfNone};
ghost use Rattle.std.specs.Option.{SomeIff};

/// Whether `n + m` is `p`.
pub(crate) fn adds_to(n: u64, m: u64, p: u64) -> bool
    ensures { IsTrue result ↔ (n + m ≡ p) }
{
    match n.checked_add(m) {
        Some(sum) => sum == p,
        None => false,
    }
}

/// Whether `n * m` is `p`.
pub(crate) fn multiplies_to(n: u64, m: u64, p: u64) -> bool
    ensures { IsTrue result ↔ (n * m ≡ p) }
{
    match n.checked_mul(m) {
        Some(product) => product == p,
        None => false,
    }
}

/// The number by which `n` multiplies to `p`.
pub(crate) fn quotient(p: u64, n: u64) -> Option<u64>
    requires { 0 < n }
    ensures some { IfSome result (λ q. n * q ≡ p) }
    ensures none { IfNone result ((q : ℕ) → n * q ≢ p) }
{
    if p % n == 0 { Some(p / n) } else { None }
}

/// Whether `p` is the product of some number with itself.
pub(crate) fn is_square(p: u64) -> bool
    ensures yes { IsTrue result → (n : ℕ) × ((n < 2 ^ 64) × (n * n ≡ p)) }
    ensures no { (n : ℕ) → n * n ≡ p → IsTrue result }
{
    let root = p.isqrt();
    root * root == p
}

/// `2 ^ n`.
pub(crate) fn power(n: u64) -> Option<u64>
    ensures { SomeIff result (2 ^ n < 2 ^ 64) (2 ^ n) }
{
    if n < 64 { Some(1 << n) } else { None }
}

/// Whether `2 ^ n` is `m`.
pub(crate) fn raises_to(n: u64, m: u64) -> bool
    ensures { IsTrue result ↔ (2 ^ n ≡ m) }
{
    match power(n) {
        Some(result) => result == m,
        None => false,
    }
}

/// The number `n` for which `2 ^ n` is `m`.
pub(crate) fn exponent(m: u64) -> Option<u64>
    ensures some { IfSome result (λ n. 2 ^ n ≡ m) }
    ensures none { IfNone result ((n : ℕ) → 2 ^ n ≢ m) }
{
    if m == 0 {
        return None;
    }
    let n = m.ilog2();
    if 1 << n == m { Some(n as u64) } else { None }
}
