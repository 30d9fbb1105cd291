ghost use Rattle.std.specs.Prelude.{◌≡◌, ℕ, ◌↔◌, if◌then◌else◌, IsTrue, MatchOption};
ghost use Rattle.hb_nat.specs.Facts.{Holds, AllKnown};
ghost use Rattle.hb_nat.specs.Improving.{IsAnswer};

use crate::arith::{adds_to, exponent, is_square, multiplies_to, power, quotient, raises_to};
use crate::fact::{Improvement, NatArg, NatFact};
use NatArg::{Known, Open};

/// Whether the fact holds. All its arguments have to be known. Takes no memory.
pub fn check(fact: NatFact) -> bool
    requires { AllKnown fact }
    ensures { (numbers : ℕ → ℕ) → (IsTrue result ↔ Holds numbers fact) }
{
    match fact {
        NatFact::Sum(Known(n), Known(m), Known(p)) => adds_to(n, m, p),
        NatFact::Product(Known(n), Known(m), Known(p)) => multiplies_to(n, m, p),
        NatFact::AtMost(Known(n), Known(m)) => n <= m,
        NatFact::Power(Known(n), Known(m)) => raises_to(n, m),
        _ => unreachable!(),
    }
}

/// What the fact says of its open arguments. Takes no memory.
pub fn improve(fact: NatFact) -> Improvement
    ensures { IsAnswer fact result }
{
    match fact {
        NatFact::Sum(n, m, p) => improve_sum(n, m, p),
        NatFact::Product(n, m, p) => improve_product(n, m, p),
        NatFact::AtMost(n, m) => improve_at_most(n, m),
        NatFact::Power(n, m) => improve_power(n, m),
    }
}

/// The answer where a fact gives no argument, from whether it can hold.
fn decided(possible: bool) -> Improvement
    ensures { result ≡ (if possible then Improvement.Nothing else Improvement.Never) }
{
    if possible {
        Improvement::Nothing
    } else {
        Improvement::Never
    }
}

/// The answer where two arguments are open: some two numbers serve, but where they have to be the same it may be
/// that none does.
fn decided_twice(same: bool, possible: bool) -> Improvement
    ensures { result ≡ (if same then (if possible then Improvement.Nothing else Improvement.Never)
        else Improvement.Nothing) }
{
    if same {
        decided(possible)
    } else {
        Improvement::Nothing
    }
}

/// The answer where a fact gives this argument, from the number that it gives.
fn given(variable: u32, number: Option<u64>) -> Improvement
    ensures { MatchOption number (result ≡ Improvement.Never) (λ n. result ≡ Improvement.Know variable n) }
{
    match number {
        Some(n) => Improvement::Know(variable, n),
        None => Improvement::Never,
    }
}

fn improve_sum(n: NatArg, m: NatArg, p: NatArg) -> Improvement
    ensures { IsAnswer (NatFact.Sum n m p) result }
{
    match (n, m, p) {
        (Known(n), Known(m), Known(p)) => decided(adds_to(n, m, p)),
        (Known(n), Known(m), Open(p)) => given(p, n.checked_add(m)),
        (Known(n), Open(m), Known(p)) => given(m, p.checked_sub(n)),
        (Open(n), Known(m), Known(p)) => given(n, p.checked_sub(m)),
        (Known(n), Open(m), Open(p)) => decided_twice(m == p, n == 0),
        (Open(n), Known(m), Open(p)) => decided_twice(n == p, m == 0),
        (Open(n), Open(m), Known(p)) => decided_twice(n == m, p % 2 == 0),
        (Open(_), Open(_), Open(_)) => Improvement::Nothing,
    }
}

fn improve_product(n: NatArg, m: NatArg, p: NatArg) -> Improvement
    ensures { IsAnswer (NatFact.Product n m p) result }
{
    match (n, m, p) {
        (Known(n), Known(m), Known(p)) => decided(multiplies_to(n, m, p)),
        (Known(n), Known(m), Open(p)) => given(p, n.checked_mul(m)),
        (Known(n), Open(m), Known(p)) => improve_factor(n, m, p),
        (Open(n), Known(m), Known(p)) => improve_factor(m, n, p),
        (Open(n), Open(m), Known(p)) => decided_twice(n == m, is_square(p)),
        (Known(_), Open(_), Open(_)) => Improvement::Nothing,
        (Open(_), Known(_), Open(_)) => Improvement::Nothing,
        (Open(_), Open(_), Open(_)) => Improvement::Nothing,
    }
}

/// The answer where one factor and the product are known, on whichever side the open factor stands.
fn improve_factor(factor: u64, variable: u32, product: u64) -> Improvement
    ensures right { IsAnswer
        (NatFact.Product (NatArg.Known factor) (NatArg.Open variable) (NatArg.Known product)) result }
    ensures left { IsAnswer
        (NatFact.Product (NatArg.Open variable) (NatArg.Known factor) (NatArg.Known product)) result }
{
    if factor == 0 {
        decided(product == 0)
    } else {
        given(variable, quotient(product, factor))
    }
}

fn improve_at_most(n: NatArg, m: NatArg) -> Improvement
    ensures { IsAnswer (NatFact.AtMost n m) result }
{
    match (n, m) {
        (Known(n), Known(m)) => decided(n <= m),
        (Known(_), Open(_)) => Improvement::Nothing,
        (Open(_), _) => Improvement::Nothing,
    }
}

fn improve_power(n: NatArg, m: NatArg) -> Improvement
    ensures { IsAnswer (NatFact.Power n m) result }
{
    match (n, m) {
        (Known(n), Known(m)) => decided(raises_to(n, m)),
        (Known(n), Open(m)) => given(m, power(n)),
        (Open(n), Known(m)) => given(n, exponent(m)),
        (Open(n), Open(m)) => decided_twice(n == m, false),
    }
}
