use crate::Improvement::{Know, Never, Nothing};
use crate::NatArg::{Known, Open};
use crate::NatFact::{AtMost, Power, Product, Sum};
use crate::{check, improve};

const MAX: u64 = u64::MAX;

const TOP_BIT: u64 = 1 << 63;

const HALF: u64 = 1 << 32;

#[test]
fn a_sum_gives_any_one_from_the_other_two(rt: HostRuntime) {
    for (n, m, p, want) in [
        (Known(3), Known(5), Open(0), Know(0, 8)),
        (Known(5), Open(0), Known(3), Never),
        (Open(7), Known(3), Known(MAX), Know(7, MAX - 3)),
        (Known(MAX), Known(0), Open(0), Know(0, MAX)),
        (Known(MAX), Known(1), Open(0), Never),
        (Known(1), Known(2), Known(3), Nothing),
        (Known(1), Known(1), Known(3), Never),
        (Known(TOP_BIT), Known(TOP_BIT), Known(0), Never),
        (Open(0), Open(1), Known(7), Nothing),
        (Open(0), Open(0), Known(8), Nothing),
        (Open(0), Open(0), Known(7), Never),
        (Known(0), Open(0), Open(0), Nothing),
        (Known(1), Open(0), Open(0), Never),
        (Open(0), Known(1), Open(1), Nothing),
        (Open(0), Known(1), Open(0), Never),
        (Open(0), Open(0), Open(0), Nothing),
    ] {
        assert_eq!(rt; improve(Sum(n, m, p)), want, "{n:?} + {m:?} = {p:?}");
    }
}

#[test]
fn a_product_gives_a_factor_from_a_factor_above_0(rt: HostRuntime) {
    for (n, m, p, want) in [
        (Known(0), Open(0), Known(0), Nothing),
        (Known(0), Open(0), Known(5), Never),
        (Known(3), Open(0), Known(12), Know(0, 4)),
        (Open(0), Known(3), Known(7), Never),
        (Open(0), Known(1), Known(MAX), Know(0, MAX)),
        (Known(TOP_BIT), Known(1), Open(0), Know(0, TOP_BIT)),
        (Known(TOP_BIT), Known(2), Open(0), Never),
        (Known(HALF), Known(HALF), Known(0), Never),
        (Known(0), Open(0), Open(1), Nothing),
        (Open(0), Open(1), Known(15), Nothing),
        (Open(0), Open(0), Known(15), Never),
        (Open(0), Open(0), Known(16), Nothing),
        (Open(0), Open(0), Known(MAX), Never),
        (Open(0), Open(0), Open(0), Nothing),
    ] {
        assert_eq!(rt; improve(Product(n, m, p)), want, "{n:?} * {m:?} = {p:?}");
    }
}

#[test]
fn a_power_gives_either_from_the_other(rt: HostRuntime) {
    for (n, m, want) in [
        (Open(0), Known(12), Never),
        (Open(0), Known(0), Never),
        (Open(0), Known(1), Know(0, 0)),
        (Open(0), Known(TOP_BIT), Know(0, 63)),
        (Open(0), Known(MAX), Never),
        (Known(63), Open(0), Know(0, TOP_BIT)),
        (Known(64), Open(0), Never),
        (Known(3), Known(8), Nothing),
        (Known(3), Known(9), Never),
        (Known(64), Known(0), Never),
        (Open(0), Open(1), Nothing),
        (Open(0), Open(0), Never),
    ] {
        assert_eq!(rt; improve(Power(n, m)), want, "2 ^ {n:?} = {m:?}");
    }
}

#[test]
fn at_most_gives_nothing(rt: HostRuntime) {
    for (n, m, want) in [
        (Open(0), Known(0), Nothing),
        (Known(MAX), Open(0), Nothing),
        (Open(0), Open(0), Nothing),
        (Known(4), Known(4), Nothing),
        (Known(5), Known(4), Never),
    ] {
        assert_eq!(rt; improve(AtMost(n, m)), want, "{n:?} <= {m:?}");
    }
}

#[test]
fn known_facts_are_checked_without_wrapping(rt: HostRuntime) {
    assert!(rt; check(Sum(Known(1), Known(2), Known(3))));
    assert!(rt; !check(Sum(Known(MAX), Known(1), Known(0))));
    assert!(rt; check(Product(Known(HALF), Known(2), Known(1 << 33))));
    assert!(rt; !check(Product(Known(HALF), Known(HALF), Known(0))));
    assert!(rt; check(AtMost(Known(4), Known(4))));
    assert!(rt; check(Power(Known(63), Known(TOP_BIT))));
    assert!(rt; !check(Power(Known(64), Known(0))));
}
