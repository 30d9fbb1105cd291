ghost use Rattle.std.specs.Prelude.{◌≡◌, ◌+◌, ◌^◌, ◌<◌, ◌≤◌, ◌↔◌, ◌∷◌, ◌++◌, Bool, not, List, map, replicate, IsTrue, IfSome, IfNone, bit_and};

use crate::pattern::Pattern;
use crate::shift::{ones, shifted_down, shifted_up};

/// The patterns of one width that have the bits of `value` at the places where `mask` has ones.
#[derive(Clone, Copy, Debug, PartialEq, Eq)]
pub struct Cube {
    pub width: u32,
    pub mask: u64,
    pub value: u64,
    pub ghost narrow: { width ≤ 64 },
    pub ghost in_range: { mask < 2 ^ width },
    pub ghost within_mask: { bit_and value mask ≡ value },
}

impl Cube {
    ghost use Rattle.hb_bits.specs.Members.{IsIn, IsInBoth, IsLeastInBoth};
    ghost use Rattle.hb_bits.specs.Members.Member.{Fixed, Free};
    ghost use Rattle.hb_bits.specs.OfCube.{members_of};
    ghost use Rattle.hb_bits.specs.OfPattern.{bits_of};

    /// Whether the pattern is in the cube.
    pub fn has(self, p: Pattern) -> bool
        requires { p.width ≡ self.width }
        ensures { IsTrue result ↔ IsIn (members_of self) (bits_of p) }
    {
        p.word & self.mask == self.value
    }

    /// The least pattern that is in both cubes, or `None` where there is none.
    pub fn meets(self, other: Cube) -> Option<Pattern>
        requires { other.width ≡ self.width }
        ensures width { IfSome result (λ p. p.width ≡ self.width) }
        ensures least { IfSome result (λ p. IsLeastInBoth (members_of self) (members_of other) (bits_of p)) }
        ensures none { IfNone result ((bits : List Bool) → ¬ IsInBoth (members_of self) (members_of other) bits) }
    {
        if (self.value ^ other.value) & self.mask & other.mask != 0 {
            return None;
        }
        Some(Pattern {
            width: self.width,
            word: self.value | other.value,
        })
    }

    /// The cube of this one pattern.
    pub fn fixed(p: Pattern) -> Cube
        ensures width { result.width ≡ p.width }
        ensures members { members_of result ≡ map Fixed (bits_of p) }
    {
        Cube {
            width: p.width,
            mask: ones(p.width),
            value: p.word,
        }
    }

    /// The cube of all patterns of a width.
    pub fn free(width: u32) -> Cube
        requires { width ≤ 64 }
        ensures width { result.width ≡ width }
        ensures members { members_of result ≡ replicate width Free }
    {
        Cube {
            width,
            mask: 0,
            value: 0,
        }
    }

    /// The members of this cube, and then those of `low`.
    pub fn join(self, low: Cube) -> Cube
        requires { self.width + low.width ≤ 64 }
        ensures width { result.width ≡ self.width + low.width }
        ensures members { members_of result ≡ members_of self ++ members_of low }
    {
        Cube {
            width: self.width + low.width,
            mask: shifted_up(self.mask, low.width) | low.mask,
            value: shifted_up(self.value, low.width) | low.value,
        }
    }

    /// Whether all patterns of one first bit are left out: the bit that the cube fixes there.
    pub fn first(self) -> Option<bool>
        requires { 0 < self.width }
        ensures fixed { IfSome result (λ fixed. (bit : Bool) (bits : List Bool) → IsIn (members_of self) (bit ∷ bits) → bit ≡ fixed) }
        ensures free { IfNone result ((bit : Bool) (bits : List Bool) → IsIn (members_of self) (bit ∷ bits) → IsIn (members_of self) (not bit ∷ bits)) }
    {
        let width = self.width - 1;
        if shifted_down(self.mask, width) == 1 {
            Some(shifted_down(self.value, width) == 1)
        } else {
            None
        }
    }

    /// The patterns that follow this first bit in the cube, or `None` where none does.
    pub fn after(self, bit: bool) -> Option<Cube>
        requires { 0 < self.width }
        ensures width { IfSome result (λ rest. rest.width + 1 ≡ self.width) }
        ensures some { IfSome result (λ rest. (bits : List Bool) → (IsIn (members_of self) (bit ∷ bits) ↔ IsIn (members_of rest) bits)) }
        ensures none { IfNone result ((bits : List Bool) → ¬ IsIn (members_of self) (bit ∷ bits)) }
    {
        let width = self.width - 1;
        if shifted_down(self.mask, width) == 1 && (shifted_down(self.value, width) == 1) != bit {
            return None;
        }
        let kept = ones(width);
        Some(Cube {
            width,
            mask: self.mask & kept,
            value: self.value & kept,
        })
    }
}
