ghost use Rattle.std.specs.Prelude.{◌≡◌, ◌+◌, ◌-◌, ◌^◌, ◌<◌, ◌≤◌, ◌++◌};

use crate::shift::{ones, shifted_down, shifted_up};

/// A list of up to 64 bits. Its word is the number that they spell, the most significant bit first.
#[derive(Clone, Copy, Debug, PartialEq, Eq)]
pub struct Pattern {
    pub width: u32,
    pub word: u64,
    pub ghost narrow: { width ≤ 64 },
    pub ghost in_range: { word < 2 ^ width },
}

impl Pattern {
    ghost use Rattle.hb_bits.specs.Bits.{cut_at, place_at};
    ghost use Rattle.hb_bits.specs.OfPattern.{bits_of};

    /// These bits, and then the bits of `low`.
    pub fn join(self, low: Pattern) -> Pattern
        requires { self.width + low.width ≤ 64 }
        ensures width { result.width ≡ self.width + low.width }
        ensures bits { bits_of result ≡ bits_of self ++ bits_of low }
    {
        Pattern {
            width: self.width + low.width,
            word: shifted_up(self.word, low.width) | low.word,
        }
    }

    /// The part of this width that has `at` bits after it.
    pub fn cut(self, at: u32, width: u32) -> Pattern
        requires { at + width ≤ self.width }
        ensures width { result.width ≡ width }
        ensures bits { bits_of result ≡ cut_at at width (bits_of self) }
    {
        Pattern {
            width,
            word: shifted_down(self.word, at) & ones(width),
        }
    }

    /// These bits with `part` in the place of those that have `at` bits after them.
    pub fn place(self, at: u32, part: Pattern) -> Pattern
        requires { at + part.width ≤ self.width }
        ensures width { result.width ≡ self.width }
        ensures bits { bits_of result ≡ place_at at (bits_of part) (bits_of self) }
    {
        let after = at + part.width;
        let high = self.cut(after, self.width - after);
        high.join(part).join(self.cut(0, at))
    }
}
