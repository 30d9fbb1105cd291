//! Which patterns no constructor has, and which two have.
ghost use Rattle.std.specs.Prelude.{◌≡◌, ◌≤◌, ◌<◌, ◌+◌, ◌∷◌, ◌↔◌, ◌++◌, ℕ, Bool, not, List, IfOk, IfSome, IfNone, IsTrue, length, map, slice_get};
ghost use Rattle.hb_bits.specs.Members.{IsIn, IsInBoth, IsLeastInBoth};
ghost use Rattle.hb_bits.specs.OfCube.{members_of};
ghost use Rattle.hb_bits.specs.OfPattern.{bits_of};
ghost use Rattle.hb_bitdata.specs.Junk.{IsShared, IsOutOfAll, HaveWidth, HaveBits, IsOutside, IsAnswer, cubes_of};

use crate::con::ConLayout;
use crate::layout::BitLayout;
use hb_base::Memory;
use hb_bits::{Cube, Pattern};
use std::alloc::Global;

/// Whether the cube leaves all members free.
fn is_whole(cube: &Cube) -> bool
    ensures { IsTrue result → (bits : List Bool) → length bits ≡ cube.now.width → IsIn (members_of cube.now) bits }
{
    cube.mask == 0
}

/// Whether some cube has all patterns.
fn has_whole(cubes: &[Cube]) -> bool
    ensures { IsTrue result → (width : ℕ) (bits : List Bool) → HaveWidth width cubes.now → ¬ IsOutside width cubes.now bits }
{
    let mut left = cubes;
    while let Some((cube, rest)) = left.split_first() {
        if is_whole(cube) {
            return true;
        }
        left = rest;
    }
    false
}

/// Whether no cube fixes the first bit.
fn is_first_free(cubes: &[Cube]) -> bool
    requires { HaveBits cubes.now }
    ensures { IsTrue result → (bit : Bool) (bits : List Bool) → IsOutOfAll cubes.now (bit ∷ bits) → IsOutOfAll cubes.now (not bit ∷ bits) }
{
    let mut left = cubes;
    while let Some((cube, rest)) = left.split_first() {
        if cube.first().is_some() {
            return false;
        }
        left = rest;
    }
    true
}

/// What follows this first bit in the cubes.
fn after_all(alloc: Global, width: u32, cubes: &[Cube], bit: bool) -> Result<Vec<Cube>, Memory>
    requires { HaveWidth (width + 1) cubes.now }
    ensures widths { IfOk result (λ kept. HaveWidth width kept.items) }
    ensures out { IfOk result (λ kept. (bits : List Bool) → (IsOutOfAll cubes.now (bit ∷ bits) ↔ IsOutOfAll kept.items bits)) }
{
    let mut kept = Vec::new(alloc);
    let mut left = cubes;
    while let Some((cube, rest)) = left.split_first() {
        if let Some(after) = cube.after(bit) {
            kept.push(after)?;
        }
        left = rest;
    }
    Ok(kept)
}

/// This bit, and then the pattern.
fn with_first(bit: bool, rest: Pattern) -> Pattern
    requires { rest.width < 64 }
    ensures width { result.width ≡ rest.width + 1 }
    ensures bits { bits_of result ≡ bit ∷ bits_of rest }
{
    let first = Pattern {
        width: 1,
        word: bit as u64,
    };
    first.join(rest)
}

/// The least pattern of a width that is in none of the cubes. Each call fixes one bit more, and ends where no cube is left,
/// or one that has all patterns.
fn least_outside(alloc: Global, width: u32, cubes: &[Cube]) -> Result<Option<Pattern>, Memory>
    requires narrow { width ≤ 64 }
    requires widths { HaveWidth width cubes.now }
    ensures { IfOk result (IsAnswer width cubes.now) }
{
    if cubes.is_empty() {
        return Ok(Some(Pattern { width, word: 0 }));
    }
    if width == 0 {
        return Ok(None);
    }
    if has_whole(cubes) {
        return Ok(None);
    }
    let zeros = after_all(alloc, width - 1, cubes, false)?;
    if let Some(rest) = least_outside(alloc, width - 1, zeros.as_slice())? {
        return Ok(Some(with_first(false, rest)));
    }
    if is_first_free(cubes) {
        return Ok(None);
    }
    let ones = after_all(alloc, width - 1, cubes, true)?;
    match least_outside(alloc, width - 1, ones.as_slice())? {
        Some(rest) => Ok(Some(with_first(true, rest))),
        None => Ok(None),
    }
}

/// The cubes of constructors.
fn cubes_of_all(alloc: Global, cons: &[ConLayout]) -> Result<Vec<Cube>, Memory>
    ensures { IfOk result (λ cubes. cubes.items ≡ cubes_of cons.now) }
{
    let mut cubes = Vec::new(alloc);
    let mut left = cons;
    while let Some((con, rest)) = left.split_first() {
        cubes.push(con.cube)?;
        left = rest;
    }
    Ok(cubes)
}

impl BitLayout {
    /// The least junk: the least pattern of this width that no constructor has, or `None` where each has one.
    pub fn junk(&self, alloc: Global) -> Result<Option<Pattern>, Memory>
        ensures { IfOk result (IsAnswer self.now.width (cubes_of self.now.cons)) }
    {
        let cubes = cubes_of_all(alloc, self.cons.as_slice())?;
        let least = least_outside(alloc, self.width, cubes.as_slice())?;
        Ok(least)
    }

    /// The least pattern that two constructors share, by their numbers, or `None` where they share none. Takes no memory.
    pub fn confusion(&self, a: u32, b: u32) -> Option<Pattern>
        requires first { a < length self.now.cons }
        requires second { b < length self.now.cons }
        ensures { IsShared (slice_get self.now.cons a) (slice_get self.now.cons b) result }
    {
        let cons = self.cons.as_slice();
        match (cons.get(a as usize), cons.get(b as usize)) {
            (Some(first), Some(second)) => first.cube.meets(second.cube),
            _ => unreachable!(),
        }
    }
}
