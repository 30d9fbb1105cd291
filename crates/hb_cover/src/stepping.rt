//! What one letter more leaves.
use crate::chain::{EMPTY, Link};
use crate::live::Live;
use crate::position::{Lists, Match, Position};
use hb_base::Memory;
use hb_bits::Cube;
use hb_spelling::{Letter, PatternForm, Spelling, WILD};
use std::alloc::Global;

/// What is left of the types after a letter.
#[derive(Clone, Copy, Debug)]
struct TypesLeft {
    types: usize,
    begun: u32,
    /// The number of arguments that the letter's constructor has.
    arguments: usize,
}

/// The bits of the next word that are left, the letter's included.
fn bits_left(about: &Match, lists: &Lists, here: &Position) -> u32 {
    if here.begun > 0 {
        return here.begun;
    }
    match here.next_type(lists) {
        Some(next) => match about.types.form(next) {
            Some(Spelling::Bits(width)) => *width,
            _ => 0,
        },
        None => 0,
    }
}

fn types_after(
    about: &Match,
    lists: &mut Lists,
    here: &Position,
    letter: Letter,
) -> Result<TypesLeft, Memory> {
    let rest = lists.types.rest(here.types);
    match letter {
        Letter::Con(con) => {
            let next = here.next_type(lists).unwrap_or(WILD);
            let arguments = about.types.arguments(next, con);
            let types = lists.types.push_all(arguments, rest)?;
            Ok(TypesLeft {
                types,
                begun: 0,
                arguments: arguments.len(),
            })
        }
        Letter::Bit(_) => {
            let types = if here.begun > 0 { here.types } else { rest };
            let begun = bits_left(about, lists, here).saturating_sub(1);
            Ok(TypesLeft {
                types,
                begun,
                arguments: 0,
            })
        }
        Letter::Index(_) | Letter::Opaque => Ok(TypesLeft {
            types: rest,
            begun: 0,
            arguments: 0,
        }),
    }
}

fn is_one(word: u64, at: u32) -> bool {
    word.checked_shr(at).unwrap_or(0) & 1 == 1
}

/// Whether the cube has patterns with this bit at the place with so many bits after it.
fn has_bit(cube: &Cube, at: u32, bit: bool) -> bool {
    !is_one(cube.mask, at) || is_one(cube.value, at) == bit
}

/// Whether the pattern has values with this letter next, which has so many bits of its word after it.
fn has_letter(pattern: Option<&PatternForm>, letter: Letter, after: u32) -> bool {
    match (pattern, letter) {
        (None | Some(PatternForm::Any), _) => true,
        (Some(PatternForm::Con(con, _)), Letter::Con(given)) => *con == given,
        (Some(PatternForm::Bits(cube)), Letter::Bit(bit)) => has_bit(cube, after, bit),
        (Some(PatternForm::Index(number)), Letter::Index(given)) => *number == given,
        _ => false,
    }
}

/// The patterns that are left of a row after a letter that it has.
fn patterns_after(
    about: &Match,
    lists: &mut Lists,
    list: usize,
    link: Link,
    left: TypesLeft,
) -> Result<usize, Memory> {
    if left.begun > 0 {
        return Ok(list);
    }
    let parts = about.patterns.arguments(link.first);
    if parts.len() == left.arguments {
        lists.patterns.push_all(parts, link.rest)
    } else {
        lists.patterns.push_times(WILD, left.arguments, link.rest)
    }
}

/// The rows that are live after a letter.
fn live_after(
    alloc: Global,
    about: &Match,
    lists: &mut Lists,
    live: &[Live],
    letter: Letter,
    left: TypesLeft,
) -> Result<Vec<Live>, Memory> {
    let mut kept = Vec::new(alloc);
    for one in live {
        let link = lists.patterns.link(one.patterns).unwrap_or(Link {
            first: WILD,
            rest: EMPTY,
        });
        if has_letter(about.patterns.form(link.first), letter, left.begun) {
            let patterns = patterns_after(about, lists, one.patterns, link, left)?;
            kept.push(Live {
                row: one.row,
                patterns,
            })?;
        }
    }
    Ok(kept)
}

/// Takes the next type away.
fn drop_next(lists: &Lists, here: &mut Position) {
    here.types = lists.types.rest(here.types);
    for one in here.live.as_mut_slice() {
        one.patterns = lists.patterns.rest(one.patterns);
    }
}

/// Takes away the types in front whose values are spelled with no letter.
pub(crate) fn settle(about: &Match, lists: &Lists, here: &mut Position) {
    if here.begun > 0 {
        return;
    }
    for _ in 0..u64::MAX {
        match here.next_type(lists) {
            Some(next) if about.types.is_silent(next) => drop_next(lists, here),
            _ => return,
        }
    }
}

/// What one letter more leaves.
pub(crate) fn step(
    alloc: Global,
    about: &Match,
    lists: &mut Lists,
    here: &Position,
    letter: Letter,
) -> Result<Position, Memory> {
    let left = types_after(about, lists, here, letter)?;
    let live = live_after(alloc, about, lists, &here.live, letter, left)?;
    let mut there = Position {
        types: left.types,
        begun: left.begun,
        live,
    };
    settle(about, lists, &mut there);
    Ok(there)
}
