//! The letters that may come next, in their order. Of letters that leave one state only the least need stand here.
use crate::position::{Lists, Match, Position};
use hb_base::{List, Memory};
use hb_spelling::{Letter, PatternForm, Spelling, are_valued};
use std::alloc::Global;

fn bits(alloc: Global) -> Result<Vec<Letter>, Memory> {
    let letters = vec![in alloc; Letter::Bit(false), Letter::Bit(true)]?;
    Ok(letters)
}

/// The constructors that have values.
fn constructors(
    alloc: Global,
    valued: &[bool],
    cons: &[List<usize>],
) -> Result<Vec<Letter>, Memory> {
    let mut letters = Vec::new(alloc);
    let mut con: u32 = 0;
    for arguments in cons {
        if are_valued(valued, arguments.as_slice()) {
            letters.push(Letter::Con(con))?;
        }
        con = con.saturating_add(1);
    }
    Ok(letters)
}

/// The numbers below this one that the live rows name next, from the least up.
fn named(
    alloc: Global,
    about: &Match,
    lists: &Lists,
    here: &Position,
    count: u64,
) -> Result<Vec<u64>, Memory> {
    let mut numbers = Vec::new(alloc);
    for one in &here.live {
        if let Some(link) = lists.patterns.link(one.patterns) {
            if let Some(PatternForm::Index(number)) = about.patterns.form(link.first) {
                if *number < count {
                    numbers.push(*number)?;
                }
            }
        }
    }
    numbers.sort()?;
    Ok(numbers)
}

/// The least number that is not among these, which go from the least up.
fn least_other(numbers: &[u64]) -> u64 {
    let mut least: u64 = 0;
    for number in numbers {
        if *number == least {
            least = least.saturating_add(1);
        }
    }
    least
}

/// The numbers that live rows name, and the least of the others, which all leave one state.
fn indices(
    alloc: Global,
    about: &Match,
    lists: &Lists,
    here: &Position,
    count: u64,
) -> Result<Vec<Letter>, Memory> {
    let mut numbers = named(alloc, about, lists, here, count)?;
    let other = least_other(&numbers);
    if other < count {
        numbers.push(other)?;
        numbers.sort()?;
    }
    let mut letters = Vec::new(alloc);
    for number in &numbers {
        letters.push(Letter::Index(*number))?;
    }
    Ok(letters)
}

pub(crate) fn letters(
    alloc: Global,
    about: &Match,
    lists: &Lists,
    here: &Position,
) -> Result<Vec<Letter>, Memory> {
    if here.begun > 0 {
        return bits(alloc);
    }
    let Some(next) = here.next_type(lists) else {
        return Ok(Vec::new(alloc));
    };
    match about.types.form(next) {
        Some(Spelling::Data(cons)) => constructors(alloc, &about.valued, cons.as_slice()),
        Some(Spelling::Bits(_)) => bits(alloc),
        Some(Spelling::Index(count)) => indices(alloc, about, lists, here, *count),
        Some(Spelling::Opaque) => {
            let letters = vec![in alloc; Letter::Opaque]?;
            Ok(letters)
        }
        None => Ok(Vec::new(alloc)),
    }
}
