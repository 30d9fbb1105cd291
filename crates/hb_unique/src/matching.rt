use crate::shape::form_at;
use crate::unique::UniqueTypes;
use hb_base::Memory;
use hb_types::{Atom, Form, Types};
use std::alloc::Global;

/// What a pattern makes of types: it takes them, with these types for its variables by their places; it is unlike them;
/// or an unknown, by its number, leaves it open.
#[derive(Debug, Drop)]
pub enum Matched {
    Taken(Vec<usize>),
    Unlike,
    Open(u64),
}

/// A pattern and the type to which it is held, by their places.
#[derive(Clone, Copy)]
struct Held {
    pattern: usize,
    place: usize,
}

/// What one step makes of a pattern and a type.
#[derive(Clone, Copy)]
enum Verdict {
    Fine,
    Unlike,
    Open(u64),
}

/// The types for variables so far.
#[derive(Drop)]
struct Matching<'a> {
    patterns: &'a Types,
    types: &'a UniqueTypes,
    taken: Vec<Option<usize>>,
    held: Vec<Held>,
}

fn hold(alloc: Global, patterns: &[usize], places: &[usize]) -> Result<Vec<Held>, Memory> {
    let mut held = Vec::new(alloc);
    for (pattern, place) in patterns.iter().zip(places.iter()) {
        held.push(Held {
            pattern: *pattern,
            place: *place,
        })?;
    }
    Ok(held)
}

impl Matching<'_> {
    /// A variable of the pattern at a type.
    fn variable(&mut self, variable: u32, place: usize) -> Verdict {
        let at = self.types.resolved(place);
        match self.taken.get_mut(variable as usize) {
            None => Verdict::Unlike,
            Some(entry) => match *entry {
                None => {
                    *entry = Some(at);
                    Verdict::Fine
                }
                Some(one) => if self.types.resolved(one) == at {
                    Verdict::Fine
                } else {
                    Verdict::Unlike
                },
            },
        }
    }

    /// A pattern without parts at a type.
    fn atom(&mut self, atom: Atom, place: usize) -> Verdict {
        if let Atom::Var(variable) = atom {
            return self.variable(variable, place);
        }
        match self.types.form(place) {
            Some(Form::Leaf(other)) => if other == atom {
                Verdict::Fine
            } else {
                Verdict::Unlike
            },
            Some(Form::Unknown(number)) => Verdict::Open(number),
            _ => Verdict::Unlike,
        }
    }

    /// An application as a pattern at a type.
    fn apply(&mut self, f: usize, x: usize, place: usize) -> Result<Verdict, Memory> {
        match self.types.form(place) {
            Some(Form::Apply(g, y)) => {
                self.held.push(Held {
                    pattern: x,
                    place: y,
                })?;
                self.held.push(Held {
                    pattern: f,
                    place: g,
                })?;
                Ok(Verdict::Fine)
            }
            Some(Form::Unknown(number)) => Ok(Verdict::Open(number)),
            _ => Ok(Verdict::Unlike),
        }
    }

    fn step(&mut self, one: Held) -> Result<Verdict, Memory> {
        match form_at(self.patterns, one.pattern) {
            Some(Form::Leaf(atom)) => Ok(self.atom(atom, one.place)),
            Some(Form::Apply(f, x)) => self.apply(f, x, one.place),
            _ => Ok(Verdict::Unlike),
        }
    }

    /// All that is held to be alike is looked at.
    fn run(&mut self) -> Result<Verdict, Memory> {
        for _ in 0..u64::MAX {
            let Some(one) = self.held.pop() else {
                return Ok(Verdict::Fine);
            };
            match self.step(one)? {
                Verdict::Fine => {}
                other => return Ok(other),
            }
        }
        Ok(Verdict::Unlike)
    }
}

/// Some types: nothing stands for each of so many variables.
fn nothing(alloc: Global, count: usize) -> Result<Vec<Option<usize>>, Memory> {
    let mut taken = Vec::new(alloc);
    for _ in 0..count {
        taken.push(None)?;
    }
    Ok(taken)
}

/// The types for all variables. One for which there is none has the place 0.
fn all_taken(alloc: Global, taken: &[Option<usize>]) -> Result<Vec<usize>, Memory> {
    let mut all = Vec::new(alloc);
    for one in taken {
        all.push(one.unwrap_or(0))?;
    }
    Ok(all)
}

/// Holds patterns with so many variables, by their places in a table, to types one by one. The types are taken at the
/// same place where a variable occurs again. Variables among the types are constants, and unknowns stand for what they
/// mean.
pub fn match_types(
    alloc: Global,
    patterns: &Types,
    variables: usize,
    heads: &[usize],
    types: &UniqueTypes,
    places: &[usize],
) -> Result<Matched, Memory> {
    if heads.len() != places.len() {
        return Ok(Matched::Unlike);
    }
    let mut matching = Matching {
        patterns,
        types,
        taken: nothing(alloc, variables)?,
        held: hold(alloc, heads, places)?,
    };
    match matching.run()? {
        Verdict::Fine => Ok(Matched::Taken(all_taken(alloc, &matching.taken)?)),
        Verdict::Unlike => Ok(Matched::Unlike),
        Verdict::Open(number) => Ok(Matched::Open(number)),
    }
}
