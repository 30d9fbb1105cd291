use crate::graph::Span;
use crate::spines::{Head, Spines};
use hb_base::Memory;
use std::alloc::Global;

/// A piece of a type over the parameters of a declared type: a parameter, a type of the table without parameters, a type constructor
/// with so many arguments, or a parameter with so many.
#[derive(Clone, Copy, Debug, PartialEq, Eq)]
pub(crate) enum Piece {
    Parameter(usize),
    Whole(usize),
    Con(u32, usize),
    Applied(usize, usize),
}

/// Types over the parameters of declared types by their numbers, each as its pieces: first the whole, then its arguments, the last one
/// first. So the pieces in reverse put each argument before what it is an argument of, and arguments from left to right.
#[derive(Debug, Drop)]
pub(crate) struct Templates {
    pieces: Vec<Piece>,
    spans: Vec<Span>,
    due: Vec<usize>,
}

impl Templates {
    pub(crate) fn new(alloc: Global) -> Templates {
        Templates {
            pieces: Vec::new(alloc),
            spans: Vec::new(alloc),
            due: Vec::new(alloc),
        }
    }

    /// How many templates there are.
    pub(crate) fn len(&self) -> usize {
        self.spans.len()
    }

    /// The pieces of a template.
    pub(crate) fn pieces(&self, number: usize) -> &[Piece] {
        match self.spans.get(number) {
            Some(span) => span.part(&self.pieces),
            None => &[],
        }
    }

    /// The piece at the front of a type. Its arguments are due.
    fn piece(&mut self, spines: &Spines, place: usize) -> Result<(), Memory> {
        let spine = spines.at(place);
        if !spine.open {
            self.pieces.push(Piece::Whole(place))?;
            return Ok(());
        }
        let count = spine.arguments.count;
        let piece = match spine.head {
            Head::Parameter(number) if count == 0 => Piece::Parameter(number as usize),
            Head::Parameter(number) => Piece::Applied(number as usize, count),
            Head::Con(con) => Piece::Con(con, count),
            Head::Number(_) | Head::Nothing => Piece::Whole(place),
        };
        self.pieces.push(piece)?;
        for argument in spines.arguments(spine.arguments) {
            self.due.push(*argument)?;
        }
        Ok(())
    }

    /// Puts the type at a place as the next template.
    pub(crate) fn put(&mut self, spines: &Spines, place: usize) -> Result<(), Memory> {
        let first = self.pieces.len();
        self.due.push(place)?;
        for _ in 0..u64::MAX {
            let Some(next) = self.due.pop() else {
                break;
            };
            self.piece(spines, next)?;
        }
        self.spans.push(Span {
            first,
            count: self.pieces.len().saturating_sub(first),
        })?;
        Ok(())
    }
}
