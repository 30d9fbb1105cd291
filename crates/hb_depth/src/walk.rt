ghost use Rattle.std.specs.Prelude.{◌≡◌, [], ◌∷◌, IfOk, None, Some};
ghost use Rattle.hb_depth.specs.Walking.{best_after, earlier, is_before as comes_before, is_joined as joins, kept, level as a_level, levels_after, noted, parts_pushed, pushed, under as depth_under};
ghost use Rattle.hb_depth.specs.declared.shape.Around.TheVariants.{Other};

use crate::chain::sum;
use crate::mark::Mark;
use crate::shape::{Around, Kind, Shape};
use hb_base::limits::TREE_DEPTH;
use hb_base::{Memory, Place};
use hb_stack::Stack;
use std::alloc::Global;

/// So many parts of one form that are still to come, at least one; their depth; and what they are to that form.
#[derive(Clone, Copy, Debug, Drop, PartialEq, Eq)]
pub struct Level {
    pub left: u128,
    pub depth: u32,
    pub around: Around,
}

/// The parts that are to come, and the first place of a form that is too deep.
#[derive(Debug, Drop)]
pub struct Walk {
    pub levels: Stack<Level>,
    pub best: Option<Place>,
}

/// The first place is before the second in the text.
fn is_before(a: Place, b: Place) -> bool
    ensures { result ≡ comes_before a b }
{
    if a.line == b.line {
        a.col < b.col
    } else {
        a.line < b.line
    }
}

/// The one of the two places that is before the other.
fn first_of(best: Option<Place>, place: Place) -> Place
    ensures { result ≡ earlier best place }
{
    match best {
        None => place,
        Some(best) => if is_before(place, best) { place } else { best },
    }
}

/// The form is no form of its own.
fn is_joined(around: Around, kind: Kind) -> bool
    ensures { result ≡ joins around kind }
{
    match kind {
        Kind::Levels(_levels) => false,
        Kind::Apply => around == Around::Head,
        Kind::Arrow => around == Around::Right,
    }
}

/// The depth of the parts of a form at this depth.
fn under(is_joined: bool, depth: u32, levels: u32) -> u32
    ensures { result ≡ depth_under is_joined depth levels }
{
    if is_joined { depth } else { sum(depth, levels) }
}

impl Walk {
    /// The whole program is to come, at depth 0.
    pub fn new(alloc: Global) -> Result<Walk, Memory>
        ensures levels { IfOk result (λ walk. walk.levels ≡ a_level 1 0 Other ∷ []) }
        ensures best { IfOk result (λ walk. walk.best ≡ None) }
    {
        let mut levels = Stack::new(alloc);
        levels.push(Level {
            left: 1,
            depth: 0,
            around: Around::Other,
        })?;
        Ok(Walk { levels, best: None })
    }

    /// Goes on to the node before.
    pub fn take(&mut self, mark: Mark) -> Result<(), Memory>
        ensures levels { IfOk result (λ _. self.new.levels ≡ levels_after self.old.levels mark) }
        ensures best { IfOk result (λ _. self.new.best ≡ best_after self.old.levels self.old.best mark) }
    {
        match self.levels.pop() {
            Some(level) => self.take_at(level, mark),
            None => Ok(()),
        }
    }

    /// Goes on to a node that is one of the parts that were to come.
    fn take_at(&mut self, level: Level, mark: Mark) -> Result<(), Memory>
        ensures levels { IfOk result (λ _. self.new.levels ≡ levels_after (level ∷ self.old.levels) mark) }
        ensures best { IfOk result (λ _. self.new.best ≡ best_after (level ∷ self.old.levels) self.old.best mark) }
    {
        self.keep(level)?;
        let joined = is_joined(level.around, mark.shape.kind);
        self.note(joined, level.depth, mark.shape.place);
        self.push_parts(mark.shape, under(joined, level.depth, mark.levels))
    }

    /// Puts a level back without the part that has come.
    fn keep(&mut self, level: Level) -> Result<(), Memory>
        ensures levels { IfOk result (λ _. self.new.levels ≡ kept level self.old.levels) }
        ensures best { self.new.best ≡ self.old.best }
    {
        if level.left > 1 {
            self.levels.push(Level {
                left: level.left - 1,
                depth: level.depth,
                around: level.around,
            })?;
        }
        Ok(())
    }

    /// Keeps the place of a form at this depth, if the form is too deep and its place is the first so far.
    fn note(&mut self, is_joined: bool, depth: u32, place: Option<Place>)
        ensures levels { self.new.levels ≡ self.old.levels }
        ensures best { self.new.best ≡ noted is_joined depth place self.old.best }
    {
        if is_joined {
            return;
        }
        if let Some(found) = place {
            if depth > TREE_DEPTH {
                self.best = Some(first_of(self.best, found));
            }
        }
    }

    /// The parts of a form are to come at this depth.
    fn push_parts(&mut self, shape: Shape, depth: u32) -> Result<(), Memory>
        ensures levels { IfOk result (λ _. self.new.levels ≡ parts_pushed shape.kind shape.parts depth self.old.levels) }
        ensures best { self.new.best ≡ self.old.best }
    {
        match shape.kind {
            Kind::Levels(_levels) => self.push(shape.parts, depth, Around::Other),
            Kind::Apply => self.push_two(depth, Around::Head, Around::Other),
            Kind::Arrow => self.push_two(depth, Around::Other, Around::Right),
        }
    }

    /// Two parts are to come, the second of them first.
    fn push_two(&mut self, depth: u32, first: Around, second: Around) -> Result<(), Memory>
        ensures levels { IfOk result (λ _. self.new.levels ≡ a_level 1 depth second ∷ a_level 1 depth first ∷ self.old.levels) }
        ensures best { self.new.best ≡ self.old.best }
    {
        self.push(1, depth, first)?;
        self.push(1, depth, second)?;
        Ok(())
    }

    /// So many parts are to come.
    #[tactic(auto, using(crate::proofs::Pushing::some_pushed, crate::proofs::Pushing::none_pushed))]
    fn push(&mut self, left: u128, depth: u32, around: Around) -> Result<(), Memory>
        ensures levels { IfOk result (λ _. self.new.levels ≡ pushed left depth around self.old.levels) }
        ensures best { self.new.best ≡ self.old.best }
    {
        if left > 0 {
            self.levels.push(Level {
                left,
                depth,
                around,
            })?;
        }
        Ok(())
    }
}
