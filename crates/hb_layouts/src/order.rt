use hb_base::Memory;
use std::alloc::Global;

/// A walk over things of which each needs others.
#[derive(Drop)]
struct Walk<'a> {
    needs: &'a [Vec<usize>],
    seen: Vec<bool>,
    /// The things that are open, each with the place of the next one that it needs.
    open: Vec<(usize, usize)>,
    order: Vec<usize>,
}

impl Walk<'_> {
    /// Notes that a thing is seen, and answers whether it was new.
    fn see(&mut self, thing: usize) -> bool {
        match self.seen.get_mut(thing) {
            Some(seen) if !*seen => {
                *seen = true;
                true
            }
            _ => false,
        }
    }

    fn enter(&mut self, thing: usize) -> Result<(), Memory> {
        if self.see(thing) {
            self.open.push((thing, 0))?;
        }
        Ok(())
    }

    /// The next thing that one needs, if there is one left.
    fn needed(&self, thing: usize, next: usize) -> Option<usize> {
        self.needs.get(thing)?.get(next).copied()
    }

    /// Goes on with the thing that was opened last: to the next one that it needs, or out of it.
    fn step(&mut self, thing: usize, next: usize) -> Result<(), Memory> {
        match self.needed(thing, next) {
            Some(needed) => {
                self.open.push((thing, next.saturating_add(1)))?;
                self.enter(needed)
            }
            None => {
                self.order.push(thing)?;
                Ok(())
            }
        }
    }

    /// Enters a thing, and goes on until nothing is open, for so many steps at most.
    fn from(&mut self, thing: usize, steps: usize) -> Result<(), Memory> {
        self.enter(thing)?;
        for _ in 0..steps {
            match self.open.pop() {
                Some((thing, next)) => self.step(thing, next)?,
                None => return Ok(()),
            }
        }
        Ok(())
    }
}

/// An order of the things from 0 on in which each comes after those that it needs, where there is such an order: `needs` has for each
/// those that it needs, by their numbers. Linear, and without recursion.
pub fn dependency_order(alloc: Global, needs: &[Vec<usize>]) -> Result<Vec<usize>, Memory> {
    let mut steps = needs.len();
    let mut seen = Vec::new(alloc);
    for needed in needs {
        steps = steps.saturating_add(needed.len()).saturating_add(1);
        seen.push(false)?;
    }
    let mut walk = Walk {
        needs,
        seen,
        open: Vec::new(alloc),
        order: Vec::new(alloc),
    };
    for thing in 0..needs.len() {
        walk.from(thing, steps)?;
    }
    Ok(walk.order)
}
