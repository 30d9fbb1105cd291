use crate::table::Class;
use hb_base::Memory;
use std::alloc::Global;

/// A part of a list, from a place on and before another.
#[derive(Clone, Copy)]
pub struct Span {
    pub from: usize,
    pub to: usize,
}

impl Span {
    /// The part with nothing in it.
    pub const EMPTY: Span = Span { from: 0, to: 0 };

    /// The items of this part.
    pub fn of<'a>(self, items: &'a [usize]) -> &'a [usize] {
        match items.get(self.from..self.to) {
            Some(part) => part,
            None => &[],
        }
    }
}

/// How a predicate may hold: not at all, by itself or as a given, or by an instance whose context holds.
#[derive(Clone, Copy)]
pub enum Rule {
    Nothing,
    Itself,
    Instance(u32),
}

/// A predicate that is asked for: where its types stand, by which rule it may hold, at which types it takes an instance,
/// of which goals that instance's context is, how many of these are not known to hold, and which goals wait for it.
#[derive(Clone, Copy)]
pub struct Goal {
    pub predicate: usize,
    pub class: Class,
    pub args: Span,
    pub rule: Rule,
    pub taken: Span,
    pub context: Span,
    pub missing: usize,
    pub holds: bool,
    pub waiting: Option<usize>,
}

/// A goal that waits for another one, and the next that does.
#[derive(Clone, Copy)]
struct Wait {
    goal: usize,
    next: Option<usize>,
}

/// Goals and what is known of them. A goal holds where its context does, and none holds for another reason.
#[derive(Drop)]
pub struct Goals {
    alloc: Global,
    goals: Vec<Goal>,
    places: Vec<usize>,
    waits: Vec<Wait>,
    /// The goals that hold, each after those of its context.
    held: Vec<usize>,
}

impl Goals {
    /// No goals.
    pub fn new(alloc: Global) -> Goals {
        Goals {
            alloc,
            goals: Vec::new(alloc),
            places: Vec::new(alloc),
            waits: Vec::new(alloc),
            held: Vec::new(alloc),
        }
    }

    /// How many goals there are: they are named by their places, from 0.
    pub fn len(&self) -> usize {
        self.goals.len()
    }

    /// A goal.
    pub fn goal(&self, place: usize) -> Option<Goal> {
        self.goals.get(place).copied()
    }

    /// Whether a goal is known to hold.
    pub fn holds(&self, place: usize) -> bool {
        match self.goals.get(place) {
            Some(goal) => goal.holds,
            None => false,
        }
    }

    /// The goals that hold, each after those of its context.
    pub fn held(&self) -> &[usize] {
        &self.held
    }

    /// The items of a part of the places that are kept.
    pub fn items(&self, span: Span) -> &[usize] {
        span.of(&self.places)
    }

    /// Keeps places, and answers where they stand.
    fn keep(&mut self, places: &[usize]) -> Result<Span, Memory> {
        let from = self.places.len();
        for place in places {
            self.places.push(*place)?;
        }
        Ok(Span {
            from,
            to: self.places.len(),
        })
    }

    /// One more goal, by its place. Nothing is known of it.
    pub fn push(
        &mut self,
        predicate: usize,
        class: Class,
        args: &[usize],
    ) -> Result<usize, Memory> {
        let kept = self.keep(args)?;
        let place = self.goals.len();
        self.goals.push(Goal {
            predicate,
            class,
            args: kept,
            rule: Rule::Nothing,
            taken: Span::EMPTY,
            context: Span::EMPTY,
            missing: 0,
            holds: false,
            waiting: None,
        })?;
        Ok(place)
    }

    /// Lets a goal wait for another one.
    fn wait(&mut self, goal: usize, other: usize) -> Result<(), Memory> {
        let place = self.waits.len();
        if let Some(one) = self.goals.get_mut(other) {
            let next = one.waiting;
            one.waiting = Some(place);
            self.waits.push(Wait { goal, next })?;
        }
        Ok(())
    }

    /// Lets a goal wait for those of a context that are not known to hold, and answers how many these are.
    fn wait_for(&mut self, goal: usize, context: &[usize]) -> Result<usize, Memory> {
        let mut missing: usize = 0;
        for other in context {
            if !self.holds(*other) {
                self.wait(goal, *other)?;
                missing = missing.saturating_add(1);
            }
        }
        Ok(missing)
    }

    /// A goal holds by itself, or as a given.
    pub fn by_itself(&mut self, place: usize) -> Result<(), Memory> {
        if let Some(goal) = self.goals.get_mut(place) {
            goal.rule = Rule::Itself;
        }
        self.spread(place)
    }

    /// A goal holds where the goals of this context do, by an instance at types.
    pub fn by_instance(
        &mut self,
        place: usize,
        instance: u32,
        taken: &[usize],
        context: &[usize],
    ) -> Result<(), Memory> {
        let taken = self.keep(taken)?;
        let kept = self.keep(context)?;
        let missing = self.wait_for(place, context)?;
        if let Some(goal) = self.goals.get_mut(place) {
            goal.rule = Rule::Instance(instance);
            goal.taken = taken;
            goal.context = kept;
            goal.missing = missing;
        }
        if missing == 0 {
            self.spread(place)?;
        }
        Ok(())
    }

    /// A goal holds. Answers the first that waits for it, if it was not known to hold before.
    fn hold(&mut self, place: usize) -> Result<Option<usize>, Memory> {
        match self.goals.get_mut(place) {
            Some(goal) => {
                if goal.holds {
                    return Ok(None);
                }
                goal.holds = true;
                let waiting = goal.waiting;
                self.held.push(place)?;
                Ok(waiting)
            }
            None => Ok(None),
        }
    }

    /// One goal of the context of another holds. Answers whether it was the last one.
    fn meet(&mut self, place: usize) -> bool {
        match self.goals.get_mut(place) {
            Some(goal) => {
                goal.missing = goal.missing.saturating_sub(1);
                goal.missing == 0
            }
            None => false,
        }
    }

    /// Meets the goals that wait, from the first of them on. Those that hold now are put among the others that do.
    fn meet_all(&mut self, first: Option<usize>, ready: &mut Vec<usize>) -> Result<(), Memory> {
        let mut at = first;
        for _ in 0..self.waits.len() {
            let Some(wait) = at.and_then(|place| self.waits.get(place)).copied() else {
                return Ok(());
            };
            at = wait.next;
            if self.meet(wait.goal) {
                ready.push(wait.goal)?;
            }
        }
        Ok(())
    }

    /// A goal holds, and so do those that waited for it alone.
    fn spread(&mut self, place: usize) -> Result<(), Memory> {
        let mut ready = Vec::new(self.alloc);
        ready.push(place)?;
        for _ in 0..u64::MAX {
            let Some(one) = ready.pop() else {
                return Ok(());
            };
            let waiting = self.hold(one)?;
            self.meet_all(waiting, &mut ready)?;
        }
        Ok(())
    }
}
