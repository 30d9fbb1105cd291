use hb_base::{List, Memory};
use hb_types::{Form, Kind};
use hb_unique::{UniqueTypes, form_at};
use hb_unknowns::{Pair, Unknowns};
use std::alloc::Global;

/// The types of unknowns as far as they are known, none of which stands twice.
#[derive(Drop)]
pub struct Renewed {
    pub types: UniqueTypes,
    /// For each place of the unknowns the place of its type.
    pub here: List<usize>,
    /// For each place of a type a place of the unknowns that has it.
    back: Vec<usize>,
}

/// The place of the type of a place of the unknowns, by those of normal types and theirs.
fn place_of(normal: &[usize], taken: &[usize], place: usize) -> usize {
    match normal.get(place) {
        Some(at) => match taken.get(*at) {
            Some(here) => *here,
            None => 0,
        },
        None => 0,
    }
}

/// Notes for the type at a place of the unknowns that it stands there.
fn note(back: &mut Vec<usize>, here: usize, place: usize) {
    if let Some(entry) = back.get_mut(here) {
        *entry = place;
    }
}

impl Renewed {
    pub fn of(alloc: Global, unknowns: &Unknowns) -> Result<Renewed, Memory> {
        let normal = unknowns.normal(alloc)?;
        let mut types = UniqueTypes::new(alloc);
        let taken = types.take(&normal.types)?;
        let mut here = List::of(Vec::new(alloc));
        let mut back = vec![in alloc; 0; types.len()]?;
        for place in 0..normal.places.len() {
            let at = place_of(normal.places.as_slice(), taken.as_slice(), place);
            note(&mut back, at, place);
            here.push(at)?;
        }
        Ok(Renewed { types, here, back })
    }

    /// The place of the type that stands at a place of the unknowns.
    pub fn at(&self, place: usize) -> usize {
        match self.here.as_slice().get(place) {
            Some(here) => *here,
            None => 0,
        }
    }

    /// The places of the types at some places of the unknowns.
    pub fn at_each(&self, alloc: Global, places: &[usize]) -> Result<Vec<usize>, Memory> {
        let mut all = Vec::new(alloc);
        for place in places {
            all.push(self.at(*place))?;
        }
        Ok(all)
    }

    /// A place of the unknowns that has the type at a place.
    fn back_from(&self, place: usize) -> usize {
        match self.back.get(place) {
            Some(place) => *place,
            None => 0,
        }
    }

    /// Puts the types that came in since they were renewed among the unknowns.
    fn put_back(&mut self, unknowns: &mut Unknowns) -> Result<(), Memory> {
        for place in self.back.len()..self.types.len() {
            let at = self.put_form(unknowns, form_at(self.types.types(), place))?;
            self.back.push(at)?;
        }
        Ok(())
    }

    /// Puts one type among the unknowns, whose parts are there.
    fn put_form(&self, unknowns: &mut Unknowns, form: Option<Form>) -> Result<usize, Memory> {
        match form {
            Some(Form::Leaf(atom)) => unknowns.leaf(atom),
            Some(Form::Apply(function, argument)) => {
                let f = self.back_from(function);
                let x = self.back_from(argument);
                if f < unknowns.len() && x < unknowns.len() {
                    unknowns.apply(f, x)
                } else {
                    unknowns.fresh(Kind::star())
                }
            }
            Some(Form::Unknown(_)) | None => unknowns.fresh(Kind::star()),
        }
    }

    /// Equations between types as equations between unknowns that have them.
    pub fn pairs_back(
        &mut self,
        alloc: Global,
        unknowns: &mut Unknowns,
        pairs: &[Pair],
    ) -> Result<Vec<Pair>, Memory> {
        self.put_back(unknowns)?;
        let mut all = Vec::new(alloc);
        for pair in pairs {
            all.push(Pair {
                left: self.back_from(pair.left),
                right: self.back_from(pair.right),
            })?;
        }
        Ok(all)
    }
}
