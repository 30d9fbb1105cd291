ghost use Rattle.std.specs.Prelude.{◌≡◌, ◌<◌, length, IfOk};
ghost use Rattle.hb_types.specs.Tables.{type_at, Extends, IsPlaced};
ghost use Rattle.hb_types.specs.Put.{put, put_atom, types_at, ArePlaces, ArePut, ArePutBelow};

use crate::atom::Atom;
use crate::table::{Form, Types};
use hb_base::{List, Memory};
use std::alloc::Global;

impl Types {
    /// The place of a type without parts, with the argument in the place of a variable.
    fn put_atom(&mut self, atom: Atom, args: &[usize]) -> Result<usize, Memory>
        requires args { ArePlaces self.old args.now }
        ensures more { Extends self.old self.new }
        ensures put { IfOk result (λ r. IsPlaced self.new r (λ t. t ≡ put_atom (types_at self.old args.now) atom)) }
    {
        match atom {
            Atom::Var(variable) => match args.get(variable as usize) {
                Some(arg) => Ok(*arg),
                None => {
                    let place = self.push(Form::Unknown(0))?;
                    Ok(place)
                }
            },
            Atom::Con(_) | Atom::Nat(_) => {
                let place = self.push(Form::Leaf(atom))?;
                Ok(place)
            }
        }
    }

    /// The place of a type of another table, with the arguments in the place of its variables, once its parts are here.
    fn put_one(
        &mut self,
        of: &Types,
        place: usize,
        args: &[usize],
        places: &[usize],
    ) -> Result<usize, Memory>
        requires place { place < length of.now }
        requires args { ArePlaces self.old args.now }
        requires parts { ArePutBelow place (types_at self.old args.now) of.now self.old places.now }
        ensures more { Extends self.old self.new }
        ensures put { IfOk result (λ r. IsPlaced self.new r (λ t. t ≡ put (types_at self.old args.now) (type_at of.now place))) }
    {
        match of.form(place) {
            Form::Unknown(number) => {
                let here = self.push(Form::Unknown(number))?;
                Ok(here)
            }
            Form::Leaf(atom) => {
                let here = self.put_atom(atom, args)?;
                Ok(here)
            }
            Form::Apply(f, x) => {
                let here = self.push(Form::Apply(places[f], places[x]))?;
                Ok(here)
            }
        }
    }

    /// Puts the types of another table at the end, with the type at `args[v]` in the place of the variable v, in time
    /// that is linear in that table. Answers for each place there its place here. A variable without an argument
    /// becomes the unknown 0.
    pub fn put(&mut self, alloc: Global, of: &Types, args: &[usize]) -> Result<List<usize>, Memory>
        requires args { ArePlaces self.old args.now }
        ensures more { Extends self.old self.new }
        ensures put { IfOk result (ArePut (types_at self.old args.now) of.now self.new) }
    {
        let mut places = Vec::new(alloc);
        for place in 0..of.len() {
            let here = self.put_one(of, place, args, &places)?;
            places.push(here)?;
        }
        Ok(List::of(places))
    }
}
