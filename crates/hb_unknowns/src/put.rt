ghost use Rattle.std.specs.Prelude.{◌≡◌, ◌<◌, ℕ, length, IfOk};
ghost use Rattle.hb_types.specs.Tables.{type_at, IsPlaced};
ghost use Rattle.hb_types.specs.Put.{put, put_atom, types_at, HasVarBelow, HasVarsBelow, ArePlaces, ArePut, ArePutBelow};
ghost use Rattle.hb_unknowns.specs.Equations.{IsGrown};

use crate::unknowns::Unknowns;
use hb_base::{List, Memory};
use hb_types::{Atom, Form, Types};
use std::alloc::Global;

impl Unknowns {
    /// The place of a type without parts, with the argument in the place of a variable.
    fn put_atom(&mut self, atom: Atom, args: &[usize]) -> Result<usize, Memory>
        requires args { ArePlaces self.old.types args.now }
        requires variable { HasVarBelow (length args.now) atom }
        ensures grown { IsGrown self.old self.new }
        ensures put { IfOk result (λ r. IsPlaced self.new.types r (λ t. t ≡ put_atom (types_at self.old.types args.now) atom)) }
    {
        match atom {
            Atom::Var(variable) => Ok(args[variable as usize]),
            Atom::Con(_) | Atom::Nat(_) => {
                let place = self.leaf(atom)?;
                Ok(place)
            }
        }
    }

    /// The place of a type of a table, with the arguments in the place of its variables, once its parts are here.
    fn put_one(
        &mut self,
        of: &Types,
        place: usize,
        args: &[usize],
        places: &[usize],
    ) -> Result<usize, Memory>
        requires place { place < length of.now }
        requires args { ArePlaces self.old.types args.now }
        requires variables { HasVarsBelow (length args.now) (type_at of.now place) }
        requires parts { ArePutBelow place (types_at self.old.types args.now) of.now self.old.types places.now }
        ensures grown { IsGrown self.old self.new }
        ensures put { IfOk result (λ r. IsPlaced self.new.types r (λ t. t ≡ put (types_at self.old.types args.now) (type_at of.now place))) }
    {
        match of.form(place) {
            Form::Unknown(_) => unreachable!(),
            Form::Leaf(atom) => {
                let here = self.put_atom(atom, args)?;
                Ok(here)
            }
            Form::Apply(f, x) => {
                let here = self.apply(places[f], places[x])?;
                Ok(here)
            }
        }
    }

    /// Puts the types of a table, which has no unknowns, with the type at `args[v]` in the place of the variable v, in
    /// time that is linear in the table. Answers for each place of the table its place here. After `Memory` some of the
    /// types stand here, and nothing else has changed.
    pub fn put(&mut self, alloc: Global, of: &Types, args: &[usize]) -> Result<List<usize>, Memory>
        requires args { ArePlaces self.old.types args.now }
        requires variables { (k : ℕ) → k < length of.now → HasVarsBelow (length args.now) (type_at of.now k) }
        ensures grown { IsGrown self.old self.new }
        ensures put { IfOk result (ArePut (types_at self.old.types args.now) of.now self.new.types) }
    {
        let mut places = Vec::new(alloc);
        for place in 0..of.len() {
            let here = self.put_one(of, place, args, &places)?;
            places.push(here)?;
        }
        Ok(List::of(places))
    }
}
