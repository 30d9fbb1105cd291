ghost use Rattle.std.specs.Prelude.{◌≡◌, ◌<◌, ◌≤◌, slice_index_or, IfOk, OnOk};
ghost use Rattle.hb_unknowns.specs.Equations.{type_count};
ghost use Rattle.hb_kind.specs.Places.{AreFine};

use hb_base::{List, Memory};
use hb_types::{Atom, Kind};
use hb_unknowns::{EquateError, FullTypes, Pair, Unknowns};
use std::alloc::Global;

/// The constructors of kinds, as those of types.
const STAR: u32 = 0;

const NAT: u32 = 1;

const AREA: u32 = 2;

const ARROW: u32 = 3;

/// Kinds with unknowns and the equations between them. A kind that is kept has a slot; the first slots are those of the kinds
/// without parts, and of the arrow.
#[derive(Drop)]
pub struct KindEquations {
    pub unknowns: Unknowns,
    pub star: usize,
    pub nat: usize,
    pub area: usize,
    pub arrow: usize,
    pub places: Vec<usize>,
    pub pairs: Vec<Pair>,
}

/// The place in a slot, or another where the slot is none.
fn place_at(places: &[usize], slot: usize, other: usize) -> usize
    ensures { result ≡ slice_index_or places.now slot other }
{
    match places.get(slot) {
        Some(place) => *place,
        None => other,
    }
}

impl KindEquations {
    /// No equations.
    pub fn new(alloc: Global) -> Result<KindEquations, Memory>
        ensures fine { IfOk result AreFine }
    {
        let mut unknowns = Unknowns::new(alloc);
        let star = unknowns.leaf(Atom::Con(STAR))?;
        let nat = unknowns.leaf(Atom::Con(NAT))?;
        let area = unknowns.leaf(Atom::Con(AREA))?;
        let arrow = unknowns.leaf(Atom::Con(ARROW))?;
        Ok(KindEquations {
            unknowns,
            star,
            nat,
            area,
            arrow,
            places: Vec::new(alloc),
            pairs: Vec::new(alloc),
        })
    }

    /// A kind that is still to be found.
    #[tactic(auto, using(crate::proofs::FineLaws::put_grows, crate::proofs::FineLaws::put_known, crate::proofs::FineLaws::put_more, crate::proofs::FineLaws::put_places, crate::proofs::FineLaws::put_pairs))]
    pub fn unknown(&mut self) -> Result<usize, Memory>
        requires fine { AreFine self.old }
        ensures fine { OnOk result (AreFine self.new) }
        ensures known { IfOk result (λ place. place < type_count self.new.unknowns) }
        ensures grows { OnOk result (type_count self.old.unknowns ≤ type_count self.new.unknowns) }
    {
        let place = self.unknowns.fresh(Kind::star())?;
        Ok(place)
    }

    /// A kind applied to one more.
    #[tactic(auto, using(crate::proofs::FineLaws::put_grows, crate::proofs::FineLaws::put_known, crate::proofs::FineLaws::put_more, crate::proofs::FineLaws::put_places, crate::proofs::FineLaws::put_pairs))]
    fn apply(&mut self, from: usize, to: usize) -> Result<usize, Memory>
        requires fine { AreFine self.old }
        requires from_known { from < type_count self.old.unknowns }
        requires to_known { to < type_count self.old.unknowns }
        ensures fine { OnOk result (AreFine self.new) }
        ensures known { IfOk result (λ place. place < type_count self.new.unknowns) }
        ensures grows { OnOk result (type_count self.old.unknowns ≤ type_count self.new.unknowns) }
    {
        let place = self.unknowns.apply(from, to)?;
        Ok(place)
    }

    /// The kind of what takes the first to the second.
    pub fn arrow(&mut self, from: usize, to: usize) -> Result<usize, Memory>
        requires fine { AreFine self.old }
        requires from_known { from < type_count self.old.unknowns }
        requires to_known { to < type_count self.old.unknowns }
        ensures fine { OnOk result (AreFine self.new) }
        ensures known { IfOk result (λ place. place < type_count self.new.unknowns) }
        ensures grows { OnOk result (type_count self.old.unknowns ≤ type_count self.new.unknowns) }
    {
        let half = self.apply(self.arrow, from)?;
        let whole = self.apply(half, to)?;
        Ok(whole)
    }

    /// The two kinds are to be one.
    #[tactic(auto, using(crate::proofs::FineLaws::one_more_pair))]
    pub fn same(&mut self, a: usize, b: usize) -> Result<(), Memory>
        requires fine { AreFine self.old }
        requires a_known { a < type_count self.old.unknowns }
        requires b_known { b < type_count self.old.unknowns }
        ensures fine { OnOk result (AreFine self.new) }
        ensures same { OnOk result (type_count self.new.unknowns ≡ type_count self.old.unknowns) }
    {
        self.pairs.push(Pair { left: a, right: b })?;
        Ok(())
    }

    /// No kinds are right.
    pub fn never(&mut self) -> Result<(), Memory>
        requires fine { AreFine self.old }
        ensures fine { OnOk result (AreFine self.new) }
        ensures same { OnOk result (type_count self.new.unknowns ≡ type_count self.old.unknowns) }
    {
        self.same(self.star, self.nat)
    }

    /// Keeps a kind, and answers its slot.
    #[tactic(auto, using(crate::proofs::FineLaws::one_more_place))]
    pub fn keep(&mut self, place: usize) -> Result<usize, Memory>
        requires fine { AreFine self.old }
        requires known { place < type_count self.old.unknowns }
        ensures fine { OnOk result (AreFine self.new) }
        ensures same { OnOk result (type_count self.new.unknowns ≡ type_count self.old.unknowns) }
    {
        let slot = self.places.len();
        self.places.push(place)?;
        Ok(slot)
    }

    /// The kind in a slot.
    #[tactic(auto, using(crate::proofs::FineLaws::place_or_in))]
    pub fn kept(&self, slot: usize) -> usize
        requires fine { AreFine self.now }
        ensures known { result < type_count self.now.unknowns }
    {
        place_at(&self.places, slot, self.star)
    }
}
