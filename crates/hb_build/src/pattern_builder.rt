ghost use Rattle.std.specs.Prelude.{◌≡◌, [], ◌∷◌, Some, None, IfOk};
ghost use Rattle.hb_build.specs.Building.{Stepped};
ghost use Rattle.hb_build.specs.PatternSteps.{pat_off, field_off, pats_off, fields_off, TakenOff, LastOff, of_args, of_fields, of_field, of_row, of_pair, stepped, lone_pat, lone_row};
ghost use Rattle.hb_build.specs.declared.pattern_builder.Part.TheVariants.{Pat as APart};

use hb_base::{List, Memory, Name, Place};
use hb_read_patterns::PatNode;
use hb_stack::Stack;
use hb_tree::{FieldPat, Pat};
use std::alloc::Global;

/// A part of a pattern that is not at its end.
#[derive(Debug, Drop)]
pub enum Part {
    /// A pattern.
    Pat(Pat),
    /// A field with its pattern.
    Field(FieldPat),
    /// A row of patterns.
    Row(List<Pat>),
}

/// The parts that are built so far.
#[derive(Debug, Drop)]
pub struct PatBuilder {
    pub parts: Stack<Part>,
}

impl PatBuilder {
    /// Nothing is built yet. Takes no memory.
    pub fn new(alloc: Global) -> PatBuilder
        ensures { result.parts ≡ [] }
    {
        PatBuilder {
            parts: Stack::new(alloc),
        }
    }

    /// Takes the next node, and answers whether its parts are there. Where they are not, no pattern has these nodes, and
    /// what is built is of no use any more.
    pub fn take(&mut self, alloc: Global, node: PatNode) -> Result<bool, Memory>
        ensures { IfOk result (λ taken. Stepped taken (stepped self.old.parts node) self.new.parts) }
    {
        match node {
            PatNode::Any(place) => self.put(Pat::any(place)),
            PatNode::Var(place, name) => self.put(Pat::var(place, name)),
            PatNode::Number(place, value) => self.put(Pat::number(place, value)),
            PatNode::Bits(place, width, value) => self.put(Pat::bits(place, width, value)),
            PatNode::Con(place, name, count) => self.con(alloc, place, name, count),
            PatNode::Fields(place, name, count) => self.fields(alloc, place, name, count),
            PatNode::Field(place, name) => self.field(place, name),
            PatNode::Pair(place) => self.pair(alloc, place),
            PatNode::Unit(place) => self.put(Pat::unit(place)),
            PatNode::Row(count) => self.row(alloc, count),
        }
    }

    /// Takes so many patterns off, in their order, if they are the last parts.
    #[tactic(auto, using(crate::proofs::PatternsOff::no_pat, crate::proofs::PatternsOff::one_pat, crate::proofs::PatternsOff::all_pats))]
    pub fn take_pats(&mut self, alloc: Global, count: u32) -> Result<Option<List<Pat>>, Memory>
        ensures { IfOk result (λ taken. TakenOff (pats_off count self.old.parts []) taken self.new.parts) }
    {
        let mut taken = Stack::new(alloc);
        let mut left = count;
        while left > 0 {
            match self.pop_pat() {
                Some(pat) => taken.push(pat)?,
                None => return Ok(None),
            }
            left -= 1;
        }
        Ok(Some(taken.into_list()))
    }

    /// Takes so many fields off, in their order, if they are the last parts.
    #[tactic(auto, using(crate::proofs::PatternsOff::no_field, crate::proofs::PatternsOff::one_field, crate::proofs::PatternsOff::all_fields))]
    fn take_fields(&mut self, alloc: Global, count: u32) -> Result<Option<List<FieldPat>>, Memory>
        ensures { IfOk result (λ taken. TakenOff (fields_off count self.old.parts []) taken self.new.parts) }
    {
        let mut taken = Stack::new(alloc);
        let mut left = count;
        while left > 0 {
            match self.pop_field() {
                Some(field) => taken.push(field)?,
                None => return Ok(None),
            }
            left -= 1;
        }
        Ok(Some(taken.into_list()))
    }

    /// Takes the last part off, if it is a pattern.
    pub fn pop_pat(&mut self) -> Option<Pat>
        ensures { LastOff (pat_off self.old.parts) result self.new.parts }
    {
        match self.parts.pop() {
            Some(Part::Pat(pat)) => Some(pat),
            _ => None,
        }
    }

    /// Takes the last part off, if it is a field.
    fn pop_field(&mut self) -> Option<FieldPat>
        ensures { LastOff (field_off self.old.parts) result self.new.parts }
    {
        match self.parts.pop() {
            Some(Part::Field(field)) => Some(field),
            _ => None,
        }
    }

    /// Puts a pattern on the stack.
    fn put(&mut self, whole: Pat) -> Result<bool, Memory>
        ensures { IfOk result (λ taken. Stepped taken (Some (APart whole ∷ self.old.parts)) self.new.parts) }
    {
        self.parts.push(Part::Pat(whole))?;
        Ok(true)
    }

    /// A constructor of so many patterns.
    fn con(&mut self, alloc: Global, place: Place, name: Name, count: u32) -> Result<bool, Memory>
        ensures { IfOk result (λ taken. Stepped taken (of_args place name (pats_off count self.old.parts [])) self.new.parts) }
    {
        match self.take_pats(alloc, count)? {
            Some(args) => self.put(Pat::con(place, name, args)),
            None => Ok(false),
        }
    }

    /// A constructor of so many fields.
    fn fields(
        &mut self,
        alloc: Global,
        place: Place,
        name: Name,
        count: u32,
    ) -> Result<bool, Memory>
        ensures { IfOk result (λ taken. Stepped taken (of_fields place name (fields_off count self.old.parts [])) self.new.parts) }
    {
        match self.take_fields(alloc, count)? {
            Some(fields) => self.put(Pat::fields(place, name, fields)),
            None => Ok(false),
        }
    }

    /// A row of so many patterns.
    fn row(&mut self, alloc: Global, count: u32) -> Result<bool, Memory>
        ensures { IfOk result (λ taken. Stepped taken (of_row (pats_off count self.old.parts [])) self.new.parts) }
    {
        match self.take_pats(alloc, count)? {
            Some(row) => {
                self.parts.push(Part::Row(row))?;
                Ok(true)
            }
            None => Ok(false),
        }
    }

    /// The last pattern becomes that of a field.
    fn field(&mut self, place: Place, name: Name) -> Result<bool, Memory>
        ensures { IfOk result (λ taken. Stepped taken (of_field place name (pat_off self.old.parts)) self.new.parts) }
    {
        match self.pop_pat() {
            Some(pat) => {
                self.parts.push(Part::Field(FieldPat { place, name, pat }))?;
                Ok(true)
            }
            None => Ok(false),
        }
    }

    /// The pair of the last two patterns.
    fn pair(&mut self, alloc: Global, place: Place) -> Result<bool, Memory>
        ensures { IfOk result (λ taken. Stepped taken (of_pair place (pat_off self.old.parts)) self.new.parts) }
    {
        match (self.pop_pat(), self.pop_pat()) {
            (Some(second), Some(first)) => { self.put(Pat::pair(alloc, place, first, second)?) }
            _ => Ok(false),
        }
    }

    /// The pattern, where it is all that is built.
    pub fn into_pat(mut self) -> Option<Pat>
        ensures { result ≡ lone_pat self.parts }
    {
        match (self.parts.pop(), self.parts.pop()) {
            (Some(Part::Pat(whole)), None) => Some(whole),
            _ => None,
        }
    }

    /// The row, where it is all that is built.
    pub fn into_row(mut self) -> Option<List<Pat>>
        ensures { result ≡ lone_row self.parts }
    {
        match (self.parts.pop(), self.parts.pop()) {
            (Some(Part::Row(row)), None) => Some(row),
            _ => None,
        }
    }
}
