ghost use Rattle.std.specs.Prelude.{◌≡◌, ◌∷◌, Some, IfOk};
ghost use Rattle.hb_build.specs.Building.{Stepped};
ghost use Rattle.hb_build.specs.TypeSteps.{start, state, stepped, with_types, joined, of_three, of_two, of_class, with_pred, in_context, lone_type, lone_context, lone_qualified};
ghost use Rattle.hb_tree.specs.Types as tree;
ghost use Rattle.hb_tree.specs.declared.types.PredExpr.TheVariants as pred;

use crate::types::Qualified;
use hb_base::{List, Memory, Name, Place};
use hb_read_types::TypeNode;
use hb_stack::Stack;
use hb_tree::{NameAt, PredExpr, TypeExpr};
use std::alloc::Global;

/// What is built so far: the context that is at its end, then the predicates that stand behind it, then the types behind
/// these.
#[derive(Debug, Drop)]
pub struct TypeBuilder {
    pub context: Option<List<PredExpr>>,
    pub preds: Stack<PredExpr>,
    pub types: Stack<TypeExpr>,
}

impl TypeBuilder {
    /// Nothing is built yet. Takes no memory.
    pub fn new(alloc: Global) -> TypeBuilder
        ensures { result ≡ start }
    {
        TypeBuilder {
            context: None,
            preds: Stack::new(alloc),
            types: Stack::new(alloc),
        }
    }

    /// Takes the next node, and answers whether its parts are there. Where they are not, no tree has these nodes, and
    /// what is built is of no use any more.
    pub fn take(&mut self, alloc: Global, node: TypeNode) -> Result<bool, Memory>
        ensures { IfOk result (λ taken. Stepped taken (stepped self.old node) self.new) }
    {
        match node {
            TypeNode::Con(place, name) => self.put(TypeExpr::con(place, name)),
            TypeNode::Var(place, name) => self.put(TypeExpr::var(place, name)),
            TypeNode::Number(place, value) => self.put(TypeExpr::number(place, value)),
            TypeNode::Unit(place) => self.put(TypeExpr::unit(place)),
            TypeNode::Pair(place) => self.pair(alloc, place),
            TypeNode::Apply(place) => self.apply(alloc, place),
            TypeNode::Arrow(place) => self.arrow(alloc, place),
            TypeNode::Sum(place) => self.sum(alloc, place),
            TypeNode::Class(place, name, count) => self.class(alloc, place, name, count),
            TypeNode::SumFact => self.sum_fact(),
            TypeNode::ProductFact => self.product_fact(),
            TypeNode::PowerFact => self.power_fact(),
            TypeNode::AtMostFact => self.at_most_fact(),
            TypeNode::Context(count) => self.end_context(alloc, count),
        }
    }

    /// Puts a type on the stack.
    fn put(&mut self, whole: TypeExpr) -> Result<bool, Memory>
        ensures { IfOk result (λ taken. Stepped taken (Some (state self.old.context self.old.preds (whole ∷ self.old.types))) self.new) }
    {
        self.types.push(whole)?;
        Ok(true)
    }

    /// The pair of the last two types.
    fn pair(&mut self, alloc: Global, place: Place) -> Result<bool, Memory>
        ensures { IfOk result (λ taken. Stepped taken (with_types self.old (joined tree.Pair place self.old.types)) self.new) }
    {
        match (self.types.pop(), self.types.pop()) {
            (Some(second), Some(first)) => {
                self.put(TypeExpr::pair(alloc, place, first, second)?)
            }
            _ => Ok(false),
        }
    }

    /// The last type but one applied to the last.
    fn apply(&mut self, alloc: Global, place: Place) -> Result<bool, Memory>
        ensures { IfOk result (λ taken. Stepped taken (with_types self.old (joined tree.Apply place self.old.types)) self.new) }
    {
        match (self.types.pop(), self.types.pop()) {
            (Some(second), Some(first)) => {
                self.put(TypeExpr::apply(alloc, place, first, second)?)
            }
            _ => Ok(false),
        }
    }

    /// The functions from the last type but one to the last.
    fn arrow(&mut self, alloc: Global, place: Place) -> Result<bool, Memory>
        ensures { IfOk result (λ taken. Stepped taken (with_types self.old (joined tree.Arrow place self.old.types)) self.new) }
    {
        match (self.types.pop(), self.types.pop()) {
            (Some(second), Some(first)) => {
                self.put(TypeExpr::arrow(alloc, place, first, second)?)
            }
            _ => Ok(false),
        }
    }

    /// The sum of the last two types.
    fn sum(&mut self, alloc: Global, place: Place) -> Result<bool, Memory>
        ensures { IfOk result (λ taken. Stepped taken (with_types self.old (joined tree.Sum place self.old.types)) self.new) }
    {
        match (self.types.pop(), self.types.pop()) {
            (Some(second), Some(first)) => { self.put(TypeExpr::sum(alloc, place, first, second)?) }
            _ => Ok(false),
        }
    }

    /// Ends a predicate, whose types are off the stack. No other type may stand before it.
    fn put_pred(&mut self, whole: PredExpr) -> Result<bool, Memory>
        ensures { IfOk result (λ taken. Stepped taken (with_pred self.old whole self.old.types) self.new) }
    {
        if !self.types.is_empty() {
            return Ok(false);
        }
        self.preds.push(whole)?;
        Ok(true)
    }

    /// A class of all types on the stack, which must be so many.
    fn class(
        &mut self,
        alloc: Global,
        place: Place,
        name: Name,
        count: usize,
    ) -> Result<bool, Memory>
        ensures { IfOk result (λ taken. Stepped taken (of_class self.old place name count self.old.types) self.new) }
    {
        if count != self.types.len() {
            return Ok(false);
        }
        let types = self.types.take_all(alloc);
        self.put_pred(PredExpr::Class(NameAt { place, name }, types))
    }

    /// The last type is the sum of the two before it.
    fn sum_fact(&mut self) -> Result<bool, Memory>
        ensures { IfOk result (λ taken. Stepped taken (of_three self.old pred.Sum self.old.types) self.new) }
    {
        match (self.types.pop(), self.types.pop(), self.types.pop()) {
            (Some(third), Some(second), Some(first)) => self.put_pred(PredExpr::Sum(
                first, second, third,
            )),
            _ => Ok(false),
        }
    }

    /// The last type is the product of the two before it.
    fn product_fact(&mut self) -> Result<bool, Memory>
        ensures { IfOk result (λ taken. Stepped taken (of_three self.old pred.Product self.old.types) self.new) }
    {
        match (self.types.pop(), self.types.pop(), self.types.pop()) {
            (Some(third), Some(second), Some(first)) => self.put_pred(PredExpr::Product(
                first, second, third,
            )),
            _ => Ok(false),
        }
    }

    /// The last type is 2 to the one before it.
    fn power_fact(&mut self) -> Result<bool, Memory>
        ensures { IfOk result (λ taken. Stepped taken (of_two self.old pred.Power self.old.types) self.new) }
    {
        match (self.types.pop(), self.types.pop()) {
            (Some(second), Some(first)) => self.put_pred(PredExpr::Power(first, second)),
            _ => Ok(false),
        }
    }

    /// The last type but one is at most the last.
    fn at_most_fact(&mut self) -> Result<bool, Memory>
        ensures { IfOk result (λ taken. Stepped taken (of_two self.old pred.AtMost self.old.types) self.new) }
    {
        match (self.types.pop(), self.types.pop()) {
            (Some(second), Some(first)) => self.put_pred(PredExpr::AtMost(first, second)),
            _ => Ok(false),
        }
    }

    /// The context of all predicates, which must be so many, with nothing beside them.
    fn end_context(&mut self, alloc: Global, count: usize) -> Result<bool, Memory>
        ensures { IfOk result (λ taken. Stepped taken (in_context count self.old.context self.old.preds self.old.types) self.new) }
    {
        if self.context.is_some() || !self.types.is_empty() || count != self.preds.len() {
            return Ok(false);
        }
        self.context = Some(self.preds.take_all(alloc));
        Ok(true)
    }

    /// The type, where it is all that is built.
    pub fn into_type(mut self) -> Option<TypeExpr>
        ensures { result ≡ lone_type self.context self.preds self.types }
    {
        match (
            self.context,
            self.preds.pop(),
            self.types.pop(),
            self.types.pop(),
        ) {
            (None, None, Some(whole), None) => Some(whole),
            _ => None,
        }
    }

    /// The context, where it is all that is built.
    pub fn into_context(mut self) -> Option<List<PredExpr>>
        ensures { result ≡ lone_context self.context self.preds self.types }
    {
        match (self.context, self.preds.pop(), self.types.pop()) {
            (Some(context), None, None) => Some(context),
            _ => None,
        }
    }

    /// The type with its context before it, where these are all that is built.
    pub fn into_qualified(mut self) -> Option<Qualified>
        ensures { result ≡ lone_qualified self.context self.preds self.types }
    {
        match (
            self.context,
            self.preds.pop(),
            self.types.pop(),
            self.types.pop(),
        ) {
            (Some(context), None, Some(body), None) => Some(Qualified { context, body }),
            _ => None,
        }
    }
}
