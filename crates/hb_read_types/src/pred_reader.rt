ghost use Rattle.std.specs.Prelude.{◌≡◌, ◌++◌, [], ◌∷◌, IfOk, OnOk, is_some};
ghost use Rattle.hb_grammar.specs.Reading.{Exact};
ghost use Rattle.hb_read_types.specs.Behind.{ExactBehind};
ghost use Rattle.hb_read_types.specs.PredMoves.{pred_state, nodes_of, alone_from, another, fact_node, typed, operator, begin_pred, after_name, after_two, equals, after_type, in_type, move_pred_at, pred_move, whole_with, pred_done_at, pred_done, pred_start, pred_reader};
ghost use Rattle.hb_read_types.specs.Reads.{PredNodesRead};
ghost use Rattle.hb_read_types.specs.Sorts.{sort_of};
ghost use Rattle.hb_read_types.specs.Taking.{Took, Ended};
ghost use Rattle.hb_read_types.specs.TypeMoves.{put, type_move, type_done};

use crate::node::TypeNode;
use crate::sort::{Sort, sort_of};
use crate::type_reader::TypeReader;
use hb_base::{List, Memory, Name, Place};
use hb_tokens::Token;
use std::alloc::Global;

/// A fact on numbers.
#[derive(Clone, Copy)]
pub enum Fact {
    /// `a + b = c`
    Sum,
    /// `a * b = c`
    Product,
    /// `2 ^ a = b`
    Power,
    /// `a <= b`
    AtMost,
}

/// Which part of a predicate is read.
#[derive(Clone, Copy)]
pub enum PredStage {
    /// Nothing is read.
    Begin,
    /// A name alone: that of a class, or the first type of a fact.
    ClassOrType(Place, Name),
    /// The number 2 alone: that of a power, or the first type of a fact.
    PowerOrType(Place),
    /// The type of this number of a class.
    Class(Place, Name, usize),
    /// The first type of a fact.
    First,
    /// The type of a fact before its `=`.
    Middle(Fact),
    /// The last type of a fact.
    Last(Fact),
}

/// Reads one predicate.
#[derive(Drop)]
pub struct PredReader {
    pub stage: PredStage,
    pub types: TypeReader,
}

fn fact_node(fact: Fact) -> TypeNode
    ensures { result ≡ fact_node fact }
{
    match fact {
        Fact::Sum => TypeNode::SumFact,
        Fact::Product => TypeNode::ProductFact,
        Fact::Power => TypeNode::PowerFact,
        Fact::AtMost => TypeNode::AtMostFact,
    }
}

impl PredReader {
    /// The reader of a predicate, at its start. Takes no memory.
    pub fn new(alloc: Global) -> PredReader
        ensures start { result ≡ pred_start [] }
        ensures exact { Exact pred_reader PredNodesRead }
        ensures behind { ExactBehind pred_reader pred_start PredNodesRead }
    {
        PredReader {
            stage: PredStage::Begin,
            types: TypeReader::of_atype(alloc),
        }
    }

    /// Takes the token if it can stand here, and answers whether it did.
    #[tactic(auto, unfolding(crate::specs::PredMoves::pred_move))]
    pub fn take(&mut self, token: &Token) -> Result<bool, Memory>
        ensures { IfOk result (λ taken. Took taken (pred_move self.old token.now) self.old self.new) }
    {
        match self.stage {
            PredStage::Begin => self.begin(token),
            PredStage::ClassOrType(place, name) => self.after_name(place, name, token),
            PredStage::PowerOrType(place) => self.after_two(place, sort_of(token)),
            _ => self.in_type(token),
        }
    }

    /// The tokens taken are a whole predicate.
    #[tactic(auto, unfolding(crate::specs::PredMoves::pred_done))]
    pub fn is_done(&self) -> bool
        ensures { result ≡ is_some (pred_done self.now) }
    {
        match self.stage {
            PredStage::Class(_, _, _) | PredStage::Last(_) => self.types.is_done(),
            _ => false,
        }
    }

    /// The nodes of the predicate, where the tokens taken are a whole one.
    #[tactic(auto, unfolding(crate::specs::PredMoves::pred_done))]
    pub fn finish(self) -> Result<Option<List<TypeNode>>, Memory>
        ensures { IfOk result (λ nodes. nodes ≡ pred_done self) }
    {
        let whole = match self.stage {
            PredStage::Class(place, name, count) => TypeNode::Class(place, name, count),
            PredStage::Last(fact) => fact_node(fact),
            _ => return Ok(None),
        };
        let Some(mut nodes) = self.types.finish()? else {
            return Ok(None);
        };
        nodes.push(whole)?;
        Ok(Some(nodes))
    }

    /// Puts out a whole predicate and begins another behind it. Answers whether it was whole.
    #[tactic(auto, unfolding(crate::specs::PredMoves::pred_done))]
    pub fn start_again(&mut self) -> Result<bool, Memory>
        ensures { IfOk result (λ whole. Ended whole (pred_done self.old) pred_start self.old self.new) }
    {
        match self.stage {
            PredStage::Class(place, name, count) => {
                self.end_with(TypeNode::Class(place, name, count))
            }
            PredStage::Last(fact) => self.end_with(fact_node(fact)),
            _ => Ok(false),
        }
    }

    fn end_with(&mut self, whole: TypeNode) -> Result<bool, Memory>
        ensures { IfOk result (λ ended. Ended ended (whole_with whole (type_done self.old.types)) pred_start self.old self.new) }
    {
        if !self.types.is_done() {
            return Ok(false);
        }
        self.types.start_again(false)?;
        self.types.put(whole)?;
        self.stage = PredStage::Begin;
        Ok(true)
    }

    fn begin(&mut self, token: &Token) -> Result<bool, Memory>
        ensures { IfOk result (λ taken. Took taken (begin_pred (nodes_of self.old.types) token.now (sort_of token.now)) self.old self.new) }
    {
        match sort_of(token) {
            Sort::Atom(TypeNode::Con(place, name)) => {
                self.types.start_again(false)?;
                self.stage = PredStage::ClassOrType(place, name);
                Ok(true)
            }
            Sort::Atom(TypeNode::Number(place, 2)) => {
                self.types.start_again(false)?;
                self.stage = PredStage::PowerOrType(place);
                Ok(true)
            }
            _ => self.begin_type(PredStage::First, token),
        }
    }

    /// A type begins, and the reader is at this stage.
    fn begin_type(&mut self, stage: PredStage, token: &Token) -> Result<bool, Memory>
        ensures { IfOk result (λ taken. Took taken (typed stage (type_move (another self.old.types) token.now)) self.old self.new) }
    {
        let taken = self.types.begin_again(token)?;
        if taken {
            self.stage = stage;
        }
        Ok(taken)
    }

    /// After a name alone.
    fn after_name(&mut self, place: Place, name: Name, token: &Token) -> Result<bool, Memory>
        ensures { IfOk result (λ taken. Took taken (after_name place name (nodes_of self.old.types) token.now (sort_of token.now)) self.old self.new) }
    {
        let sort = sort_of(token);
        match sort {
            Sort::Plus | Sort::Times | Sort::AtMost => {
                self.types.start_again(false)?;
                self.types.put(TypeNode::Con(place, name))?;
                self.operator(sort)
            }
            _ => self.begin_type(PredStage::Class(place, name, 1), token),
        }
    }

    /// After the number 2 alone.
    fn after_two(&mut self, place: Place, sort: Sort) -> Result<bool, Memory>
        ensures { IfOk result (λ taken. Took taken (after_two place (nodes_of self.old.types) sort) self.old self.new) }
    {
        match sort {
            Sort::Power => {
                self.types.start_again(false)?;
                self.stage = PredStage::Middle(Fact::Power);
                Ok(true)
            }
            Sort::Plus | Sort::Times | Sort::AtMost => {
                self.types.start_again(false)?;
                self.types.put(TypeNode::Number(place, 2))?;
                self.operator(sort)
            }
            _ => Ok(false),
        }
    }

    /// After the first type of a fact.
    fn operator(&mut self, sort: Sort) -> Result<bool, Memory>
        ensures { IfOk result (λ taken. Took taken (operator (nodes_of self.old.types) sort) self.old self.new) }
    {
        let stage = match sort {
            Sort::Plus => PredStage::Middle(Fact::Sum),
            Sort::Times => PredStage::Middle(Fact::Product),
            Sort::AtMost => PredStage::Last(Fact::AtMost),
            _ => return Ok(false),
        };
        self.types.start_again(false)?;
        self.stage = stage;
        Ok(true)
    }

    /// Before the `=` of a fact.
    fn equals(&mut self, fact: Fact, sort: Sort) -> Result<bool, Memory>
        ensures { IfOk result (λ taken. Took taken (equals fact (nodes_of self.old.types) sort) self.old self.new) }
    {
        match sort {
            Sort::Equals => {
                self.types.start_again(false)?;
                self.stage = PredStage::Last(fact);
                Ok(true)
            }
            _ => Ok(false),
        }
    }

    /// In a type, or after it.
    fn in_type(&mut self, token: &Token) -> Result<bool, Memory>
        ensures { IfOk result (λ taken. Took taken (in_type self.old.stage self.old.types token.now) self.old self.new) }
    {
        if self.types.is_alone_whole() {
            self.after_type(token)
        } else {
            self.go_on(token)
        }
    }

    fn go_on(&mut self, token: &Token) -> Result<bool, Memory>
        ensures { IfOk result (λ taken. Took taken (typed self.old.stage (type_move self.old.types token.now)) self.old self.new) }
    {
        let taken = self.types.take(token)?;
        Ok(taken)
    }

    /// After a type that stands by itself.
    fn after_type(&mut self, token: &Token) -> Result<bool, Memory>
        ensures { IfOk result (λ taken. Took taken (after_type self.old.stage (nodes_of self.old.types) token.now (sort_of token.now)) self.old self.new) }
    {
        match self.stage {
            PredStage::Class(place, name, count) => {
                let Some(count) = count.checked_add(1) else {
                    return Err(Memory);
                };
                self.begin_type(PredStage::Class(place, name, count), token)
            }
            PredStage::First => self.operator(sort_of(token)),
            PredStage::Middle(fact) => self.equals(fact, sort_of(token)),
            _ => Ok(false),
        }
    }
}
