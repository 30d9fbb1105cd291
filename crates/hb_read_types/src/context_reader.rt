ghost use Rattle.std.specs.Prelude.{◌≡◌, [], None, IfOk, OnOk, is_some};
ghost use Rattle.hb_grammar.specs.Reading.{Exact};
ghost use Rattle.hb_read_types.specs.ContextMoves.{between_if, inside, opening, several_at, several_move, several_done, several_start, one_moved, several_moved, side_by_side, context_move, one_done, several_whole, or_else, context_done, context_start, context_reader};
ghost use Rattle.hb_read_types.specs.PredMoves.{pred_move, pred_done, pred_start};
ghost use Rattle.hb_read_types.specs.Reads.{ContextNodesRead};
ghost use Rattle.hb_read_types.specs.declared.context_reader.SeveralStage.TheVariants.{Inside};
ghost use Rattle.hb_read_types.specs.declared.sort.Sort.TheVariants.{Close, Comma};
ghost use Rattle.hb_read_types.specs.Sorts.{sort_of};
ghost use Rattle.hb_read_types.specs.Taking.{Took, TookSide};

use crate::node::TypeNode;
use crate::pred_reader::PredReader;
use crate::sort::{Sort, sort_of};
use hb_base::{List, Memory};
use hb_tokens::Token;
use std::alloc::Global;

/// Where a list of predicates in a bracket is read.
#[derive(Clone, Copy)]
pub enum SeveralStage {
    /// Before its bracket.
    Opening,
    /// In a predicate.
    Inside,
    /// After its bracket.
    Closed,
}

/// Reads predicates in a bracket. The count is that of the predicate that is read.
#[derive(Drop)]
pub struct Several {
    pub stage: SeveralStage,
    pub count: usize,
    pub pred: PredReader,
}

/// Reads a context. What begins with a bracket may be one predicate or several: both are read side by side, until a
/// token comes that only one of them takes.
#[derive(Drop)]
pub struct ContextReader {
    pub one: Option<PredReader>,
    pub several: Option<Several>,
}

impl Several {
    fn new(alloc: Global) -> Several
        ensures { result ≡ several_start [] }
    {
        Several {
            stage: SeveralStage::Opening,
            count: 1,
            pred: PredReader::new(alloc),
        }
    }

    #[tactic(auto, unfolding(crate::specs::ContextMoves::several_move))]
    fn take(&mut self, token: &Token) -> Result<bool, Memory>
        ensures { IfOk result (λ taken. Took taken (several_move self.old token.now) self.old self.new) }
    {
        match self.stage {
            SeveralStage::Opening => Ok(self.open(sort_of(token))),
            SeveralStage::Inside => self.go_on(token),
            SeveralStage::Closed => Ok(false),
        }
    }

    fn open(&mut self, sort: Sort) -> bool
        ensures { Took result (opening self.old.count self.old.pred sort) self.old self.new }
    {
        match sort {
            Sort::Open => {
                self.stage = SeveralStage::Inside;
                true
            }
            _ => false,
        }
    }

    fn go_on(&mut self, token: &Token) -> Result<bool, Memory>
        requires { self.old.stage ≡ Inside }
        ensures { IfOk result (λ taken. Took taken (inside self.old.count (sort_of token.now) (pred_done self.old.pred) (pred_move self.old.pred token.now)) self.old self.new) }
    {
        if self.pred.take(token)? {
            return Ok(true);
        }
        self.between(sort_of(token))
    }

    /// After a predicate, if it is whole.
    fn between(&mut self, sort: Sort) -> Result<bool, Memory>
        requires { self.old.stage ≡ Inside }
        ensures { IfOk result (λ taken. Took taken (between_if self.old.count sort (pred_done self.old.pred)) self.old self.new) }
    {
        match sort {
            Sort::Close => self.close(),
            Sort::Comma => self.next(),
            _ => Ok(false),
        }
    }

    fn close(&mut self) -> Result<bool, Memory>
        requires { self.old.stage ≡ Inside }
        ensures { IfOk result (λ taken. Took taken (between_if self.old.count Close (pred_done self.old.pred)) self.old self.new) }
    {
        let whole = self.pred.start_again()?;
        if whole {
            self.pred.types.put(TypeNode::Context(self.count))?;
            self.stage = SeveralStage::Closed;
        }
        Ok(whole)
    }

    fn next(&mut self) -> Result<bool, Memory>
        requires { self.old.stage ≡ Inside }
        ensures { IfOk result (λ taken. Took taken (between_if self.old.count Comma (pred_done self.old.pred)) self.old self.new) }
    {
        let Some(count) = self.count.checked_add(1) else {
            return Err(Memory);
        };
        let whole = self.pred.start_again()?;
        if whole {
            self.count = count;
        }
        Ok(whole)
    }

    #[tactic(auto, unfolding(crate::specs::ContextMoves::several_done))]
    fn is_done(&self) -> bool
        ensures { result ≡ is_some (several_done self.now) }
    {
        match self.stage {
            SeveralStage::Closed => true,
            _ => false,
        }
    }

    #[tactic(auto, unfolding(crate::specs::ContextMoves::several_done))]
    fn finish(self) -> Result<Option<List<TypeNode>>, Memory>
        ensures { IfOk result (λ nodes. nodes ≡ several_done self) }
    {
        match self.stage {
            SeveralStage::Closed => {
                let nodes = self.pred.types.into_nodes()?;
                Ok(Some(nodes))
            }
            _ => Ok(None),
        }
    }
}

fn take_one(one: &mut Option<PredReader>, token: &Token) -> Result<bool, Memory>
    ensures { IfOk result (λ taken. TookSide taken (one_moved one.old token.now) one.old one.new) }
{
    match one {
        Some(reader) => reader.take(token),
        None => Ok(false),
    }
}

fn take_several(several: &mut Option<Several>, token: &Token) -> Result<bool, Memory>
    ensures { IfOk result (λ taken. TookSide taken (several_moved several.old token.now) several.old several.new) }
{
    match several {
        Some(reader) => reader.take(token),
        None => Ok(false),
    }
}

fn finish_one(one: Option<PredReader>) -> Result<Option<List<TypeNode>>, Memory>
    ensures { IfOk result (λ nodes. nodes ≡ one_done one) }
{
    let Some(reader) = one else {
        return Ok(None);
    };
    let Some(mut nodes) = reader.finish()? else {
        return Ok(None);
    };
    nodes.push(TypeNode::Context(1))?;
    Ok(Some(nodes))
}

fn finish_several(several: Option<Several>) -> Result<Option<List<TypeNode>>, Memory>
    ensures { IfOk result (λ nodes. nodes ≡ several_whole several) }
{
    match several {
        Some(reader) => reader.finish(),
        None => Ok(None),
    }
}

impl ContextReader {
    /// The reader of a context, at its start. Takes no memory.
    pub fn new(alloc: Global) -> ContextReader
        ensures start { result ≡ context_start [] }
        ensures exact { Exact context_reader ContextNodesRead }
    {
        ContextReader {
            one: Some(PredReader::new(alloc)),
            several: Some(Several::new(alloc)),
        }
    }

    /// Takes the token if it can stand here, and answers whether it did.
    #[tactic(auto, unfolding(crate::specs::ContextMoves::context_move))]
    pub fn take(&mut self, token: &Token) -> Result<bool, Memory>
        ensures { IfOk result (λ taken. Took taken (context_move self.old token.now) self.old self.new) }
    {
        let one = take_one(&mut self.one, token)?;
        let several = take_several(&mut self.several, token)?;
        if !one && !several {
            return Ok(false);
        }
        if !one {
            self.one = None;
        }
        if !several {
            self.several = None;
        }
        Ok(true)
    }

    /// The tokens taken are a whole context.
    #[tactic(auto, unfolding(crate::specs::ContextMoves::context_done))]
    pub fn is_done(&self) -> bool
        ensures { result ≡ is_some (context_done self.now) }
    {
        self.is_one_done() || self.is_several_done()
    }

    fn is_one_done(&self) -> bool
        ensures { result ≡ is_some (one_done self.now.one) }
    {
        match &self.one {
            Some(reader) => reader.is_done(),
            None => false,
        }
    }

    fn is_several_done(&self) -> bool
        ensures { result ≡ is_some (several_whole self.now.several) }
    {
        match &self.several {
            Some(reader) => reader.is_done(),
            None => false,
        }
    }

    /// The nodes of the context, where the tokens taken are a whole one.
    #[tactic(auto, unfolding(crate::specs::ContextMoves::context_done))]
    pub fn finish(self) -> Result<Option<List<TypeNode>>, Memory>
        ensures { IfOk result (λ nodes. nodes ≡ context_done self) }
    {
        match finish_one(self.one)? {
            Some(nodes) => Ok(Some(nodes)),
            None => finish_several(self.several),
        }
    }
}
