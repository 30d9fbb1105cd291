ghost use Rattle.std.specs.Prelude.{◌≡◌, [], ◌∷◌, false, IsFalse, IfOk, IsTrue, is_some};
ghost use Rattle.hb_read_patterns.specs.Moves.{pat_start};
ghost use Rattle.hb_read_expressions.specs.Exactly.{ExprReaderIsExact, EquationReaderIsExact, BindsReaderIsExact, EndsBefore};
ghost use Rattle.hb_read_expressions.specs.Moves.{move_within, move_alone, done, expr_start, equation_start, binds_start};
ghost use Rattle.hb_read_expressions.specs.Sorts.{sort_of};
ghost use Rattle.hb_read_expressions.specs.States.{at, state};
ghost use Rattle.hb_read_expressions.specs.Taking.{Went, Took};

use crate::asking;
use crate::ends::PartHead;
use crate::frame::Frame;
use crate::node::ExprNode;
use crate::now::Now;
use crate::sort::{Sort, sort_of};
use crate::state::{Core, State};
use hb_base::{List, Memory};
use hb_read_patterns::PatReader;
use hb_stack::Stack;
use hb_tokens::Token;
use std::alloc::Global;

impl State {
    fn new(alloc: Global, frames: Stack<Frame>, last: Now) -> State
        ensures { result ≡ state (at frames last []) pat_start false }
    {
        State {
            core: Core {
                frames,
                last,
                nodes: List::of(Vec::new(alloc)),
            },
            pats: PatReader::pat(alloc),
            beside: false,
        }
    }

    /// A reader of one expression. Takes no memory.
    pub fn expr(alloc: Global) -> State
        ensures start { result ≡ expr_start pat_start }
        ensures exact { ExprReaderIsExact }
    {
        State::new(alloc, Stack::new(alloc), Now::Want)
    }

    /// A reader of one equation, which is one row of what it defines. Takes no memory.
    pub fn equation(alloc: Global) -> State
        ensures start { result ≡ equation_start pat_start }
        ensures exact { EquationReaderIsExact }
    {
        State::new(alloc, Stack::new(alloc), Now::BindStart(0))
    }

    /// A reader of a block of equations in braces.
    pub fn binds(alloc: Global) -> Result<State, Memory>
        ensures start { IfOk result (λ reader. reader ≡ binds_start pat_start) }
        ensures exact { BindsReaderIsExact }
    {
        let mut frames = Stack::new(alloc);
        frames.push(Frame::Block)?;
        Ok(State::new(alloc, frames, Now::BindsBrace))
    }

    #[tactic(auto, using(crate::proofs::Asked::alone_goes))]
    fn take_within(&mut self, token: &Token) -> Result<bool, Memory>
        requires { IsFalse self.now.beside }
        ensures { Went (move_within self.old.core.last self.old.core.frames self.old.core.nodes self.old.pats token.now) self.old result self.new }
    {
        let last = self.core.last;
        self.core.take_within(&mut self.pats, last, token)
    }

    /// A token where one reader goes on alone.
    fn take_alone(&mut self, token: &Token, sort: Sort) -> Result<bool, Memory>
        requires alone { IsFalse self.now.beside }
        requires sort { sort ≡ sort_of token.now.kind }
        ensures { Went (move_alone self.old.core.last self.old.core.frames self.old.core.nodes self.old.pats token.now) self.old result self.new }
    {
        match self.core.last {
            Now::StmtStart(begun, place, before, may_end) => {
                let head = PartHead {
                    begun,
                    place,
                    before,
                };
                self.take_stmt_start(head, may_end, token, sort)
            }
            Now::Want
            | Now::Operand(_)
            | Now::Post(_, _, _)
            | Now::Con(_, _, _)
            | Now::Sealed(_, _)
            | Now::Dotted(_, _)
            | Now::Opened(_, _)
            | Now::OpName(_, _, _)
            | Now::Quoted(_)
            | Now::QuotedName(_, _, _)
            | Now::FirstField(_, _, _)
            | Now::NextField(_, _, _, _)
            | Now::FieldName(_, _, _, _, _, _)
            | Now::Whole(_, _)
            | Now::ParamStart(_, _)
            | Now::Param(_, _)
            | Now::BindsBrace
            | Now::BindStart(_)
            | Now::RowVar(_, _, _)
            | Now::RowOpen(_, _)
            | Now::RowOp(_, _, _)
            | Now::RowName(_, _, _)
            | Now::RowLeft(_, _)
            | Now::RowQuote(_, _)
            | Now::RowQuoted(_, _, _)
            | Now::RowEnd(_)
            | Now::Over(_)
            | Now::LetIn(_, _, _)
            | Now::CaseBrace(_, _)
            | Now::AltStart(_, _, _)
            | Now::AltPat(_, _, _)
            | Now::DoBrace(_, _)
            | Now::StmtPat(_, _, _) => self.take_within(token),
        }
    }

    /// Takes the token, if it may stand here. If not, nothing changes. After `Memory` the reader is not used again.
    #[tactic(auto, unfolding(crate::specs::Moves::moved))]
    pub fn take(&mut self, token: Token) -> Result<bool, Memory>
        ensures { Took self.old token result self.new }
    {
        let sort = sort_of(token.kind);
        if self.beside {
            self.take_beside(&token, sort)
        } else {
            self.take_alone(&token, sort)
        }
    }

    /// The tokens taken are whole. What follows is then taken only if it goes on with an expression, or is `where` after an
    /// equation's. Takes no memory.
    #[tactic(auto, using(crate::proofs::Asked::ends_is, crate::proofs::Asked::done_ends), unfolding(crate::specs::Moves::done))]
    pub fn is_done(&self) -> bool
        ensures done { result ≡ is_some (done self.now) }
        ensures ends { IsTrue result → EndsBefore self.now }
    {
        match self.core.last {
            Now::RowEnd(_) | Now::Over(_) => self.core.frames.is_empty(),
            Now::Post(_, _, _) | Now::Con(_, _, _) | Now::Sealed(_, _) | Now::Whole(_, _) => {
                asking::is_outermost(asking::settled(self.core.frames.as_slice()))
            }
            _ => false,
        }
    }

    /// The nodes of what was read, if it is whole.
    #[tactic(auto, unfolding(crate::specs::Moves::done))]
    pub fn finish(self) -> Result<Option<List<ExprNode>>, Memory>
        ensures { IfOk result (λ nodes. nodes ≡ done self) }
    {
        let State { core, .. } = self;
        core.finish()
    }
}
