ghost use Rattle.std.specs.Prelude.{◌≡◌, ◌∷◌, None, is_some, length};
ghost use Rattle.hb_read_patterns.specs.Moves.{moved as pat_moved, pat_start};
ghost use Rattle.hb_read_expressions.specs.Outside.{begin, move_core};
ghost use Rattle.hb_read_expressions.specs.Sorts.{sort_of};
ghost use Rattle.hb_read_expressions.specs.States.{at};
ghost use Rattle.hb_read_expressions.specs.Statements.{cut, both, arrow_at, move_both, end_do, move_stmt_start};
ghost use Rattle.hb_read_expressions.specs.Taking.{Went};
ghost use Rattle.hb_read_expressions.specs.declared.frame.Frame.TheVariants as frame;
ghost use Rattle.hb_read_expressions.specs.declared.now.Now.TheVariants as now;
ghost use Rattle.hb_read_expressions.specs.declared.sort.Sort.TheVariants as sort_is;

use crate::asking;
use crate::ends::PartHead;
use crate::frame::Frame;
use crate::node::ExprNode;
use crate::now::Now;
use crate::sort::Sort;
use crate::state::{Core, State};
use hb_base::Memory;
use hb_tokens::Token;

impl Core {
    /// A `do` may end after an expression.
    fn end_do(&mut self, head: PartHead, may_end: bool) -> Result<bool, Memory>
        ensures { Went (end_do may_end head.begun head.place head.before self.old.frames self.old.nodes) self.old result self.new }
    {
        if !may_end {
            return Ok(false);
        }
        self.put(ExprNode::Do(head.place, head.before))?;
        self.last = Now::Whole(head.begun, head.place);
        Ok(true)
    }

    #[tactic(auto, using(crate::proofs::Asked::cut_is))]
    fn in_statement(&self) -> bool
        ensures { result ≡ is_some (cut self.now.frames self.now.nodes) }
    {
        asking::in_statement(self.frames.as_slice())
    }
}

impl State {
    /// At a statement's head, where the expression does not go on: the pattern may.
    #[tactic(auto, using(crate::proofs::Heading::refused_both, crate::proofs::Heading::cuts_to))]
    fn go_on_in_pattern(&mut self, token: &Token) -> Result<bool, Memory>
        ensures { Went (both self.old.core None self.old.pats (pat_moved self.old.pats token.now)) self.old result self.new }
    {
        if !self.core.in_statement() {
            return Ok(false);
        }
        let taken = self.pats.take(token)?;
        if taken {
            self.core.cut();
            self.beside = false;
        }
        Ok(taken)
    }

    /// At a statement's head: the expression goes on, the pattern, or both.
    fn take_both(&mut self, token: &Token, sort: Sort) -> Result<bool, Memory>
        ensures { Went (both self.old.core (move_core self.old.core.last self.old.core.frames self.old.core.nodes token.now.place sort) self.old.pats (pat_moved self.old.pats token.now)) self.old result self.new }
    {
        let last = self.core.last;
        let taken = self.core.take_core(last, token.place, sort)?;
        if taken {
            self.beside = self.pats.take(token)?;
            return Ok(true);
        }
        self.go_on_in_pattern(token)
    }

    /// The arrow after a statement's pattern.
    #[tactic(auto, using(crate::proofs::Heading::arrow_none, crate::proofs::Heading::no_arrow, crate::proofs::Heading::arrow_takes, crate::proofs::Heading::cuts_to))]
    fn take_arrow(&mut self, token: &Token) -> Result<bool, Memory>
        requires { sort_of token.now.kind ≡ sort_is.LeftArrow }
        ensures { Went (arrow_at (cut self.old.core.frames self.old.core.nodes) self.old.pats token.now) self.old result self.new }
    {
        let Some(due) = self.pats.due() else {
            return Ok(false);
        };
        if !self.core.in_statement() {
            return Ok(false);
        }
        if let Some(head) = self.core.cut() {
            self.core.put_pattern(self.pats.nodes.as_slice(), due)?;
            self.core
                .open(Frame::Taken(head.begun, head.place, head.before))?;
            self.beside = false;
        }
        Ok(true)
    }

    /// The expression and the pattern at a statement's head, side by side.
    pub(crate) fn take_beside(&mut self, token: &Token, sort: Sort) -> Result<bool, Memory>
        requires { sort ≡ sort_of token.now.kind }
        ensures { Went (move_both self.old.core self.old.pats token.now sort) self.old result self.new }
    {
        match sort {
            Sort::LeftArrow => self.take_arrow(token),
            Sort::Variable(_)
            | Sort::Number(_)
            | Sort::Bits(_, _)
            | Sort::Constructor(_)
            | Sort::Operator(_)
            | Sort::Dot
            | Sort::Open
            | Sort::Close
            | Sort::Comma
            | Sort::Semicolon
            | Sort::OpenSquare
            | Sort::CloseSquare
            | Sort::Backquote
            | Sort::OpenBrace
            | Sort::CloseBrace
            | Sort::Equals
            | Sort::Bar
            | Sort::Backslash
            | Sort::RightArrow
            | Sort::Let
            | Sort::In
            | Sort::If
            | Sort::Then
            | Sort::Else
            | Sort::Case
            | Sort::Of
            | Sort::Do
            | Sort::Where
            | Sort::Other => self.take_both(token, sort),
        }
    }

    #[tactic(auto, using(crate::proofs::Asked::take_whole))]
    fn begin_both(&mut self, head: PartHead, token: &Token, sort: Sort) -> Result<bool, Memory>
        ensures { Went (both (at (frame.Statement head.begun head.place head.before (length self.old.core.nodes) ∷ self.old.core.frames) now.Want self.old.core.nodes) (begin (frame.Statement head.begun head.place head.before (length self.old.core.nodes) ∷ self.old.core.frames) self.old.core.nodes token.now.place sort) pat_start (pat_moved pat_start token.now)) self.old result self.new }
    {
        self.core
            .push_statement(head.begun, head.place, head.before)?;
        let taken = self.core.begin(token.place, sort)?;
        if taken {
            self.pats.restart_pat();
            self.beside = self.pats.take(token)?;
            return Ok(true);
        }
        self.core.frames.pop();
        let begun = self.pats.begin_pat(token)?;
        if begun {
            self.core.last = Now::StmtPat(head.begun, head.place, head.before);
            self.beside = false;
        }
        Ok(begun)
    }

    /// Where a statement may come, after so many.
    #[tactic(auto, unfolding(hb_read_patterns::specs::Moves::done))]
    pub(crate) fn take_stmt_start(
        &mut self,
        head: PartHead,
        may_end: bool,
        token: &Token,
        sort: Sort,
    ) -> Result<bool, Memory>
        ensures { Went (move_stmt_start head.begun head.place head.before may_end self.old.core.frames self.old.core.nodes self.old.pats token.now sort) self.old result self.new }
    {
        match sort {
            Sort::Semicolon => {
                self.core.last = Now::StmtStart(head.begun, head.place, head.before, may_end);
                self.beside = false;
                Ok(true)
            }
            Sort::CloseBrace => {
                let ended = self.core.end_do(head, may_end)?;
                if ended {
                    self.beside = false;
                }
                Ok(ended)
            }
            Sort::LeftArrow => Ok(false),
            Sort::Variable(_)
            | Sort::Number(_)
            | Sort::Bits(_, _)
            | Sort::Constructor(_)
            | Sort::Operator(_)
            | Sort::Dot
            | Sort::Open
            | Sort::Close
            | Sort::Comma
            | Sort::OpenSquare
            | Sort::CloseSquare
            | Sort::Backquote
            | Sort::OpenBrace
            | Sort::Equals
            | Sort::Bar
            | Sort::Backslash
            | Sort::RightArrow
            | Sort::Let
            | Sort::In
            | Sort::If
            | Sort::Then
            | Sort::Else
            | Sort::Case
            | Sort::Of
            | Sort::Do
            | Sort::Where
            | Sort::Other => self.begin_both(head, token, sort),
        }
    }
}
