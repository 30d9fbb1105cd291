ghost use Rattle.std.specs.Prelude.{◌≡◌, ◌+◌, ◌++◌, None, OnOk};
ghost use Rattle.hb_read_patterns.specs.Moves.{put_due, moved as pat_moved, pat_start, apat_start};
ghost use Rattle.hb_read_expressions.specs.Asking.{put_pat_node};
ghost use Rattle.hb_read_expressions.specs.Inside.{with_pats, in_pattern, end_params, next_param, move_param, alt_arrow, end_case, move_alt_start, move_alt_pat, stmt_arrow, move_stmt_pat};
ghost use Rattle.hb_read_expressions.specs.Nodes.{wrapped};
ghost use Rattle.hb_read_expressions.specs.Sorts.{sort_of};
ghost use Rattle.hb_read_expressions.specs.States.{at};
ghost use Rattle.hb_read_expressions.specs.declared.now.Now.TheVariants as now;
ghost use Rattle.hb_read_expressions.specs.Taking.{Went, WentAlone};

use crate::ends::PartHead;
use crate::frame::{Begun, Frame, next_count};
use crate::node::ExprNode;
use crate::now::{Now, Purpose};
use crate::sort::{Sort, sort_of};
use crate::state::Core;
use hb_base::{Memory, Place};
use hb_read_patterns::{Due, PatNode, PatReader};
use hb_tokens::Token;

impl Core {
    fn put_pat_node(&mut self, node: Option<PatNode>) -> Result<(), Memory>
        ensures { OnOk result (self.new ≡ record self.old { nodes = put_pat_node node self.old.nodes }) }
    {
        match node {
            Some(node) => self.put(ExprNode::Pat(node))?,
            None => (),
        }
        Ok(())
    }

    fn put_wrapped(&mut self, read: &[PatNode]) -> Result<(), Memory>
        ensures { OnOk result (self.new ≡ record self.old { nodes = self.old.nodes ++ wrapped read.now }) }
    {
        for node in read {
            self.nodes.push(ExprNode::Pat(*node))?;
        }
        Ok(())
    }

    /// Puts out the nodes of a pattern: those that were read, and those that are due.
    #[tactic(auto, using(crate::proofs::Asked::due_put))]
    pub(crate) fn put_pattern(&mut self, read: &[PatNode], due: Due) -> Result<(), Memory>
        ensures { OnOk result (self.new ≡ record self.old { nodes = self.old.nodes ++ wrapped (put_due due read.now) }) }
    {
        self.put_wrapped(read)?;
        self.put_pat_node(due.simple)?;
        self.put_pat_node(due.whole)?;
        Ok(())
    }

    /// The token begins a simple pattern, and this was read last.
    pub(crate) fn begin_apat(
        &mut self,
        pats: &mut PatReader,
        last: Now,
        token: &Token,
    ) -> Result<bool, Memory>
        ensures { WentAlone (in_pattern (at self.old.frames last self.old.nodes) (pat_moved apat_start token.now) None) self.old pats.old result self.new pats.new }
    {
        let begun = pats.begin_apat(token)?;
        if begun {
            self.last = last;
        }
        Ok(begun)
    }

    fn begin_pat(&mut self, pats: &mut PatReader, last: Now, token: &Token) -> Result<bool, Memory>
        ensures { WentAlone (in_pattern (at self.old.frames last self.old.nodes) (pat_moved pat_start token.now) None) self.old pats.old result self.new pats.new }
    {
        let begun = pats.begin_pat(token)?;
        if begun {
            self.last = last;
        }
        Ok(begun)
    }

    /// Patterns are whole: what comes after so many of them.
    fn end_params(&mut self, purpose: Purpose, patterns: u32, sort: Sort) -> Result<bool, Memory>
        ensures { Went (end_params purpose patterns self.old.frames self.old.nodes sort) self.old result self.new }
    {
        match (purpose, sort) {
            (Purpose::ForLambda(begun, place), Sort::RightArrow) => {
                self.open(Frame::Lambda(begun, place, patterns))?;
                Ok(true)
            }
            (
                Purpose::ForRow(name, place, before) | Purpose::ForRight(name, place, before),
                Sort::Equals,
            ) => {
                self.open(Frame::Row(name, place, patterns, before))?;
                Ok(true)
            }
            _ => Ok(false),
        }
    }

    /// After so many simple patterns: one more, or what comes after them.
    fn one_more_param(
        &mut self,
        pats: &mut PatReader,
        purpose: Purpose,
        patterns: u32,
        token: &Token,
    ) -> Result<bool, Memory>
        ensures { WentAlone (in_pattern (at self.old.frames (now.Param purpose patterns) self.old.nodes) (pat_moved apat_start token.now) (with_pats pats.old (end_params purpose patterns self.old.frames self.old.nodes (sort_of token.now.kind)))) self.old pats.old result self.new pats.new }
    {
        let begun = pats.begin_apat(token)?;
        if begun {
            self.last = Now::Param(purpose, patterns);
            return Ok(true);
        }
        self.end_params(purpose, patterns, sort_of(token.kind))
    }

    /// After so many simple patterns: one more may begin.
    pub(crate) fn next_param(
        &mut self,
        pats: &mut PatReader,
        purpose: Purpose,
        patterns: u32,
        token: &Token,
    ) -> Result<bool, Memory>
        ensures { WentAlone (next_param purpose patterns self.old.frames self.old.nodes pats.old token.now) self.old pats.old result self.new pats.new }
    {
        match purpose {
            Purpose::ForRight(_, _, _) => self.end_params(purpose, patterns, sort_of(token.kind)),
            Purpose::ForLambda(_, _) | Purpose::ForRow(_, _, _) => {
                self.one_more_param(pats, purpose, patterns, token)
            }
        }
    }

    /// A simple pattern is whole, with so many before it.
    #[tactic(auto, using(crate::proofs::Asked::take_back))]
    fn after_param(
        &mut self,
        pats: &mut PatReader,
        due: Due,
        purpose: Purpose,
        before: u32,
        token: &Token,
    ) -> Result<bool, Memory>
        ensures { WentAlone (next_param purpose (before + 1) self.old.frames (self.old.nodes ++ wrapped (put_due due pats.old.nodes)) pats.old token.now) self.old pats.old result self.new pats.new }
    {
        let count = next_count(before)?;
        let len = self.nodes.len();
        self.put_pattern(pats.nodes.as_slice(), due)?;
        let went = self.next_param(pats, purpose, count, token)?;
        if !went {
            self.nodes.truncate(len);
        }
        Ok(went)
    }

    /// In a simple pattern, with so many before it.
    pub(crate) fn take_param(
        &mut self,
        pats: &mut PatReader,
        purpose: Purpose,
        before: u32,
        token: &Token,
    ) -> Result<bool, Memory>
        ensures { WentAlone (move_param purpose before self.old.frames self.old.nodes pats.old token.now) self.old pats.old result self.new pats.new }
    {
        let taken = pats.take(token)?;
        if taken {
            self.last = Now::Param(purpose, before);
            return Ok(true);
        }
        match pats.due() {
            Some(due) => self.after_param(pats, due, purpose, before, token),
            None => Ok(false),
        }
    }

    fn alt_arrow(
        &mut self,
        read: &[PatNode],
        due: Due,
        head: PartHead,
        sort: Sort,
    ) -> Result<bool, Memory>
        ensures { Went (alt_arrow head.begun head.place head.before self.old.frames (self.old.nodes ++ wrapped (put_due due read.now)) sort) self.old result self.new }
    {
        match sort {
            Sort::RightArrow => {
                self.put_pattern(read, due)?;
                self.open(Frame::Alternative(head.begun, head.place, head.before))?;
                Ok(true)
            }
            _ => Ok(false),
        }
    }

    #[tactic(auto, using(crate::proofs::Asked::case_ends))]
    fn end_case(&mut self, begun: Begun, place: Place, before: u32) -> Result<bool, Memory>
        ensures { Went (end_case begun place before self.old.frames self.old.nodes) self.old result self.new }
    {
        if before == 0 {
            return Ok(false);
        }
        self.put(ExprNode::Case(place, before))?;
        self.last = Now::Whole(begun, place);
        Ok(true)
    }

    /// Where an alternative may come, after so many.
    pub(crate) fn take_alt_start(
        &mut self,
        pats: &mut PatReader,
        head: PartHead,
        token: &Token,
        sort: Sort,
    ) -> Result<bool, Memory>
        ensures { WentAlone (move_alt_start head.begun head.place head.before self.old.frames self.old.nodes pats.old token.now sort) self.old pats.old result self.new pats.new }
    {
        match sort {
            Sort::Semicolon => {
                self.last = Now::AltStart(head.begun, head.place, head.before);
                Ok(true)
            }
            Sort::CloseBrace => self.end_case(head.begun, head.place, head.before),
            Sort::Variable(_)
            | Sort::Number(_)
            | Sort::Bits(_, _)
            | Sort::Constructor(_)
            | Sort::Operator(_)
            | Sort::Dot
            | Sort::Open
            | Sort::Close
            | Sort::Comma
            | Sort::OpenSquare
            | Sort::CloseSquare
            | Sort::Backquote
            | Sort::OpenBrace
            | Sort::Equals
            | Sort::Bar
            | Sort::Backslash
            | Sort::RightArrow
            | Sort::LeftArrow
            | Sort::Let
            | Sort::In
            | Sort::If
            | Sort::Then
            | Sort::Else
            | Sort::Case
            | Sort::Of
            | Sort::Do
            | Sort::Where
            | Sort::Other => {
                self.begin_pat(
                    pats,
                    Now::AltPat(head.begun, head.place, head.before),
                    token,
                )
            }
        }
    }

    /// In the pattern of an alternative.
    pub(crate) fn take_alt_pat(
        &mut self,
        pats: &mut PatReader,
        head: PartHead,
        token: &Token,
    ) -> Result<bool, Memory>
        ensures { WentAlone (move_alt_pat head.begun head.place head.before self.old.frames self.old.nodes pats.old token.now) self.old pats.old result self.new pats.new }
    {
        let taken = pats.take(token)?;
        if taken {
            self.last = Now::AltPat(head.begun, head.place, head.before);
            return Ok(true);
        }
        match pats.due() {
            Some(due) => self.alt_arrow(pats.nodes.as_slice(), due, head, sort_of(token.kind)),
            None => Ok(false),
        }
    }

    fn stmt_arrow(
        &mut self,
        read: &[PatNode],
        due: Due,
        head: PartHead,
        sort: Sort,
    ) -> Result<bool, Memory>
        ensures { Went (stmt_arrow head.begun head.place head.before self.old.frames (self.old.nodes ++ wrapped (put_due due read.now)) sort) self.old result self.new }
    {
        match sort {
            Sort::LeftArrow => {
                self.put_pattern(read, due)?;
                self.open(Frame::Taken(head.begun, head.place, head.before))?;
                Ok(true)
            }
            _ => Ok(false),
        }
    }

    /// In the pattern of a statement that can only be one with a pattern.
    pub(crate) fn take_stmt_pat(
        &mut self,
        pats: &mut PatReader,
        head: PartHead,
        token: &Token,
    ) -> Result<bool, Memory>
        ensures { WentAlone (move_stmt_pat head.begun head.place head.before self.old.frames self.old.nodes pats.old token.now) self.old pats.old result self.new pats.new }
    {
        let taken = pats.take(token)?;
        if taken {
            self.last = Now::StmtPat(head.begun, head.place, head.before);
            return Ok(true);
        }
        match pats.due() {
            Some(due) => self.stmt_arrow(pats.nodes.as_slice(), due, head, sort_of(token.kind)),
            None => Ok(false),
        }
    }
}
