ghost use Rattle.std.specs.Prelude.{◌≡◌, ◌+◌};
ghost use Rattle.hb_read_expressions.specs.Asking.{put_some, settled, top_closes, row_ends};
ghost use Rattle.hb_read_expressions.specs.Ends.{end_binds, row_next, close_bracket, close_second, close_field, close_if, close_then, close_case, close_alternative, close_row, close_statement, close_taken, close_frame, close_top, close, end_operand};
ghost use Rattle.hb_read_expressions.specs.States.{begun_of, end_post};
ghost use Rattle.hb_read_expressions.specs.Taking.{Went};
ghost use Rattle.hb_read_expressions.specs.Nodes.{put};
ghost use Rattle.hb_read_expressions.specs.declared.node.ExprNode.TheVariants as node_is;

use crate::asking;
use crate::frame::{Begun, Frame, Spot, Target, next_count};
use crate::node::ExprNode;
use crate::now::Now;
use crate::settling::Extent;
use crate::sort::Sort;
use crate::state::Core;
use hb_base::{Memory, Name, Place};

/// An equation whose expression is read.
#[derive(Clone, Copy)]
pub struct OpenRow {
    pub name: Name,
    pub place: Place,
    /// The count of its patterns.
    pub patterns: u32,
    /// The count of equations before it in its block.
    pub before: u32,
}

impl Core {
    /// A block of equations is whole.
    fn end_binds(&mut self, binds: u32) -> Result<bool, Memory>
        ensures { Went (end_binds self.old.frames binds self.old.nodes) self.old result self.new }
    {
        match self.frames.top() {
            Some(Frame::LetBinds(begun, place)) => {
                self.frames.pop();
                self.last = Now::LetIn(begun, place, binds);
                Ok(true)
            }
            Some(Frame::Where(name, place, patterns, first, before)) => {
                let count = next_count(before)?;
                self.frames.pop();
                self.put(ExprNode::Row(name, place, patterns, first, binds))?;
                self.last = Now::RowEnd(count);
                Ok(true)
            }
            Some(Frame::Block) => {
                self.frames.pop();
                self.last = Now::Over(binds);
                Ok(true)
            }
            _ => Ok(false),
        }
    }

    /// An equation is whole, the last of so many.
    pub(crate) fn row_next(&mut self, binds: u32, sort: Sort) -> Result<bool, Memory>
        ensures { Went (row_next self.old.frames binds self.old.nodes sort) self.old result self.new }
    {
        if self.frames.is_empty() {
            return Ok(false);
        }
        match sort {
            Sort::Semicolon => {
                self.last = Now::BindStart(binds);
                Ok(true)
            }
            Sort::CloseBrace => self.end_binds(binds),
            _ => Ok(false),
        }
    }

    fn close_bracket(
        &mut self,
        spot: Spot,
        place: Place,
        stands: Place,
        sort: Sort,
    ) -> Result<bool, Memory>
        ensures { Went (close_bracket spot place self.old.frames stands self.old.nodes sort) self.old result self.new }
    {
        match sort {
            Sort::Close => {
                self.last = Now::Post(spot, place, stands);
                Ok(true)
            }
            Sort::Comma => {
                self.open(Frame::Second(spot, place))?;
                Ok(true)
            }
            _ => Ok(false),
        }
    }

    fn close_second(&mut self, spot: Spot, place: Place, sort: Sort) -> Result<bool, Memory>
        ensures { Went (close_second spot place self.old.frames self.old.nodes sort) self.old result self.new }
    {
        match sort {
            Sort::Close => {
                self.put_post(spot, place, ExprNode::Pair(place))?;
                Ok(true)
            }
            _ => Ok(false),
        }
    }

    fn close_field(
        &mut self,
        spot: Spot,
        place: Place,
        target: Target,
        before: u32,
        field_place: Place,
        field: Name,
        sort: Sort,
    ) -> Result<bool, Memory>
        ensures { Went (close_field spot place target before field_place field self.old.frames self.old.nodes sort) self.old result self.new }
    {
        match sort {
            Sort::Bar => {
                let count = next_count(before)?;
                self.put(ExprNode::Field(field_place, field))?;
                self.last = Now::NextField(spot, place, target, count);
                Ok(true)
            }
            Sort::CloseSquare => {
                let count = next_count(before)?;
                self.put(ExprNode::Field(field_place, field))?;
                self.put_post(spot, place, target.node(place, count))?;
                Ok(true)
            }
            _ => Ok(false),
        }
    }

    fn close_if(&mut self, begun: Begun, place: Place, sort: Sort) -> Result<bool, Memory>
        ensures { Went (close_if begun place self.old.frames self.old.nodes sort) self.old result self.new }
    {
        match sort {
            Sort::Then => {
                self.open(Frame::Then(begun, place))?;
                Ok(true)
            }
            _ => Ok(false),
        }
    }

    fn close_then(&mut self, begun: Begun, place: Place, sort: Sort) -> Result<bool, Memory>
        ensures { Went (close_then begun place self.old.frames self.old.nodes sort) self.old result self.new }
    {
        match sort {
            Sort::Else => {
                self.open(Frame::Else(begun, place))?;
                Ok(true)
            }
            _ => Ok(false),
        }
    }

    fn close_case(&mut self, begun: Begun, place: Place, sort: Sort) -> Result<bool, Memory>
        ensures { Went (close_case begun place self.old.frames self.old.nodes sort) self.old result self.new }
    {
        match sort {
            Sort::Of => {
                self.last = Now::CaseBrace(begun, place);
                Ok(true)
            }
            _ => Ok(false),
        }
    }

    fn close_alternative(
        &mut self,
        begun: Begun,
        place: Place,
        before: u32,
        sort: Sort,
    ) -> Result<bool, Memory>
        ensures { Went (close_alternative begun place before self.old.frames self.old.nodes sort) self.old result self.new }
    {
        match sort {
            Sort::Semicolon => {
                let count = next_count(before)?;
                self.put(ExprNode::Alternative)?;
                self.last = Now::AltStart(begun, place, count);
                Ok(true)
            }
            Sort::CloseBrace => {
                let count = next_count(before)?;
                self.put(ExprNode::Alternative)?;
                self.put(ExprNode::Case(place, count))?;
                self.last = Now::Whole(begun, place);
                Ok(true)
            }
            _ => Ok(false),
        }
    }

    /// An equation without local rows is whole.
    fn end_row(&mut self, row: OpenRow, first: Place, sort: Sort) -> Result<bool, Memory>
        ensures { Went (row_next self.old.frames (row.before + 1) (put self.old.nodes (node_is.Row row.name row.place row.patterns first 0)) sort) self.old result self.new }
    {
        if !asking::row_ends(self.frames.as_slice(), sort) {
            return Ok(false);
        }
        let count = next_count(row.before)?;
        self.put(ExprNode::Row(row.name, row.place, row.patterns, first, 0))?;
        self.row_next(count, sort)
    }

    fn close_row(&mut self, row: OpenRow, first: Place, sort: Sort) -> Result<bool, Memory>
        ensures { Went (close_row row.name row.place row.patterns row.before self.old.frames first self.old.nodes sort) self.old result self.new }
    {
        match sort {
            Sort::Where => {
                self.open_binds(Frame::Where(
                    row.name,
                    row.place,
                    row.patterns,
                    first,
                    row.before,
                ))?;
                Ok(true)
            }
            Sort::Semicolon => self.end_row(row, first, Sort::Semicolon),
            Sort::CloseBrace => self.end_row(row, first, Sort::CloseBrace),
            _ => Ok(false),
        }
    }

    fn close_statement(
        &mut self,
        begun: Begun,
        place: Place,
        before: u32,
        sort: Sort,
    ) -> Result<bool, Memory>
        ensures { Went (close_statement begun place before self.old.frames self.old.nodes sort) self.old result self.new }
    {
        match sort {
            Sort::Semicolon => {
                let count = next_count(before)?;
                self.put(ExprNode::DoStmt)?;
                self.last = Now::StmtStart(begun, place, count, true);
                Ok(true)
            }
            Sort::CloseBrace => {
                let count = next_count(before)?;
                self.put(ExprNode::DoStmt)?;
                self.put(ExprNode::Do(place, count))?;
                self.last = Now::Whole(begun, place);
                Ok(true)
            }
            _ => Ok(false),
        }
    }

    fn close_taken(
        &mut self,
        begun: Begun,
        place: Place,
        before: u32,
        sort: Sort,
    ) -> Result<bool, Memory>
        ensures { Went (close_taken begun place before self.old.frames self.old.nodes sort) self.old result self.new }
    {
        match sort {
            Sort::Semicolon => {
                let count = next_count(before)?;
                self.put(ExprNode::TakeStmt)?;
                self.last = Now::StmtStart(begun, place, count, false);
                Ok(true)
            }
            _ => Ok(false),
        }
    }

    fn close_frame(&mut self, frame: Frame, whole: Extent, sort: Sort) -> Result<bool, Memory>
        ensures { Went (close_frame frame self.old.frames whole.first whole.stands self.old.nodes sort) self.old result self.new }
    {
        match frame {
            Frame::Bracket(spot, place) => self.close_bracket(spot, place, whole.stands, sort),
            Frame::Second(spot, place) => self.close_second(spot, place, sort),
            Frame::Field(spot, place, target, before, field_place, field) => {
                self.close_field(spot, place, target, before, field_place, field, sort)
            }
            Frame::If(begun, place) => self.close_if(begun, place, sort),
            Frame::Then(begun, place) => self.close_then(begun, place, sort),
            Frame::Case(begun, place) => self.close_case(begun, place, sort),
            Frame::Alternative(begun, place, before) => {
                self.close_alternative(begun, place, before, sort)
            }
            Frame::Row(name, place, patterns, before) => {
                let row = OpenRow {
                    name,
                    place,
                    patterns,
                    before,
                };
                self.close_row(row, whole.first, sort)
            }
            Frame::Statement(begun, place, before, _) => {
                self.close_statement(begun, place, before, sort)
            }
            Frame::Taken(begun, place, before) => self.close_taken(begun, place, before, sort),
            _ => Ok(false),
        }
    }

    fn close_top(&mut self, whole: Extent, sort: Sort) -> Result<bool, Memory>
        ensures { Went (close_top self.old.frames whole.first whole.stands self.old.nodes sort) self.old result self.new }
    {
        match self.frames.pop() {
            Some(frame) => {
                let closed = self.close_frame(frame, whole, sort)?;
                if !closed {
                    self.frames.push(frame)?;
                }
                Ok(closed)
            }
            None => Ok(false),
        }
    }

    /// The token comes after the expression that is whole here.
    fn closes(&self, sort: Sort) -> bool
        ensures { result ≡ top_closes (settled self.now.frames) sort }
    {
        asking::top_closes(asking::settled(self.frames.as_slice()), sort)
    }

    /// An operand is whole that stands here.
    #[tactic(auto, using(crate::proofs::Asked::closes_none, crate::proofs::Asked::closes_some))]
    pub(crate) fn close_operand(
        &mut self,
        begun: Begun,
        stands: Place,
        sort: Sort,
    ) -> Result<bool, Memory>
        ensures { Went (close (end_operand self.old.frames begun stands self.old.nodes) sort) self.old result self.new }
    {
        if !self.closes(sort) {
            return Ok(false);
        }
        self.end_run(begun)?;
        let whole = self.settle(Extent {
            first: begun.first(),
            stands: begun.run_at(stands),
        })?;
        self.close_top(whole, sort)
    }

    /// A post is whole that stands here, with this node if it is not out, and the expression with it.
    #[tactic(auto, using(crate::proofs::Asked::closes_none, crate::proofs::Asked::closes_some))]
    pub(crate) fn close_post(
        &mut self,
        node: Option<ExprNode>,
        spot: Spot,
        stands: Place,
        sort: Sort,
    ) -> Result<bool, Memory>
        ensures { Went (close (end_operand self.old.frames (begun_of spot) stands (end_post spot stands (put_some node self.old.nodes))) sort) self.old result self.new }
    {
        if !self.closes(sort) {
            return Ok(false);
        }
        self.end_post(node, spot, stands)?;
        self.close_operand(spot.begun(), stands, sort)
    }
}
