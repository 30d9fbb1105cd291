ghost use Rattle.std.specs.Prelude.{◌≡◌, ◌+◌, false, OnOk};
ghost use Rattle.hb_stack.specs.Stacks.{rest_of};
ghost use Rattle.hb_read_expressions.specs.Outside.{move_binds_brace, move_row_op, move_row_quote, move_row_quoted, let_statement, move_let_in, move_case_brace, move_do_brace, move_block, move_core};
ghost use Rattle.hb_read_expressions.specs.Nodes.{put};
ghost use Rattle.hb_read_expressions.specs.States.{at};
ghost use Rattle.hb_read_expressions.specs.Taking.{Went};
ghost use Rattle.hb_read_expressions.specs.declared.node.ExprNode.TheVariants as node_is;
ghost use Rattle.hb_read_expressions.specs.declared.now.Now.TheVariants as now;

use crate::frame::{Begun, Frame, OpenField, next_count};
use crate::node::ExprNode;
use crate::now::{Now, Purpose};
use crate::sort::Sort;
use crate::state::Core;
use hb_base::{Memory, Name, Place};

impl Core {
    fn take_binds_brace(&mut self, sort: Sort) -> Result<bool, Memory>
        ensures { Went (move_binds_brace self.old.frames self.old.nodes sort) self.old result self.new }
    {
        match sort {
            Sort::OpenBrace => {
                self.last = Now::BindStart(0);
                Ok(true)
            }
            _ => Ok(false),
        }
    }

    fn take_row_op(
        &mut self,
        before: u32,
        place: Place,
        name: Name,
        sort: Sort,
    ) -> Result<bool, Memory>
        ensures { Went (move_row_op before place name self.old.frames self.old.nodes sort) self.old result self.new }
    {
        match sort {
            Sort::Close => {
                self.last = Now::RowName(before, place, name);
                Ok(true)
            }
            _ => Ok(false),
        }
    }

    fn take_row_quote(&mut self, before: u32, place: Place, sort: Sort) -> Result<bool, Memory>
        ensures { Went (move_row_quote before place self.old.frames self.old.nodes sort) self.old result self.new }
    {
        match sort {
            Sort::Variable(name) => {
                self.last = Now::RowQuoted(before, place, name);
                Ok(true)
            }
            _ => Ok(false),
        }
    }

    fn take_row_quoted(
        &mut self,
        before: u32,
        place: Place,
        name: Name,
        sort: Sort,
    ) -> Result<bool, Memory>
        ensures { Went (move_row_quoted before place name self.old.frames self.old.nodes sort) self.old result self.new }
    {
        match sort {
            Sort::Backquote => {
                self.last = Now::ParamStart(Purpose::ForRight(name, place, before), 1);
                Ok(true)
            }
            _ => Ok(false),
        }
    }

    /// `let { .. } ;` is a statement right at a statement's head, where its `do` has so many before it.
    fn end_let_statement(
        &mut self,
        begun: Begun,
        place: Place,
        before: u32,
        binds: u32,
    ) -> Result<(), Memory>
        ensures { OnOk result (self.new ≡ at (rest_of self.old.frames) (now.StmtStart begun place (before + 1) false) (put self.old.nodes (node_is.LetStmt binds))) }
    {
        let count = next_count(before)?;
        self.frames.pop();
        self.put(ExprNode::LetStmt(binds))?;
        self.last = Now::StmtStart(begun, place, count, false);
        Ok(())
    }

    fn let_statement(&mut self, begun: Begun, binds: u32) -> Result<bool, Memory>
        ensures { Went (let_statement self.old.frames begun binds self.old.nodes) self.old result self.new }
    {
        let Begun::First(_) = begun else {
            return Ok(false);
        };
        match self.frames.top() {
            Some(Frame::Statement(around, place, before, _)) => {
                self.end_let_statement(around, place, before, binds)?;
                Ok(true)
            }
            _ => Ok(false),
        }
    }

    fn take_let_in(
        &mut self,
        begun: Begun,
        place: Place,
        binds: u32,
        sort: Sort,
    ) -> Result<bool, Memory>
        ensures { Went (move_let_in begun place binds self.old.frames self.old.nodes sort) self.old result self.new }
    {
        match sort {
            Sort::In => {
                self.open(Frame::LetBody(begun, place, binds))?;
                Ok(true)
            }
            Sort::Semicolon => self.let_statement(begun, binds),
            _ => Ok(false),
        }
    }

    fn take_case_brace(&mut self, begun: Begun, place: Place, sort: Sort) -> Result<bool, Memory>
        ensures { Went (move_case_brace begun place self.old.frames self.old.nodes sort) self.old result self.new }
    {
        match sort {
            Sort::OpenBrace => {
                self.last = Now::AltStart(begun, place, 0);
                Ok(true)
            }
            _ => Ok(false),
        }
    }

    fn take_do_brace(&mut self, begun: Begun, place: Place, sort: Sort) -> Result<bool, Memory>
        ensures { Went (move_do_brace begun place self.old.frames self.old.nodes sort) self.old result self.new }
    {
        match sort {
            Sort::OpenBrace => {
                self.last = Now::StmtStart(begun, place, 0, false);
                Ok(true)
            }
            _ => Ok(false),
        }
    }

    /// A token of a block, or after one.
    pub(crate) fn take_block(&mut self, current: Now, sort: Sort) -> Result<bool, Memory>
        ensures { Went (move_block current self.old.frames self.old.nodes sort) self.old result self.new }
    {
        match current {
            Now::Whole(begun, stands) => self.close_operand(begun, stands, sort),
            Now::BindsBrace => self.take_binds_brace(sort),
            Now::RowOp(before, place, name) => self.take_row_op(before, place, name, sort),
            Now::RowQuote(before, place) => self.take_row_quote(before, place, sort),
            Now::RowQuoted(before, place, name) => self.take_row_quoted(before, place, name, sort),
            Now::RowEnd(binds) => self.row_next(binds, sort),
            Now::LetIn(begun, place, binds) => self.take_let_in(begun, place, binds, sort),
            Now::CaseBrace(begun, place) => self.take_case_brace(begun, place, sort),
            Now::DoBrace(begun, place) => self.take_do_brace(begun, place, sort),
            _ => Ok(false),
        }
    }

    /// A token outside patterns.
    pub(crate) fn take_core(
        &mut self,
        current: Now,
        place: Place,
        sort: Sort,
    ) -> Result<bool, Memory>
        ensures { Went (move_core current self.old.frames self.old.nodes place sort) self.old result self.new }
    {
        match current {
            Now::Want => self.begin(place, sort),
            Now::Operand(begun) => self.begin_operand(begun, place, sort),
            Now::Post(spot, first, stands) => self.take_post(spot, first, stands, place, sort),
            Now::Con(spot, con_place, con) => self.take_con(spot, con_place, con, place, sort),
            Now::Sealed(spot, stands) => self.after_post(None, spot, stands, place, sort),
            Now::Dotted(spot, first) => self.take_dotted(spot, first, sort),
            Now::Opened(spot, bracket) => self.take_opened(spot, bracket, place, sort),
            Now::OpName(spot, bracket, name) => self.take_op_name(spot, bracket, name, sort),
            Now::Quoted(begun) => self.take_quoted(begun, place, sort),
            Now::QuotedName(begun, name_place, name) => {
                self.take_quoted_name(begun, name_place, name, sort)
            }
            Now::FirstField(spot, first, target) => {
                self.take_first_field(spot, first, target, place, sort)
            }
            Now::NextField(spot, first, target, before) => {
                self.take_field(spot, first, target, before, place, sort)
            }
            Now::FieldName(spot, first, target, before, field_place, name) => {
                let field = OpenField {
                    first,
                    target,
                    before,
                    place: field_place,
                    name,
                };
                self.take_field_name(spot, field, sort)
            }
            Now::Whole(_, _)
            | Now::ParamStart(_, _)
            | Now::Param(_, _)
            | Now::BindsBrace
            | Now::BindStart(_)
            | Now::RowVar(_, _, _)
            | Now::RowOpen(_, _)
            | Now::RowOp(_, _, _)
            | Now::RowName(_, _, _)
            | Now::RowLeft(_, _)
            | Now::RowQuote(_, _)
            | Now::RowQuoted(_, _, _)
            | Now::RowEnd(_)
            | Now::Over(_)
            | Now::LetIn(_, _, _)
            | Now::CaseBrace(_, _)
            | Now::AltStart(_, _, _)
            | Now::AltPat(_, _, _)
            | Now::DoBrace(_, _)
            | Now::StmtStart(_, _, _, _)
            | Now::StmtPat(_, _, _) => self.take_block(current, sort),
        }
    }
}
