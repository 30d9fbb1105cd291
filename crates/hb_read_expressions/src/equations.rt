ghost use Rattle.std.specs.Prelude.{◌≡◌, ◌++◌};
ghost use Rattle.hb_read_patterns.specs.Moves.{put_due};
ghost use Rattle.hb_read_expressions.specs.Inside.{row_infix, move_bind_start, move_row_var, move_row_left, move_row_open};
ghost use Rattle.hb_read_expressions.specs.Nodes.{wrapped};
ghost use Rattle.hb_read_expressions.specs.Taking.{Went, WentAlone};

use crate::now::{Now, Purpose};
use crate::sort::{Sort, sort_of};
use crate::state::Core;
use hb_base::{Memory, Name, Place};
use hb_read_patterns::{Due, PatNode, PatReader};
use hb_tokens::Token;

impl Core {
    /// An operator after the left pattern of an equation.
    fn row_infix(
        &mut self,
        read: &[PatNode],
        due: Due,
        before: u32,
        place: Place,
        sort: Sort,
    ) -> Result<bool, Memory>
        ensures { Went (row_infix before place self.old.frames (self.old.nodes ++ wrapped (put_due due read.now)) sort) self.old result self.new }
    {
        match sort {
            Sort::Operator(name) => {
                self.put_pattern(read, due)?;
                self.last = Now::ParamStart(Purpose::ForRight(name, place, before), 1);
                Ok(true)
            }
            Sort::Backquote => {
                self.put_pattern(read, due)?;
                self.last = Now::RowQuote(before, place);
                Ok(true)
            }
            _ => Ok(false),
        }
    }

    /// Where an equation may begin, after so many.
    pub(crate) fn take_bind_start(
        &mut self,
        pats: &mut PatReader,
        before: u32,
        token: &Token,
        sort: Sort,
    ) -> Result<bool, Memory>
        ensures { WentAlone (move_bind_start before self.old.frames self.old.nodes pats.old token.now sort) self.old pats.old result self.new pats.new }
    {
        match sort {
            Sort::Variable(name) => {
                self.last = Now::RowVar(before, token.place, name);
                Ok(true)
            }
            Sort::Open => self.begin_apat(pats, Now::RowOpen(before, token.place), token),
            Sort::Semicolon => self.row_next(before, Sort::Semicolon),
            Sort::CloseBrace => self.row_next(before, Sort::CloseBrace),
            Sort::Number(_)
            | Sort::Bits(_, _)
            | Sort::Constructor(_)
            | Sort::Operator(_)
            | Sort::Dot
            | Sort::Close
            | Sort::Comma
            | Sort::OpenSquare
            | Sort::CloseSquare
            | Sort::Backquote
            | Sort::OpenBrace
            | Sort::Equals
            | Sort::Bar
            | Sort::Backslash
            | Sort::RightArrow
            | Sort::LeftArrow
            | Sort::Let
            | Sort::In
            | Sort::If
            | Sort::Then
            | Sort::Else
            | Sort::Case
            | Sort::Of
            | Sort::Do
            | Sort::Where
            | Sort::Other => self.begin_apat(pats, Now::RowLeft(before, token.place), token),
        }
    }

    /// After a name that an equation begins with: it is what is defined, or a pattern before an operator.
    pub(crate) fn take_row_var(
        &mut self,
        pats: &mut PatReader,
        before: u32,
        place: Place,
        name: Name,
        token: &Token,
        sort: Sort,
    ) -> Result<bool, Memory>
        ensures { WentAlone (move_row_var before place name self.old.frames self.old.nodes pats.old token.now sort) self.old pats.old result self.new pats.new }
    {
        match sort {
            Sort::Operator(_) | Sort::Backquote => {
                let due = Due {
                    simple: Some(PatNode::Var(place, name)),
                    whole: None,
                };
                self.row_infix(&[], due, before, place, sort)
            }
            Sort::Variable(_)
            | Sort::Number(_)
            | Sort::Bits(_, _)
            | Sort::Constructor(_)
            | Sort::Dot
            | Sort::Open
            | Sort::Close
            | Sort::Comma
            | Sort::Semicolon
            | Sort::OpenSquare
            | Sort::CloseSquare
            | Sort::OpenBrace
            | Sort::CloseBrace
            | Sort::Equals
            | Sort::Bar
            | Sort::Backslash
            | Sort::RightArrow
            | Sort::LeftArrow
            | Sort::Let
            | Sort::In
            | Sort::If
            | Sort::Then
            | Sort::Else
            | Sort::Case
            | Sort::Of
            | Sort::Do
            | Sort::Where
            | Sort::Other => self.next_param(pats, Purpose::ForRow(name, place, before), 0, token),
        }
    }

    /// In the left pattern of an equation.
    pub(crate) fn take_row_left(
        &mut self,
        pats: &mut PatReader,
        before: u32,
        place: Place,
        token: &Token,
    ) -> Result<bool, Memory>
        ensures { WentAlone (move_row_left before place self.old.frames self.old.nodes pats.old token.now) self.old pats.old result self.new pats.new }
    {
        let taken = pats.take(token)?;
        if taken {
            self.last = Now::RowLeft(before, place);
            return Ok(true);
        }
        match pats.due() {
            Some(due) => self.row_infix(
                pats.nodes.as_slice(),
                due,
                before,
                place,
                sort_of(token.kind),
            ),
            None => Ok(false),
        }
    }

    /// After `(` that an equation begins with: an operator that is defined, or a pattern.
    pub(crate) fn take_row_open(
        &mut self,
        pats: &mut PatReader,
        before: u32,
        place: Place,
        token: &Token,
        sort: Sort,
    ) -> Result<bool, Memory>
        ensures { WentAlone (move_row_open before place self.old.frames self.old.nodes pats.old token.now sort) self.old pats.old result self.new pats.new }
    {
        match sort {
            Sort::Operator(name) => {
                self.last = Now::RowOp(before, place, name);
                Ok(true)
            }
            Sort::Variable(_)
            | Sort::Number(_)
            | Sort::Bits(_, _)
            | Sort::Constructor(_)
            | Sort::Dot
            | Sort::Open
            | Sort::Close
            | Sort::Comma
            | Sort::Semicolon
            | Sort::OpenSquare
            | Sort::CloseSquare
            | Sort::Backquote
            | Sort::OpenBrace
            | Sort::CloseBrace
            | Sort::Equals
            | Sort::Bar
            | Sort::Backslash
            | Sort::RightArrow
            | Sort::LeftArrow
            | Sort::Let
            | Sort::In
            | Sort::If
            | Sort::Then
            | Sort::Else
            | Sort::Case
            | Sort::Of
            | Sort::Do
            | Sort::Where
            | Sort::Other => self.take_row_left(pats, before, place, token),
        }
    }
}
