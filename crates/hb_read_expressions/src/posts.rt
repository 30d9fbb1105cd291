ghost use Rattle.std.specs.Prelude.{◌≡◌, ◌∷◌, true, is_some, OnOk};
ghost use Rattle.hb_read_expressions.specs.Asking.{put_some};
ghost use Rattle.hb_read_expressions.specs.Outside.{begin, begin_post, after_post, move_post, move_con, move_dotted, move_opened, move_op_name, move_quoted, move_quoted_name, move_field, move_first_field, move_field_name};
ghost use Rattle.hb_read_expressions.specs.Nodes.{put};
ghost use Rattle.hb_read_expressions.specs.States.{at, begun_of, end_post, one_more};
ghost use Rattle.hb_read_expressions.specs.Taking.{Went};
ghost use Rattle.hb_read_expressions.specs.declared.frame.Frame.TheVariants as frame;
ghost use Rattle.hb_read_expressions.specs.declared.frame.Spot.TheVariants.{Argument};
ghost use Rattle.hb_read_expressions.specs.declared.frame.Target.TheVariants.{Build};
ghost use Rattle.hb_read_expressions.specs.declared.now.Now.TheVariants as now;

use crate::frame::{Begun, Frame, OpenField, Spot, Target};
use crate::node::ExprNode;
use crate::now::Now;
use crate::sort::Sort;
use crate::state::Core;
use hb_base::{Memory, Name, Place};

impl Core {
    fn take_operator(
        &mut self,
        node: Option<ExprNode>,
        spot: Spot,
        stands: Place,
        operator: ExprNode,
    ) -> Result<(), Memory>
        ensures { OnOk result (self.new ≡ at self.old.frames (now.Operand (one_more (begun_of spot))) (put (end_post spot stands (put_some node self.old.nodes)) operator)) }
    {
        let begun = spot.begun().more()?;
        self.end_post(node, spot, stands)?;
        self.put(operator)?;
        self.last = Now::Operand(begun);
        Ok(())
    }

    fn take_argument(
        &mut self,
        node: Option<ExprNode>,
        spot: Spot,
        stands: Place,
        place: Place,
        sort: Sort,
    ) -> Result<bool, Memory>
        requires { is_some (begin_post (Argument (begun_of spot)) self.now.frames (end_post spot stands (put_some node self.now.nodes)) place sort) ≡ true }
        ensures { Went (begin_post (Argument (begun_of spot)) self.old.frames (end_post spot stands (put_some node self.old.nodes)) place sort) self.old result self.new }
    {
        self.end_post(node, spot, stands)?;
        self.begin_post(Spot::Argument(spot.begun()), place, sort)
    }

    /// A post is whole that stands here, with this node if it is not out: an operator comes, an argument, or the end of
    /// the expression.
    pub(crate) fn after_post(
        &mut self,
        node: Option<ExprNode>,
        spot: Spot,
        stands: Place,
        place: Place,
        sort: Sort,
    ) -> Result<bool, Memory>
        ensures { Went (after_post spot stands self.old.frames (put_some node self.old.nodes) place sort) self.old result self.new }
    {
        match sort {
            Sort::Operator(name) => {
                self.take_operator(node, spot, stands, ExprNode::Var(place, name))?;
                Ok(true)
            }
            Sort::Backquote => {
                self.end_post(node, spot, stands)?;
                self.last = Now::Quoted(spot.begun());
                Ok(true)
            }
            Sort::Variable(_)
            | Sort::Number(_)
            | Sort::Bits(_, _)
            | Sort::Constructor(_)
            | Sort::Open => self.take_argument(node, spot, stands, place, sort),
            Sort::Dot
            | Sort::Close
            | Sort::Comma
            | Sort::Semicolon
            | Sort::OpenSquare
            | Sort::CloseSquare
            | Sort::OpenBrace
            | Sort::CloseBrace
            | Sort::Equals
            | Sort::Bar
            | Sort::Backslash
            | Sort::RightArrow
            | Sort::LeftArrow
            | Sort::Let
            | Sort::In
            | Sort::If
            | Sort::Then
            | Sort::Else
            | Sort::Case
            | Sort::Of
            | Sort::Do
            | Sort::Where
            | Sort::Other => self.close_post(node, spot, stands, sort),
        }
    }

    /// After a post that may go on.
    pub(crate) fn take_post(
        &mut self,
        spot: Spot,
        first: Place,
        stands: Place,
        place: Place,
        sort: Sort,
    ) -> Result<bool, Memory>
        ensures { Went (move_post spot first stands self.old.frames self.old.nodes place sort) self.old result self.new }
    {
        match sort {
            Sort::Dot => {
                self.last = Now::Dotted(spot, first);
                Ok(true)
            }
            Sort::OpenSquare => {
                self.last = Now::FirstField(spot, first, Target::Update);
                Ok(true)
            }
            Sort::Variable(_)
            | Sort::Number(_)
            | Sort::Bits(_, _)
            | Sort::Constructor(_)
            | Sort::Operator(_)
            | Sort::Open
            | Sort::Close
            | Sort::Comma
            | Sort::Semicolon
            | Sort::CloseSquare
            | Sort::Backquote
            | Sort::OpenBrace
            | Sort::CloseBrace
            | Sort::Equals
            | Sort::Bar
            | Sort::Backslash
            | Sort::RightArrow
            | Sort::LeftArrow
            | Sort::Let
            | Sort::In
            | Sort::If
            | Sort::Then
            | Sort::Else
            | Sort::Case
            | Sort::Of
            | Sort::Do
            | Sort::Where
            | Sort::Other => self.after_post(None, spot, stands, place, sort),
        }
    }

    /// After a constructor's name.
    pub(crate) fn take_con(
        &mut self,
        spot: Spot,
        con_place: Place,
        con: Name,
        place: Place,
        sort: Sort,
    ) -> Result<bool, Memory>
        ensures { Went (move_con spot con_place con self.old.frames self.old.nodes place sort) self.old result self.new }
    {
        match sort {
            Sort::OpenSquare => {
                self.last = Now::FirstField(spot, con_place, Target::Build(con));
                Ok(true)
            }
            Sort::Dot => {
                self.put(ExprNode::Con(con_place, con))?;
                self.last = Now::Dotted(spot, con_place);
                Ok(true)
            }
            Sort::Variable(_)
            | Sort::Number(_)
            | Sort::Bits(_, _)
            | Sort::Constructor(_)
            | Sort::Operator(_)
            | Sort::Open
            | Sort::Close
            | Sort::Comma
            | Sort::Semicolon
            | Sort::CloseSquare
            | Sort::Backquote
            | Sort::OpenBrace
            | Sort::CloseBrace
            | Sort::Equals
            | Sort::Bar
            | Sort::Backslash
            | Sort::RightArrow
            | Sort::LeftArrow
            | Sort::Let
            | Sort::In
            | Sort::If
            | Sort::Then
            | Sort::Else
            | Sort::Case
            | Sort::Of
            | Sort::Do
            | Sort::Where
            | Sort::Other => self.after_post(
                Some(ExprNode::Con(con_place, con)),
                spot,
                con_place,
                place,
                sort,
            ),
        }
    }

    /// After the dot of a selection.
    pub(crate) fn take_dotted(
        &mut self,
        spot: Spot,
        first: Place,
        sort: Sort,
    ) -> Result<bool, Memory>
        ensures { Went (move_dotted spot first self.old.frames self.old.nodes sort) self.old result self.new }
    {
        match sort {
            Sort::Variable(name) => {
                self.put_post(spot, first, ExprNode::Select(first, name))?;
                Ok(true)
            }
            _ => Ok(false),
        }
    }

    fn open_bracket(
        &mut self,
        spot: Spot,
        bracket: Place,
        place: Place,
        sort: Sort,
    ) -> Result<bool, Memory>
        ensures { Went (begin (frame.Bracket spot bracket ∷ self.old.frames) self.old.nodes place sort) self.old result self.new }
    {
        self.frames.push(Frame::Bracket(spot, bracket))?;
        let begun = self.begin(place, sort)?;
        if !begun {
            self.frames.pop();
        }
        Ok(begun)
    }

    /// After `(`: the unit value, an operator as a name, or an expression.
    pub(crate) fn take_opened(
        &mut self,
        spot: Spot,
        bracket: Place,
        place: Place,
        sort: Sort,
    ) -> Result<bool, Memory>
        ensures { Went (move_opened spot bracket self.old.frames self.old.nodes place sort) self.old result self.new }
    {
        match sort {
            Sort::Close => {
                self.put_post(spot, bracket, ExprNode::Unit(bracket))?;
                Ok(true)
            }
            Sort::Operator(name) => {
                self.last = Now::OpName(spot, bracket, name);
                Ok(true)
            }
            Sort::Variable(_)
            | Sort::Number(_)
            | Sort::Bits(_, _)
            | Sort::Constructor(_)
            | Sort::Dot
            | Sort::Open
            | Sort::Comma
            | Sort::Semicolon
            | Sort::OpenSquare
            | Sort::CloseSquare
            | Sort::Backquote
            | Sort::OpenBrace
            | Sort::CloseBrace
            | Sort::Equals
            | Sort::Bar
            | Sort::Backslash
            | Sort::RightArrow
            | Sort::LeftArrow
            | Sort::Let
            | Sort::In
            | Sort::If
            | Sort::Then
            | Sort::Else
            | Sort::Case
            | Sort::Of
            | Sort::Do
            | Sort::Where
            | Sort::Other => self.open_bracket(spot, bracket, place, sort),
        }
    }

    /// After `( op`.
    pub(crate) fn take_op_name(
        &mut self,
        spot: Spot,
        bracket: Place,
        name: Name,
        sort: Sort,
    ) -> Result<bool, Memory>
        ensures { Went (move_op_name spot bracket name self.old.frames self.old.nodes sort) self.old result self.new }
    {
        match sort {
            Sort::Close => {
                self.put_post(spot, bracket, ExprNode::Var(bracket, name))?;
                Ok(true)
            }
            _ => Ok(false),
        }
    }

    /// After a backquote between operands.
    pub(crate) fn take_quoted(
        &mut self,
        begun: Begun,
        place: Place,
        sort: Sort,
    ) -> Result<bool, Memory>
        ensures { Went (move_quoted begun self.old.frames self.old.nodes place sort) self.old result self.new }
    {
        match sort {
            Sort::Variable(name) => {
                self.last = Now::QuotedName(begun, place, name);
                Ok(true)
            }
            _ => Ok(false),
        }
    }

    /// After the name between backquotes.
    pub(crate) fn take_quoted_name(
        &mut self,
        begun: Begun,
        name_place: Place,
        name: Name,
        sort: Sort,
    ) -> Result<bool, Memory>
        ensures { Went (move_quoted_name begun name_place name self.old.frames self.old.nodes sort) self.old result self.new }
    {
        match sort {
            Sort::Backquote => {
                let more = begun.more()?;
                self.put(ExprNode::Var(name_place, name))?;
                self.last = Now::Operand(more);
                Ok(true)
            }
            _ => Ok(false),
        }
    }

    /// A field's name, after so many fields.
    pub(crate) fn take_field(
        &mut self,
        spot: Spot,
        first: Place,
        target: Target,
        before: u32,
        place: Place,
        sort: Sort,
    ) -> Result<bool, Memory>
        ensures { Went (move_field spot first target before self.old.frames self.old.nodes place sort) self.old result self.new }
    {
        match sort {
            Sort::Variable(field) => {
                self.last = Now::FieldName(spot, first, target, before, place, field);
                Ok(true)
            }
            _ => Ok(false),
        }
    }

    /// After `con [`: the construction may have no fields.
    fn take_built_field(
        &mut self,
        spot: Spot,
        first: Place,
        con: Name,
        place: Place,
        sort: Sort,
    ) -> Result<bool, Memory>
        ensures { Went (move_first_field spot first (Build con) self.old.frames self.old.nodes place sort) self.old result self.new }
    {
        match sort {
            Sort::CloseSquare => {
                self.put(ExprNode::Build(first, con, 0))?;
                self.last = Now::Sealed(spot, first);
                Ok(true)
            }
            Sort::Variable(_) => self.take_field(spot, first, Target::Build(con), 0, place, sort),
            _ => Ok(false),
        }
    }

    /// After `[`: a construction may have no fields, an update has some.
    pub(crate) fn take_first_field(
        &mut self,
        spot: Spot,
        first: Place,
        target: Target,
        place: Place,
        sort: Sort,
    ) -> Result<bool, Memory>
        ensures { Went (move_first_field spot first target self.old.frames self.old.nodes place sort) self.old result self.new }
    {
        match target {
            Target::Build(con) => self.take_built_field(spot, first, con, place, sort),
            Target::Update => self.take_field(spot, first, Target::Update, 0, place, sort),
        }
    }

    /// After a field's name.
    pub(crate) fn take_field_name(
        &mut self,
        spot: Spot,
        field: OpenField,
        sort: Sort,
    ) -> Result<bool, Memory>
        ensures { Went (move_field_name spot field.first field.target field.before field.place field.name self.old.frames self.old.nodes sort) self.old result self.new }
    {
        match sort {
            Sort::Equals => {
                self.open(Frame::Field(
                    spot,
                    field.first,
                    field.target,
                    field.before,
                    field.place,
                    field.name,
                ))?;
                Ok(true)
            }
            _ => Ok(false),
        }
    }
}
