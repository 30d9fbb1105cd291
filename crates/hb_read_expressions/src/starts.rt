ghost use Rattle.std.specs.Prelude.{◌≡◌};
ghost use Rattle.hb_read_expressions.specs.Outside.{begin_post, begin_operand, begin};
ghost use Rattle.hb_read_expressions.specs.Taking.{Went};

use crate::frame::{Begun, Frame, Spot};
use crate::node::ExprNode;
use crate::now::{Now, Purpose};
use crate::sort::Sort;
use crate::state::Core;
use hb_base::{Memory, Place};

impl Core {
    /// The first token of a post.
    pub(crate) fn begin_post(
        &mut self,
        spot: Spot,
        place: Place,
        sort: Sort,
    ) -> Result<bool, Memory>
        ensures { Went (begin_post spot self.old.frames self.old.nodes place sort) self.old result self.new }
    {
        match sort {
            Sort::Variable(name) => {
                self.put_post(spot, place, ExprNode::Var(place, name))?;
                Ok(true)
            }
            Sort::Number(number) => {
                self.put_post(spot, place, ExprNode::Number(place, number))?;
                Ok(true)
            }
            Sort::Bits(width, number) => {
                self.put_post(spot, place, ExprNode::Bits(place, width, number))?;
                Ok(true)
            }
            Sort::Constructor(name) => {
                self.last = Now::Con(spot, place, name);
                Ok(true)
            }
            Sort::Open => {
                self.last = Now::Opened(spot, place);
                Ok(true)
            }
            _ => Ok(false),
        }
    }

    /// The first token of an operand: of a form that is open to the right, or of a post.
    pub(crate) fn begin_operand(
        &mut self,
        begun: Begun,
        place: Place,
        sort: Sort,
    ) -> Result<bool, Memory>
        ensures { Went (begin_operand begun self.old.frames self.old.nodes place sort) self.old result self.new }
    {
        match sort {
            Sort::Backslash => {
                self.last = Now::ParamStart(Purpose::ForLambda(begun, place), 0);
                Ok(true)
            }
            Sort::Let => {
                self.open_binds(Frame::LetBinds(begun, place))?;
                Ok(true)
            }
            Sort::If => {
                self.open(Frame::If(begun, place))?;
                Ok(true)
            }
            Sort::Case => {
                self.open(Frame::Case(begun, place))?;
                Ok(true)
            }
            Sort::Do => {
                self.last = Now::DoBrace(begun, place);
                Ok(true)
            }
            Sort::Variable(_)
            | Sort::Number(_)
            | Sort::Bits(_, _)
            | Sort::Constructor(_)
            | Sort::Open => self.begin_post(Spot::Head(begun), place, sort),
            _ => Ok(false),
        }
    }

    /// The first token of an expression.
    pub(crate) fn begin(&mut self, place: Place, sort: Sort) -> Result<bool, Memory>
        ensures { Went (begin self.old.frames self.old.nodes place sort) self.old result self.new }
    {
        self.begin_operand(Begun::First(place), place, sort)
    }
}
