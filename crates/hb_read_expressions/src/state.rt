ghost use Rattle.std.specs.Prelude.{◌≡◌, ◌∷◌, ◌++◌, OnOk, IfOk, length};
ghost use Rattle.hb_read_expressions.specs.Asking.{put_some};
ghost use Rattle.hb_read_expressions.specs.Nodes.{put};
ghost use Rattle.hb_read_expressions.specs.States.{at, end_run, end_post};
ghost use Rattle.hb_read_expressions.specs.declared.frame.Frame.TheVariants as frame;
ghost use Rattle.hb_read_expressions.specs.declared.now.Now.TheVariants as now;

use crate::frame::{Begun, Frame, Spot};
use crate::node::ExprNode;
use crate::now::Now;
use hb_base::{List, Memory, Place};
use hb_read_patterns::PatReader;
use hb_stack::Stack;

/// What is open, what was read last inside it, and the nodes of all that is whole.
#[derive(Drop)]
pub struct Core {
    pub frames: Stack<Frame>,
    pub last: Now,
    pub nodes: List<ExprNode>,
}

/// A reader of expressions, and the reader of patterns that it runs: in a pattern, and beside an expression at a
/// statement's head.
#[derive(Drop)]
pub struct State {
    pub core: Core,
    pub pats: PatReader,
    pub beside: bool,
}

impl Core {
    pub(crate) fn put(&mut self, node: ExprNode) -> Result<(), Memory>
        ensures { OnOk result (self.new ≡ record self.old { nodes = put self.old.nodes node }) }
    {
        self.nodes.push(node)?;
        Ok(())
    }

    fn put_some(&mut self, node: Option<ExprNode>) -> Result<(), Memory>
        ensures { OnOk result (self.new ≡ record self.old { nodes = put_some node self.old.nodes }) }
    {
        match node {
            Some(node) => self.put(node)?,
            None => (),
        }
        Ok(())
    }

    /// An expression is to come, in this frame.
    pub(crate) fn open(&mut self, frame: Frame) -> Result<(), Memory>
        ensures { OnOk result (self.new ≡ at (frame ∷ self.old.frames) now.Want self.old.nodes) }
    {
        self.frames.push(frame)?;
        self.last = Now::Want;
        Ok(())
    }

    /// A block of equations is to come, in this frame.
    pub(crate) fn open_binds(&mut self, frame: Frame) -> Result<(), Memory>
        ensures { OnOk result (self.new ≡ at (frame ∷ self.old.frames) now.BindsBrace self.old.nodes) }
    {
        self.frames.push(frame)?;
        self.last = Now::BindsBrace;
        Ok(())
    }

    /// The last operand is whole.
    pub(crate) fn end_run(&mut self, begun: Begun) -> Result<(), Memory>
        ensures { OnOk result (self.new ≡ record self.old { nodes = end_run begun self.old.nodes }) }
    {
        match begun {
            Begun::First(_) => (),
            Begun::After(place, operators) => self.put(ExprNode::Run(place, operators))?,
        }
        Ok(())
    }

    fn apply(&mut self, spot: Spot, stands: Place) -> Result<(), Memory>
        ensures { OnOk result (self.new ≡ record self.old { nodes = end_post spot stands self.old.nodes }) }
    {
        match spot {
            Spot::Head(_) => (),
            Spot::Argument(_) => self.put(ExprNode::Apply(stands))?,
        }
        Ok(())
    }

    /// The post is whole that stands here, with this node if it is not out.
    pub(crate) fn end_post(
        &mut self,
        node: Option<ExprNode>,
        spot: Spot,
        stands: Place,
    ) -> Result<(), Memory>
        ensures { OnOk result (self.new ≡ record self.old { nodes = end_post spot stands (put_some node self.old.nodes) }) }
    {
        self.put_some(node)?;
        self.apply(spot, stands)?;
        Ok(())
    }

    /// A post is whole with this node, and may go on.
    pub(crate) fn put_post(
        &mut self,
        spot: Spot,
        place: Place,
        node: ExprNode,
    ) -> Result<(), Memory>
        ensures { OnOk result (self.new ≡ at self.old.frames (now.Post spot place place) (put self.old.nodes node)) }
    {
        self.put(node)?;
        self.last = Now::Post(spot, place, place);
        Ok(())
    }

    /// An expression that is a statement's is to come.
    pub(crate) fn push_statement(
        &mut self,
        begun: Begun,
        place: Place,
        before: u32,
    ) -> Result<(), Memory>
        ensures { OnOk result (self.new ≡ record self.old { frames = frame.Statement begun place before (length self.old.nodes) ∷ self.old.frames }) }
    {
        let Ok(mark) = u32::try_from(self.nodes.len()) else {
            return Err(Memory);
        };
        self.frames
            .push(Frame::Statement(begun, place, before, mark))?;
        Ok(())
    }
}
