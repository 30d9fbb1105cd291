ghost use Rattle.std.specs.Prelude.{◌≡◌, Some, IfOk};
ghost use Rattle.hb_read_expressions.specs.Asking.{put_some};
ghost use Rattle.hb_read_expressions.specs.Ends.{end_operand};
ghost use Rattle.hb_read_expressions.specs.Moves.{outermost, outermost_end, end_nodes, done_now};
ghost use Rattle.hb_read_expressions.specs.Nodes.{put};
ghost use Rattle.hb_read_expressions.specs.States.{begun_of, end_post};

use crate::frame::{Begun, Frame, Spot};
use crate::node::ExprNode;
use crate::now::Now;
use crate::settling::Extent;
use crate::state::Core;
use hb_base::{List, Memory, Place};

impl Core {
    fn outermost(self) -> Option<List<ExprNode>>
        ensures { result ≡ outermost self.frames self.nodes }
    {
        if !self.frames.is_empty() {
            return None;
        }
        let Core { nodes, .. } = self;
        Some(nodes)
    }

    fn finish_row(mut self, row: ExprNode) -> Result<Option<List<ExprNode>>, Memory>
        ensures { IfOk result (λ nodes. nodes ≡ outermost self.frames (put self.nodes row)) }
    {
        self.put(row)?;
        Ok(self.outermost())
    }

    /// The nodes, where an expression that begins here is whole, and an equation with it.
    fn finish_whole(mut self, first: Place) -> Result<Option<List<ExprNode>>, Memory>
        ensures { IfOk result (λ nodes. nodes ≡ outermost_end self.frames first self.nodes) }
    {
        match self.frames.pop() {
            None => {
                let Core { nodes, .. } = self;
                Ok(Some(nodes))
            }
            Some(Frame::Row(name, place, patterns, _)) => {
                self.finish_row(ExprNode::Row(name, place, patterns, first, 0))
            }
            Some(_) => Ok(None),
        }
    }

    fn finish_operand(
        mut self,
        begun: Begun,
        stands: Place,
    ) -> Result<Option<List<ExprNode>>, Memory>
        ensures { IfOk result (λ nodes. nodes ≡ end_nodes (Some (end_operand self.frames begun stands self.nodes))) }
    {
        self.end_run(begun)?;
        let whole = self.settle(Extent {
            first: begun.first(),
            stands: begun.run_at(stands),
        })?;
        self.finish_whole(whole.first)
    }

    fn finish_post(
        mut self,
        node: Option<ExprNode>,
        spot: Spot,
        stands: Place,
    ) -> Result<Option<List<ExprNode>>, Memory>
        ensures { IfOk result (λ nodes. nodes ≡ end_nodes (Some (end_operand self.frames (begun_of spot) stands (end_post spot stands (put_some node self.nodes))))) }
    {
        self.end_post(node, spot, stands)?;
        self.finish_operand(spot.begun(), stands)
    }

    /// The nodes, where the tokens so far are whole.
    pub(crate) fn finish(self) -> Result<Option<List<ExprNode>>, Memory>
        ensures { IfOk result (λ nodes. nodes ≡ done_now self.last self.frames self.nodes) }
    {
        match self.last {
            Now::RowEnd(_) | Now::Over(_) => Ok(self.outermost()),
            Now::Post(spot, _, stands) => self.finish_post(None, spot, stands),
            Now::Con(spot, place, con) => {
                self.finish_post(Some(ExprNode::Con(place, con)), spot, place)
            }
            Now::Sealed(spot, stands) => self.finish_post(None, spot, stands),
            Now::Whole(begun, stands) => self.finish_operand(begun, stands),
            _ => Ok(None),
        }
    }
}
