ghost use Rattle.std.specs.Prelude.{◌≡◌, Some, IfOk};
ghost use Rattle.hb_read_expressions.specs.Ends.{ended, settle};
ghost use Rattle.hb_read_expressions.specs.Settling.{CutTo};
ghost use Rattle.hb_read_expressions.specs.Statements.{cut};

use crate::ends::StatementHead;
use crate::now::Now;
use crate::state::Core;
use hb_base::{Memory, Place};

/// Where an expression begins, and where it stands.
#[derive(Clone, Copy)]
pub struct Extent {
    pub first: Place,
    pub stands: Place,
}

impl Core {
    /// Ends the forms that are open to the right, and answers where the last of them begins and stands.
    pub(crate) fn settle(&mut self, whole: Extent) -> Result<Extent, Memory>
        ensures { IfOk result (λ end. settle self.old.frames whole.first whole.stands self.old.nodes ≡ ended self.new.frames end.first end.stands self.new.nodes) }
    {
        let mut end = whole;
        while let Some(frame) = self.frames.top() {
            let Some(right) = frame.right_end() else {
                return Ok(end);
            };
            self.frames.pop();
            self.put(right.node)?;
            self.end_run(right.begun)?;
            end = Extent {
                first: right.begun.first(),
                stands: right.begun.run_at(right.place),
            };
        }
        Ok(end)
    }

    /// Goes back to the head of the statement that is read, if there is one. Takes no memory.
    pub(crate) fn cut(&mut self) -> Option<StatementHead>
        ensures { CutTo (cut self.old.frames self.old.nodes) result self.new }
    {
        while let Some(frame) = self.frames.pop() {
            if let Some(head) = frame.statement_head() {
                self.last = Now::StmtPat(head.begun, head.place, head.before);
                self.nodes.truncate(head.mark as usize);
                return Some(head);
            }
        }
        None
    }
}
