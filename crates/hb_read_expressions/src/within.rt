ghost use Rattle.hb_read_expressions.specs.Moves.{move_within};
ghost use Rattle.hb_read_expressions.specs.Taking.{WentAlone};

use crate::ends::PartHead;
use crate::now::{Now, Purpose};
use crate::sort::sort_of;
use crate::state::Core;
use hb_base::Memory;
use hb_read_patterns::PatReader;
use hb_tokens::Token;

impl Core {
    /// A token in a pattern or in an expression, where no statement begins.
    pub(crate) fn take_within(
        &mut self,
        pats: &mut PatReader,
        current: Now,
        token: &Token,
    ) -> Result<bool, Memory>
        ensures { WentAlone (move_within current self.old.frames self.old.nodes pats.old token.now) self.old pats.old result self.new pats.new }
    {
        let sort = sort_of(token.kind);
        match current {
            Now::ParamStart(purpose, patterns) => {
                self.begin_apat(pats, Now::Param(purpose, patterns), token)
            }
            Now::Param(purpose, before) => self.take_param(pats, purpose, before, token),
            Now::BindStart(before) => self.take_bind_start(pats, before, token, sort),
            Now::RowVar(before, place, name) => {
                self.take_row_var(pats, before, place, name, token, sort)
            }
            Now::RowOpen(before, place) => self.take_row_open(pats, before, place, token, sort),
            Now::RowName(before, place, name) => {
                self.next_param(pats, Purpose::ForRow(name, place, before), 0, token)
            }
            Now::RowLeft(before, place) => self.take_row_left(pats, before, place, token),
            Now::AltStart(begun, place, before) => {
                let head = PartHead {
                    begun,
                    place,
                    before,
                };
                self.take_alt_start(pats, head, token, sort)
            }
            Now::AltPat(begun, place, before) => {
                let head = PartHead {
                    begun,
                    place,
                    before,
                };
                self.take_alt_pat(pats, head, token)
            }
            Now::StmtPat(begun, place, before) => {
                let head = PartHead {
                    begun,
                    place,
                    before,
                };
                self.take_stmt_pat(pats, head, token)
            }
            Now::Want
            | Now::Operand(_)
            | Now::Post(_, _, _)
            | Now::Con(_, _, _)
            | Now::Sealed(_, _)
            | Now::Dotted(_, _)
            | Now::Opened(_, _)
            | Now::OpName(_, _, _)
            | Now::Quoted(_)
            | Now::QuotedName(_, _, _)
            | Now::FirstField(_, _, _)
            | Now::NextField(_, _, _, _)
            | Now::FieldName(_, _, _, _, _, _)
            | Now::Whole(_, _)
            | Now::BindsBrace
            | Now::RowOp(_, _, _)
            | Now::RowQuote(_, _)
            | Now::RowQuoted(_, _, _)
            | Now::RowEnd(_)
            | Now::Over(_)
            | Now::LetIn(_, _, _)
            | Now::CaseBrace(_, _)
            | Now::DoBrace(_, _)
            | Now::StmtStart(_, _, _, _) => self.take_core(current, token.place, sort),
        }
    }
}
