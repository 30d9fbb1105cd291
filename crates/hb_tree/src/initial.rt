ghost use Rattle.std.specs.Prelude.{◌≡◌, IfOk};
ghost use Rattle.hb_tree.specs.Initials as tree;
ghost use Rattle.hb_tree.specs.InitialViews.{field_inits};

use crate::expression::Expr;
use crate::types::NameAt;
use hb_base::{List, Memory, Place};
use std::alloc::Global;
use std::marker::Model;

/// What an area begins with, at the place of its first token, brackets counted.
#[cycle(initials)]
#[derive(Debug, Drop)]
pub struct InitExpr {
    pub place: Place,
    pub kind: InitKind,
}

/// The form of an initialiser: one for each element, with the name of the index; one for each field; or a cell's
/// expression.
#[cycle(initials)]
#[derive(Debug, Drop)]
pub enum InitKind {
    Each(NameAt, Box<InitExpr>),
    Fields(List<FieldInit>),
    Cell(Expr),
}

/// A field of a struct, and what it begins with.
#[cycle(initials)]
#[derive(Debug, Drop)]
pub struct FieldInit {
    pub name: NameAt,
    pub init: InitExpr,
}

impl Model for InitExpr {
    ghost use Rattle.hb_tree.specs.Initials.{InitExpr as Tree, init_size};
    ghost use Rattle.hb_tree.specs.InitialCodes.{coded_init};

    ghost Value = { Tree };

    ghost coded = { coded_init };

    ghost use Rattle.hb_tree.specs.InitialViews.{init_kind};

    ghost view = { λ i. init_kind i.place i.kind };

    ghost size = { init_size };

    ghost use Rattle.hb_tree.specs.InitialFalls.{kind_falls};

    ghost size_decreases = { λ i h. kind_falls i.place i.kind };
}

impl InitExpr {
    /// Each element, with its index as a name, begins as `init` says. The word `each` stands at `place`.
    pub fn each(
        alloc: Global,
        place: Place,
        index: NameAt,
        init: InitExpr,
    ) -> Result<InitExpr, Memory>
        ensures built { IfOk result (λ i. i ≡ tree.Each place index init) }
    {
        Ok(InitExpr {
            place,
            kind: InitKind::Each(index, Box::new(alloc, init)?),
        })
    }

    /// Each field begins as its initialiser says. The word `fields` stands at `place`.
    pub fn fields(place: Place, fields: List<FieldInit>) -> InitExpr
        ensures built { result ≡ tree.Fields place (field_inits fields) }
    {
        InitExpr {
            place,
            kind: InitKind::Fields(fields),
        }
    }

    /// A cell begins as the expression, whose first token stands at `place`.
    pub fn cell(place: Place, value: Expr) -> InitExpr
        ensures built { result ≡ tree.Cell place value }
    {
        InitExpr {
            place,
            kind: InitKind::Cell(value),
        }
    }
}
