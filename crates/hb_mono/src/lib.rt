//! Ground programs: bodies at ground types, whose functions and actions are still nested.
#![tactic(auto)]

mod body;
mod expression;
mod pattern;

pub use body::{Body, BodyKind, Constructor, DeclaredForm, Instance, Mono, Source, Start};
pub use expression::{Binding, Bits, Capture, Expr, ExprForm, FieldExpr, Row, Stmt};
pub use pattern::{At, FieldPat, Pat, PatForm};
