ghost use Rattle.std.specs.Prelude.{◌≡◌, Some, IfOk};
ghost use Rattle.hb_tree.specs.Expressions.{Expr as Tree};
ghost use Rattle.hb_read_expressions.specs.Nodes.{expr_nodes};
ghost use Rattle.hb_build.specs.Building.{built};
ghost use Rattle.hb_build_expressions.specs.ExpressionSteps.{start, stepped};
ghost use Rattle.hb_build_expressions.specs.Parsed.{IsParsed};

use crate::builder::ExprBuilder;
use hb_base::Memory;
use hb_read_expressions::ExprNode;
use hb_tree::Expr;
use std::alloc::Global;

/// What is built of these nodes, if a tree may have them.
#[tactic(auto, using(crate::proofs::ExpressionsFound::refused))]
fn build(alloc: Global, nodes: &[ExprNode]) -> Result<Option<ExprBuilder>, Memory>
    ensures { IfOk result (λ answer. answer ≡ built stepped (Some start) nodes.now) }
{
    let mut builder = ExprBuilder::new(alloc);
    let mut left = nodes;
    while let Some((node, rest)) = left.split_first() {
        if !builder.take(alloc, *node)? {
            return Ok(None);
        }
        left = rest;
    }
    Ok(Some(builder))
}

/// Builds an expression as it is read: its numbers in the tree are all 0, and each local definition has one row. Answers
/// `None` where a node does not find its parts. Of nodes that no such expression has nothing more is said.
pub fn build_expr(alloc: Global, nodes: &[ExprNode]) -> Result<Option<Expr>, Memory>
    ensures found { (e : Tree) → IsParsed e → nodes.now ≡ expr_nodes e → IfOk result (λ answer. answer ≡ Some e) }
{
    match build(alloc, nodes)? {
        Some(builder) => Ok(builder.into_expr()),
        None => Ok(None),
    }
}
