ghost use Rattle.std.specs.Prelude.{◌≡◌, Some, IfOk, IfSome};
ghost use Rattle.hb_tree.specs.Types.{TypeExpr as Tree};
ghost use Rattle.hb_read_types.specs.Nodes.{type_nodes, context_nodes};
ghost use Rattle.hb_build.specs.Building.{built};
ghost use Rattle.hb_build.specs.TypeSteps.{Preds, start, stepped, qualified_nodes};
ghost use Rattle.hb_build.specs.declared.types.Qualified.{Qualified as Whole};

use crate::type_builder::TypeBuilder;
use hb_base::{List, Memory};
use hb_read_types::TypeNode;
use hb_tree::{PredExpr, TypeExpr};
use std::alloc::Global;

/// A type and what its variables must meet, as they stand in a source.
#[derive(Debug, Drop)]
pub struct Qualified {
    pub context: List<PredExpr>,
    pub body: TypeExpr,
}

/// What is built of these nodes, if a tree may have them.
#[tactic(auto, using(crate::proofs::TypesFound::refused))]
fn build(alloc: Global, nodes: &[TypeNode]) -> Result<Option<TypeBuilder>, Memory>
    ensures { IfOk result (λ answer. answer ≡ built stepped (Some start) nodes.now) }
{
    let mut builder = TypeBuilder::new(alloc);
    let mut left = nodes;
    while let Some((node, rest)) = left.split_first() {
        if !builder.take(alloc, *node)? {
            return Ok(None);
        }
        left = rest;
    }
    Ok(Some(builder))
}

/// Builds a type. Answers `None` where the nodes are not those of one type.
pub fn build_type(alloc: Global, nodes: &[TypeNode]) -> Result<Option<TypeExpr>, Memory>
    ensures found { (a : Tree) → nodes.now ≡ type_nodes a → IfOk result (λ answer. answer ≡ Some a) }
    ensures only { IfOk result (λ answer. IfSome answer (λ a. nodes.now ≡ type_nodes a)) }
{
    match build(alloc, nodes)? {
        Some(builder) => Ok(builder.into_type()),
        None => Ok(None),
    }
}

/// Builds the predicates of a context. Answers `None` where the nodes are not those of one context.
pub fn build_context(alloc: Global, nodes: &[TypeNode]) -> Result<Option<List<PredExpr>>, Memory>
    ensures found { (preds : Preds) → nodes.now ≡ context_nodes preds → IfOk result (λ answer. answer ≡ Some preds) }
    ensures only { IfOk result (λ answer. IfSome answer (λ preds. nodes.now ≡ context_nodes preds)) }
{
    match build(alloc, nodes)? {
        Some(builder) => Ok(builder.into_context()),
        None => Ok(None),
    }
}

/// Builds a type with the context before it. Answers `None` where the nodes are not those of one context and one type.
pub fn build_qualified(alloc: Global, nodes: &[TypeNode]) -> Result<Option<Qualified>, Memory>
    ensures found { (q : Whole) → nodes.now ≡ qualified_nodes q → IfOk result (λ answer. answer ≡ Some q) }
    ensures only { IfOk result (λ answer. IfSome answer (λ q. nodes.now ≡ qualified_nodes q)) }
{
    match build(alloc, nodes)? {
        Some(builder) => Ok(builder.into_qualified()),
        None => Ok(None),
    }
}
