ghost use Rattle.std.specs.Prelude.{◌≡◌, List as Items, [], Some, IfOk, IfSome};
ghost use Rattle.hb_tree.specs.Patterns.{Pat as Tree};
ghost use Rattle.hb_tree.specs.PatternViews.{pats};
ghost use Rattle.hb_read_patterns.specs.Nodes.{pat_nodes, row_nodes};
ghost use Rattle.hb_build.specs.Building.{built};
ghost use Rattle.hb_build.specs.PatternSteps.{parts_of, stepped};
ghost use Rattle.hb_build.specs.Unnumbered.{IsUnnumbered, AreUnnumbered};

use crate::pattern_builder::PatBuilder;
use hb_base::{List, Memory};
use hb_read_patterns::PatNode;
use hb_tree::Pat;
use std::alloc::Global;

/// What is built of these nodes, if a tree may have them.
#[tactic(auto, using(crate::proofs::PatternsFound::refused))]
fn build(alloc: Global, nodes: &[PatNode]) -> Result<Option<PatBuilder>, Memory>
    ensures { IfOk result (λ answer. parts_of answer ≡ built stepped (Some []) nodes.now) }
{
    let mut builder = PatBuilder::new(alloc);
    let mut left = nodes;
    while let Some((node, rest)) = left.split_first() {
        if !builder.take(alloc, *node)? {
            return Ok(None);
        }
        left = rest;
    }
    Ok(Some(builder))
}

/// Builds a pattern, whose numbers in the tree are all 0. Answers `None` where the nodes are not those of one pattern.
pub fn build_pat(alloc: Global, nodes: &[PatNode]) -> Result<Option<Pat>, Memory>
    ensures found { (p : Tree) → IsUnnumbered p → nodes.now ≡ pat_nodes p → IfOk result (λ answer. answer ≡ Some p) }
    ensures only { IfOk result (λ answer. IfSome answer (λ p. nodes.now ≡ pat_nodes p)) }
    ensures unnumbered { IfOk result (λ answer. IfSome answer IsUnnumbered) }
{
    match build(alloc, nodes)? {
        Some(builder) => Ok(builder.into_pat()),
        None => Ok(None),
    }
}

/// Builds a row of patterns, whose numbers in the tree are all 0. Answers `None` where the nodes are not those of one
/// row.
pub fn build_row(alloc: Global, nodes: &[PatNode]) -> Result<Option<List<Pat>>, Memory>
    ensures found { (row : Items Tree) → AreUnnumbered (pats row) → nodes.now ≡ row_nodes (pats row) → IfOk result (λ answer. answer ≡ Some row) }
    ensures only { IfOk result (λ answer. IfSome answer (λ row. nodes.now ≡ row_nodes (pats row))) }
    ensures unnumbered { IfOk result (λ answer. IfSome answer (λ row. AreUnnumbered (pats row))) }
{
    match build(alloc, nodes)? {
        Some(builder) => Ok(builder.into_row()),
        None => Ok(None),
    }
}
