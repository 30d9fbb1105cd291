ghost use Rattle.std.specs.Prelude.{◌≡◌, Some, IfOk};
ghost use Rattle.hb_read_declarations.specs.Nodes.{program_nodes};
ghost use Rattle.hb_build.specs.Building.{built};
ghost use Rattle.hb_build_program.specs.States.{start};
ghost use Rattle.hb_build_program.specs.DeclarationSteps.{stepped};
ghost use Rattle.hb_build_program.specs.ParsedProgram.{IsParsed};
ghost use Rattle.hb_tree.specs.declared.declaration.Program.{Program as Tree};

use crate::builder::DeclBuilder;
use hb_base::Memory;
use hb_read_declarations::DeclNode;
use hb_tree::Program;
use std::alloc::Global;

/// What is built of these nodes, if a tree may have them.
#[tactic(auto, using(crate::proofs::Counted::refused))]
fn build(alloc: Global, nodes: &[DeclNode]) -> Result<Option<DeclBuilder>, Memory>
    ensures { IfOk result (λ answer. answer ≡ built stepped (Some start) nodes.now) }
{
    let mut builder = DeclBuilder::new(alloc);
    let mut left = nodes;
    while let Some((node, rest)) = left.split_first() {
        if !builder.take(alloc, *node)? {
            return Ok(None);
        }
        left = rest;
    }
    Ok(Some(builder))
}

/// Builds a whole program as it is read: its numbers in the tree are all 0, and each definition has one row. Answers `None`
/// where a node does not find its parts. Of nodes that no such program has nothing more is said.
pub fn build_program(alloc: Global, nodes: &[DeclNode]) -> Result<Option<Program>, Memory>
    ensures found { (p : Tree) → IsParsed p → nodes.now ≡ program_nodes p → IfOk result (λ answer. answer ≡ Some p) }
{
    match build(alloc, nodes)? {
        Some(builder) => Ok(builder.into_program()),
        None => Ok(None),
    }
}
