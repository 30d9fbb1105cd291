ghost use Rattle.std.specs.Prelude.{◌≡◌, [], ◌∷◌, IfOk, None};
ghost use Rattle.hb_tree.specs.declared.declaration.Program.{Program};
ghost use Rattle.hb_read_declarations.specs.Nodes.{program_nodes};
ghost use Rattle.hb_depth.specs.Depth.{IsFirst, too_deep};
ghost use Rattle.hb_depth.specs.Marking.{marked};
ghost use Rattle.hb_depth.specs.Shapes.{shapes};
ghost use Rattle.hb_depth.specs.Walking.{level, walked};
ghost use Rattle.hb_depth.specs.Written.{IsWrittenProgram};
ghost use Rattle.hb_depth.specs.declared.shape.Around.TheVariants.{Other};

use crate::mark::Mark;
use crate::marker::Marker;
use crate::shapes::of_decl;
use crate::walk::Walk;
use hb_base::{Memory, Place};
use hb_read_declarations::DeclNode;
use hb_stack::Stack;
use std::alloc::Global;

/// The marks of these nodes, the last node on top.
fn mark_all(alloc: Global, nodes: &[DeclNode]) -> Result<Stack<Mark>, Memory>
    ensures { IfOk result (λ marks. marks ≡ marked [] [] (shapes nodes.now [])) }
{
    let mut marker = Marker::new(alloc);
    let mut left = nodes;
    while let Some((node, rest)) = left.split_first() {
        marker.take(of_decl(*node))?;
        left = rest;
    }
    Ok(marker.marks)
}

/// The first place of a form that is too deep, where these are the marks of a program's nodes.
fn walk_back(alloc: Global, mut marks: Stack<Mark>) -> Result<Option<Place>, Memory>
    ensures { IfOk result (λ found. found ≡ walked (level 1 0 Other ∷ []) None marks) }
{
    let mut walk = Walk::new(alloc)?;
    while let Some(mark) = marks.pop() {
        walk.take(mark)?;
    }
    Ok(walk.best)
}

/// Answers the place of the first form in the text that is nested deeper than 200 levels, if there is one, where the nodes
/// are those of a program as it is written. The program is at depth 0, a declaration at 1, and each local row, expression,
/// pattern, type, predicate and initialiser is one level more than the form around it, and so is each signature of a class
/// and each equation of an instance. The operands and operators of a run of `k` operators, the function and the arguments of
/// an application to `k` arguments, and the parts of `k` arrows are `k` levels deeper. What it answers for other nodes is
/// not told. It takes memory in proportion to the nodes.
pub fn first_too_deep(alloc: Global, nodes: &[DeclNode]) -> Result<Option<Place>, Memory>
    ensures found { (p : Program) → IsWrittenProgram p → nodes.now ≡ program_nodes p → IfOk result (λ answer. IsFirst answer (too_deep p)) }
{
    let marks = mark_all(alloc, nodes)?;
    let found = walk_back(alloc, marks)?;
    Ok(found)
}
