ghost use Rattle.std.specs.Prelude.{◌≡◌, ◌++◌, IfOk, OnOk};
ghost use Rattle.hb_read_declarations.specs.Combined.{mapped};
ghost use Rattle.hb_read_declarations.specs.Nodes.{typed, valued};
ghost use Rattle.hb_read_program.specs.Frames.{leaf_reader, reads, frame_turn, frame_nothing};
ghost use Rattle.hb_read_program.specs.Running.{seen_leaf, Ended, LeafTook, LeafBegan};

use crate::frame::LeafReader;
use crate::symbol::Leaf;
use hb_base::{List, Memory};
use hb_read_declarations::DeclNode;
use hb_read_expressions::{ExprNode, State};
use hb_read_types::{PredReader, QualifiedReader, TypeNode, TypeReader};
use hb_tokens::Token;
use std::alloc::Global;

/// Puts the later nodes behind those that there are.
pub fn put_all(nodes: &mut List<DeclNode>, later: &[DeclNode]) -> Result<(), Memory>
    ensures { OnOk result (nodes.new ≡ nodes.old ++ later.now) }
{
    for node in later {
        nodes.push(*node)?;
    }
    Ok(())
}

/// Puts the nodes of types behind those that there are.
pub fn put_types(nodes: &mut List<DeclNode>, types: &[TypeNode]) -> Result<(), Memory>
    ensures { OnOk result (nodes.new ≡ nodes.old ++ typed types.now) }
{
    for node in types {
        nodes.push(DeclNode::Type(*node))?;
    }
    Ok(())
}

/// Puts the nodes of expressions behind those that there are.
pub fn put_values(nodes: &mut List<DeclNode>, values: &[ExprNode]) -> Result<(), Memory>
    ensures { OnOk result (nodes.new ≡ nodes.old ++ valued values.now) }
{
    for node in values {
        nodes.push(DeclNode::Expr(*node))?;
    }
    Ok(())
}

/// Puts out the nodes of types, if they are whole, and answers whether they are.
pub fn end_types(nodes: &mut List<DeclNode>, whole: Option<List<TypeNode>>) -> Result<bool, Memory>
    ensures { IfOk result (λ ended. Ended ended (mapped typed whole) nodes.old nodes.new) }
{
    match whole {
        Some(types) => {
            put_types(nodes, types.as_slice())?;
            Ok(true)
        }
        None => Ok(false),
    }
}

/// Puts out the nodes of an expression, if it is whole, and answers whether it is.
pub fn end_values(nodes: &mut List<DeclNode>, whole: Option<List<ExprNode>>) -> Result<bool, Memory>
    ensures { IfOk result (λ ended. Ended ended (mapped valued whole) nodes.old nodes.new) }
{
    match whole {
        Some(values) => {
            put_values(nodes, values.as_slice())?;
            Ok(true)
        }
        None => Ok(false),
    }
}

impl LeafReader {
    /// The reader of such a thing, at its start.
    fn start(alloc: Global, leaf: Leaf) -> Result<LeafReader, Memory>
        ensures { IfOk result (λ reader. seen_leaf reader ≡ reads leaf (leaf_reader leaf).start) }
    {
        match leaf {
            Leaf::Type => Ok(LeafReader::Type(TypeReader::of_type(alloc))),
            Leaf::Atype => Ok(LeafReader::Atype(TypeReader::of_atype(alloc))),
            Leaf::Pred => Ok(LeafReader::Pred(PredReader::new(alloc))),
            Leaf::Qualified => {
                let reader = QualifiedReader::new(alloc)?;
                Ok(LeafReader::Qualified(reader))
            }
            Leaf::Expr => Ok(LeafReader::Expr(State::expr(alloc))),
            Leaf::Equation => Ok(LeafReader::Equation(State::equation(alloc))),
        }
    }

    /// Takes the token if it can stand here, and answers whether it did. After false the reader is as it was.
    pub fn take(&mut self, token: &Token) -> Result<bool, Memory>
        ensures { IfOk result (λ taken. LeafTook taken (frame_turn (seen_leaf self.old) token.now) self.old self.new) }
    {
        match self {
            LeafReader::Type(reader) => reader.take(token),
            LeafReader::Atype(reader) => reader.take(token),
            LeafReader::Pred(reader) => reader.take(token),
            LeafReader::Qualified(reader) => reader.take(token),
            LeafReader::Expr(reader) => reader.take(*token),
            LeafReader::Equation(reader) => reader.take(*token),
        }
    }

    /// Reads a thing that begins with this token, if one can.
    #[tactic(auto, using(crate::proofs::Running::leaf_began, crate::proofs::Running::leaf_not_begun))]
    pub fn begin(alloc: Global, leaf: Leaf, token: &Token) -> Result<Option<LeafReader>, Memory>
        ensures { IfOk result (λ begun. LeafBegan leaf token.now begun) }
    {
        let mut reader = LeafReader::start(alloc, leaf)?;
        if reader.take(token)? {
            Ok(Some(reader))
        } else {
            Ok(None)
        }
    }

    /// Puts out the nodes of the thing, if it is whole, and answers whether it is.
    pub fn finish(self, nodes: &mut List<DeclNode>) -> Result<bool, Memory>
        ensures { IfOk result (λ ended. Ended ended (frame_nothing (seen_leaf self)) nodes.old nodes.new) }
    {
        match self {
            LeafReader::Type(reader) => end_types(nodes, reader.finish()?),
            LeafReader::Atype(reader) => end_types(nodes, reader.finish()?),
            LeafReader::Pred(reader) => end_types(nodes, reader.finish()?),
            LeafReader::Qualified(reader) => end_types(nodes, reader.finish()?),
            LeafReader::Expr(reader) => end_values(nodes, reader.finish()?),
            LeafReader::Equation(reader) => end_values(nodes, reader.finish()?),
        }
    }
}
