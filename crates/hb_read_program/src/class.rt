ghost use Rattle.std.specs.Prelude.{◌≡◌, ◌++◌, IfOk, OnOk};
ghost use Rattle.hb_read_types.specs.Taking.{TookSide};
ghost use Rattle.hb_read_program.specs.Frames.{still_class, context_moved, context_whole, heading_moved, class_nothing};
ghost use Rattle.hb_read_program.specs.Running.{heading_name, heading_with, Ended, ClassWent};

use crate::leaf::{end_types, put_all};
use crate::side::Heading;
use crate::worths::{con, var};
use hb_base::{List, Memory};
use hb_read_declarations::DeclNode;
use hb_read_types::{ContextReader, TypeNode};
use hb_tokens::Token;
use hb_tree::NameAt;
use std::alloc::Global;

impl Heading {
    /// The token as a name that can stand next in the head of a class.
    fn next_name(&self, token: &Token) -> Option<NameAt>
        ensures { result ≡ heading_name self.now token.now }
    {
        match self {
            Heading::Gone => None,
            Heading::Before => con(token),
            Heading::Names(_, _) => var(token),
        }
    }

    /// The head goes on with this name; with none it is gone.
    fn go_on(&mut self, alloc: Global, name: Option<NameAt>) -> Result<(), Memory>
        ensures { OnOk result (self.new ≡ heading_with self.old name) }
    {
        let Some(name) = name else {
            *self = Heading::Gone;
            return Ok(());
        };
        let node = DeclNode::Name(name.place, name.name);
        match self {
            Heading::Gone => (),
            Heading::Before => {
                let mut nodes = List::of(Vec::new(alloc));
                nodes.push(node)?;
                *self = Heading::Names(0, nodes);
            }
            Heading::Names(count, nodes) => {
                let Some(next) = count.checked_add(1) else {
                    return Err(Memory);
                };
                nodes.push(node)?;
                *count = next;
            }
        }
        Ok(())
    }
}

/// The context takes the token, if it is one and the token can stand in it.
fn take_context(context: &mut Option<ContextReader>, token: &Token) -> Result<bool, Memory>
    ensures { IfOk result (λ taken. TookSide taken (context_moved context.old token.now) context.old context.new) }
{
    match context {
        Some(reader) => reader.take(token),
        None => Ok(false),
    }
}

/// A context and the head of a class beside it take the token, if it can stand in one of them, and what it cannot stand in is
/// gone. After false both are as they were.
pub fn go_on_class(
    alloc: Global,
    context: &mut Option<ContextReader>,
    heading: &mut Heading,
    token: &Token,
) -> Result<bool, Memory>
    ensures { IfOk result (λ taken. ClassWent taken (still_class (context_moved context.old token.now) (heading_moved heading.old token.now)) heading.old context.new heading.new) }
{
    let taken = take_context(context, token)?;
    let name = heading.next_name(token);
    if !taken && name.is_none() {
        return Ok(false);
    }
    if !taken {
        *context = None;
    }
    heading.go_on(alloc, name)?;
    Ok(true)
}

/// Puts out the nodes of the context, if it is whole, and answers whether it is.
pub fn end_context(
    nodes: &mut List<DeclNode>,
    context: Option<ContextReader>,
) -> Result<bool, Memory>
    ensures { IfOk result (λ ended. Ended ended (context_whole context) nodes.old nodes.new) }
{
    match context {
        Some(reader) => end_types(nodes, reader.finish()?),
        None => Ok(false),
    }
}

/// Puts out no context and the head of a class, if that is whole, and answers whether it is.
pub fn end_class(nodes: &mut List<DeclNode>, heading: Heading) -> Result<bool, Memory>
    ensures { IfOk result (λ ended. Ended ended (class_nothing heading) nodes.old nodes.new) }
{
    match heading {
        Heading::Gone | Heading::Before | Heading::Names(0, _) => Ok(false),
        Heading::Names(count, names) => {
            nodes.push(DeclNode::Type(TypeNode::Context(0)))?;
            put_all(nodes, names.as_slice())?;
            nodes.push(DeclNode::Names(count))?;
            Ok(true)
        }
    }
}
