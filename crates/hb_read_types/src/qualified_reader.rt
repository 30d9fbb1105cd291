ghost use Rattle.std.specs.Prelude.{◌≡◌, [], ◌∷◌, true, false, Some, None, IfOk, is_some};
ghost use Rattle.hb_grammar.specs.Reading.{Exact};
ghost use Rattle.hb_read_types.specs.ContextMoves.{context_done};
ghost use Rattle.hb_read_types.specs.QualifiedMoves.{is_double_arrow, is_double_arrow_word, context_whole, turned, context_moved, types_moved, together, qualified_move, qualified_done, qualified_start, qualified_reader};
ghost use Rattle.hb_read_types.specs.Reads.{QualifiedNodesRead};
ghost use Rattle.hb_read_types.specs.Taking.{Took, TookSide};

use crate::context_reader::ContextReader;
use crate::node::TypeNode;
use crate::type_reader::TypeReader;
use hb_base::{List, Memory};
use hb_tokens::{Token, TokenKind, Word};
use std::alloc::Global;

/// Reads a type that may have a context before it. Both are read side by side until `=>`, or until a token comes that
/// only one of them takes.
#[derive(Drop)]
pub struct QualifiedReader {
    pub context: Option<ContextReader>,
    /// The tokens so far may belong to the type.
    pub is_type: bool,
    pub types: TypeReader,
}

fn is_double_arrow(token: &Token) -> bool
    ensures { result ≡ is_double_arrow token.now }
{
    match token.kind {
        TokenKind::Word(word) => is_double_arrow_word(word),
        _ => false,
    }
}

fn is_double_arrow_word(word: Word) -> bool
    ensures { result ≡ is_double_arrow_word word }
{
    match word {
        Word::DoubleArrow => true,
        _ => false,
    }
}

fn take_context(context: &mut Option<ContextReader>, token: &Token) -> Result<bool, Memory>
    ensures { IfOk result (λ taken. TookSide taken (context_moved context.old token.now) context.old context.new) }
{
    match context {
        Some(reader) => reader.take(token),
        None => Ok(false),
    }
}

fn take_type(is_type: bool, types: &mut TypeReader, token: &Token) -> Result<bool, Memory>
    ensures { IfOk result (λ taken. Took taken (types_moved is_type types.old token.now) types.old types.new) }
{
    if !is_type {
        return Ok(false);
    }
    types.take(token)
}

fn finish_context(context: Option<ContextReader>) -> Result<Option<List<TypeNode>>, Memory>
    ensures { IfOk result (λ nodes. nodes ≡ context_whole context) }
{
    match context {
        Some(reader) => reader.finish(),
        None => Ok(None),
    }
}

impl QualifiedReader {
    /// The reader of a type that may have a context before it, at its start.
    pub fn new(alloc: Global) -> Result<QualifiedReader, Memory>
        ensures start { IfOk result (λ reader. reader ≡ qualified_start) }
        ensures exact { Exact qualified_reader QualifiedNodesRead }
    {
        let mut nodes = List::of(Vec::new(alloc));
        nodes.push(TypeNode::Context(0))?;
        let mut types = TypeReader::of_type(alloc);
        types.start_behind(nodes);
        Ok(QualifiedReader {
            context: Some(ContextReader::new(alloc)),
            is_type: true,
            types,
        })
    }

    /// Takes the token if it can stand here, and answers whether it did.
    #[tactic(auto, unfolding(crate::specs::QualifiedMoves::qualified_move))]
    pub fn take(&mut self, token: &Token) -> Result<bool, Memory>
        ensures { IfOk result (λ taken. Took taken (qualified_move self.old token.now) self.old self.new) }
    {
        if is_double_arrow(token) {
            self.turn()
        } else {
            self.go_on(token)
        }
    }

    /// The tokens taken are a whole type, with what stands before it.
    #[tactic(auto, unfolding(crate::specs::QualifiedMoves::qualified_done))]
    pub fn is_done(&self) -> bool
        ensures { result ≡ is_some (qualified_done self.now) }
    {
        self.is_type && self.types.is_done()
    }

    /// The nodes of the context and the type, where the tokens taken are whole.
    #[tactic(auto, unfolding(crate::specs::QualifiedMoves::qualified_done))]
    pub fn finish(self) -> Result<Option<List<TypeNode>>, Memory>
        ensures { IfOk result (λ nodes. nodes ≡ qualified_done self) }
    {
        if !self.is_type {
            return Ok(None);
        }
        self.types.finish()
    }

    /// `=>`
    fn turn(&mut self) -> Result<bool, Memory>
        ensures { IfOk result (λ taken. Took taken (turned self.old.context) self.old self.new) }
    {
        if !self.is_context_done() {
            return Ok(false);
        }
        let Some(nodes) = finish_context(self.context.take())? else {
            return Ok(false);
        };
        self.types.start_behind(nodes);
        self.is_type = true;
        Ok(true)
    }

    fn is_context_done(&self) -> bool
        ensures { result ≡ is_some (context_whole self.now.context) }
    {
        match &self.context {
            Some(reader) => reader.is_done(),
            None => false,
        }
    }

    /// Both readings take the token, or one of them.
    fn go_on(&mut self, token: &Token) -> Result<bool, Memory>
        ensures { IfOk result (λ taken. Took taken (together self.old.types (types_moved self.old.is_type self.old.types token.now) (context_moved self.old.context token.now)) self.old self.new) }
    {
        let types = take_type(self.is_type, &mut self.types, token)?;
        let context = take_context(&mut self.context, token)?;
        if !types && !context {
            return Ok(false);
        }
        if !context {
            self.context = None;
        }
        self.is_type = types;
        Ok(true)
    }
}
