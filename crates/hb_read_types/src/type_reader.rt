ghost use Rattle.std.specs.Prelude.{◌≡◌, ◌++◌, [], ◌∷◌, true, false, Some, None, IfOk, OnOk, reverse, is_some, if◌then◌else◌};
ghost use Rattle.hb_grammar.specs.Reading.{Exact};
ghost use Rattle.hb_read_types.specs.Behind.{ExactBehind};
ghost use Rattle.hb_read_types.specs.PredMoves.{another, is_alone_whole};
ghost use Rattle.hb_read_types.specs.Reads.{TypeNodesRead, AtypeNodesRead};
ghost use Rattle.hb_read_types.specs.declared.type_reader.Spot.TheVariants.{Argument};
ghost use Rattle.hb_read_types.specs.declared.type_reader.Now.TheVariants.{Want};
ghost use Rattle.hb_read_types.specs.declared.type_reader.Frame.TheVariants.{Arrow};
ghost use Rattle.hb_read_types.specs.Sorts.{sort_of};
ghost use Rattle.hb_stack.specs.Stacks.{first_of, rest_of};
ghost use Rattle.hb_read_types.specs.Taking.{Took};
ghost use Rattle.hb_read_types.specs.TypeMoves.{start, begin_at, state, put, after, begin, in_bracket, may_apply, may_arrow, add, open_frames, ended_nodes, bracket_of, around, divide, close, go_on, move_now, type_move, type_done, type_reader, atype_reader};

use crate::node::TypeNode;
use crate::sort::{Sort, sort_of};
use hb_base::{List, Memory, Place};
use hb_stack::Stack;
use hb_tokens::Token;
use std::alloc::Global;

/// Where a type that stands by itself is wanted.
#[derive(Clone, Copy)]
pub enum Spot {
    /// First in a row of types, each applied to the next.
    First,
    /// Behind a type that begins at this place, as its argument.
    Argument(Place),
}

/// What is begun and not yet at its end, with the place where it begins.
#[derive(Clone, Copy)]
pub enum Frame {
    /// A bracket in which one type is read.
    Open(Place, Spot),
    /// A bracket after whose comma the second type is read.
    Pair(Place, Spot),
    /// A bracket after whose `+` the second type is read.
    Sum(Place, Spot),
    /// A type after whose `->` the result is read.
    Arrow(Place),
}

/// What the last token has left.
#[derive(Clone, Copy)]
pub enum Now {
    /// A type must begin.
    Want,
    /// The bracket at this place is just open.
    Opened(Place, Spot),
    /// A type that begins at this place may be at its end, or go on.
    Had(Place),
}

/// Reads one type, or one type that stands by itself.
#[derive(Drop)]
pub struct TypeReader {
    /// It may be of several types, with arrows between them.
    pub is_whole: bool,
    pub stage: Now,
    pub frames: Stack<Frame>,
    pub nodes: List<TypeNode>,
}

/// The bracket around the results of arrows on top.
fn bracket_of(frames: &[Frame]) -> Option<Frame>
    ensures { result ≡ bracket_of (reverse frames.now) }
{
    let mut left = frames;
    while let Some((top, below)) = left.split_last() {
        match top {
            Frame::Arrow(_) => left = below,
            _ => return Some(*top),
        }
    }
    None
}

/// Puts out the arrows whose results are at their end.
fn end_arrows(frames: &mut Stack<Frame>, nodes: &mut List<TypeNode>) -> Result<(), Memory>
    ensures frames { OnOk result (frames.new ≡ open_frames frames.old) }
    ensures nodes { OnOk result (nodes.new ≡ ended_nodes frames.old nodes.old) }
{
    while let Some(Frame::Arrow(place)) = frames.top() {
        nodes.push(TypeNode::Arrow(place))?;
        frames.pop();
    }
    Ok(())
}

impl TypeReader {
    /// The reader of a type, at its start. Takes no memory.
    pub fn of_type(alloc: Global) -> TypeReader
        ensures start { result ≡ start true }
        ensures exact { Exact type_reader TypeNodesRead }
        ensures behind { ExactBehind type_reader (begin_at true) TypeNodesRead }
    {
        TypeReader::at_start(alloc, true)
    }

    /// The reader of a type that stands by itself, at its start. Takes no memory.
    pub fn of_atype(alloc: Global) -> TypeReader
        ensures start { result ≡ start false }
        ensures exact { Exact atype_reader AtypeNodesRead }
        ensures behind { ExactBehind atype_reader (begin_at false) AtypeNodesRead }
    {
        TypeReader::at_start(alloc, false)
    }

    fn at_start(alloc: Global, is_whole: bool) -> TypeReader
        ensures { result ≡ start is_whole }
    {
        TypeReader {
            is_whole,
            stage: Now::Want,
            frames: Stack::new(alloc),
            nodes: List::of(Vec::new(alloc)),
        }
    }

    /// Takes the token if it can stand here, and answers whether it did.
    #[tactic(auto, unfolding(crate::specs::TypeMoves::type_move))]
    pub fn take(&mut self, token: &Token) -> Result<bool, Memory>
        ensures { IfOk result (λ taken. Took taken (type_move self.old token.now) self.old self.new) }
    {
        let sort = sort_of(token);
        match self.stage {
            Now::Want => self.begin(Spot::First, token.place, sort),
            Now::Opened(bracket, spot) => self.in_bracket(bracket, spot, token.place, sort),
            Now::Had(head) => self.go_on(head, token.place, sort),
        }
    }

    /// The tokens taken are a whole type. Looks at the arrows whose results are begun.
    #[tactic(auto, unfolding(crate::specs::TypeMoves::type_done))]
    pub fn is_done(&self) -> bool
        ensures { result ≡ is_some (type_done self.now) }
    {
        match self.stage {
            Now::Had(_) => bracket_of(self.frames.as_slice()).is_none(),
            _ => false,
        }
    }

    /// A type that stands by itself is at its end.
    pub fn is_alone_whole(&self) -> bool
        ensures { result ≡ is_alone_whole self.now }
    {
        match self.stage {
            Now::Had(_) => self.frames.is_empty(),
            _ => false,
        }
    }

    /// The nodes of the type, where the tokens taken are a whole one.
    #[tactic(auto, unfolding(crate::specs::TypeMoves::type_done))]
    pub fn finish(mut self) -> Result<Option<List<TypeNode>>, Memory>
        ensures { IfOk result (λ nodes. nodes ≡ type_done self) }
    {
        if !self.is_done() {
            return Ok(None);
        }
        end_arrows(&mut self.frames, &mut self.nodes)?;
        Ok(Some(self.nodes))
    }

    /// The nodes so far, with those of the arrows that are at their end.
    pub fn into_nodes(mut self) -> Result<List<TypeNode>, Memory>
        ensures { IfOk result (λ nodes. nodes ≡ ended_nodes self.frames self.nodes) }
    {
        end_arrows(&mut self.frames, &mut self.nodes)?;
        Ok(self.nodes)
    }

    /// Begins another type behind the nodes of one that is at its end.
    pub fn start_again(&mut self, is_whole: bool) -> Result<(), Memory>
        ensures { OnOk result (self.new ≡ begin_at is_whole (ended_nodes self.old.frames self.old.nodes)) }
    {
        end_arrows(&mut self.frames, &mut self.nodes)?;
        self.frames.clear();
        self.is_whole = is_whole;
        self.stage = Now::Want;
        Ok(())
    }

    /// Begins a type behind these nodes. Takes no memory.
    pub fn start_behind(&mut self, nodes: List<TypeNode>)
        ensures { self.new ≡ begin_at true nodes }
    {
        self.is_whole = true;
        self.stage = Now::Want;
        self.frames.clear();
        self.nodes = nodes;
    }

    /// Begins another type that stands by itself with this token, if one can begin with it.
    #[tactic(auto, unfolding(crate::specs::TypeMoves::type_move))]
    pub fn begin_again(&mut self, token: &Token) -> Result<bool, Memory>
        ensures { IfOk result (λ taken. Took taken (type_move (another self.old) token.now) self.old self.new) }
    {
        let sort = sort_of(token);
        match sort {
            Sort::Atom(_) | Sort::Open => {
                self.start_again(false)?;
                self.begin(Spot::First, token.place, sort)
            }
            _ => Ok(false),
        }
    }

    /// Puts out one node.
    pub fn put(&mut self, node: TypeNode) -> Result<(), Memory>
        ensures { OnOk result (self.new ≡ record self.old { nodes = put self.old.nodes node }) }
    {
        self.nodes.push(node)?;
        Ok(())
    }

    /// A type at this spot is at its end.
    fn after(&mut self, spot: Spot, place: Place) -> Result<(), Memory>
        ensures { OnOk result (self.new ≡ after self.old.is_whole spot place self.old.frames self.old.nodes) }
    {
        match spot {
            Spot::First => self.stage = Now::Had(place),
            Spot::Argument(head) => {
                self.nodes.push(TypeNode::Apply(head))?;
                self.stage = Now::Had(head);
            }
        }
        Ok(())
    }

    /// A type that stands by itself begins.
    fn begin(&mut self, spot: Spot, place: Place, sort: Sort) -> Result<bool, Memory>
        ensures { IfOk result (λ taken. Took taken (begin self.old.is_whole spot self.old.frames self.old.nodes place sort) self.old self.new) }
    {
        match sort {
            Sort::Atom(node) => {
                self.nodes.push(node)?;
                self.after(spot, place)?;
                Ok(true)
            }
            Sort::Open => {
                self.stage = Now::Opened(place, spot);
                Ok(true)
            }
            _ => Ok(false),
        }
    }

    /// A bracket is just open.
    fn in_bracket(
        &mut self,
        bracket: Place,
        spot: Spot,
        place: Place,
        sort: Sort,
    ) -> Result<bool, Memory>
        ensures { IfOk result (λ taken. Took taken (in_bracket self.old.is_whole bracket spot self.old.frames self.old.nodes place sort) self.old self.new) }
    {
        match sort {
            Sort::Close => {
                self.nodes.push(TypeNode::Unit(bracket))?;
                self.after(spot, bracket)?;
                Ok(true)
            }
            Sort::Atom(_) | Sort::Open => {
                self.frames.push(Frame::Open(bracket, spot))?;
                self.begin(Spot::First, place, sort)
            }
            _ => Ok(false),
        }
    }

    /// A type may be at its end, or go on.
    fn go_on(&mut self, head: Place, place: Place, sort: Sort) -> Result<bool, Memory>
        ensures { IfOk result (λ taken. Took taken (go_on self.old.is_whole head self.old.frames self.old.nodes place sort) self.old self.new) }
    {
        match sort {
            Sort::Atom(_) | Sort::Open => self.apply(head, place, sort),
            Sort::Arrow => self.arrow(head),
            Sort::Plus => self.add(),
            Sort::Comma => self.divide(),
            Sort::Close => self.close(),
            _ => Ok(false),
        }
    }

    fn apply(&mut self, head: Place, place: Place, sort: Sort) -> Result<bool, Memory>
        ensures { IfOk result (λ taken. Took taken (if may_apply self.old.is_whole self.old.frames then begin self.old.is_whole (Argument head) self.old.frames self.old.nodes place sort else None) self.old self.new) }
    {
        if self.may_apply() {
            self.begin(Spot::Argument(head), place, sort)
        } else {
            Ok(false)
        }
    }

    fn may_apply(&self) -> bool
        ensures { result ≡ may_apply self.now.is_whole self.now.frames }
    {
        match self.frames.top() {
            None => self.is_whole,
            Some(_) => true,
        }
    }

    fn may_arrow(&self) -> bool
        ensures { result ≡ may_arrow self.now.is_whole self.now.frames }
    {
        match self.frames.top() {
            None => self.is_whole,
            Some(Frame::Sum(_, _)) => false,
            Some(_) => true,
        }
    }

    fn arrow(&mut self, head: Place) -> Result<bool, Memory>
        ensures { IfOk result (λ taken. Took taken (if may_arrow self.old.is_whole self.old.frames then Some (state self.old.is_whole Want (Arrow head ∷ self.old.frames) self.old.nodes) else None) self.old self.new) }
    {
        if self.may_arrow() {
            self.frames.push(Frame::Arrow(head))?;
            self.stage = Now::Want;
            Ok(true)
        } else {
            Ok(false)
        }
    }

    fn add(&mut self) -> Result<bool, Memory>
        ensures { IfOk result (λ taken. Took taken (add self.old.is_whole self.old.frames self.old.nodes) self.old self.new) }
    {
        match self.frames.top() {
            Some(Frame::Open(bracket, spot)) => {
                self.frames.pop();
                self.frames.push(Frame::Sum(bracket, spot))?;
                self.stage = Now::Want;
                Ok(true)
            }
            _ => Ok(false),
        }
    }

    fn divide(&mut self) -> Result<bool, Memory>
        ensures { IfOk result (λ taken. Took taken (divide self.old.is_whole self.old.frames self.old.nodes) self.old self.new) }
    {
        match bracket_of(self.frames.as_slice()) {
            Some(Frame::Open(bracket, spot)) => {
                self.leave_bracket()?;
                self.frames.push(Frame::Pair(bracket, spot))?;
                self.stage = Now::Want;
                Ok(true)
            }
            _ => Ok(false),
        }
    }

    fn close(&mut self) -> Result<bool, Memory>
        ensures { IfOk result (λ taken. Took taken (close self.old.is_whole self.old.frames self.old.nodes) self.old self.new) }
    {
        match bracket_of(self.frames.as_slice()) {
            Some(Frame::Open(bracket, spot)) => {
                self.leave_bracket()?;
                self.after(spot, bracket)?;
                Ok(true)
            }
            Some(Frame::Pair(bracket, spot)) => {
                self.leave_bracket()?;
                self.nodes.push(TypeNode::Pair(bracket))?;
                self.after(spot, bracket)?;
                Ok(true)
            }
            Some(Frame::Sum(bracket, spot)) => {
                self.leave_bracket()?;
                self.nodes.push(TypeNode::Sum(bracket))?;
                self.after(spot, bracket)?;
                Ok(true)
            }
            _ => Ok(false),
        }
    }

    /// All results of arrows are at their end, and the bracket around them.
    fn leave_bracket(&mut self) -> Result<(), Memory>
        ensures { OnOk result (self.new ≡ record self.old { frames = around self.old.frames; nodes = ended_nodes self.old.frames self.old.nodes }) }
    {
        end_arrows(&mut self.frames, &mut self.nodes)?;
        self.frames.pop();
        Ok(())
    }
}
