ghost use Rattle.std.specs.Prelude.{◌≡◌, ◌∷◌, ◌++◌, [], Some, IfOk, OnOk};
ghost use Rattle.hb_engine.specs.Tables.{thread, moved, whole};
ghost use Rattle.hb_read_program.specs.Rules.{begins, begins_line, behind, put_out};
ghost use Rattle.hb_read_program.specs.Frames.{count_of, frames_of, place_of, turn_to, waits, leaf_turn, line_turn, line_nothing, class_turn, class_nothing, frame_turn, frame_nothing, rules};
ghost use Rattle.hb_read_program.specs.Running.{seen, seen_frame, seen_leaf, seen_run, Turned, ClassTook, Stepped, step_past, Ended, Moved, sig_turned, turned_to};

use crate::begins::Begins;
use crate::class::{end_class, end_context, go_on_class};
use crate::forms::{node_of, nothing_of, number_in, put_out};
use crate::frame::{Frame, LeafReader};
use crate::heads::found;
use crate::leaf::put_all;
use crate::line::{SigHead, end_line, go_on_line};
use crate::productions::{CLASS_NAME, SIG_TYPE, begins_with, behind};
use crate::side::{Heading, Side};
use crate::symbol::{Count, Head, Item, Leaf, Symbol};
use crate::worths::this_word;
use hb_base::{List, Memory, Place};
use hb_read_declarations::DeclNode;
use hb_read_expressions::State;
use hb_read_types::ContextReader;
use hb_stack::Stack;
use hb_tokens::{Token, Word};
use std::alloc::Global;
use std::mem;

/// What became of a frame that was asked to take a token.
#[derive(Clone, Copy)]
pub enum Step {
    /// It took it.
    Taken,
    /// It was nothing.
    Passed,
    /// It can do neither.
    Refused,
}

/// What is still to come, and the nodes that were put out.
#[derive(Drop)]
pub struct Run {
    pub frames: Stack<Frame>,
    pub nodes: List<DeclNode>,
}

/// How many parts a symbol begins with.
fn counted(count: Count, before: usize, token: &Token) -> Result<usize, Memory>
    ensures { IfOk result (λ parts. parts ≡ count_of count before token.now) }
{
    match count {
        Count::Zero => Ok(0),
        Count::One => Ok(1),
        Count::Same => Ok(before),
        Count::Next => match before.checked_add(1) {
            Some(next) => Ok(next),
            None => Err(Memory),
        },
        Count::Read => match usize::try_from(number_in(token.kind)) {
            Ok(number) => Ok(number),
            Err(_) => Err(Memory),
        },
    }
}

/// The place where the form of what stands behind the token begins.
fn place_of(symbol: Symbol, place: Place, token: &Token) -> Place
    ensures { result ≡ place_of symbol place token.now }
{
    match symbol {
        Symbol::Digit(_) | Symbol::Direction | Symbol::MoreInits => place,
        _ => token.place,
    }
}

/// Puts these symbols on top, the first on top of all.
#[tactic(auto, using(crate::proofs::Running::pushed_last))]
fn push_items(
    frames: &mut Stack<Frame>,
    items: &[Item],
    place: Place,
    count: usize,
    token: &Token,
) -> Result<(), Memory>
    ensures { OnOk result (seen frames.new ≡ frames_of items.now place count token.now ++ seen frames.old) }
{
    let mut left = items;
    while let Some((item, before)) = left.split_last() {
        let parts = counted(item.count, count, token)?;
        frames.push(Frame::Waits(item.symbol, place, parts))?;
        left = before;
    }
    Ok(())
}

/// Puts out the node of a symbol that is nothing, if it may be, and answers whether it may.
fn end_symbol(
    nodes: &mut List<DeclNode>,
    symbol: Symbol,
    place: Place,
    count: usize,
) -> Result<bool, Memory>
    ensures { IfOk result (λ ended. Ended ended (frame_nothing (waits symbol place count)) nodes.old nodes.new) }
{
    match nothing_of(symbol) {
        Some(form) => {
            nodes.push(node_of(form, place, count))?;
            Ok(true)
        }
        None => Ok(false),
    }
}

/// Puts out the nodes of a frame for which no more tokens are read, if it may be whole, and answers whether it may.
fn end_frame(nodes: &mut List<DeclNode>, frame: Frame) -> Result<bool, Memory>
    ensures { IfOk result (λ ended. Ended ended (frame_nothing (seen_frame frame)) nodes.old nodes.new) }
{
    match frame {
        Frame::Waits(symbol, place, count) => end_symbol(nodes, symbol, place, count),
        Frame::Reads(reader) => reader.finish(nodes),
        Frame::Line(equation, _) => end_line(nodes, equation),
        Frame::Class(_, heading) => end_class(nodes, heading),
    }
}

/// A frame that does not take the token was nothing, or stops all.
fn step_past(ended: bool) -> Step
    ensures { result ≡ step_past ended }
{
    if ended { Step::Passed } else { Step::Refused }
}

impl Run {
    /// The token begins the symbol in this way.
    fn turn(
        &mut self,
        head: Head,
        symbol: Symbol,
        place: Place,
        count: usize,
        token: &Token,
    ) -> Result<(), Memory>
        ensures { OnOk result (seen_run self.new ≡ turned_to (seen_run self.old) (turn_to (frames_of (behind head.behind) (place_of symbol place token.now) count token.now) (put_out head.put place count token.now))) }
    {
        let begins = place_of(symbol, place, token);
        put_out(&mut self.nodes, head.put, place, count, token)?;
        push_items(&mut self.frames, behind(head.behind), begins, count, token)?;
        Ok(())
    }

    /// A reader of its own takes the token, if it can, and these symbols are to come behind it.
    fn begin_leaf(
        &mut self,
        alloc: Global,
        leaf: Leaf,
        items: &[Item],
        count: usize,
        token: &Token,
    ) -> Result<bool, Memory>
        ensures { IfOk result (λ taken. Turned taken (leaf_turn (begins leaf items.now) token.now.place count token.now) (seen_run self.old) (seen_run self.new)) }
    {
        let Some(reader) = LeafReader::begin(alloc, leaf, token)? else {
            return Ok(false);
        };
        push_items(&mut self.frames, items, token.place, count, token)?;
        self.frames.push(Frame::Reads(reader))?;
        Ok(true)
    }

    /// A signature or an equation begins with the token, if it can, and these symbols are to come behind it.
    fn begin_line(
        &mut self,
        alloc: Global,
        items: &[Item],
        count: usize,
        token: &Token,
    ) -> Result<bool, Memory>
        ensures { IfOk result (λ taken. Turned taken (leaf_turn (begins_line items.now) token.now.place count token.now) (seen_run self.old) (seen_run self.new)) }
    {
        let mut equation = Some(State::equation(alloc));
        let mut side = Side::start(alloc);
        if !go_on_line(&mut equation, &mut side, token)? {
            return Ok(false);
        }
        push_items(&mut self.frames, items, token.place, count, token)?;
        self.frames.push(Frame::Line(equation, side))?;
        Ok(true)
    }

    /// A context or the head of a class takes the token, if it can. After false the head is as it was.
    fn take_class(
        &mut self,
        alloc: Global,
        context: Option<ContextReader>,
        heading: &mut Heading,
        token: &Token,
    ) -> Result<bool, Memory>
        ensures { IfOk result (λ taken. ClassTook taken (class_turn context heading.old token.now) (seen_run self.old) (seen_run self.new) heading.old heading.new) }
    {
        if this_word(Word::DoubleArrow, token).is_some() {
            if !end_context(&mut self.nodes, context)? {
                return Ok(false);
            }
            push_items(&mut self.frames, CLASS_NAME, token.place, 0, token)?;
            return Ok(true);
        }
        let mut context = context;
        if !go_on_class(alloc, &mut context, heading, token)? {
            return Ok(false);
        }
        let heading = mem::replace(heading, Heading::Gone);
        self.frames.push(Frame::Class(context, heading))?;
        Ok(true)
    }

    /// The names are those of a signature, whose type is to come.
    fn turn_to_sig(
        &mut self,
        head: SigHead,
        names: &[DeclNode],
        token: &Token,
    ) -> Result<(), Memory>
        ensures { OnOk result (seen_run self.new ≡ turned_to (seen_run self.old) (sig_turned head names.now token.now)) }
    {
        let Some(count) = head.count.checked_add(1) else {
            return Err(Memory);
        };
        put_all(&mut self.nodes, names)?;
        self.nodes
            .push(DeclNode::Name(head.last.place, head.last.name))?;
        self.nodes.push(DeclNode::Names(count))?;
        push_items(&mut self.frames, SIG_TYPE, head.place, 0, token)?;
        Ok(())
    }

    /// The symbol takes the token, if it can.
    fn take_symbol(
        &mut self,
        alloc: Global,
        symbol: Symbol,
        place: Place,
        count: usize,
        token: &Token,
    ) -> Result<bool, Memory>
        ensures { IfOk result (λ taken. Turned taken (frame_turn (waits symbol place count) token.now) (seen_run self.old) (seen_run self.new)) }
    {
        if let Some(head) = found(symbol, token) {
            self.turn(head, symbol, place, count, token)?;
            return Ok(true);
        }
        match begins_with(symbol) {
            Begins::NoLeaf => Ok(false),
            Begins::Leaf(leaf, items) => self.begin_leaf(alloc, leaf, items, count, token),
            Begins::Line(items) => self.begin_line(alloc, items, count, token),
            Begins::Class => {
                let context = Some(ContextReader::new(alloc));
                let mut heading = Heading::Before;
                self.take_class(alloc, context, &mut heading, token)
            }
        }
    }

    fn step_symbol(
        &mut self,
        alloc: Global,
        symbol: Symbol,
        place: Place,
        count: usize,
        token: &Token,
    ) -> Result<Step, Memory>
        ensures { IfOk result (λ step. Stepped step (frame_turn (waits symbol place count) token.now) (frame_nothing (waits symbol place count)) (seen_run self.old) (seen_run self.new)) }
    {
        if self.take_symbol(alloc, symbol, place, count, token)? {
            return Ok(Step::Taken);
        }
        let ended = end_symbol(&mut self.nodes, symbol, place, count)?;
        Ok(step_past(ended))
    }

    fn step_leaf(&mut self, reader: LeafReader, token: &Token) -> Result<Step, Memory>
        ensures { IfOk result (λ step. Stepped step (frame_turn (seen_leaf reader) token.now) (frame_nothing (seen_leaf reader)) (seen_run self.old) (seen_run self.new)) }
    {
        let mut reader = reader;
        if reader.take(token)? {
            self.frames.push(Frame::Reads(reader))?;
            return Ok(Step::Taken);
        }
        let ended = reader.finish(&mut self.nodes)?;
        Ok(step_past(ended))
    }

    fn step_line(
        &mut self,
        alloc: Global,
        equation: Option<State>,
        side: Side,
        token: &Token,
    ) -> Result<Step, Memory>
        ensures { IfOk result (λ step. Stepped step (line_turn equation side token.now) (line_nothing equation) (seen_run self.old) (seen_run self.new)) }
    {
        if let Some(head) = side.sig_head(token) {
            let names = side.into_nodes(alloc);
            self.turn_to_sig(head, names.as_slice(), token)?;
            return Ok(Step::Taken);
        }
        let mut equation = equation;
        let mut side = side;
        if go_on_line(&mut equation, &mut side, token)? {
            self.frames.push(Frame::Line(equation, side))?;
            return Ok(Step::Taken);
        }
        let ended = end_line(&mut self.nodes, equation)?;
        Ok(step_past(ended))
    }

    fn step_class(
        &mut self,
        alloc: Global,
        context: Option<ContextReader>,
        heading: Heading,
        token: &Token,
    ) -> Result<Step, Memory>
        ensures { IfOk result (λ step. Stepped step (class_turn context heading token.now) (class_nothing heading) (seen_run self.old) (seen_run self.new)) }
    {
        let mut heading = heading;
        if self.take_class(alloc, context, &mut heading, token)? {
            return Ok(Step::Taken);
        }
        let ended = end_class(&mut self.nodes, heading)?;
        Ok(step_past(ended))
    }

    /// Asks a frame to take the token.
    fn step(&mut self, alloc: Global, frame: Frame, token: &Token) -> Result<Step, Memory>
        ensures { IfOk result (λ step. Stepped step (frame_turn (seen_frame frame) token.now) (frame_nothing (seen_frame frame)) (seen_run self.old) (seen_run self.new)) }
    {
        match frame {
            Frame::Waits(symbol, place, count) => {
                self.step_symbol(alloc, symbol, place, count, token)
            }
            Frame::Reads(reader) => self.step_leaf(reader, token),
            Frame::Line(equation, side) => self.step_line(alloc, equation, side, token),
            Frame::Class(context, heading) => self.step_class(alloc, context, heading, token),
        }
    }

    /// Takes the token if it can stand here, and answers whether it did. After false it is not used again.
    #[tactic(auto, using(crate::proofs::Running::when_taken, crate::proofs::Running::when_refused, crate::proofs::Running::when_passed, crate::proofs::Running::fewer_frames))]
    pub fn take(&mut self, alloc: Global, token: &Token) -> Result<bool, Memory>
        ensures { IfOk result (λ taken. Moved taken (moved rules (seen self.old.frames) self.old.nodes token.now) (seen_run self.new)) }
    {
        while let Some(frame) = self.frames.pop() {
            match self.step(alloc, frame, token)? {
                Step::Taken => return Ok(true),
                Step::Passed => (),
                Step::Refused => return Ok(false),
            }
        }
        Ok(false)
    }

    /// The nodes, where all that is still to come may be nothing.
    #[tactic(auto, using(crate::proofs::Running::when_ended, crate::proofs::Running::when_not_ended))]
    pub fn finish(mut self) -> Result<Option<List<DeclNode>>, Memory>
        ensures { IfOk result (λ nodes. nodes ≡ whole rules (seen self.frames) self.nodes) }
    {
        while let Some(frame) = self.frames.pop() {
            if !end_frame(&mut self.nodes, frame)? {
                return Ok(None);
            }
        }
        Ok(Some(self.nodes))
    }
}
