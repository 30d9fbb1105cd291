ghost use Rattle.std.specs.Prelude.{◌≡◌, [], ◌∷◌, ◌++◌, None, OnOk, IfOk, IsTrue, is_some, option_map};
ghost use Rattle.hb_read_patterns.specs.Heads.{put_node, named_head, named_node, named_nodes};
ghost use Rattle.hb_read_patterns.specs.Moves.{moved, at_last, in_bracket, begin, close, close_frame, go_on, done_last, put_start, put_due, move_field, move_chosen, move_opened, move_named, move_bracketed, done, pat_start, apat_start, apats_start};
ghost use Rattle.hb_read_patterns.specs.Taking.{Went, Took};
ghost use Rattle.hb_read_patterns.specs.Exactly.{PatReaderIsExact, ApatReaderIsExact, ApatsReaderIsExact, EndsBefore};
ghost use Rattle.hb_read_patterns.specs.declared.frame.Frame.TheVariants.{First, Second, Given};
ghost use Rattle.hb_read_patterns.specs.declared.head.Head.TheVariants.{Whole};
ghost use Rattle.hb_read_patterns.specs.declared.reader.Last.TheVariants.{Wanted};
ghost use Rattle.hb_read_patterns.specs.declared.node.PatNode.TheVariants as node;

use crate::frame::{Due, Frame, OpenField};
use crate::head::{Head, one_more};
use crate::node::PatNode;
use crate::sort::{Sort, sort_of};
use crate::start::{Start, more_start, start_of};
use hb_base::{List, Memory, Name, Place};
use hb_stack::Stack;
use hb_tokens::Token;
use std::alloc::Global;

/// What was read last.
#[derive(Clone, Copy, Debug, PartialEq, Eq)]
pub enum Last {
    /// Nothing: a pattern is to come.
    Wanted,
    /// `(` at this place.
    Opened(Place),
    /// A constructor's place and name.
    Named(Place, Name),
    /// A whole simple pattern, whose nodes are put out.
    Done,
    /// `con [`
    Bracketed(Place, Name),
    /// `con [ .. |`, with the count of fields so far.
    Parted(Place, Name, u32),
    /// `con [ .. field`
    Chosen(OpenField),
}

/// A reader of patterns: the brackets that are open, what stands around the next simple pattern, what was read last, and
/// the nodes of all that is whole.
#[derive(Drop)]
pub struct PatReader {
    pub frames: Stack<Frame>,
    pub head: Head,
    pub last: Last,
    pub nodes: List<PatNode>,
}

impl PatReader {
    fn new(alloc: Global, head: Head, last: Last) -> PatReader
        ensures { result ≡ at_last [] head last [] }
    {
        PatReader {
            frames: Stack::new(alloc),
            head,
            last,
            nodes: List::of(Vec::new(alloc)),
        }
    }

    /// A reader of one pattern. Takes no memory.
    pub fn pat(alloc: Global) -> PatReader
        ensures start { result ≡ pat_start }
        ensures exact { PatReaderIsExact }
    {
        PatReader::new(alloc, Head::Whole, Last::Wanted)
    }

    /// A reader of one simple pattern: a constructor takes no arguments. Takes no memory.
    pub fn apat(alloc: Global) -> PatReader
        ensures start { result ≡ apat_start }
        ensures exact { ApatReaderIsExact }
    {
        PatReader::new(alloc, Head::Single, Last::Wanted)
    }

    /// A reader of any number of simple patterns, whose last node is their row. Takes no memory.
    pub fn apats(alloc: Global) -> PatReader
        ensures start { result ≡ apats_start }
        ensures exact { ApatsReaderIsExact }
    {
        PatReader::new(alloc, Head::Many(0), Last::Done)
    }

    fn put(&mut self, node: PatNode) -> Result<(), Memory>
        ensures { OnOk result (self.new ≡ record self.old { nodes = self.old.nodes ++ node ∷ [] }) }
    {
        self.nodes.push(node)?;
        Ok(())
    }

    fn put_node(&mut self, node: Option<PatNode>) -> Result<(), Memory>
        ensures { OnOk result (self.new ≡ record self.old { nodes = put_node node self.old.nodes }) }
    {
        match node {
            Some(node) => self.put(node)?,
            None => (),
        }
        Ok(())
    }

    fn put_due(&mut self, due: Due) -> Result<(), Memory>
        ensures { OnOk result (self.new ≡ record self.old { nodes = put_due due self.old.nodes }) }
    {
        self.put_node(due.simple)?;
        self.put_node(due.whole)?;
        Ok(())
    }

    fn put_start(&mut self, start: Start) -> Result<(), Memory>
        ensures { OnOk result (self.new ≡ put_start self.old.frames self.old.head self.old.nodes start) }
    {
        match start {
            Start::Node(node) => {
                self.put(node)?;
                self.last = Last::Done;
            }
            Start::Name(place, con) => self.last = Last::Named(place, con),
            Start::Bracket(place) => self.last = Last::Opened(place),
        }
        Ok(())
    }

    fn begin(&mut self, place: Place, sort: Sort) -> Result<bool, Memory>
        ensures { Went (begin self.old.frames self.old.head self.old.nodes place sort) self.old result self.new }
    {
        match start_of(place, sort) {
            Some(start) => {
                self.put_start(start)?;
                Ok(true)
            }
            None => Ok(false),
        }
    }

    /// A pattern is to come, in this bracket.
    fn open(&mut self, frame: Frame) -> Result<(), Memory>
        ensures { OnOk result (self.new ≡ in_bracket frame self.old.frames self.old.nodes) }
    {
        self.frames.push(frame)?;
        self.head = Head::Whole;
        self.last = Last::Wanted;
        Ok(())
    }

    fn close_first(
        &mut self,
        head: Head,
        bracket: Place,
        due: Due,
        sort: Sort,
    ) -> Result<bool, Memory>
        ensures { Went (close_frame (First head bracket) self.old.frames (put_due due self.old.nodes) sort) self.old result self.new }
    {
        if sort.is_close() {
            self.put_due(due)?;
            self.head = head;
            self.last = Last::Done;
            return Ok(true);
        }
        if sort.is_comma() {
            self.put_due(due)?;
            self.open(Frame::Second(head, bracket))?;
            return Ok(true);
        }
        Ok(false)
    }

    fn close_second(
        &mut self,
        head: Head,
        bracket: Place,
        due: Due,
        sort: Sort,
    ) -> Result<bool, Memory>
        ensures { Went (close_frame (Second head bracket) self.old.frames (put_due due self.old.nodes) sort) self.old result self.new }
    {
        if !sort.is_close() {
            return Ok(false);
        }
        self.put_due(due)?;
        self.put(PatNode::Pair(bracket))?;
        self.head = head;
        self.last = Last::Done;
        Ok(true)
    }

    fn close_given(
        &mut self,
        head: Head,
        field: OpenField,
        due: Due,
        sort: Sort,
    ) -> Result<bool, Memory>
        ensures { Went (close_frame (Given head field) self.old.frames (put_due due self.old.nodes) sort) self.old result self.new }
    {
        if sort.is_bar() {
            self.put_due(due)?;
            self.put(PatNode::Field(field.field_place, field.field))?;
            self.head = head;
            self.last = Last::Parted(field.place, field.con, field.count);
            return Ok(true);
        }
        if sort.is_close_square() {
            self.put_due(due)?;
            self.put(PatNode::Field(field.field_place, field.field))?;
            self.put(PatNode::Fields(field.place, field.con, field.count))?;
            self.head = head;
            self.last = Last::Done;
            return Ok(true);
        }
        Ok(false)
    }

    fn close_frame(&mut self, frame: Frame, due: Due, sort: Sort) -> Result<bool, Memory>
        ensures { Went (close_frame frame self.old.frames (put_due due self.old.nodes) sort) self.old result self.new }
    {
        match frame {
            Frame::First(head, bracket) => self.close_first(head, bracket, due, sort),
            Frame::Second(head, bracket) => self.close_second(head, bracket, due, sort),
            Frame::Given(head, field) => self.close_given(head, field, due, sort),
        }
    }

    fn close(&mut self, due: Due, sort: Sort) -> Result<bool, Memory>
        ensures { Went (close self.old.frames (put_due due self.old.nodes) sort) self.old result self.new }
    {
        match self.frames.pop() {
            Some(frame) => {
                let closed = self.close_frame(frame, due, sort)?;
                if !closed {
                    self.frames.push(frame)?;
                }
                Ok(closed)
            }
            None => Ok(false),
        }
    }

    fn go_on(
        &mut self,
        head: Head,
        simple: Option<PatNode>,
        place: Place,
        sort: Sort,
    ) -> Result<bool, Memory>
        ensures { Went (go_on self.old.frames head (put_node simple self.old.nodes) place sort) self.old result self.new }
    {
        match more_start(head, place, sort) {
            Some(start) => {
                self.put_node(simple)?;
                self.head = head.more()?;
                self.put_start(start)?;
                Ok(true)
            }
            None => self.close(
                Due {
                    simple,
                    whole: head.node(),
                },
                sort,
            ),
        }
    }

    fn take_opened(&mut self, bracket: Place, place: Place, sort: Sort) -> Result<bool, Memory>
        ensures { Went (move_opened self.old.frames self.old.head self.old.nodes bracket place sort) self.old result self.new }
    {
        if sort.is_close() {
            self.put(PatNode::Unit(bracket))?;
            self.last = Last::Done;
            return Ok(true);
        }
        match start_of(place, sort) {
            Some(start) => {
                self.open(Frame::First(self.head, bracket))?;
                self.put_start(start)?;
                Ok(true)
            }
            None => Ok(false),
        }
    }

    fn take_named(
        &mut self,
        con_place: Place,
        con: Name,
        place: Place,
        sort: Sort,
    ) -> Result<bool, Memory>
        ensures { Went (move_named self.old.frames self.old.head self.old.nodes con_place con place sort) self.old result self.new }
    {
        if sort.is_open_square() {
            self.last = Last::Bracketed(con_place, con);
            return Ok(true);
        }
        self.go_on(
            self.head.named(con_place, con),
            self.head.named_node(con_place, con),
            place,
            sort,
        )
    }

    fn take_field(
        &mut self,
        con_place: Place,
        con: Name,
        count: u32,
        place: Place,
        sort: Sort,
    ) -> Result<bool, Memory>
        ensures { Went (move_field self.old.frames self.old.head self.old.nodes con_place con count place sort) self.old result self.new }
    {
        match sort {
            Sort::Variable(field) => {
                let count = one_more(count)?;
                self.last = Last::Chosen(OpenField {
                    place: con_place,
                    con,
                    count,
                    field_place: place,
                    field,
                });
                Ok(true)
            }
            _ => Ok(false),
        }
    }

    fn take_bracketed(
        &mut self,
        con_place: Place,
        con: Name,
        place: Place,
        sort: Sort,
    ) -> Result<bool, Memory>
        ensures { Went (move_bracketed self.old.frames self.old.head self.old.nodes con_place con place sort) self.old result self.new }
    {
        if sort.is_close_square() {
            self.put(PatNode::Fields(con_place, con, 0))?;
            self.last = Last::Done;
            return Ok(true);
        }
        self.take_field(con_place, con, 0, place, sort)
    }

    fn take_chosen(&mut self, field: OpenField, sort: Sort) -> Result<bool, Memory>
        ensures { Went (move_chosen (Given self.old.head field) self.old.frames self.old.nodes (node.Var field.field_place field.field) sort) self.old result self.new }
    {
        if sort.is_equals() {
            self.open(Frame::Given(self.head, field))?;
            return Ok(true);
        }
        self.close_frame(
            Frame::Given(self.head, field),
            Due {
                simple: Some(PatNode::Var(field.field_place, field.field)),
                whole: None,
            },
            sort,
        )
    }

    fn restart(&mut self, head: Head)
        ensures { self.new ≡ at_last [] head Wanted [] }
    {
        self.frames.clear();
        self.nodes.truncate(0);
        self.head = head;
        self.last = Last::Wanted;
    }

    /// Goes back to the start of a reader of one pattern. Takes no memory.
    pub fn restart_pat(&mut self)
        ensures { self.new ≡ pat_start }
    {
        self.restart(Head::Whole);
    }

    /// Takes the token as a reader of one pattern takes its first. If it does not, nothing changes. After `Memory` the
    /// reader is not used again.
    #[tactic(auto, unfolding(crate::specs::Moves::moved))]
    pub fn begin_pat(&mut self, token: &Token) -> Result<bool, Memory>
        ensures { Went (moved pat_start token.now) self.old result self.new }
    {
        match start_of(token.place, sort_of(token.kind)) {
            Some(start) => {
                self.restart(Head::Whole);
                self.put_start(start)?;
                Ok(true)
            }
            None => Ok(false),
        }
    }

    /// Takes the token as a reader of one simple pattern takes its first. If it does not, nothing changes. After `Memory`
    /// the reader is not used again.
    #[tactic(auto, unfolding(crate::specs::Moves::moved))]
    pub fn begin_apat(&mut self, token: &Token) -> Result<bool, Memory>
        ensures { Went (moved apat_start token.now) self.old result self.new }
    {
        match start_of(token.place, sort_of(token.kind)) {
            Some(start) => {
                self.restart(Head::Single);
                self.put_start(start)?;
                Ok(true)
            }
            None => Ok(false),
        }
    }

    /// Takes the token, if it may stand here. If not, nothing changes. After `Memory` the reader is not used again.
    #[tactic(auto, unfolding(crate::specs::Moves::moved))]
    pub fn take(&mut self, token: &Token) -> Result<bool, Memory>
        ensures { Took self.old token.now result self.new }
    {
        let sort = sort_of(token.kind);
        let place = token.place;
        match self.last {
            Last::Wanted => self.begin(place, sort),
            Last::Opened(bracket) => self.take_opened(bracket, place, sort),
            Last::Named(con_place, con) => self.take_named(con_place, con, place, sort),
            Last::Done => self.go_on(self.head, None, place, sort),
            Last::Bracketed(con_place, con) => self.take_bracketed(con_place, con, place, sort),
            Last::Parted(con_place, con, count) => {
                self.take_field(con_place, con, count, place, sort)
            }
            Last::Chosen(field) => self.take_chosen(field, sort),
        }
    }

    /// The tokens taken are whole. What follows is then taken only if it begins a simple pattern, or is `[`. Takes no
    /// memory.
    #[tactic(auto, using(crate::proofs::Ending::ends_before), unfolding(crate::specs::Moves::done))]
    pub fn is_done(&self) -> bool
        ensures done { result ≡ is_some (done self.now) }
        ensures ends { IsTrue result → EndsBefore self.now }
    {
        self.frames.is_empty() && matches!(self.last, Last::Named(_, _) | Last::Done)
    }

    fn due_last(&self) -> Option<Due>
        ensures { option_map (λ due. put_due due self.now.nodes) result ≡ done_last self.now.last self.now.head self.now.nodes }
    {
        match self.last {
            Last::Named(place, con) => Some(Due {
                simple: self.head.named_node(place, con),
                whole: self.head.named(place, con).node(),
            }),
            Last::Done => Some(Due {
                simple: None,
                whole: self.head.node(),
            }),
            _ => None,
        }
    }

    /// The nodes that are due after those that are out, if the tokens taken are whole. Takes no memory.
    #[tactic(auto, unfolding(crate::specs::Moves::done))]
    pub fn due(&self) -> Option<Due>
        ensures { option_map (λ due. put_due due self.now.nodes) result ≡ done self.now }
    {
        if !self.frames.is_empty() {
            return None;
        }
        self.due_last()
    }

    /// The nodes of what was read, if it is whole.
    pub fn finish(mut self) -> Result<Option<List<PatNode>>, Memory>
        ensures { IfOk result (λ nodes. nodes ≡ done self) }
    {
        let Some(due) = self.due() else {
            return Ok(None);
        };
        self.put_due(due)?;
        let PatReader { nodes, .. } = self;
        Ok(Some(nodes))
    }
}
