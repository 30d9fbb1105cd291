use hb_area::CellForm;
use hb_base::{List, Memory};
use hb_defun_base::{Blocks, Ground};
use hb_mil::{Atom, Operation, Tail};
use hb_mono::Start;
use std::alloc::Global;

/// The number of the primitive that adds words, and of the one that says whether a word is less than another.
const ADD: u32 = 0;

const LESS: u32 = 12;

/// Where a part of an area is, but for the indices round it.
#[derive(Clone, Copy)]
struct Spot {
    area: u32,
    offset: u32,
}

/// The indices of the arrays round a part, the outermost first, and of those that have more than one element also the bytes from one
/// element to the next.
#[derive(Drop)]
struct Around {
    indices: Vec<Atom>,
    strides: Vec<(Atom, u32)>,
}

impl Around {
    fn indices(&self, alloc: Global) -> Result<List<Atom>, Memory> {
        let mut copy = List::of(Vec::new(alloc));
        for index in self.indices.as_slice() {
            copy.push(*index)?;
        }
        Ok(copy)
    }

    fn strides(&self, alloc: Global) -> Result<List<(Atom, u32)>, Memory> {
        let mut copy = List::of(Vec::new(alloc));
        for stride in self.strides.as_slice() {
            copy.push(*stride)?;
        }
        Ok(copy)
    }
}

/// A list of two.
fn two<T: Drop>(alloc: Global, first: T, second: T) -> Result<List<T>, Memory> {
    let mut list = List::of(Vec::new(alloc));
    list.push(first)?;
    list.push(second)?;
    Ok(list)
}

/// A cell gets what a body gives.
fn cell(
    alloc: Global,
    blocks: &mut Blocks,
    ground: &Ground,
    form: CellForm,
    body: u32,
    spot: Spot,
    around: &Around,
) -> Result<(), Memory> {
    let kept = blocks.kept()?;
    let indices = around.indices(alloc)?;
    let value = blocks.step(Operation::Call(body, indices), ground.result(body))?;
    let strides = around.strides(alloc)?;
    let reference = blocks.step(
        Operation::CellAt(spot.area, spot.offset, strides),
        ground.kinds.word,
    )?;
    let _done = blocks.step(
        Operation::Initialise(reference, form, value),
        ground.kinds.nothing,
    )?;
    blocks.keep(kept)
}

/// The head of a loop, whose index stands behind so many locals.
#[derive(Clone, Copy)]
struct Loop {
    head: u32,
    kept: u32,
}

/// A loop begins: the index is 0.
fn loop_begins(blocks: &mut Blocks, ground: &Ground) -> Result<Loop, Memory> {
    let kept = blocks.kept()?;
    let head = blocks.behind(kept, Some(ground.kinds.word))?;
    blocks.end(Tail::Goto(head, kept, Some(Atom::Number(0))));
    blocks.open(head)?;
    Ok(Loop { head, kept })
}

/// The next turn of a loop, or its end after so many.
fn loop_ends(
    alloc: Global,
    blocks: &mut Blocks,
    ground: &Ground,
    turns: Loop,
    count: u64,
) -> Result<(), Memory> {
    let Loop { head, kept } = turns;
    let terms = two(alloc, Atom::Local(kept), Atom::Number(1))?;
    let next = blocks.step(
        Operation::Primitive(ADD, List::of(Vec::new(alloc)), terms),
        ground.kinds.word,
    )?;
    let terms = two(alloc, next, Atom::Number(count))?;
    let more = blocks.step(
        Operation::Primitive(LESS, List::of(Vec::new(alloc)), terms),
        ground.kinds.truth,
    )?;
    let done = blocks.fork()?;
    let again = blocks.fork()?;
    let targets = two(alloc, done, again)?;
    blocks.end(Tail::Switch(more, targets));
    blocks.finish(again, Tail::Goto(head, kept, Some(next)));
    blocks.open(done)?;
    blocks.keep(kept)
}

/// A part of an area gets its first values.
#[cycle(starts)]
fn part(
    alloc: Global,
    blocks: &mut Blocks,
    ground: &Ground,
    start: &Start,
    spot: Spot,
    around: &mut Around,
) -> Result<(), Memory> {
    match start {
        Start::Zero => Ok(()),
        Start::Cell(form, body) => cell(alloc, blocks, ground, *form, *body, spot, around),
        Start::Each(count, stride, element) => {
            if *count == 0 {
                return Ok(());
            }
            if *count == 1 {
                around.indices.push(Atom::Number(0))?;
                part(alloc, blocks, ground, element, spot, around)?;
                let _index = around.indices.pop();
                return Ok(());
            }
            let turns = loop_begins(blocks, ground)?;
            let index = Atom::Local(turns.kept);
            around.indices.push(index)?;
            around.strides.push((index, *stride))?;
            part(alloc, blocks, ground, element, spot, around)?;
            let _index = around.indices.pop();
            let _stride = around.strides.pop();
            loop_ends(alloc, blocks, ground, turns, *count)
        }
        Start::Fields(fields) => { parts(alloc, blocks, ground, fields.as_slice(), spot, around) }
    }
}

/// Fields of a struct get their first values.
#[cycle(starts)]
fn parts(
    alloc: Global,
    blocks: &mut Blocks,
    ground: &Ground,
    fields: &[(u32, Start)],
    spot: Spot,
    around: &mut Around,
) -> Result<(), Memory> {
    for (offset, start) in fields {
        let inside = Spot {
            area: spot.area,
            offset: spot.offset.saturating_add(*offset),
        };
        part(alloc, blocks, ground, start, inside, around)?;
    }
    Ok(())
}

/// All areas get their first values, in text order.
fn areas(alloc: Global, blocks: &mut Blocks, ground: &Ground) -> Result<(), Memory> {
    let mut around = Around {
        indices: Vec::new(alloc),
        strides: Vec::new(alloc),
    };
    let mut area: u32 = 0;
    for start in ground.mono.starts.as_slice() {
        let spot = Spot { area, offset: 0 };
        part(alloc, blocks, ground, start, spot, &mut around)?;
        area = area.saturating_add(1);
    }
    Ok(())
}

/// The blocks with which the program begins, by their numbers, the first one first: the cells get their first values, then `main`,
/// which is the first body, is called, and its value is run.
pub fn start_blocks(
    alloc: Global,
    blocks: &mut Blocks,
    ground: &Ground,
) -> Result<List<u32>, Memory> {
    blocks.body = None;
    blocks.result = ground.kinds.nothing;
    let none = List::of(Vec::new(alloc));
    let entry = blocks.begin(false, none)?;
    areas(alloc, blocks, ground)?;
    let none = List::of(Vec::new(alloc));
    let main = blocks.step(Operation::Call(0, none), ground.result(0))?;
    let _done = blocks.step(Operation::Perform(main), ground.kinds.nothing)?;
    blocks.end(Tail::Done);
    let mut starts = List::of(Vec::new(alloc));
    for number in entry..blocks.count()? {
        starts.push(number)?;
    }
    Ok(starts)
}
