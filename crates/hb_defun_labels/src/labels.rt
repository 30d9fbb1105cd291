use crate::classes::copied_numbers;
use hb_area::CellForm;
use hb_base::{List, Memory};
use hb_defun_base::{Blocks, Ground, is_action};
use hb_mil::{Atom, Operation, Tail};
use hb_values::{Class, Label, Member};
use std::alloc::Global;

/// The only captured value, or the first one: a reference, a port, a result or a code.
const FIRST: Atom = Atom::Local(0);

/// The value that is written.
const SECOND: Atom = Atom::Local(1);

/// How a cell stands, by its bytes and its order, 1 where the most significant byte comes first.
fn cell_form(bytes: u64, order: u64) -> CellForm {
    let big = order == 1;
    match bytes {
        1 => CellForm { bytes: 1, big },
        2 => CellForm { bytes: 2, big },
        _ => CellForm { bytes: 4, big },
    }
}

/// The form of the cell of a primitive: its last two numbers.
fn primitive_cell(numbers: &[u64]) -> CellForm {
    match numbers {
        [.., bytes, order] => cell_form(*bytes, *order),
        _ => cell_form(4, 0),
    }
}

/// The bytes of the port of a primitive: its last number.
fn port_bytes(numbers: &[u64]) -> u8 {
    match numbers {
        [.., bytes] => match u8::try_from(*bytes) {
            Ok(bytes) => bytes,
            Err(_) => 4,
        },
        _ => 4,
    }
}

/// The types of a block's parameters: what a label has captured, and the argument.
fn params(alloc: Global, label: &Label, takes: Option<u32>) -> Result<List<u32>, Memory> {
    let mut params = List::of(Vec::new(alloc));
    for of in label.captures.as_slice() {
        params.push(*of)?;
    }
    if let Some(of) = takes {
        params.push(of)?;
    }
    Ok(params)
}

/// The first so many locals.
fn locals(alloc: Global, count: u32) -> Result<List<Atom>, Memory> {
    let mut atoms = List::of(Vec::new(alloc));
    for place in 0..count {
        atoms.push(Atom::Local(place))?;
    }
    Ok(atoms)
}

/// What a label does with one argument more, where that is no call of a body: a function that has taken it, or a value.
fn with_one_more(
    alloc: Global,
    ground: &Ground,
    gives: u32,
    label: &Label,
    all: List<Atom>,
) -> Result<Operation, Memory> {
    let numbers = copied_numbers(alloc, &label.numbers)?;
    let count = label.taken.saturating_add(1);
    let is_whole = count >= ground.arity(label.member);
    match label.member {
        Member::Primitive(primitive) if is_whole && !is_action(primitive) => {
            Ok(Operation::Primitive(primitive, numbers, all))
        }
        Member::Constructor(con) if is_whole => Ok(Operation::Build(ground.index(con), all)),
        _ => {
            let class = ground.class(gives);
            let next = ground.label(class, label.member, label.numbers.as_slice(), count);
            Ok(Operation::Make(class, next, all))
        }
    }
}

/// The block at which a label of a class of functions begins.
fn function_block(
    alloc: Global,
    blocks: &mut Blocks,
    ground: &Ground,
    class: &Class,
    label: &Label,
) -> Result<u32, Memory> {
    if let Member::Body(body) = label.member {
        if label.taken.saturating_add(1) >= ground.params(body) {
            return Ok(body);
        }
    }
    let params = params(alloc, label, class.takes)?;
    let number = blocks.begin(true, params)?;
    let count = blocks.kept()?;
    let all = locals(alloc, count)?;
    let operation = with_one_more(alloc, ground, class.gives, label, all)?;
    let value = blocks.step(operation, class.gives)?;
    blocks.end(Tail::Return(value));
    Ok(number)
}

/// The open block gives `()`.
fn gives_unit(alloc: Global, blocks: &mut Blocks, of: u32) -> Result<(), Memory> {
    let none = List::of(Vec::new(alloc));
    let unit = blocks.step(Operation::Build(0, none), of)?;
    blocks.end(Tail::Return(unit));
    Ok(())
}

/// The open block runs a primitive action, which gives a value of this type.
fn runs(
    alloc: Global,
    blocks: &mut Blocks,
    ground: &Ground,
    primitive: u32,
    numbers: &[u64],
    of: u32,
) -> Result<(), Memory> {
    let nothing = ground.kinds.nothing;
    match primitive {
        32 => {
            let read = Operation::ReadCell(FIRST, primitive_cell(numbers));
            let value = blocks.step(read, of)?;
            blocks.end(Tail::Return(value));
        }
        33 => {
            let write = Operation::WriteCell(FIRST, primitive_cell(numbers), SECOND);
            let _done = blocks.step(write, nothing)?;
            gives_unit(alloc, blocks, of)?;
        }
        34 => {
            let read = Operation::ReadPort(FIRST, port_bytes(numbers));
            let value = blocks.step(read, of)?;
            blocks.end(Tail::Return(value));
        }
        35 => {
            let write = Operation::WritePort(FIRST, port_bytes(numbers), SECOND);
            let _done = blocks.step(write, nothing)?;
            gives_unit(alloc, blocks, of)?;
        }
        36 => blocks.end(Tail::Return(FIRST)),
        37 => blocks.end(Tail::Halt(FIRST)),
        _ => {}
    }
    Ok(())
}

/// The block at which a label of a class of actions begins.
fn action_block(
    alloc: Global,
    blocks: &mut Blocks,
    ground: &Ground,
    class: &Class,
    label: &Label,
) -> Result<u32, Memory> {
    if let Member::Body(body) = label.member {
        return Ok(body);
    }
    let params = params(alloc, label, None)?;
    let number = blocks.begin(true, params)?;
    if let Member::Primitive(primitive) = label.member {
        runs(
            alloc,
            blocks,
            ground,
            primitive,
            label.numbers.as_slice(),
            class.gives,
        )?;
    }
    Ok(number)
}

fn class_blocks(
    alloc: Global,
    blocks: &mut Blocks,
    ground: &Ground,
    class: &Class,
) -> Result<List<u32>, Memory> {
    let mut numbers = List::of(Vec::new(alloc));
    blocks.body = None;
    blocks.result = class.gives;
    for label in class.labels.as_slice() {
        let number = match class.takes {
            Some(_) => function_block(alloc, blocks, ground, class, label)?,
            None => action_block(alloc, blocks, ground, class, label)?,
        };
        numbers.push(number)?;
    }
    Ok(numbers)
}

/// For each class the blocks at which its labels begin: of a body to which all arguments are there its own first block, which has
/// the body's number, and else a new block.
pub fn label_blocks(
    alloc: Global,
    blocks: &mut Blocks,
    ground: &Ground,
) -> Result<List<List<u32>>, Memory> {
    let mut all = List::of(Vec::new(alloc));
    for class in ground.map.classes.as_slice() {
        let numbers = class_blocks(alloc, blocks, ground, class)?;
        all.push(numbers)?;
    }
    Ok(all)
}
