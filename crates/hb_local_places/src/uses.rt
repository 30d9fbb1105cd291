use crate::locals::Locals;
use crate::origins::Origins;
use hb_mil::{Atom, Block, Operation, Tail};

/// What a local is needed for.
#[derive(Clone, Copy, Debug, PartialEq, Eq)]
pub(crate) enum Use {
    /// For nothing.
    Nothing,
    /// It is one word, and the block whose step sets it goes on by it.
    Tested,
    /// For more.
    Kept,
}

/// Notes what the steps and the tail of a block need of its locals, the first of which has this number.
pub(crate) fn note_uses(origins: &mut Origins, locals: &Locals, first: usize, block: &Block) {
    for step in block.steps.as_slice() {
        note_operation(origins, first, &step.operation);
    }
    match &block.tail {
        Tail::Return(a) => note_atom(origins, first, *a),
        Tail::Jump(_, arguments) => note_atoms(origins, first, arguments.as_slice()),
        Tail::Enter(a, b) => note_two(origins, first, *a, *b),
        Tail::Run(a) => note_atom(origins, first, *a),
        Tail::Switch(a, _) => note_tested(origins, locals, first, block.params.len(), *a),
        Tail::Goto(_, _, Some(a)) => note_atom(origins, first, *a),
        Tail::Goto(_, _, None) => {}
        Tail::Halt(a) => note_atom(origins, first, *a),
        Tail::Done => {}
    }
}

/// An atom is needed.
fn note_atom(origins: &mut Origins, first: usize, a: Atom) {
    if let Atom::Local(local) = a {
        origins.put_use(first.saturating_add(local as usize), Use::Kept);
    }
}

fn note_two(origins: &mut Origins, first: usize, a: Atom, b: Atom) {
    note_atom(origins, first, a);
    note_atom(origins, first, b);
}

fn note_atoms(origins: &mut Origins, first: usize, atoms: &[Atom]) {
    for a in atoms {
        note_atom(origins, first, *a);
    }
}

/// A block goes on by an atom. So many of its locals are parameters.
fn note_tested(origins: &mut Origins, locals: &Locals, first: usize, params: usize, a: Atom) {
    if let Atom::Local(local) = a {
        let number = first.saturating_add(local as usize);
        let is_set_here = local as usize >= params;
        if is_set_here && locals.words(number) == 1 {
            origins.put_use(number, Use::Tested);
            return;
        }
        origins.put_use(number, Use::Kept);
    }
}

/// What a step works on is needed.
fn note_operation(origins: &mut Origins, first: usize, operation: &Operation) {
    match operation {
        Operation::Primitive(_, _, atoms) => note_atoms(origins, first, atoms.as_slice()),
        Operation::Make(_, _, atoms) => note_atoms(origins, first, atoms.as_slice()),
        Operation::Build(_, atoms) => note_atoms(origins, first, atoms.as_slice()),
        Operation::Call(_, atoms) => note_atoms(origins, first, atoms.as_slice()),
        Operation::Place(a, _, _, b) => note_two(origins, first, *a, *b),
        Operation::Apply(a, b) => note_two(origins, first, *a, *b),
        Operation::WriteCell(a, _, b) => note_two(origins, first, *a, *b),
        Operation::WritePort(a, _, b) => note_two(origins, first, *a, *b),
        Operation::Initialise(a, _, b) => note_two(origins, first, *a, *b),
        Operation::CellAt(_, _, indices) => {
            for (index, _) in indices.as_slice() {
                note_atom(origins, first, *index);
            }
        }
        _ => note_single(origins, first, operation),
    }
}

/// What a step that works on one atom works on is needed.
fn note_single(origins: &mut Origins, first: usize, operation: &Operation) {
    match operation {
        Operation::Cut(a, _, _) => note_atom(origins, first, *a),
        Operation::Has(a, _, _) => note_atom(origins, first, *a),
        Operation::Offset(a, _) => note_atom(origins, first, *a),
        Operation::Part(a, _, _) => note_atom(origins, first, *a),
        Operation::Perform(a) => note_atom(origins, first, *a),
        Operation::ReadCell(a, _) => note_atom(origins, first, *a),
        Operation::ReadPort(a, _) => note_atom(origins, first, *a),
        _ => {}
    }
}
