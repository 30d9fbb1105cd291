ghost use Rattle.std.specs.Prelude.{◌≡◌, IfErr, IsTrue};
ghost use Rattle.hb_base.specs.Faults.{IfRefused};
ghost use Rattle.hb_scope.specs.Faults.{is_of_names};

use crate::declared::Declared;
use crate::faults::Faults;
use crate::lone::lone_names;
use crate::methods::Methods;
use crate::name_set::NameSet;
use crate::type_names::TypeNames;
use crate::uses::Uses;
use hb_base::{Code, Fault, List, Memory, Names, Place, fixed, refused};
use hb_resolved::{Resolved, Target};
use hb_settle::{Settled, settle};
use hb_tree::{NameAt, Program};
use std::alloc::Global;

/// What is found in a settled program: the targets of its nodes, and the earliest fault of each rule.
#[derive(Drop)]
struct Found {
    targets: List<Target>,
    faults: Faults,
}

/// What is declared, looked through for names that come twice, or without the other of signature and definition.
fn declare(
    alloc: Global,
    names: u32,
    settled: &Settled,
    faults: &mut Faults,
) -> Result<Declared, Memory> {
    let decls = &settled.program.decls;
    let mut declared = Declared::new(alloc, names)?;
    declared.take_in(decls, faults);
    lone_names(&declared, decls, faults);
    Ok(declared)
}

/// Looks through a settled program.
fn look_through(alloc: Global, names: u32, settled: &Settled) -> Result<Found, Memory> {
    let decls = &settled.program.decls;
    let mut faults = Faults {
        unbound: None,
        twice: settled.uneven,
        clash: settled.clash,
        lone: None,
    };
    let declared = declare(alloc, names, settled, &mut faults)?;
    let has_main = declared.defined.has(fixed::MAIN);
    let Declared { tables, sorts, .. } = declared;
    let mut types = TypeNames::new(alloc, names, sorts)?;
    types.decls(decls, &mut faults);
    let mut uses = Uses::new(alloc, names, settled.nodes, tables, faults)?;
    uses.decls(decls)?;
    let Uses {
        targets,
        mut faults,
        ..
    } = uses;
    let methods = Methods::of(alloc, names, decls)?;
    methods.instances(decls, &mut faults);
    if !has_main {
        faults.put_unbound(Place { line: 1, col: 1 }, fixed::MAIN);
    }
    Ok(Found { targets, faults })
}

/// The refusal for a name.
fn told(alloc: Global, names: &Names, code: Code, at: NameAt) -> Fault
    ensures { IfRefused (λ refusal. refusal.code ≡ code) result }
{
    match names.text(at.name) {
        Some(text) => refused(alloc, code, at.place, text),
        None => refused(alloc, code, at.place, b""),
    }
}

/// A program in which this was found, or its refusal.
fn judge(alloc: Global, names: Names, program: Program, found: Found) -> Result<Resolved, Fault>
    ensures faults { IfErr result (IfRefused (λ refusal. IsTrue (is_of_names refusal.code))) }
{
    let Found { targets, faults } = found;
    match faults.first() {
        None => Ok(Resolved {
            program,
            targets,
            names,
        }),
        Some((code, at)) => Err(told(alloc, &names, code, at)),
    }
}

/// The prelude and a source as one program whose names have their targets. `names` is the table with which both were read, and
/// the places of the prelude are 0:0.
///
/// A fault is E06, E07, E08 or E09, the first of these that there is, at its earliest place, with the name as detail.
pub fn resolve(
    alloc: Global,
    names: Names,
    prelude: Program,
    source: Program,
) -> Result<Resolved, Fault>
    ensures faults { IfErr result (IfRefused (λ refusal. IsTrue (is_of_names refusal.code))) }
{
    let count = names.count();
    match settle(alloc, count, prelude, source) {
        Ok(settled) => match look_through(alloc, count, &settled) {
            Ok(found) => judge(alloc, names, settled.program, found),
            Err(_memory) => Err(Fault::Memory),
        },
        Err(_memory) => Err(Fault::Memory),
    }
}
