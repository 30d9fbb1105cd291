use crate::counting::{Count, count_types};
use crate::cycles::first_on_cycle;
use crate::overlap::{at_positions, first_overlap};
use crate::supers::{has_superclasses, is_of_declared};
use hb_base::{Memory, Place};
use hb_classes::{ClassDecl, ClassTable, InstanceDecl, InstanceIndex, Predicate};
use std::alloc::Global;

/// A rule of classes and instances.
#[derive(Clone, Copy, PartialEq, Eq)]
pub enum ClassRule {
    /// Each variable of a determined position of an instance's head stands in a determining one too, and each variable of
    /// a context in the head.
    Coverage,
    /// A predicate of a declared class in an instance's context has fewer type nodes than the head, and no variable more
    /// often; no class stands in its own context, directly or through the contexts of further classes.
    Size,
    /// Two heads have no common instance, and those that can agree at a dependency's left do not differ at its right.
    Overlap,
    /// Each method has an equation.
    Missing,
    /// Each predicate of the context of a class follows from the context of its instances.
    Superclass,
}

/// A rule that is broken, and the place of the class or instance.
#[derive(Clone, Copy, PartialEq, Eq)]
pub struct ClassFault {
    pub place: Place,
    pub rule: ClassRule,
}

impl ClassRule {
    /// The word for the rule in a refusal.
    pub fn text(self) -> &'static [u8] {
        match self {
            ClassRule::Coverage => b"coverage",
            ClassRule::Size => b"size",
            ClassRule::Overlap => b"overlap",
            ClassRule::Missing => b"missing",
            ClassRule::Superclass => b"superclass",
        }
    }
}

fn is_before(a: Place, b: Place) -> bool {
    a.line < b.line || a.line == b.line && a.col < b.col
}

/// The fault that comes first in the text; of two at one place the first.
fn first_of(first: Option<ClassFault>, second: Option<ClassFault>) -> Option<ClassFault> {
    match (first, second) {
        (Some(a), Some(b)) => if is_before(b.place, a.place) {
            Some(b)
        } else {
            Some(a)
        },
        (Some(a), None) => Some(a),
        (None, other) => other,
    }
}

/// The fault of a rule that is broken.
fn broken(is_broken: bool, place: Place, rule: ClassRule) -> Option<ClassFault> {
    if is_broken {
        Some(ClassFault { place, rule })
    } else {
        None
    }
}

/// Counts what stands in the types of some predicates together.
fn count_all(alloc: Global, table: &ClassTable, predicates: &[Predicate]) -> Result<Count, Memory> {
    let mut places = Vec::new(alloc);
    for predicate in predicates {
        for arg in predicate.args.as_slice() {
            places.push(*arg)?;
        }
    }
    count_types(alloc, &table.types, &places)
}

/// Whether each variable of a determined position stands in a determining one.
fn is_determined(
    alloc: Global,
    table: &ClassTable,
    class: &ClassDecl,
    head: &[usize],
) -> Result<bool, Memory> {
    for dependency in class.dependencies.as_slice() {
        let from = at_positions(alloc, head, dependency.from.as_slice())?;
        let to = at_positions(alloc, head, dependency.to.as_slice())?;
        let determining = count_types(alloc, &table.types, &from)?;
        let determined = count_types(alloc, &table.types, &to)?;
        if !determining.has_variables_of(&determined) {
            return Ok(false);
        }
    }
    Ok(true)
}

/// Whether an instance keeps the rule of coverage.
fn is_covered(
    alloc: Global,
    table: &ClassTable,
    instance: &InstanceDecl,
    head: &Count,
) -> Result<bool, Memory> {
    let context = count_all(alloc, table, instance.context.as_slice())?;
    if !head.has_variables_of(&context) {
        return Ok(false);
    }
    match table.classes.as_slice().get(instance.class as usize) {
        Some(class) => is_determined(alloc, table, class, instance.head.as_slice()),
        None => Ok(true),
    }
}

/// Whether the predicates of declared classes in the context of an instance are smaller than its head.
fn is_falling(
    alloc: Global,
    table: &ClassTable,
    instance: &InstanceDecl,
    head: &Count,
) -> Result<bool, Memory> {
    for predicate in instance.context.as_slice() {
        if is_of_declared(predicate) {
            let one = count_types(alloc, &table.types, predicate.args.as_slice())?;
            if !one.is_smaller(head) {
                return Ok(false);
            }
        }
    }
    Ok(true)
}

/// The rule of coverage or size that an instance breaks first.
fn fault_of_head(
    alloc: Global,
    table: &ClassTable,
    instance: &InstanceDecl,
) -> Result<Option<ClassFault>, Memory> {
    let head = count_types(alloc, &table.types, instance.head.as_slice())?;
    if !is_covered(alloc, table, instance, &head)? {
        return Ok(broken(true, instance.place, ClassRule::Coverage));
    }
    let is_falling = is_falling(alloc, table, instance, &head)?;
    Ok(broken(!is_falling, instance.place, ClassRule::Size))
}

/// The first fault of heads and contexts of instances by themselves.
fn fault_of_heads(alloc: Global, table: &ClassTable) -> Result<Option<ClassFault>, Memory> {
    let mut first = None;
    for instance in table.instances.as_slice() {
        first = first_of(first, fault_of_head(alloc, table, instance)?);
    }
    Ok(first)
}

/// The first class whose context has a variable that is none of its parameters.
fn fault_of_parameters(alloc: Global, table: &ClassTable) -> Result<Option<ClassFault>, Memory> {
    let mut first = None;
    for class in table.classes.as_slice() {
        let context = count_all(alloc, table, class.context.as_slice())?;
        let is_covered = context.has_variables_below(class.parameters);
        first = first_of(first, broken(!is_covered, class.place, ClassRule::Coverage));
    }
    Ok(first)
}

/// The first class that stands in its own context.
fn fault_of_circles(alloc: Global, table: &ClassTable) -> Result<Option<ClassFault>, Memory> {
    let Some(place) = first_on_cycle(alloc, table)? else {
        return Ok(None);
    };
    match table.classes.as_slice().get(place) {
        Some(class) => Ok(broken(true, class.place, ClassRule::Size)),
        None => Ok(None),
    }
}

/// The first instance without an equation for some method.
fn fault_of_methods(table: &ClassTable) -> Option<ClassFault> {
    let mut first = None;
    for instance in table.instances.as_slice() {
        let fault = broken(!instance.is_complete, instance.place, ClassRule::Missing);
        first = first_of(first, fault);
    }
    first
}

/// The first instance that overlaps another one.
fn fault_of_overlaps(
    alloc: Global,
    table: &ClassTable,
    index: &InstanceIndex,
) -> Result<Option<ClassFault>, Memory> {
    let Some(number) = first_overlap(alloc, table, index)? else {
        return Ok(None);
    };
    match table.instances.as_slice().get(number) {
        Some(instance) => Ok(broken(true, instance.place, ClassRule::Overlap)),
        None => Ok(None),
    }
}

/// The first instance with a superclass that does not follow from its context.
fn fault_of_superclasses(
    alloc: Global,
    table: &ClassTable,
    index: &InstanceIndex,
) -> Result<Option<ClassFault>, Memory> {
    let mut first = None;
    for instance in table.instances.as_slice() {
        let has_all = has_superclasses(alloc, table, index, instance)?;
        first = first_of(
            first,
            broken(!has_all, instance.place, ClassRule::Superclass),
        );
    }
    Ok(first)
}

/// The first class or instance in the text that breaks a rule, with the rule; where it breaks several, the first in the
/// order of the rules. The rule of superclasses is looked at only where no other one is broken.
pub fn first_class_fault(alloc: Global, table: &ClassTable) -> Result<Option<ClassFault>, Memory> {
    let index = InstanceIndex::of(alloc, table)?;
    let coverage = fault_of_parameters(alloc, table)?;
    let circles = fault_of_circles(alloc, table)?;
    let heads = fault_of_heads(alloc, table)?;
    let overlaps = fault_of_overlaps(alloc, table, &index)?;
    let classes = first_of(coverage, circles);
    let instances = first_of(first_of(heads, overlaps), fault_of_methods(table));
    match first_of(classes, instances) {
        Some(fault) => Ok(Some(fault)),
        None => fault_of_superclasses(alloc, table, &index),
    }
}
