use hb_base::{Memory, Place};
use hb_classes::{ClassDecl, ClassTable, Dependency, InstanceDecl, InstanceIndex};
use hb_types::Types;
use hb_unique::{Paired, UniqueTypes, may_agree, take_equations, unknowns_of};
use hb_unknowns::Pair;
use std::alloc::Global;

/// The items at some positions.
pub fn at_positions(
    alloc: Global,
    items: &[usize],
    positions: &[usize],
) -> Result<Vec<usize>, Memory> {
    let mut all = Vec::new(alloc);
    for position in positions {
        if let Some(item) = items.get(*position) {
            all.push(*item)?;
        }
    }
    Ok(all)
}

/// Two heads in one table, with unknowns for their variables, those of the second others than those of the first.
#[derive(Drop)]
struct Heads {
    types: UniqueTypes,
    first: Vec<usize>,
    second: Vec<usize>,
}

/// The places of so many unknowns, from a number on.
fn unknowns(
    alloc: Global,
    types: &mut UniqueTypes,
    from: usize,
    count: usize,
) -> Result<Vec<usize>, Memory> {
    let mut all = Vec::new(alloc);
    for number in 0..count {
        let place = types.open(from.saturating_add(number) as u64)?;
        all.push(place)?;
    }
    Ok(all)
}

impl Heads {
    fn of(
        alloc: Global,
        table: &Types,
        first: &InstanceDecl,
        second: &InstanceDecl,
    ) -> Result<Heads, Memory> {
        let mut types = UniqueTypes::new(alloc);
        let for_first = unknowns(alloc, &mut types, 0, first.variables)?;
        let for_second = unknowns(alloc, &mut types, first.variables, second.variables)?;
        let one = types.copy_each(table, first.head.as_slice(), &for_first)?;
        let other = types.copy_each(table, second.head.as_slice(), &for_second)?;
        Ok(Heads {
            types,
            first: one,
            second: other,
        })
    }

    /// The equations between both heads at some positions.
    fn pairs(&self, alloc: Global, positions: &[usize]) -> Result<Vec<Pair>, Memory> {
        let lefts = at_positions(alloc, &self.first, positions)?;
        let rights = at_positions(alloc, &self.second, positions)?;
        let mut pairs = Vec::new(alloc);
        for (left, right) in lefts.iter().zip(rights.iter()) {
            pairs.push(Pair {
                left: *left,
                right: *right,
            })?;
        }
        Ok(pairs)
    }

    /// Whether both heads can be the same at some positions.
    fn can_agree(&self, alloc: Global, positions: &[usize]) -> Result<bool, Memory> {
        let mut unknowns = unknowns_of(alloc, self.types.types())?;
        let pairs = self.pairs(alloc, positions)?;
        let paired = take_equations(alloc, &mut unknowns, &pairs)?;
        Ok(paired == Paired::Agreed)
    }

    /// Whether both heads can be the same at the left of a dependency and yet differ at its right.
    fn can_differ(&self, alloc: Global, dependency: &Dependency) -> Result<bool, Memory> {
        let mut unknowns = unknowns_of(alloc, self.types.types())?;
        let lefts = self.pairs(alloc, dependency.from.as_slice())?;
        if take_equations(alloc, &mut unknowns, &lefts)? == Paired::Clashed {
            return Ok(false);
        }
        let normal = unknowns.normal(alloc)?;
        let first = normal.types.normal(alloc)?;
        let rights = self.pairs(alloc, dependency.to.as_slice())?;
        Ok(!all_same(&rights, normal.places.as_slice(), first.as_slice()))
    }
}

/// The first place of the type that stands at a place, by the normal types of all places and their first places.
fn first_place(normal: &[usize], first: &[usize], place: usize) -> Option<usize> {
    let at = normal.get(place)?;
    first.get(*at).copied()
}

/// Whether the types of each pair are the same.
fn all_same(pairs: &[Pair], normal: &[usize], first: &[usize]) -> bool {
    pairs.iter().all(|pair| {
        first_place(normal, first, pair.left) == first_place(normal, first, pair.right)
    })
}

/// The numbers from 0 and below a count.
fn numbers(alloc: Global, count: usize) -> Result<Vec<usize>, Memory> {
    let mut all = Vec::new(alloc);
    for number in 0..count {
        all.push(number)?;
    }
    Ok(all)
}

/// Whether two heads can be the same at some positions as far as their constructors tell.
fn may_agree_at(
    alloc: Global,
    table: &ClassTable,
    first: &InstanceDecl,
    second: &InstanceDecl,
    positions: &[usize],
) -> Result<bool, Memory> {
    let lefts = at_positions(alloc, first.head.as_slice(), positions)?;
    let rights = at_positions(alloc, second.head.as_slice(), positions)?;
    may_agree(alloc, &table.types, &lefts, &rights)
}

/// Whether two heads have a common instance.
fn have_common_instance(
    alloc: Global,
    table: &ClassTable,
    first: &InstanceDecl,
    second: &InstanceDecl,
) -> Result<bool, Memory> {
    let all = numbers(alloc, first.head.len())?;
    if !may_agree_at(alloc, table, first, second, &all)? {
        return Ok(false);
    }
    let heads = Heads::of(alloc, &table.types, first, second)?;
    heads.can_agree(alloc, &all)
}

/// Whether two heads can agree at the left of a dependency and differ at its right.
fn break_dependency(
    alloc: Global,
    table: &ClassTable,
    dependency: &Dependency,
    first: &InstanceDecl,
    second: &InstanceDecl,
) -> Result<bool, Memory> {
    if !may_agree_at(alloc, table, first, second, dependency.from.as_slice())? {
        return Ok(false);
    }
    let heads = Heads::of(alloc, &table.types, first, second)?;
    heads.can_differ(alloc, dependency)
}

/// Whether an instance belongs to the prelude.
fn is_of_prelude(instance: &InstanceDecl) -> bool {
    instance.place == Place { line: 0, col: 0 }
}

/// How two instances may overlap: by a common instance of their heads, or by a dependency of their class.
#[derive(Clone, Copy)]
enum Overlap<'a> {
    Heads,
    Dependency(&'a Dependency),
}

impl Overlap<'_> {
    /// A parameter for which two instances that overlap have arguments with a common instance.
    fn parameter(self) -> usize {
        match self {
            Overlap::Heads => 0,
            Overlap::Dependency(dependency) => match dependency.from.as_slice().first() {
                Some(parameter) => *parameter,
                None => 0,
            },
        }
    }

    /// Whether two instances overlap in this way.
    fn is_of(
        self,
        alloc: Global,
        table: &ClassTable,
        first: &InstanceDecl,
        second: &InstanceDecl,
    ) -> Result<bool, Memory> {
        match self {
            Overlap::Heads => have_common_instance(alloc, table, first, second),
            Overlap::Dependency(dependency) => break_dependency(
                alloc, table, dependency, first, second,
            ),
        }
    }
}

/// Whether an overlap with another instance is one of the first of both: the other one comes later, or belongs to the
/// prelude.
fn counts(number: usize, other: usize, one: &InstanceDecl) -> bool {
    number < other || number != other && is_of_prelude(one)
}

/// Whether an instance overlaps one of some others in a way that counts as an overlap of the first.
fn overlaps_one_of(
    alloc: Global,
    table: &ClassTable,
    overlap: Overlap,
    number: usize,
    others: &[usize],
) -> Result<bool, Memory> {
    let instances = table.instances.as_slice();
    let Some(instance) = instances.get(number) else {
        return Ok(false);
    };
    for other in others {
        if let Some(one) = instances.get(*other) {
            if counts(number, *other, one) && overlap.is_of(alloc, table, instance, one)? {
                return Ok(true);
            }
        }
    }
    Ok(false)
}

/// Whether an instance overlaps another one in a way, as the first of both.
fn overlaps_another(
    alloc: Global,
    table: &ClassTable,
    index: &InstanceIndex,
    overlap: Overlap,
    number: usize,
) -> Result<bool, Memory> {
    let Some(instance) = table.instances.as_slice().get(number) else {
        return Ok(false);
    };
    let parameter = overlap.parameter();
    let Some(place) = instance.head.as_slice().get(parameter) else {
        return Ok(false);
    };
    let rivals = index.rivals(alloc, &table.types, instance.class, parameter, *place)?;
    overlaps_one_of(alloc, table, overlap, number, &rivals)
}

/// Whether an instance overlaps another one, as the first of both.
fn is_first_of_two(
    alloc: Global,
    table: &ClassTable,
    index: &InstanceIndex,
    class: &ClassDecl,
    number: usize,
) -> Result<bool, Memory> {
    if overlaps_another(alloc, table, index, Overlap::Heads, number)? {
        return Ok(true);
    }
    for dependency in class.dependencies.as_slice() {
        if overlaps_another(alloc, table, index, Overlap::Dependency(dependency), number)? {
            return Ok(true);
        }
    }
    Ok(false)
}

/// The first instance of the source that overlaps another one, by its number. Of two instances of the source that do, it
/// is the earlier one.
pub fn first_overlap(
    alloc: Global,
    table: &ClassTable,
    index: &InstanceIndex,
) -> Result<Option<usize>, Memory> {
    for (number, instance) in table.instances.as_slice().iter().enumerate() {
        if let Some(class) = table.classes.as_slice().get(instance.class as usize) {
            if !is_of_prelude(instance) && is_first_of_two(alloc, table, index, class, number)? {
                return Ok(Some(number));
            }
        }
    }
    Ok(None)
}
