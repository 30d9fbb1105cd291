ghost use Rattle.std.specs.Prelude.{◌<◌, ◌^◌, length};

use crate::fault::{AreaRefusal, Faults};
use crate::initial::{Look, is_wrong};
use crate::ports::ports;
use crate::shape::area_form;
use crate::structs::{Structs, form_fault};
use hb_area::{
    AREAS_START, AreaFault, AreaForm, Extent, FieldSpot, Placing, field_spots, is_alignment,
    measure_area, place_areas,
};
use hb_base::{Code, Fault, List, Memory, Name, Names, Port, refused};
use hb_declared::{Area, Declared};
use hb_layouts::Layouts;
use hb_resolved::Resolved;
use hb_tree::{Decl, InitExpr};
use std::alloc::Global;

/// Where an area is, how many bytes it has, and its alignment.
#[derive(Clone, Copy, Debug, PartialEq, Eq)]
pub struct AreaSpot {
    pub name: Name,
    pub address: u32,
    pub size: u32,
    pub align: u32,
}

/// The memory of a program: its areas in text order, the fields of its structs, its ports, and how many bytes all areas take.
#[derive(Drop)]
pub struct Map {
    pub areas: List<AreaSpot>,
    pub fields: List<FieldSpot>,
    pub ports: List<Port>,
    pub bytes: u32,
}

/// The structs of a program, and the bytes and the alignment of each area in text order.
#[derive(Drop)]
pub struct Memories {
    pub structs: Structs,
    pub extents: Vec<Extent>,
    pub ports: List<Port>,
}

/// The initialiser of an area.
fn initialiser<'a>(tree: &'a Resolved, area: &Area) -> Option<&'a InitExpr> {
    match tree.program.decls.as_slice().get(area.decl as usize)? {
        Decl::Area(_, _, Some(init), _, _) => Some(init),
        _ => None,
    }
}

/// The bytes of an area of this form, with the alignment that is written if it is greater.
fn extent(structs: &Structs, form: &AreaForm, aligned: Option<u64>) -> Extent {
    let written = match aligned {
        Some(number) if is_alignment(number) => u32::try_from(number).unwrap_or(1).max(1),
        _ => 1,
    };
    match measure_area(form, &structs.extents) {
        Some(measure) => Extent {
            size: measure.size,
            align: measure.align.max(written),
        },
        None => Extent {
            size: 0,
            align: written,
        },
    }
}

impl Look<'_> {
    fn begins_wrong(&self, tree: &Resolved, area: &Area) -> bool {
        match initialiser(tree, area) {
            Some(init) => is_wrong(init, *self, &area.of.types, area.of.body),
            None => {
                let structs = self.structs;
                structs.has_reference(self.layouts, &area.of.types, area.of.body)
            }
        }
    }

    /// Looks at one area, and answers its extent.
    fn area(
        &self,
        alloc: Global,
        tree: &Resolved,
        area: &Area,
        faults: &mut Faults,
    ) -> Result<Extent, Memory> {
        let form = area_form(alloc, self.layouts, &area.of.types, area.of.body)?;
        if let Some(number) = area.aligned {
            if !is_alignment(number) {
                faults.put_area(area.place, AreaFault::Align);
            }
        }
        if let Some(fault) = form_fault(self.structs, &form) {
            faults.put_area(area.place, fault);
        }
        if self.begins_wrong(tree, area) {
            faults.put_area(area.place, AreaFault::Init);
        }
        Ok(extent(self.structs, &form, area.aligned))
    }
}

/// Lays out the structs, the areas and the ports of a program. The refusals are E18, at the first place of the text where a struct or
/// an area is wrong, and E19, at the first port that is.
pub fn lay_out_areas(
    alloc: Global,
    tree: &Resolved,
    declared: &Declared,
    layouts: &Layouts,
) -> Result<Result<Memories, AreaRefusal>, Memory> {
    let mut faults = Faults::none();
    let structs = Structs::of(alloc, declared, layouts, &mut faults)?;
    let look = Look {
        declared,
        layouts,
        structs: &structs,
    };
    let mut extents = Vec::new(alloc);
    for area in declared.areas.as_slice() {
        let extent = look.area(alloc, tree, area, &mut faults)?;
        extents.push(extent)?;
    }
    let ports = ports(alloc, &tree.names, declared, layouts, &mut faults)?;
    match faults.first() {
        Some(refusal) => Ok(Err(refusal)),
        None => Ok(Ok(Memories {
            structs,
            extents,
            ports,
        })),
    }
}

/// The fields of all structs, in text order.
fn fields(alloc: Global, structs: &Structs) -> Result<List<FieldSpot>, Memory> {
    let mut all = List::of(Vec::new(alloc));
    for form in &structs.forms {
        if let Some(form) = form {
            let spots = field_spots(alloc, &structs.extents, form)?;
            for spot in spots.as_slice() {
                all.push(*spot)?;
            }
        }
    }
    Ok(all)
}

fn spots(
    alloc: Global,
    declared: &Declared,
    extents: &[Extent],
    addresses: &[u32],
) -> Result<List<AreaSpot>, Memory> {
    let mut all = List::of(Vec::new(alloc));
    let placed = extents.iter().zip(addresses.iter());
    for (area, (extent, address)) in declared.areas.as_slice().iter().zip(placed) {
        all.push(AreaSpot {
            name: area.name.name,
            address: *address,
            size: u32::try_from(extent.size).unwrap_or(u32::MAX),
            align: extent.align,
        })?;
    }
    Ok(all)
}

/// The bytes from the first area to the end of the last one.
fn bytes(areas: &[AreaSpot]) -> u32 {
    match areas.last() {
        Some(area) => area
            .address
            .saturating_add(area.size)
            .saturating_sub(AREAS_START),
        None => 0,
    }
}

/// The extents, of which there are fewer than 2^32.
fn few(extents: &[Extent]) -> &[Extent]
    ensures { length result.now < 2 ^ 32 }
{
    if extents.len() < 0x1_0000_0000 {
        extents
    } else {
        &[]
    }
}

/// Places the areas of a program one after another. The refusal is E28, at the first area that
/// ends too high, with its name.
pub fn place_all(
    alloc: Global,
    tree: &Resolved,
    declared: &Declared,
    memories: &Memories,
) -> Result<Map, Fault> {
    match place_areas(alloc, few(&memories.extents)) {
        Ok(Placing::Placed(addresses)) => {
            match placed(alloc, declared, memories, addresses.as_slice()) {
                Ok(map) => Ok(map),
                Err(Memory) => Err(Fault::Memory),
            }
        }
        Ok(Placing::Over(number)) => Err(too_high(alloc, tree, declared, number)),
        Err(Memory) => Err(Fault::Memory),
    }
}

fn too_high(alloc: Global, tree: &Resolved, declared: &Declared, number: u32) -> Fault {
    match declared.areas.as_slice().get(number as usize) {
        Some(area) => {
            let text = tree.names.text(area.name.name).unwrap_or(b"");
            refused(alloc, Code::E28, area.place, text)
        }
        None => Fault::Memory,
    }
}

fn placed(
    alloc: Global,
    declared: &Declared,
    memories: &Memories,
    addresses: &[u32],
) -> Result<Map, Memory> {
    let areas = spots(alloc, declared, &memories.extents, addresses)?;
    let bytes = bytes(areas.as_slice());
    let fields = fields(alloc, &memories.structs)?;
    let mut ports = List::of(Vec::new(alloc));
    for port in memories.ports.as_slice() {
        ports.push(copied(alloc, port)?)?;
    }
    Ok(Map {
        areas,
        fields,
        ports,
        bytes,
    })
}

fn copied(alloc: Global, port: &Port) -> Result<Port, Memory> {
    Ok(Port {
        name: hb_base::Text::of(Vec::from_slice(alloc, port.name.as_slice())?),
        dir: port.dir,
        width: port.width,
        address: port.address,
    })
}
