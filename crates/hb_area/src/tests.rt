ghost use Rattle.std.specs.Prelude.{◌<◌, ◌≤◌};
ghost use Rattle.std.specs.Option.{ForSome};

use crate::{
    AREAS_START, AreaFault, AreaForm, CellForm, Extent, Placing, PortFault, PortForm, PortSpot,
    StructForm, StructPart, cell_byte, field_spots, is_alignment, measure_area, place_areas,
    port_fault, struct_extent, struct_fault,
};
use hb_base::{List, Name, Place};
use std::alloc::{AllocError, Global};
use std::test::Fail;

fn at(col: u32) -> Place {
    Place { line: 1, col }
}

fn cell(bytes: u8) -> AreaForm
    requires some { 0 < bytes }
    requires few { bytes ≤ 4 }
{
    AreaForm::Cell(CellForm { bytes, big: false })
}

fn shaped(parts: Vec<StructPart>) -> StructForm {
    StructForm {
        name: Name(1),
        place: at(1),
        size: None,
        parts: List::of(parts),
    }
}

/// `struct S [ a :: Stored (Bit 16) | b :: Stored Unsigned ]`, with so many bytes between its fields.
fn pair(alloc: Global, between: u64) -> Result<StructForm, AllocError> {
    let parts = vec![in alloc;
        StructPart::Field(Name(2), at(12), cell(2)),
        StructPart::Pad(between),
        StructPart::Field(Name(3), at(35), cell(4)),
    ]?;
    Ok(shaped(parts))
}

#[test]
fn a_field_stands_at_its_alignment(rt: HostRuntime) -> Result<(), Fail> {
    let alloc = rt.alloc();
    assert_eq!(rt;
        struct_fault(&[], &pair(alloc, 0)?),
        Some((at(35), AreaFault::Align))
    );
    let padded = pair(alloc, 2)?;
    assert_eq!(rt; struct_fault(&[], &padded), None);
    assert_eq!(rt;
        struct_extent(&[], &padded),
        Some(Extent { size: 8, align: 4 })
    );
    let spots = field_spots(alloc, &[], &padded)?;
    assert_eq!(rt; spots.len(), 2);
    for (index, spot) in spots.as_slice().iter().enumerate() {
        assert_eq!(rt; spot.owner, Name(1));
        assert_eq!(rt; spot.offset == 0, index == 0);
        assert_eq!(rt; spot.offset == 4, index == 1);
    }
    Ok(())
}

#[test]
fn the_ring_has_72_bytes(rt: HostRuntime) -> Result<(), Fail> {
    let alloc = rt.alloc();
    let bytes = AreaForm::Array(64, Box::new(alloc, cell(1))?);
    let parts = vec![in alloc;
        StructPart::Field(Name(2), at(1), cell(4)),
        StructPart::Field(Name(3), at(2), cell(4)),
        StructPart::Field(Name(4), at(3), bytes),
    ]?;
    let ring = shaped(parts);
    assert_eq!(rt; struct_fault(&[], &ring), None);
    assert_eq!(rt;
        struct_extent(&[], &ring),
        Some(Extent { size: 72, align: 4 })
    );
    let mut offsets: Vec<u32> = Vec::new(alloc);
    for spot in field_spots(alloc, &[], &ring)?.as_slice() {
        offsets.push(spot.offset)?;
    }
    assert!(rt; offsets.as_slice() == [0, 4, 8].as_slice());
    Ok(())
}

#[test]
fn arrays_have_a_size_and_a_stride(rt: HostRuntime) -> Result<(), Fail> {
    let alloc = rt.alloc();
    let none = AreaForm::Array(0, Box::new(alloc, cell(4))?);
    match measure_area(&none, &[]) {
        Some(measure) => {
            assert_eq!(rt; measure.size, 0);
            assert_eq!(rt; measure.align, 4);
            assert!(rt; !measure.is_large);
        },
        None => assert!(rt; false),
    }
    let large = AreaForm::Array(0x4000_0000, Box::new(alloc, cell(4))?);
    match measure_area(&large, &[]) {
        Some(measure) => assert!(rt; measure.is_large),
        None => assert!(rt; false),
    }
    let uneven = [Some(Extent { size: 6, align: 4 })];
    let array = AreaForm::Array(3, Box::new(alloc, AreaForm::Struct(0))?);
    match measure_area(&array, &uneven) {
        Some(measure) => assert!(rt; measure.is_uneven),
        None => assert!(rt; false),
    }
    assert!(rt; measure_area(&AreaForm::Broken, &[]).is_none());
    Ok(())
}

#[test]
fn areas_stand_one_after_another(rt: HostRuntime) -> Result<(), Fail> {
    let areas = [
        Extent { size: 5, align: 1 },
        Extent { size: 8, align: 4 },
        Extent {
            size: 0x00FF_FFF1,
            align: 1,
        },
    ];
    match place_areas(rt.alloc(), &areas[..2])? {
        Placing::Placed(addresses) => {
            assert!(rt; addresses.as_slice() == [AREAS_START, AREAS_START + 8].as_slice());
        },
        Placing::Over(_) => assert!(rt; false),
    }
    match place_areas(rt.alloc(), &areas)? {
        Placing::Placed(_) => assert!(rt; false),
        Placing::Over(number) => assert_eq!(rt; number, 2),
    }
    assert!(rt; is_alignment(65_536));
    assert!(rt; !is_alignment(131_072));
    assert!(rt; !is_alignment(12));
    Ok(())
}

#[test]
fn cells_have_a_byte_order(rt: HostRuntime) {
    let little = CellForm {
        bytes: 4,
        big: false,
    };
    let big = CellForm {
        bytes: 4,
        big: true,
    };
    assert_eq!(rt; cell_byte(little, 16_909_060, 0), 4);
    assert_eq!(rt; cell_byte(big, 16_909_060, 0), 1);
    assert_eq!(rt; cell_byte(big, 16_909_060, 3), 4);
}

#[test]
fn ports_stand_apart_in_both_directions(rt: HostRuntime) {
    let port = |width: Option<u8>, address: u128, name_bytes: usize| -> PortForm
        requires { ForSome width (λ w. 0 < w) }
    {
        PortForm {
            width,
            address,
            name_bytes,
        }
    };
    let earlier = [PortSpot {
        width: 4,
        address: 0x8000_0000,
    }];
    assert_eq!(rt;
        port_fault(&[], port(Some(1), 0x7FFF_FFFF, 2)),
        Some(PortFault::Place)
    );
    assert_eq!(rt; port_fault(&[], port(Some(4), 0xFFFF_FFFC, 2)), None);
    assert_eq!(rt;
        port_fault(&[], port(Some(4), 0xFFFF_FFFD, 2)),
        Some(PortFault::Place)
    );
    assert_eq!(rt;
        port_fault(&[], port(Some(4), 0x8000_0002, 2)),
        Some(PortFault::Align)
    );
    assert_eq!(rt;
        port_fault(&earlier, port(Some(1), 0x8000_0003, 2)),
        Some(PortFault::Overlap)
    );
    assert_eq!(rt; port_fault(&earlier, port(Some(1), 0x8000_0004, 64)), None);
    assert_eq!(rt;
        port_fault(&earlier, port(None, 0x8000_0001, 2)),
        Some(PortFault::NotStored)
    );
    assert_eq!(rt;
        port_fault(&[], port(Some(1), 0x8000_0000, 65)),
        Some(PortFault::Name)
    );
}
