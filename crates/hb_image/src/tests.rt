use super::*;
use hb_base::{Dir, Memory};
use std::alloc::Global;
use std::test::Fail;

/// One word of code, no port, the least stack.
const SMALLEST: [u8; 24] = [
    0x48, 0x42, 0x49, 0x4D, 0x01, 0x00, 0x00, 0x00, 0x00, 0x00, 0x00, 0x00, 0x00, 0x10, 0x00, 0x00,
    0x01, 0x00, 0x00, 0x00, 0x00, 0x00, 0x00, 0x00,
];

/// Two ports of one byte, `rx` to be read at 80000000 and `tx` to be written at 80000004.
const ECHO: [u8; 42] = [
    0x48, 0x42, 0x49, 0x4D, 0x01, 0x00, 0x02, 0x00, 0x40, 0x00, 0x00, 0x00, 0x00, 0x00, 0x10, 0x00,
    0x01, 0x00, 0x00, 0x00, 0x00, 0x01, 0x02, 0x00, 0x00, 0x00, 0x80, b'r', b'x', 0x01, 0x01, 0x02,
    0x04, 0x00, 0x00, 0x80, b't', b'x', 0x73, 0x00, 0x00, 0x00,
];

/// The field that is named where the byte at this index of the echo's image is this one.
fn fault_at(alloc: Global, index: usize, byte: u8) -> Result<Option<Field>, Fail> {
    let mut bytes = Vec::from_slice(alloc, &ECHO)?;
    if index < bytes.len() {
        bytes[index] = byte;
    }
    match read(alloc, &bytes) {
        Err(ImageError::Bad(field)) => Ok(Some(field)),
        Ok(_) | Err(ImageError::Short | ImageError::Memory) => Ok(None),
    }
}

#[test]
fn the_smallest_image_is_read_and_written(rt: HostRuntime) -> Result<(), Fail> {
    let image = read(rt.alloc(), &SMALLEST)?;
    assert_eq!(rt; image.ports.len(), 0);
    assert_eq!(rt; image.areas, 0);
    assert_eq!(rt; image.stack, 4096);
    assert_eq!(rt; image.code.as_slice(), [0].as_slice());
    let bytes = write(rt.alloc(), &image).map_err(|_: Memory| "no memory")?;
    assert_eq!(rt; bytes.as_slice(), SMALLEST.as_slice());
    Ok(())
}

#[test]
fn an_image_with_ports_is_read(rt: HostRuntime) -> Result<(), Fail> {
    let image = read(rt.alloc(), &ECHO)?;
    let [rx, tx] = image.ports.as_slice() else {
        return Err(Fail::from("two ports"));
    };
    assert_eq!(rt; rx.name.as_slice(), b"rx".as_slice());
    assert_eq!(rt; rx.dir, Dir::In);
    assert_eq!(rt; rx.address, 0x8000_0000);
    assert_eq!(rt; tx.name.as_slice(), b"tx".as_slice());
    assert_eq!(rt; tx.dir, Dir::Out);
    assert_eq!(rt; tx.width, 1);
    assert_eq!(rt; image.areas, 64);
    assert_eq!(rt; image.stack, 1_048_576);
    assert_eq!(rt; image.code.as_slice(), [0x73].as_slice());
    Ok(())
}

#[test]
fn an_image_cut_anywhere_is_short(rt: HostRuntime) {
    for len in 0..24 {
        assert!(rt; matches!(read(rt.alloc(), &SMALLEST[..len]), Err(ImageError::Short)));
    }
}

#[test]
fn one_byte_more_is_the_tail(rt: HostRuntime) -> Result<(), Fail> {
    let mut bytes = Vec::from_slice(rt.alloc(), &SMALLEST)?;
    bytes.push(0)?;
    assert!(rt; matches!(read(rt.alloc(), &bytes), Err(ImageError::Bad(Field::Tail))));
    Ok(())
}

#[test]
fn each_field_is_named(rt: HostRuntime) -> Result<(), Fail> {
    let alloc = rt.alloc();
    assert_eq!(rt; fault_at(alloc, 0, 0x58)?, Some(Field::Magic));
    assert_eq!(rt; fault_at(alloc, 4, 2)?, Some(Field::Version));
    assert_eq!(rt; fault_at(alloc, 7, 2)?, Some(Field::Ports));
    assert_eq!(rt; fault_at(alloc, 11, 2)?, Some(Field::Areas));
    assert_eq!(rt; fault_at(alloc, 12, 2)?, Some(Field::Stack));
    assert_eq!(rt; fault_at(alloc, 16, 0)?, Some(Field::Code));
    assert_eq!(rt; fault_at(alloc, 20, 2)?, Some(Field::Kind));
    assert_eq!(rt; fault_at(alloc, 21, 3)?, Some(Field::Width));
    assert_eq!(rt; fault_at(alloc, 22, 0)?, Some(Field::Length));
    assert_eq!(rt; fault_at(alloc, 26, 0x7F)?, Some(Field::Address));
    assert_eq!(rt; fault_at(alloc, 27, b'R')?, Some(Field::Name));
    assert_eq!(rt; fault_at(alloc, 41, 0xFF)?, None);
    Ok(())
}

#[test]
fn ports_overlap_nowhere_and_have_two_names(rt: HostRuntime) -> Result<(), Fail> {
    let alloc = rt.alloc();
    assert_eq!(rt; fault_at(alloc, 32, 0)?, Some(Field::Address));
    assert_eq!(rt; fault_at(alloc, 32, 1)?, None);
    assert_eq!(rt; fault_at(alloc, 36, b'r')?, Some(Field::Name));
    Ok(())
}

#[test]
fn reserved_words_are_no_names(rt: HostRuntime) {
    assert!(rt; !names::is_port_name(b"in"));
    assert!(rt; !names::is_port_name(b"instance"));
    assert!(rt; !names::is_port_name(b"_"));
    assert!(rt; names::is_port_name(b"__"));
    assert!(rt; names::is_port_name(b"module"));
    assert!(rt; names::is_port_name(b"x'1"));
}
