use super::*;
use hb_base::{Dir, Place};
use hb_bits::Pattern;
use std::test::Fail;

#[test]
fn a_map_has_these_lines(rt: HostRuntime) -> Result<(), Fail> {
    let lines = [
        MapLine::Area(b"table", 0x2000_0000, 4096, 64),
        MapLine::Area(b"last", 0x20AB_CDEF, 0, 1),
        MapLine::Field(b"Node", b"next", 12, 4),
        MapLine::Port(b"rx", Dir::In, 0x8000_0000, 1),
        MapLine::Port(b"tx", Dir::Out, 0xFFFF_FFFC, 4),
        MapLine::Stack(1_048_576),
        MapLine::Stack(4_099),
        MapLine::Bits(b"Perms", 4),
        MapLine::Junk(b"Perms", Pattern { width: 4, word: 6 }),
        MapLine::Junk(b"Nil", Pattern { width: 0, word: 0 }),
        MapLine::Confusion(
            b"Word",
            b"Big",
            b"Small",
            Pattern {
                width: 8,
                word: 129,
            },
        ),
        MapLine::Room(b"main", Place { line: 12, col: 8 }, 40),
    ];
    let mut text = Vec::new(rt.alloc());
    for line in &lines {
        put_line(&mut text, line)?;
    }
    // 40000000 less 1,024 less 1,048,576 is 3FEFFC00, and less 1,024 less 4,096 it is 3FFFEC00.
    let wanted = b"area table 20000000 4096 64\n\
area last 20ABCDEF 0 1\n\
field Node.next 12 4\n\
port rx In 80000000 1\n\
port tx Out FFFFFFFC 4\n\
stack 3FEFFC00 1048576\n\
stack 3FFFEC00 4096\n\
bits Perms 4\n\
junk Perms B0110\n\
junk Nil B\n\
confusion Word Big Small B10000001\n\
room main 12:8 40\n";
    assert_eq!(rt; text.as_slice(), wanted.as_slice());
    Ok(())
}
