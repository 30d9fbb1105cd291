use crate::{DirShelf, Failed, MemShelf, MemSink, Shelf, ShelfError, Sink, StdSink};
use std::test::Fail;

#[test]
fn a_sink_that_fails_at_its_third_put_takes_the_first_half_of_it(
    rt: HostRuntime,
) -> Result<(), Fail> {
    let mut sink = MemSink::new(rt.alloc(), 100, &[3])?;
    assert_eq!(rt; sink.put(b"w tx 41\n"), Ok(()));
    assert_eq!(rt; sink.put(b"w tx 42\n"), Ok(()));
    assert_eq!(rt; sink.put(b"w tx 43\n"), Err(Failed));
    assert_eq!(rt; sink.bytes(), b"w tx 41\nw tx 42\nw tx".as_slice());
    assert_eq!(rt; sink.put(b"!"), Ok(()));
    assert_eq!(rt; sink.bytes(), b"w tx 41\nw tx 42\nw tx!".as_slice());
    Ok(())
}

#[test]
fn a_put_past_the_space_takes_what_fits(rt: HostRuntime) -> Result<(), Fail> {
    let mut sink = MemSink::new(rt.alloc(), 5, &[])?;
    assert_eq!(rt; sink.put(b"abc"), Ok(()));
    assert_eq!(rt; sink.put(b"defg"), Err(Failed));
    assert_eq!(rt; sink.bytes(), b"abcde".as_slice());
    let mut odd = MemSink::new(rt.alloc(), 5, &[1, 2])?;
    assert_eq!(rt; odd.put(b"abcde"), Err(Failed));
    assert_eq!(rt; odd.put(b"ABCDEFGH"), Err(Failed));
    assert_eq!(rt; odd.bytes(), b"abABC".as_slice());
    Ok(())
}

#[test]
fn a_shelf_fails_at_the_calls_it_is_told_to(rt: HostRuntime) -> Result<(), Fail> {
    let mut shelf = MemShelf::new(rt.alloc(), &[2, 4])?;
    shelf.add("a.hb", b"main")?;
    assert_eq!(rt; shelf.write("b.img", b"HBIM"), Ok(()));
    assert_eq!(rt; shelf.write("b.img", b"lost"), Err(ShelfError::Failed));
    assert_eq!(rt; shelf.file("b.img"), Some(b"HBIM".as_slice()));
    assert_eq!(rt;
        shelf.read(rt.alloc(), "a.hb", 10)?.as_slice(),
        b"main".as_slice()
    );
    assert!(rt; matches!(shelf.read(rt.alloc(), "a.hb", 10), Err(ShelfError::Failed)));
    assert_eq!(rt; shelf.write("a.hb", b""), Ok(()));
    assert_eq!(rt; shelf.file("a.hb"), Some(b"".as_slice()));
    Ok(())
}

#[test]
fn a_missing_name_is_a_fault_and_the_cap_cuts_a_file(rt: HostRuntime) -> Result<(), Fail> {
    let mut shelf = MemShelf::new(rt.alloc(), &[])?;
    shelf.add("a.hb", b"main = tick")?;
    assert!(rt; matches!(shelf.read(rt.alloc(), "b.hb", 10), Err(ShelfError::Failed)));
    assert_eq!(rt; shelf.file("b.hb"), None);
    assert_eq!(rt;
        shelf.read(rt.alloc(), "a.hb", 4)?.as_slice(),
        b"main".as_slice()
    );
    assert_eq!(rt;
        shelf.read(rt.alloc(), "a.hb", 0)?.as_slice(),
        b"".as_slice()
    );
    Ok(())
}

#[test]
fn a_real_file_is_written_read_and_cut(rt: HostRuntime) -> Result<(), Fail> {
    let path = format!(in rt.alloc(); "/tmp/hb_io_{}", std::process::id(rt.process()))?;
    let name = path.as_str();
    let mut shelf = DirShelf::new(rt.clone()?);
    assert_eq!(rt; shelf.write(name, b"first, and longer"), Ok(()));
    assert_eq!(rt; shelf.write(name, b"second"), Ok(()));
    assert_eq!(rt;
        shelf.read(rt.alloc(), name, 100)?.as_slice(),
        b"second".as_slice()
    );
    assert_eq!(rt;
        shelf.read(rt.alloc(), name, 3)?.as_slice(),
        b"sec".as_slice()
    );
    std::fs::remove_file(&rt, name)?;
    let missing = shelf.read(rt.alloc(), name, 3);
    assert!(rt; matches!(missing, Err(ShelfError::Failed)));
    assert_eq!(rt;
        shelf.write("/tmp/hb_io/no/such/folder", b""),
        Err(ShelfError::Failed)
    );
    Ok(())
}

#[test]
fn the_standard_output_takes_a_line(rt: HostRuntime) -> Result<(), Fail> {
    let mut sink = StdSink::new(rt.clone()?);
    assert_eq!(rt; sink.put(b"a line\n"), Ok(()));
    assert_eq!(rt; sink.put(b""), Ok(()));
    Ok(())
}
