ghost use Rattle.std.specs.Prelude.{ℕ, ◌≡◌, ◌<◌, length, IfOk};
ghost use Rattle.hb_base.specs.Ports.{ArePorts};
ghost use Rattle.hb_script.specs.Lines.{IsEvent};

use super::*;
use hb_base::{Dir, List, Port, Script, Step, Stop, Text};
use std::alloc::Global;
use std::test::Fail;

/// `rx`, to be read, of one byte, and `tx`, to be written, of one byte.
fn echo_ports(alloc: Global) -> Result<List<Port>, Fail>
    ensures rules { IfOk result (λ ports. ArePorts ports) }
    ensures many { IfOk result (λ ports. length ports ≡ 2) }
    ensures rx { IfOk result (λ ports. (value : ℕ) → value < 256 → IsEvent ports 0 value) }
    ensures tx { IfOk result (λ ports. (value : ℕ) → value < 256 → IsEvent ports 1 value) }
{
    let rx = Port {
        name: Text::of(Vec::from_slice(alloc, b"rx")?),
        dir: Dir::In,
        width: 1,
        address: 0x8000_0000,
    };
    let tx = Port {
        name: Text::of(Vec::from_slice(alloc, b"tx")?),
        dir: Dir::Out,
        width: 1,
        address: 0x8000_0004,
    };
    Ok(List::of(vec![in alloc; rx, tx]?))
}

/// The number of the wrong line, if there is one.
fn wrong_line(alloc: Global, script: &[u8]) -> Result<Option<u32>, Fail> {
    let ports = echo_ports(alloc)?;
    match read(alloc, script, &ports) {
        Ok(_) => Ok(None),
        Err(ScriptError::Bad(line)) => Ok(Some(line)),
        Err(ScriptError::Memory) => Err(Fail::from("no memory")),
    }
}

fn inputs(alloc: Global, script: &[u8]) -> Result<Script, Fail> {
    let ports = echo_ports(alloc)?;
    Ok(read(alloc, script, &ports)?)
}

#[test]
fn inputs_are_read_in_their_order(rt: HostRuntime) -> Result<(), Fail> {
    let script = inputs(rt.alloc(), b"# x\r\nrx 41\r\n\n \t\n\trx\t 00Ff \nrx 7")?;
    let mut values = Vec::new(rt.alloc());
    for line in script.lines.as_slice() {
        assert_eq!(rt; line.port, 0);
        values.push(line.value)?;
    }
    assert_eq!(rt; values.as_slice(), [0x41, 0xFF, 7].as_slice());
    Ok(())
}

#[test]
fn the_first_wrong_line_is_named(rt: HostRuntime) -> Result<(), Fail> {
    let alloc = rt.alloc();
    assert_eq!(rt; wrong_line(alloc, b"")?, None);
    assert_eq!(rt; wrong_line(alloc, b"rx 100")?, Some(1));
    assert_eq!(rt; wrong_line(alloc, b"rx 4 1")?, Some(1));
    assert_eq!(rt; wrong_line(alloc, b"# x\ntx 41\n")?, Some(2));
    assert_eq!(rt; wrong_line(alloc, b"\nrx 41\n#\nrx\nrx 4g\n")?, Some(4));
    assert_eq!(rt; wrong_line(alloc, b"rx 41\r")?, Some(1));
    assert_eq!(rt; wrong_line(alloc, b"rx 41\r\r\n")?, Some(1));
    assert_eq!(rt; wrong_line(alloc, b" # x\n")?, Some(1));
    assert_eq!(rt; wrong_line(alloc, b"rx41\n")?, Some(1));
    assert_eq!(rt; wrong_line(alloc, b"rxx 41\n")?, Some(1));
    Ok(())
}

#[test]
fn a_script_too_long_is_line_zero(rt: HostRuntime) -> Result<(), Fail> {
    let alloc = rt.alloc();
    let bytes = vec![in alloc; b'\n'; 1_048_577]?;
    assert_eq!(rt; wrong_line(alloc, &bytes[1..])?, None);
    assert_eq!(rt; wrong_line(alloc, &bytes)?, Some(0));
    Ok(())
}

#[test]
fn events_have_lines(rt: HostRuntime) -> Result<(), Fail> {
    let ports = echo_ports(rt.alloc())?;
    let mut buffer = [0u8; 128];
    let len = line_text(Step::Read(0, 0x4E), &ports, &mut buffer);
    assert_eq!(rt; &buffer[..len], b"r rx 4E\n".as_slice());
    let len = line_text(Step::Wrote(1, 0x05), &ports, &mut buffer);
    assert_eq!(rt; &buffer[..len], b"w tx 05\n".as_slice());
    assert_eq!(rt; line_text(Step::Going, &ports, &mut buffer), 0);
    assert_eq!(rt; line_text(Step::Ended(Stop::Done), &ports, &mut buffer), 0);
    Ok(())
}

#[test]
fn ends_have_lines(rt: HostRuntime) -> Result<(), Fail> {
    let ports = echo_ports(rt.alloc())?;
    let mut buffer = [0u8; 128];
    let len = end_text(Stop::Done, 1, &ports, &mut buffer);
    assert_eq!(rt; &buffer[..len], b"end done 1\n".as_slice());
    let len = end_text(Stop::Halt(5), 3, &ports, &mut buffer);
    assert_eq!(rt; &buffer[..len], b"end halt 5 3\n".as_slice());
    let len = end_text(Stop::InputEnd(0), 20, &ports, &mut buffer);
    assert_eq!(rt; &buffer[..len], b"end input rx 20\n".as_slice());
    let len = end_text(Stop::Misaligned, u64::MAX, &ports, &mut buffer);
    assert_eq!(rt;
        &buffer[..len],
        b"end misaligned 18446744073709551615\n".as_slice()
    );
    assert_eq!(rt; end_text(Stop::Sink, 1, &ports, &mut buffer), 0);
    Ok(())
}
