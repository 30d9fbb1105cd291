ghost use Rattle.std.specs.Prelude.{◌≡◌, ◌≤◌, IfOk, codes, vec_len};
ghost use Rattle.hb_base.specs.declared.port.Dir;

use crate::Machine;
use hb_base::{Dir, List, Memory, Port, Script, ScriptLine, Stop, Text};
use hb_image::Image;
use hb_io::MemSink;
use std::alloc::{AllocError, Global};
use std::test::Fail;

/// `lui x1, 0x80000`: the address of the first port.
const PORTS: u32 = 0x8000_00b7;

/// `sw x2, 4(x1)`: puts x2 out of the port tx.
const PUT_X2: u32 = 0x0020_a223;

const ECALL: u32 = 0x0000_0073;

fn rx(alloc: Global) -> Result<Port, AllocError>
    ensures { IfOk result (λ port. port ≡ record { name = codes "rx"; dir = Dir.In; width = 1; address = 2147483648 }) }
{
    let name = Text::of(b"rx".to_vec(alloc)?);
    Ok(Port {
        name,
        dir: Dir::In,
        width: 1,
        address: 0x8000_0000,
    })
}

fn tx(alloc: Global) -> Result<Port, AllocError>
    ensures { IfOk result (λ port. port ≡ record { name = codes "tx"; dir = Dir.Out; width = 4; address = 2147483652 }) }
{
    let name = Text::of(b"tx".to_vec(alloc)?);
    Ok(Port {
        name,
        dir: Dir::Out,
        width: 4,
        address: 0x8000_0004,
    })
}

/// A machine with an In port rx of one byte, an Out port tx of four, three bytes of areas, and one input.
fn machine(alloc: Global, code: Vec<u32>, input: u8) -> Result<Machine, Memory>
    requires least { 1 ≤ vec_len code }
    requires most { vec_len code ≤ 100 }
{
    let rx = rx(alloc)?;
    let tx = tx(alloc)?;
    let image = Image {
        ports: List::of(vec![in alloc; rx, tx]?),
        areas: 3,
        stack: 4096,
        code: List::of(code),
    };
    let line = ScriptLine {
        port: 0,
        value: u32::from(input),
    };
    let script = Script {
        lines: List::of(vec![in alloc; line]?),
    };
    Machine::load(alloc, image, script)
}

/// What a run of at most a hundred steps left.
#[derive(Drop)]
struct Seen {
    stop: Stop,
    done: u64,
    sink: MemSink,
}

fn run(alloc: Global, code: Vec<u32>, input: u8) -> Result<Seen, Memory>
    requires least { 1 ≤ vec_len code }
    requires most { vec_len code ≤ 100 }
{
    let mut machine = machine(alloc, code, input)?;
    let mut sink = MemSink::new(alloc, 100, &[])?;
    let stop = machine.run(100, &mut sink);
    let done = machine.done();
    Ok(Seen { stop, done, sink })
}

#[test]
fn a_word_that_codes_nothing_is_illegal(rt: HostRuntime) -> Result<(), Fail> {
    let alloc = rt.alloc();
    let seen = run(alloc, vec![in alloc; 0]?, 0)?;
    assert_eq!(rt; seen.stop, Stop::Illegal);
    assert_eq!(rt; seen.done, 1);
    Ok(())
}

#[test]
fn an_environment_call_with_no_number_is_done(rt: HostRuntime) -> Result<(), Fail> {
    let alloc = rt.alloc();
    let seen = run(alloc, vec![in alloc; ECALL]?, 0)?;
    assert_eq!(rt; seen.stop, Stop::Done);
    assert_eq!(rt; seen.done, 1);
    Ok(())
}

#[test]
fn a_halt_comes_after_three_steps_and_stays(rt: HostRuntime) -> Result<(), Fail> {
    let alloc = rt.alloc();
    let mut machine = machine(alloc, vec![in alloc; 0x0010_0893, 0x0050_0513, ECALL]?, 0)?;
    let mut sink = MemSink::new(alloc, 0, &[])?;
    assert_eq!(rt; machine.run(2, &mut sink), Stop::Steps);
    assert_eq!(rt; machine.run(1, &mut sink), Stop::Halt(5));
    assert_eq!(rt; machine.run(7, &mut sink), Stop::Halt(5));
    assert_eq!(rt; machine.done(), 3);
    Ok(())
}

#[test]
fn lb_at_a_port_extends_the_sign_and_the_trace_shows_the_line(rt: HostRuntime) -> Result<(), Fail> {
    let alloc = rt.alloc();
    let seen = run(
        alloc,
        vec![in alloc; PORTS, 0x0000_8103, PUT_X2, ECALL]?,
        0x80,
    )?;
    assert_eq!(rt; seen.sink.bytes(), b"r rx 80\nw tx FFFFFF80\n".as_slice());
    Ok(())
}

#[test]
fn a_read_past_the_script_ends_the_run(rt: HostRuntime) -> Result<(), Fail> {
    let alloc = rt.alloc();
    let seen = run(
        alloc,
        vec![in alloc; PORTS, 0x0000_c103, 0x0000_c103, ECALL]?,
        7,
    )?;
    assert_eq!(rt; seen.stop, Stop::InputEnd(0));
    assert_eq!(rt; seen.done, 3);
    assert_eq!(rt; seen.sink.bytes(), b"r rx 07\n".as_slice());
    Ok(())
}

#[test]
fn a_misaligned_load_comes_before_an_unmapped_one(rt: HostRuntime) -> Result<(), Fail> {
    let alloc = rt.alloc();
    let seen = run(alloc, vec![in alloc; 0x0020_2083]?, 0)?;
    assert_eq!(rt; seen.stop, Stop::Misaligned);
    Ok(())
}

#[test]
fn a_jump_outside_the_code_ends_the_next_step(rt: HostRuntime) -> Result<(), Fail> {
    let alloc = rt.alloc();
    let seen = run(alloc, vec![in alloc; 0x0080_006f]?, 0)?;
    assert_eq!(rt; seen.stop, Stop::Unmapped);
    assert_eq!(rt; seen.done, 2);
    Ok(())
}

#[test]
fn sra_brings_in_the_sign_and_srl_zeros(rt: HostRuntime) -> Result<(), Fail> {
    let alloc = rt.alloc();
    let code = vec![in alloc; PORTS, 0x41f0_d113, PUT_X2, 0x01f0_d113, PUT_X2, ECALL]?;
    let seen = run(alloc, code, 0)?;
    assert_eq!(rt;
        seen.sink.bytes(),
        b"w tx FFFFFFFF\nw tx 00000001\n".as_slice()
    );
    Ok(())
}

#[test]
fn blt_is_signed_and_bltu_is_not(rt: HostRuntime) -> Result<(), Fail> {
    let alloc = rt.alloc();
    let code = vec![in alloc; 0xfff0_0093, 0x0000_c463, 0, 0x0000_e463, ECALL]?;
    let seen = run(alloc, code, 0)?;
    assert_eq!(rt; seen.stop, Stop::Done);
    assert_eq!(rt; seen.done, 4);
    Ok(())
}

#[test]
fn x0_stays_0(rt: HostRuntime) -> Result<(), Fail> {
    let alloc = rt.alloc();
    let seen = run(
        alloc,
        vec![in alloc; PORTS, 0x0050_0013, 0x0000_a223, ECALL]?,
        0,
    )?;
    assert_eq!(rt; seen.sink.bytes(), b"w tx 00000000\n".as_slice());
    Ok(())
}

#[test]
fn areas_of_three_bytes_end_after_three(rt: HostRuntime) -> Result<(), Fail> {
    let alloc = rt.alloc();
    let code = vec![in alloc;
        0x2000_00b7,
        0x1020_0113,
        0x0020_9023,
        0x0020_8123,
        0x0020_8103,
        0x0020_9103,
    ]?;
    let mut machine = machine(alloc, code, 0)?;
    let mut sink = MemSink::new(alloc, 0, &[])?;
    assert_eq!(rt; machine.run(5, &mut sink), Stop::Steps);
    assert_eq!(rt; machine.run(1, &mut sink), Stop::Unmapped);
    assert_eq!(rt; machine.byte(0x2000_0000), Some(2));
    assert_eq!(rt; machine.byte(0x2000_0001), Some(1));
    assert_eq!(rt; machine.byte(0x2000_0003), None);
    Ok(())
}

#[test]
fn a_line_that_cannot_be_written_stops_after_its_step(rt: HostRuntime) -> Result<(), Fail> {
    let alloc = rt.alloc();
    let mut machine = machine(alloc, vec![in alloc; PORTS, PUT_X2, PUT_X2, ECALL]?, 0)?;
    let mut sink = MemSink::new(alloc, 100, &[2])?;
    assert_eq!(rt; machine.run(100, &mut sink), Stop::Sink);
    assert_eq!(rt; machine.done(), 3);
    assert_eq!(rt; sink.bytes(), b"w tx 00000000\nw tx 00".as_slice());
    Ok(())
}

/// A loop of a load, a sum, a store and a jump.
#[test]
fn a_hundred_million_steps_need_no_memory(rt: HostRuntime) -> Result<(), Fail> {
    let alloc = rt.alloc();
    let code = vec![in alloc;
        0x3fff_f137,
        0x0001_2083,
        0x0010_8093,
        0x0011_2023,
        0xff5f_f06f,
    ]?;
    let mut machine = machine(alloc, code, 0)?;
    let mut sink = MemSink::new(alloc, 0, &[])?;
    assert_eq!(rt; machine.run(100_000_001, &mut sink), Stop::Steps);
    assert_eq!(rt; machine.byte(0x3fff_f000), Some(0x40));
    Ok(())
}
