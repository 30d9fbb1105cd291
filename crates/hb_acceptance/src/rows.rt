//! The rows that show what the top call does.

use crate::seen::{call, exec, run, run_on};
use std::test::Fail;

const ONE_WRITE: &[u8] =
    b"{ port tx :: Out (Bit 8) at X80000000; main :: M Unit; main = do { writePort tx X41 } }";

const THREE_WRITES: &[u8] =
    b"{ port tx :: Out (Bit 8) at X80000000; main :: M Unit; main = do { writePort tx X41; writePort tx X42; writePort tx X43 } }";

const EMPTY_DO: &[u8] = b"{ port tx :: Out (Bit 8) at X80000000; main :: M Unit; main = do { } }";

const IN_PORT: &[u8] =
    b"{ port tx :: In (Bit 8) at X80000000; main :: M Unit; main = do { writePort tx X41 } }";

const RUN: &[u8] = b"run a.hb a.script a.img";

/// The most bytes of a source.
const MOST_BYTES: usize = 1_048_576;

#[test]
fn one_write_is_put_and_the_run_is_done(rt: HostRuntime) {
    let seen = run(&rt, rt.alloc(), ONE_WRITE);
    assert_eq!(rt; seen.status, 0);
    assert!(rt;
        seen.text
            .as_slice()
            .starts_with(b"w tx 41\nend done ".as_slice())
    );
    assert!(rt; seen.image.is_some());
}

#[test]
fn an_empty_do_is_refused_at_its_end(rt: HostRuntime) {
    let seen = run(&rt, rt.alloc(), EMPTY_DO);
    assert_eq!(rt; seen.status, 1);
    assert_eq!(rt; seen.text.as_slice(), b"refused E04 1:68 -\n".as_slice());
    assert_eq!(rt; seen.image, None);
}

#[test]
fn an_in_port_alone_is_refused_behind_it(rt: HostRuntime) {
    let seen = run(&rt, rt.alloc(), IN_PORT);
    assert_eq!(rt; seen.status, 1);
    assert_eq!(rt; seen.text.as_slice(), b"refused E05 1:39 form\n".as_slice());
    assert_eq!(rt; seen.image, None);
}

#[test]
fn a_source_of_the_greatest_size_runs_and_one_byte_more_is_refused(
    rt: HostRuntime,
) -> Result<(), Fail> {
    let alloc = rt.alloc();
    let mut source = Vec::from_slice(alloc, ONE_WRITE)?;
    for _ in ONE_WRITE.len()..MOST_BYTES {
        source.push(b' ')?;
    }
    let whole = run(&rt, alloc, source.as_slice());
    assert_eq!(rt; whole.status, 0);
    assert!(rt;
        whole
            .text
            .as_slice()
            .starts_with(b"w tx 41\nend done ".as_slice())
    );
    source.push(b' ')?;
    let more = run(&rt, alloc, source.as_slice());
    assert_eq!(rt; more.status, 1);
    assert_eq!(rt; more.text.as_slice(), b"refused E30 1:1 -\n".as_slice());
    assert_eq!(rt; more.image, None);
    Ok(())
}

#[test]
fn a_sink_that_fails_at_its_third_put_ends_the_call(rt: HostRuntime) {
    let seen = call(&rt, rt.alloc(), RUN, THREE_WRITES, b"", &[], &[3]);
    assert_eq!(rt; seen.status, 5);
    assert_eq!(rt; seen.text.as_slice(), b"w tx 41\nw tx 42\nw tx".as_slice());
    assert!(rt; seen.image.is_some());
}

#[test]
fn the_line_of_a_refusal_is_put_by_one_call(rt: HostRuntime) {
    let seen = call(&rt, rt.alloc(), RUN, EMPTY_DO, b"", &[], &[2]);
    assert_eq!(rt; seen.status, 1);
    assert_eq!(rt; seen.text.as_slice(), b"refused E04 1:68 -\n".as_slice());
}

#[test]
fn a_bad_source_is_refused_before_a_missing_script_is_read(rt: HostRuntime) {
    let seen = call(
        &rt,
        rt.alloc(),
        b"run a.hb none.script a.img",
        EMPTY_DO,
        b"",
        &[],
        &[],
    );
    assert_eq!(rt; seen.status, 1);
    assert_eq!(rt; seen.text.as_slice(), b"refused E04 1:68 -\n".as_slice());
    assert_eq!(rt; seen.image, None);
}

#[test]
fn a_missing_file_is_a_read_fault(rt: HostRuntime) {
    let seen = call(
        &rt,
        rt.alloc(),
        b"run none.hb a.script a.img",
        ONE_WRITE,
        b"",
        &[],
        &[],
    );
    assert_eq!(rt; seen.status, 4);
    assert_eq!(rt; seen.text.as_slice(), b"read fault\n".as_slice());
    assert_eq!(rt; seen.image, None);
}

#[test]
fn a_thousand_writes_are_put_and_one_more_is_refused(rt: HostRuntime) -> Result<(), Fail> {
    let alloc = rt.alloc();
    let mut source = Vec::from_slice(
        alloc,
        b"{ port tx :: Out (Bit 8) at X80000000; main :: M Unit; main = do { writePort tx X41".as_slice(),
    )?;
    for _ in 1..1000 {
        source.extend_from_slice(b"; writePort tx X42".as_slice())?;
    }
    let mut more = Vec::from_slice(alloc, source.as_slice())?;
    source.extend_from_slice(b" } }".as_slice())?;
    more.extend_from_slice(b"; writePort tx X43 } }".as_slice())?;
    let whole = run(&rt, alloc, source.as_slice());
    assert_eq!(rt; whole.status, 0);
    assert!(rt;
        whole
            .text
            .as_slice()
            .starts_with(b"w tx 41\nw tx 42\n".as_slice())
    );
    assert!(rt; whole.text.len() > 8 * 1000);
    let refused = run(&rt, alloc, more.as_slice());
    assert_eq!(rt; refused.status, 1);
    assert_eq!(rt;
        refused.text.as_slice(),
        b"refused E05 1:18068 form\n".as_slice()
    );
    Ok(())
}

#[test]
fn a_script_of_one_byte_is_refused(rt: HostRuntime) {
    let seen = call(&rt, rt.alloc(), RUN, ONE_WRITE, b"x", &[], &[]);
    assert_eq!(rt; seen.status, 3);
    assert_eq!(rt; seen.text.as_slice(), b"script refused 1\n".as_slice());
    assert_eq!(rt; seen.image, None);
}

#[test]
fn words_that_are_no_command_are_refused(rt: HostRuntime) {
    let lines = [
        b"".as_slice(),
        b"run".as_slice(),
        b"run a.hb a.script".as_slice(),
        b"run a.hb a.script a.img more".as_slice(),
        b"walk a.hb a.script a.img".as_slice(),
        b"run --map a.script a.img".as_slice(),
        b"run a.hb a.script -x".as_slice(),
        b"exec a.img a.script --steps 1 --steps 1".as_slice(),
        b"run a.hb a.script \xFF".as_slice(),
    ];
    for line in lines {
        let seen = call(&rt, rt.alloc(), line, ONE_WRITE, b"", &[], &[]);
        assert_eq!(rt; seen.status, 2);
        assert_eq!(rt; seen.text.as_slice(), b"words refused\n".as_slice());
        assert_eq!(rt; seen.image, None);
    }
}

#[test]
fn a_shelf_that_fails_at_each_of_its_calls_is_a_fault(rt: HostRuntime) {
    let cases = [
        (1, 4, b"read fault\n".as_slice()),
        (2, 4, b"read fault\n".as_slice()),
        (3, 5, b"write fault\n".as_slice()),
    ];
    for (at, status, text) in cases {
        let seen = call(&rt, rt.alloc(), RUN, ONE_WRITE, b"", &[at], &[]);
        assert_eq!(rt; seen.status, status);
        assert_eq!(rt; seen.text.as_slice(), text);
        assert_eq!(rt; seen.image, None);
    }
}

#[test]
fn a_line_that_cannot_be_put_ends_the_call_whatever_its_status(rt: HostRuntime) {
    let seen = call(&rt, rt.alloc(), RUN, EMPTY_DO, b"", &[1], &[1]);
    assert_eq!(rt; seen.status, 5);
    assert_eq!(rt; seen.text.as_slice(), b"read ".as_slice());
    assert_eq!(rt; seen.image, None);
}

const ECHO: &[u8] =
    b"{ port rx :: In (Bit 8) at X80000000; port tx :: Out (Bit 8) at X80000004; main :: M Unit; main = do { a <- readPort rx; b <- readPort rx; writePort tx (a + b) } }";

#[test]
fn two_bytes_are_read_and_their_sum_wraps_at_eight_bits(rt: HostRuntime) {
    let seen = run_on(&rt, rt.alloc(), ECHO, b"rx 41\nrx C0\n");
    assert_eq!(rt; seen.status, 0);
    assert!(rt;
        seen.text
            .as_slice()
            .starts_with(b"r rx 41\nr rx C0\nw tx 01\nend done ".as_slice())
    );
    assert!(rt; seen.image.is_some());
}

#[test]
fn a_read_without_a_line_left_is_the_end_of_input(rt: HostRuntime) {
    let seen = run_on(&rt, rt.alloc(), ECHO, b"rx 41\n");
    assert_eq!(rt; seen.status, 8);
    assert!(rt;
        seen.text
            .as_slice()
            .starts_with(b"r rx 41\nend input rx ".as_slice())
    );
    assert!(rt; seen.image.is_some());
}

#[test]
fn scripts_that_break_their_grammar_are_refused_and_nothing_is_written(rt: HostRuntime) {
    let cases = [
        (b"rx 100\n".as_slice(), b"script refused 1\n".as_slice()),
        (b"rx 4 1\n".as_slice(), b"script refused 1\n".as_slice()),
        (b"# x\ntx 41\n".as_slice(), b"script refused 2\n".as_slice()),
    ];
    for (script, text) in cases {
        let seen = run_on(&rt, rt.alloc(), ECHO, script);
        assert_eq!(rt; seen.status, 3);
        assert_eq!(rt; seen.text.as_slice(), text);
        assert_eq!(rt; seen.image, None);
    }
}

#[test]
fn no_steps_allowed_is_the_end_after_none(rt: HostRuntime) {
    let lines = [
        b"run a.hb a.script a.img --steps 0".as_slice(),
        b"run --steps=0 a.hb a.script a.img".as_slice(),
    ];
    for line in lines {
        let seen = call(&rt, rt.alloc(), line, ONE_WRITE, b"", &[], &[]);
        assert_eq!(rt; seen.status, 9);
        assert_eq!(rt; seen.text.as_slice(), b"end steps 0\n".as_slice());
        assert!(rt; seen.image.is_some());
    }
}

/// An image without ports, with one word of code, which is no instruction.
const NO_INSTRUCTION: [u8; 24] = [
    0x48, 0x42, 0x49, 0x4D, 1, 0, 0, 0, 0, 0, 0, 0, 0, 0x10, 0, 0, 1, 0, 0, 0, 0, 0, 0, 0,
];

/// ADDI x17, x0, 1; ADDI x10, x0, 5; ECALL.
const HALT_FIVE: [u8; 32] = [
    0x48, 0x42, 0x49, 0x4D, 1, 0, 0, 0, 0, 0, 0, 0, 0, 0x10, 0, 0, 3, 0, 0, 0, 0x93, 0x08, 0x10, 0,
    0x13, 0x05, 0x50, 0, 0x73, 0, 0, 0,
];

/// LUI x10, 10000; LW x10, 0(x10).
const READS_CODE: [u8; 28] = [
    0x48, 0x42, 0x49, 0x4D, 1, 0, 0, 0, 0, 0, 0, 0, 0, 0x10, 0, 0, 2, 0, 0, 0, 0x37, 0x05, 0x01, 0,
    0x03, 0x25, 0x05, 0,
];

const EXEC: &[u8] = b"exec b.img a.script";

#[test]
fn images_are_run_by_the_table(rt: HostRuntime) {
    let mut ecall = NO_INSTRUCTION;
    ecall[20] = 0x73;
    let mut jump = NO_INSTRUCTION;
    jump[20] = 0x67;
    let cases = [
        (NO_INSTRUCTION.as_slice(), 11, b"end illegal 1\n".as_slice()),
        (ecall.as_slice(), 0, b"end done 1\n".as_slice()),
        (jump.as_slice(), 11, b"end unmapped 2\n".as_slice()),
        (HALT_FIVE.as_slice(), 6, b"end halt 5 3\n".as_slice()),
        (READS_CODE.as_slice(), 11, b"end unmapped 2\n".as_slice()),
    ];
    for (image, status, text) in cases {
        let seen = exec(&rt, rt.alloc(), EXEC, image, b"");
        assert_eq!(rt; seen.status, status);
        assert_eq!(rt; seen.text.as_slice(), text);
    }
}

#[test]
fn a_run_ends_where_its_steps_do(rt: HostRuntime) {
    let seen = exec(
        &rt,
        rt.alloc(),
        b"exec b.img a.script --steps 2",
        &HALT_FIVE,
        b"",
    );
    assert_eq!(rt; seen.status, 9);
    assert_eq!(rt; seen.text.as_slice(), b"end steps 2\n".as_slice());
}

#[test]
fn an_image_that_is_cut_is_refused(rt: HostRuntime) {
    for length in 0..24 {
        let seen = exec(&rt, rt.alloc(), EXEC, &NO_INSTRUCTION[..length], b"");
        assert_eq!(rt; seen.status, 10);
        assert_eq!(rt; seen.text.as_slice(), b"image refused short\n".as_slice());
    }
}

#[test]
fn an_image_with_a_byte_more_is_refused(rt: HostRuntime) -> Result<(), Fail> {
    let mut longer = Vec::from_slice(rt.alloc(), &NO_INSTRUCTION)?;
    longer.push(0)?;
    let seen = exec(&rt, rt.alloc(), EXEC, longer.as_slice(), b"");
    assert_eq!(rt; seen.status, 10);
    assert_eq!(rt; seen.text.as_slice(), b"image refused tail\n".as_slice());
    Ok(())
}

#[test]
fn each_damaged_byte_of_an_image_has_its_answer(rt: HostRuntime) {
    let answers = [
        b"image refused magic\n".as_slice(),
        b"image refused magic\n",
        b"image refused magic\n",
        b"image refused magic\n",
        b"image refused version\n",
        b"image refused version\n",
        b"image refused width\n",
        b"image refused ports\n",
        b"end illegal 1\n",
        b"end illegal 1\n",
        b"end illegal 1\n",
        b"image refused areas\n",
        b"image refused stack\n",
        b"end illegal 1\n",
        b"end illegal 1\n",
        b"image refused stack\n",
        b"image refused short\n",
        b"image refused short\n",
        b"image refused short\n",
        b"image refused code\n",
    ];
    for place in 0..20 {
        let mut image = NO_INSTRUCTION;
        image[place] = 0xFF;
        let seen = exec(&rt, rt.alloc(), EXEC, &image, b"");
        assert_eq!(rt; seen.text.as_slice(), answers[place]);
    }
}

#[test]
fn a_script_of_one_byte_too_many_is_refused_as_a_whole(rt: HostRuntime) -> Result<(), Fail> {
    let alloc = rt.alloc();
    let mut script = Vec::new(alloc);
    for _ in 0..1_048_577 {
        script.push(b'\n')?;
    }
    let seen = run_on(&rt, alloc, ECHO, script.as_slice());
    assert_eq!(rt; seen.status, 3);
    assert_eq!(rt; seen.text.as_slice(), b"script refused 0\n".as_slice());
    assert_eq!(rt; seen.image, None);
    Ok(())
}
