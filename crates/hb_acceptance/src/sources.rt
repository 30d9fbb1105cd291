//! Sources that are run, and sources that are refused, each with its line.

use crate::seen::{run, run_on};
use std::test::Fail;

/// Reads two bytes and writes their sum.
const ECHO: &[u8] = b"-- reads two bytes and writes their sum
port rx :: In (Bit 8) at X80000000
port tx :: Out (Bit 8) at X80000004

main :: M Unit
main = do
  a <- readPort rx
  b <- readPort rx
  writePort tx (a + b)
";

/// The first two lines of the sources below.
const HEAD: &[u8] = b"port tx :: Out (Bit 8) at X80000000
main :: M Unit
";

#[test]
fn an_echo_by_layout_gives_its_trace(rt: HostRuntime) {
    let seen = run_on(&rt, rt.alloc(), ECHO, b"rx 41\nrx C0\n");
    assert_eq!(rt; seen.status, 0);
    assert!(rt;
        seen.text
            .as_slice()
            .starts_with(b"r rx 41\nr rx C0\nw tx 01\nend done ".as_slice())
    );
    assert!(rt; seen.image.is_some());
}

#[test]
fn brackets_comments_and_the_way_of_writing_a_literal_make_no_difference(rt: HostRuntime) {
    let source = b"{ port tx :: Out ((Bit 8)) at O20000000000;
main :: (M Unit); {- a write -} main = (do { ((writePort tx) (B01000001)) ; }) }";
    let seen = run(&rt, rt.alloc(), source);
    assert_eq!(rt; seen.text.as_slice(), b"refused E05 1:3 form\n".as_slice());
    let source = b"{ port tx :: Out ((Bit 8)) at B10000000000000000000000000000000;
main :: (M Unit); {- a write -} main = (do { ((writePort tx) (B01000001)) ; }) }";
    let seen = run(&rt, rt.alloc(), source);
    assert_eq!(rt; seen.status, 0);
    assert!(rt;
        seen.text
            .as_slice()
            .starts_with(b"w tx 41\nend done ".as_slice())
    );
}

#[test]
fn a_source_that_breaks_a_rule_of_the_language_is_refused_for_the_first(rt: HostRuntime) {
    let rows = [
        (
            b"import Other".as_slice(),
            b"refused E05 1:1 import\n".as_slice(),
        ),
        (b"main = 12ab", b"refused E02 1:8 literal\n"),
        (b"{-", b"refused E02 1:1 comment\n"),
        (b"\x80", b"refused E01 1:1 80\n"),
        (b"main = (1]", b"refused E03 1:10 -\n"),
        (b"in", b"refused E03 1:1 -\n"),
        (
            b"{ main :: M Unit; main = do { } }",
            b"refused E04 1:31 -\n",
        ),
        (b"struct E [ ]", b"refused E04 1:12 -\n"),
        (b"x :: Unsigned = 1", b"refused E04 1:15 -\n"),
    ];
    for (source, line) in rows {
        let seen = run(&rt, rt.alloc(), source);
        assert_eq!(rt; seen.status, 1);
        assert_eq!(rt; seen.text.as_slice(), line);
        assert_eq!(rt; seen.image, None);
    }
}

/// The line of the source that has the first two lines and this.
fn after_head(
    rt: &impl std::process::Abort,
    alloc: std::alloc::Global,
    rest: &[u8],
) -> Result<Vec<u8>, Fail> {
    let mut source = Vec::from_slice(alloc, HEAD)?;
    source.extend_from_slice(rest)?;
    Ok(run(rt, alloc, source.as_slice()).text)
}

#[test]
fn a_program_of_another_form_is_refused_where_it_first_leaves_it(
    rt: HostRuntime,
) -> Result<(), Fail> {
    let rows = [
        (b"".as_slice(), b"refused E05 3:1 form\n".as_slice()),
        (b"x = 1\n", b"refused E05 3:1 form\n"),
        (b"main = writePort tx X41\n", b"refused E05 3:1 form\n"),
        (b"main = do\n  writePort tx a\n", b"refused E05 4:3 form\n"),
        (
            b"main = do\n  writePort rx X41\n",
            b"refused E05 4:3 form\n",
        ),
        (
            b"main = do\n  writePort tx X041\n",
            b"refused E05 4:3 form\n",
        ),
        (
            b"main = do\n  let x = X41\n  writePort tx x\n",
            b"refused E05 4:7 form\n",
        ),
        (
            b"main = do { let { }; writePort tx X41 }\n",
            b"refused E05 3:1 form\n",
        ),
        (
            b"main = do\n  writePort tx X41\n  a <- readPort tx\n  writePort tx a\n",
            b"refused E05 5:3 form\n",
        ),
        (
            b"main = do\n  writePort tx X41\nx = 1\n",
            b"refused E05 5:1 form\n",
        ),
        (b"main = do\n  writePort tx X41\n", b""),
    ];
    for (rest, line) in rows {
        let text = after_head(&rt, rt.alloc(), rest)?;
        if line.is_empty() {
            assert!(rt;
                text.as_slice()
                    .starts_with(b"w tx 41\nend done ".as_slice())
            );
        } else {
            assert_eq!(rt; text.as_slice(), line);
        }
    }
    Ok(())
}
