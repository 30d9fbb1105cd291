use super::*;
use hb_base::{List, Text};
use std::alloc::Global;
use std::test::Fail;

fn words_of(alloc: Global, line: &[u8]) -> Result<List<Text>, Fail> {
    let mut words = List::of(Vec::new(alloc));
    for word in line.split(|byte| *byte == b' ') {
        words.push(Text::of(Vec::from_slice(alloc, word)?))?;
    }
    Ok(words)
}

fn is_command(alloc: Global, line: &[u8]) -> Result<bool, Fail> {
    let words = words_of(alloc, line)?;
    Ok(read_command(alloc, &words)?.is_some())
}

/// The numbers of a run of `f s i` by these words, and whether a map is asked for.
fn run_of(alloc: Global, line: &[u8]) -> Result<Option<(u64, u32, bool)>, Fail> {
    let words = words_of(alloc, line)?;
    let Some(Command::Run(file, script, image, steps, stack, map)) = read_command(alloc, &words)?
    else {
        return Ok(None);
    };
    let is_named = file.as_slice() == b"f".as_slice()
        && script.as_slice() == b"s".as_slice()
        && image.as_slice() == b"i".as_slice();
    Ok(if is_named {
        Some((steps, stack, map))
    } else {
        None
    })
}

#[test]
fn options_stand_anywhere_after_the_command(rt: HostRuntime) -> Result<(), Fail> {
    let alloc = rt.alloc();
    let rows: [(&[u8], (u64, u32, bool)); 6] = [
        (b"run f s i", (100_000_000, 1_048_576, false)),
        (b"run --map f --steps 0 s --stack=4096 i", (0, 4_096, true)),
        (
            b"run f s --stack 16777216 i --map",
            (100_000_000, 16_777_216, true),
        ),
        (
            b"run f s i --steps=18446744073709551615",
            (u64::MAX, 1_048_576, false),
        ),
        (b"run --steps 0007 f s i", (7, 1_048_576, false)),
        (b"run --steps 7 -- f s i", (7, 1_048_576, false)),
    ];
    for (line, numbers) in &rows {
        assert_eq!(rt; run_of(alloc, line)?, Some(*numbers));
    }
    Ok(())
}

#[test]
fn these_words_are_commands(rt: HostRuntime) -> Result<(), Fail> {
    let alloc = rt.alloc();
    let rows: [&[u8]; 8] = [
        b"build f i --stack 5000 --map",
        b"exec i s --steps=1",
        b"exec -- -i --steps",
        b"exec i -",
        b"exec  i",
        b"sample 1 f",
        b"sample 03000 f i",
        b"sample -- 2 --map",
    ];
    for line in &rows {
        assert_eq!(rt; is_command(alloc, line)?, true);
    }
    Ok(())
}

#[test]
fn these_words_are_no_commands(rt: HostRuntime) -> Result<(), Fail> {
    let alloc = rt.alloc();
    let rows: [&[u8]; 30] = [
        b"",
        b"help",
        b"--map run f s i",
        b"run f s",
        b"run f s i more",
        b"run f s i --map --map",
        b"run f s i --map=",
        b"run f s i --steps",
        b"run f s i --steps=",
        b"run --steps -- f s i",
        b"run f s i --steps 1 --steps=1",
        b"run f s i --steps=18446744073709551616",
        b"run f s i --steps +1",
        b"run f s i --stack 4095",
        b"run f s i --stack 16777217",
        b"run f s i --stack=4294971392",
        b"run f s i --stack 5000 --stack 5000",
        b"run f s i -m",
        b"run f s i --help",
        b"run f s i\xFF",
        b"run f s -- i\xFF",
        b"build f i --steps 1",
        b"build f",
        b"exec i s --stack 5000",
        b"exec i s --map",
        b"sample 0 f",
        b"sample 3001 f",
        b"sample x f",
        b"sample 1",
        b"sample 1 f i --steps 1",
    ];
    for line in &rows {
        assert_eq!(rt; is_command(alloc, line)?, false);
    }
    Ok(())
}
