use super::*;
use hb_base::{List, Text};
use std::alloc::Global;
use std::test::Fail;

fn words_of(alloc: Global, line: &[u8]) -> Result<List<Text>, Fail> {
    let mut words = List::of(Vec::new(alloc));
    for word in line.split(|byte| *byte == b' ') {
        words.push(Text::of(Vec::from_slice(alloc, word)?))?;
    }
    Ok(words)
}

/// The steps of a run of these three names.
fn steps_of(command: &Command, names: [&[u8]; 3]) -> Option<u64> {
    let Command::Run(file, script, image, steps) = command else {
        return None;
    };
    if file.as_slice() == names[0]
        && script.as_slice() == names[1]
        && image.as_slice() == names[2]
    {
        Some(*steps)
    } else {
        None
    }
}

/// The steps of these words, where they run `a.hb` on `a.script` by `a.img`.
fn run_steps(alloc: Global, line: &[u8]) -> Result<Option<u64>, Fail> {
    let words = words_of(alloc, line)?;
    let Some(command) = read_words(alloc, &words)? else {
        return Ok(None);
    };
    Ok(steps_of(&command, [b"a.hb", b"a.script", b"a.img"]))
}

fn is_command(alloc: Global, line: &[u8]) -> Result<bool, Fail> {
    let words = words_of(alloc, line)?;
    Ok(read_words(alloc, &words)?.is_some())
}

#[test]
fn a_run_has_three_names_and_the_standard_steps(rt: HostRuntime) -> Result<(), Fail> {
    let alloc = rt.alloc();
    assert_eq!(rt;
        run_steps(alloc, b"run a.hb a.script a.img")?,
        Some(100_000_000)
    );
    assert_eq!(rt; is_command(alloc, b"run a.hb a.script")?, false);
    assert_eq!(rt; is_command(alloc, b"run a.hb a.script a.img more")?, false);
    Ok(())
}

#[test]
fn steps_are_said_once_and_anywhere_after_the_command(rt: HostRuntime) -> Result<(), Fail> {
    let alloc = rt.alloc();
    assert_eq!(rt;
        run_steps(alloc, b"run --steps 7 a.hb a.script a.img")?,
        Some(7)
    );
    assert_eq!(rt;
        run_steps(alloc, b"run a.hb --steps=7 a.script a.img")?,
        Some(7)
    );
    assert_eq!(rt;
        run_steps(alloc, b"run a.hb a.script a.img --steps 7")?,
        Some(7)
    );
    assert_eq!(rt;
        is_command(alloc, b"--steps 7 run a.hb a.script a.img")?,
        false
    );
    assert_eq!(rt;
        is_command(alloc, b"run --steps 7 a.hb a.script a.img --steps=7")?,
        false
    );
    Ok(())
}

#[test]
fn steps_have_a_number_below_2_to_64(rt: HostRuntime) -> Result<(), Fail> {
    let alloc = rt.alloc();
    assert_eq!(rt;
        run_steps(
            alloc,
            b"run a.hb a.script a.img --steps 18446744073709551615"
        )?,
        Some(u64::MAX)
    );
    assert_eq!(rt;
        is_command(
            alloc,
            b"run a.hb a.script a.img --steps 18446744073709551616"
        )?,
        false
    );
    assert_eq!(rt;
        is_command(alloc, b"run a.hb a.script a.img --steps")?,
        false
    );
    assert_eq!(rt;
        is_command(alloc, b"run a.hb a.script a.img --steps=")?,
        false
    );
    assert_eq!(rt;
        is_command(alloc, b"run a.hb a.script a.img --steps 7x")?,
        false
    );
    Ok(())
}

#[test]
fn after_two_dashes_each_word_is_a_name(rt: HostRuntime) -> Result<(), Fail> {
    let alloc = rt.alloc();
    let words = words_of(alloc, b"exec -- -a.img --steps")?;
    let Some(Command::Exec(image, script, steps)) = read_words(alloc, &words)? else {
        return Err(Fail::from("no command"));
    };
    assert_eq!(rt; image.as_slice(), b"-a.img".as_slice());
    assert_eq!(rt; script.as_slice(), b"--steps".as_slice());
    assert_eq!(rt; steps, 100_000_000);
    assert_eq!(rt; is_command(alloc, b"exec a.img -- a.script --")?, false);
    Ok(())
}

#[test]
fn a_lone_dash_is_a_name_and_other_options_are_none(rt: HostRuntime) -> Result<(), Fail> {
    let alloc = rt.alloc();
    assert_eq!(rt; is_command(alloc, b"exec a.img -")?, true);
    assert_eq!(rt; is_command(alloc, b"exec a.img -x")?, false);
    assert_eq!(rt; is_command(alloc, b"exec a.img a.script --step")?, false);
    assert_eq!(rt; is_command(alloc, b"exec a.img \xFF")?, false);
    Ok(())
}
