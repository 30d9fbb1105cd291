//! What a call of the top call did.

use hb_base::{List, Text};
use hb_io::{MemShelf, MemSink};
use hb_top::habit;
use std::alloc::Global;
use std::process::Abort;

/// What a call did: its status, what it put, and the length of the image that it wrote.
#[derive(Drop)]
pub struct Seen {
    pub status: u8,
    pub text: Vec<u8>,
    pub image: Option<usize>,
}

fn words_of(rt: &impl Abort, alloc: Global, line: &[u8]) -> List<Text> {
    let mut words = List::of(Vec::new(alloc));
    for word in line.split(|byte| *byte == b' ') {
        if !word.is_empty() {
            let mut text = Text::of(Vec::new(alloc));
            for byte in word {
                text.push(*byte).expect(rt, "memory");
            }
            words.push(text).expect(rt, "memory");
        }
    }
    words
}

/// Calls with these words, over the files `a.hb` and `a.script`; the shelf and the sink fail at these calls.
pub fn call(
    rt: &impl Abort,
    alloc: Global,
    line: &[u8],
    source: &[u8],
    script: &[u8],
    shelf_fails: &[u64],
    sink_fails: &[u64],
) -> Seen {
    let mut shelf = MemShelf::new(alloc, shelf_fails).expect(rt, "memory");
    shelf.add("a.hb", source).expect(rt, "memory");
    shelf.add("a.script", script).expect(rt, "memory");
    called(rt, alloc, line, shelf, sink_fails)
}

/// Runs the image in `b.img` with these words over the files `b.img` and `a.script`.
pub fn exec(rt: &impl Abort, alloc: Global, line: &[u8], image: &[u8], script: &[u8]) -> Seen {
    let mut shelf = MemShelf::new(alloc, &[]).expect(rt, "memory");
    shelf.add("b.img", image).expect(rt, "memory");
    shelf.add("a.script", script).expect(rt, "memory");
    called(rt, alloc, line, shelf, &[])
}

fn called(
    rt: &impl Abort,
    alloc: Global,
    line: &[u8],
    mut shelf: MemShelf,
    sink_fails: &[u64],
) -> Seen {
    let mut out = MemSink::new(alloc, 65_536, sink_fails).expect(rt, "memory");
    let words = words_of(rt, alloc, line);
    let status = habit(alloc, &words, &mut shelf, &mut out);
    Seen {
        status,
        text: Vec::from_slice(alloc, out.bytes()).expect(rt, "memory"),
        image: shelf.file("a.img").map(|bytes| bytes.len()),
    }
}

/// Runs `a.hb` on a script.
pub fn run_on(rt: &impl Abort, alloc: Global, source: &[u8], script: &[u8]) -> Seen {
    call(
        rt,
        alloc,
        b"run a.hb a.script a.img",
        source,
        script,
        &[],
        &[],
    )
}

/// Runs `a.hb` on an empty script.
pub fn run(rt: &impl Abort, alloc: Global, source: &[u8]) -> Seen {
    run_on(rt, alloc, source, b"")
}

/// The bytes of an image before its number of words: no ports, areas of 4,096 bytes, and a stack of 4,096 bytes.
const HEAD: [u8; 16] = [
    0x48, 0x42, 0x49, 0x4D, 1, 0, 0, 0, 0, 0x10, 0, 0, 0, 0x10, 0, 0,
];

/// An image of this code.
pub fn image_of(rt: &impl Abort, alloc: Global, code: &[u32]) -> Vec<u8> {
    let count = u32::try_from(code.len()).expect(rt, "a count of words");
    let mut image = Vec::from_slice(alloc, &HEAD).expect(rt, "memory");
    image
        .extend_from_slice(&count.to_le_bytes())
        .expect(rt, "memory");
    for word in code {
        image
            .extend_from_slice(&word.to_le_bytes())
            .expect(rt, "memory");
    }
    image
}

/// LUI and ADDI that set a register, by its number below 32, to a word. ADDI adds a signed number, so LUI rounds.
pub fn setting(register: u32, word: u32) -> [u32; 2] {
    let upper = word.wrapping_add(0x800) & 0xFFFF_F000;
    let lower = word << 20;
    [
        upper | register << 7 | 0x37,
        lower | register << 15 | register << 7 | 0x13,
    ]
}
