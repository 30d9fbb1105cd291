//! Tables of sources, and long sources of one part over and over.

use crate::trees::answer;
use std::alloc::Global;
use std::test::Fail;

/// How many rows there are whose source gives another text than the one beside it; each of them is printed.
pub fn wrong_rows(
    alloc: Global,
    rt: &impl Print,
    places: bool,
    rows: &[(&str, &str)],
) -> Result<u32, Fail> {
    let mut wrong: u32 = 0;
    for (source, wanted) in rows {
        let found = answer(alloc, source.as_bytes(), places)?;
        if found.as_bytes() != wanted.as_bytes() {
            println!(rt; "{source}\n  wanted {wanted}\n  found  {found}")?;
            wrong = wrong.saturating_add(1);
        }
    }
    Ok(wrong)
}

/// A text, a part so many times, another text, another part as many times, and a last text.
pub fn repeated(
    alloc: Global,
    count: u32,
    texts: [&str; 3],
    parts: [&str; 2],
) -> Result<String, Fail> {
    let [before, between, after] = texts;
    let [first, second] = parts;
    let mut source = String::new(alloc);
    source.push_str(before)?;
    for _ in 0..count {
        source.push_str(first)?;
    }
    source.push_str(between)?;
    for _ in 0..count {
        source.push_str(second)?;
    }
    source.push_str(after)?;
    Ok(source)
}
