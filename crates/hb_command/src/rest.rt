//! What the words after the command say.

ghost use Rattle.std.specs.Prelude.{◌≡◌, [], ◌∷◌, ◌++◌, drop, IfOk, OnOk};
ghost use Rattle.hb_command.specs.Rests.{after, rest_of, whole};

use crate::reading::Reading;
use hb_base::{List, Memory, Text};
use std::alloc::Global;

/// The options and the positional words.
#[derive(Debug, Drop)]
pub struct Rest {
    pub reading: Reading,
    pub names: List<Text>,
}

pub fn copy_of(alloc: Global, word: &Text) -> Result<Text, Memory>
    ensures { IfOk result (λ copy. copy ≡ word.now) }
{
    Ok(Text::of(Vec::from_slice(alloc, word.as_slice())?))
}

impl Rest {
    ghost use Rattle.hb_command.specs.Rests.{with_name, begun};

    fn new(alloc: Global) -> Rest
        ensures { result ≡ begun }
    {
        Rest {
            reading: Reading::new(),
            names: List::of(Vec::new(alloc)),
        }
    }

    /// The same with this word among the names, where it is one.
    fn with_name(self, alloc: Global, is_name: bool, word: &Text) -> Result<Rest, Memory>
        ensures { IfOk result (λ rest. rest ≡ with_name is_name word.now self) }
    {
        if !is_name {
            return Ok(self);
        }
        let mut names = self.names;
        names.push(copy_of(alloc, word)?)?;
        Ok(Rest {
            reading: self.reading,
            names,
        })
    }

    /// What is said with this word more, or nothing where it may not stand here.
    fn after(self, alloc: Global, word: &Text) -> Result<Option<Rest>, Memory>
        ensures { IfOk result (λ rest. rest ≡ after word.now self) }
    {
        let Some(reading) = self.reading.read(word.as_slice()) else {
            return Ok(None);
        };
        let is_name = self.reading.is_name(word.as_slice());
        let rest = self.with_name(alloc, is_name, word)?;
        Ok(Some(Rest {
            reading,
            names: rest.names,
        }))
    }
}

/// What the words after the command say, or nothing where they say nothing.
pub fn rest_of(alloc: Global, words: &[Text]) -> Result<Option<Rest>, Memory>
    ensures { IfOk result (λ rest. rest ≡ rest_of words.now) }
{
    let mut rest = Rest::new(alloc);
    for word in words {
        let Some(more) = rest.after(alloc, word)? else {
            return Ok(None);
        };
        rest = more;
    }
    if !rest.reading.is_whole() {
        return Ok(None);
    }
    Ok(Some(rest))
}
