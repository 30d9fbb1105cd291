ghost use Rattle.std.specs.Prelude.{◌≡◌, ◌+◌, ◌-◌, ◌^◌, ◌<◌, length, map, Some, slice_get, option_map, IfOk, OnOk, OnErr};
ghost use Rattle.hb_base.specs.Names.{with_text, with_texts, AreDistinct, fixed_names};

use crate::memory::Memory;
use crate::name::Name;
use indexmap::IndexSet;
use std::alloc::Global;
use std::marker::Model;

/// The fixed names, then the primitives, and then `/` and `_`.
const FIXED: [&[u8]; 71] = [
    b"Pad",
    b"In",
    b"Out",
    b"+",
    b"*",
    b"^",
    b"<=",
    b"main",
    b"Unsigned",
    b"Signed",
    b"Bit",
    b"Ix",
    b"NonZero",
    b"M",
    b"Ref",
    b"Stored",
    b"BE",
    b"Array",
    b"Width",
    b"Index",
    b"NumLit",
    b"BitRep",
    b"Cell",
    b"Unit",
    b"Pair",
    b"Bool",
    b"False",
    b"True",
    b"Maybe",
    b"Nothing",
    b"Just",
    b"addU",
    b"subU",
    b"mulU",
    b"andU",
    b"orU",
    b"xorU",
    b"notU",
    b"shlU",
    b"shrU",
    b"divU",
    b"remU",
    b"eqU",
    b"ltU",
    b"ltS",
    b"toSigned",
    b"fromSigned",
    b"nonZero",
    b"fromNonZero",
    b"fromBit",
    b"toBit",
    b"joinBits",
    b"highBits",
    b"lowBits",
    b"bitsOf",
    b"ofBits",
    b"fromIx",
    b"toIx",
    b"firstIx",
    b"lastIx",
    b"incIx",
    b"decIx",
    b"elemRef",
    b"readRef",
    b"writeRef",
    b"readPort",
    b"writePort",
    b"return",
    b"halt",
    b"/",
    b"_",
];

/// The names of a program in the order in which they were first seen. A contract sees the list of their texts,
/// each once; a name is the place of its text in it.
#[derive(Drop)]
pub struct Names {
    alloc: Global,
    texts: IndexSet<Vec<u8>>,
}

impl Model for Names {
    ghost use Rattle.std.specs.Prelude.{ℕ, List, map};
    ghost use Rattle.hb_base.specs.Names.{IsTable};

    ghost Value = { List (List ℕ) };

    ghost view = { λ names. map (λ text. text.items) names.texts.keys };

    ghost invariant = { λ names. IsTable (map (λ text. text.items) names.texts.keys) };
}

impl Names {
    /// The table that holds the fixed names, then the primitives, and then `/` and `_`.
    pub fn new(alloc: Global) -> Result<Names, Memory>
        ensures fixed { IfOk result (λ names. names ≡ fixed_names) }
    {
        let mut names = Names {
            alloc,
            texts: IndexSet::new(alloc),
        };
        names.intern_all(&FIXED)?;
        Ok(names)
    }

    /// Takes in these texts in their order.
    fn intern_all(&mut self, texts: &[&[u8]]) -> Result<(), Memory>
        requires room { length self.old + length texts.now < 2 ^ 32 }
        ensures texts { OnOk result (self.new ≡ with_texts self.old (map (λ text. text.now) texts.now)) }
    {
        for text in texts {
            self.intern(text)?;
        }
        Ok(())
    }

    /// The number of names. No two of them have one text.
    pub fn count(&self) -> u32
        ensures count { result ≡ length self.now }
        ensures distinct { AreDistinct self.now }
    {
        self.texts.len() as u32
    }

    /// The text of a name.
    pub fn text(&self, name: Name) -> Option<&[u8]>
        ensures { option_map (λ text. text.now) result ≡ slice_get self.now name.0 }
    {
        let text = self.texts.get_index(name.0 as usize)?;
        Some(text.as_slice())
    }

    /// The name of a text. A known text keeps its name, a new one gets the next. After `Memory` the table is as it
    /// was.
    pub fn intern(&mut self, text: &[u8]) -> Result<Name, Memory>
        requires room { length self.old < 2 ^ 32 - 1 }
        ensures texts { OnOk result (self.new ≡ with_text self.old text.now) }
        ensures stands { IfOk result (λ name. slice_get self.new name.0 ≡ Some text.now) }
        ensures unchanged { OnErr result (self.new ≡ self.old) }
        ensures distinct { AreDistinct self.new }
    {
        if let Some((index, _)) = self.texts.get_full(text) {
            return Ok(Name(index as u32));
        }
        let owned = Vec::from_slice(self.alloc, text)?;
        let (index, _) = self.texts.insert_full(owned)?;
        Ok(Name(index as u32))
    }
}
