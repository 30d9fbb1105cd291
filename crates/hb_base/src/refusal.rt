ghost use Rattle.std.specs.Prelude.{◌≡◌, ◌≤◌, length, take, IfOk};
ghost use Rattle.hb_base.specs.Faults.{IfRefused};

use crate::limits::DETAIL_BYTES;
use crate::memory::Memory;
use crate::place::Place;
use std::alloc::Global;
use std::marker::Model;

/// The rule that a refused source breaks. Each code stands for one rule, named beside it.
#[derive(Clone, Copy, Debug, PartialEq, Eq)]
pub enum Code {
    /// A byte that no source has.
    E01,
    /// A literal out of form or range, an open comment or a quote.
    E02,
    /// Brackets and blocks that do not close one another.
    E03,
    /// A token that no program has there.
    E04,
    /// A word or form of Habit that is left out.
    E05,
    /// An unknown name.
    E06,
    /// A name declared twice.
    E07,
    /// Operators that no fixity groups, or groups in two ways.
    E08,
    /// A definition without its signature, or a signature without its definition.
    E09,
    /// Kinds that do not fit.
    E10,
    /// A class or instance that breaks the rules of its kind.
    E11,
    /// Types that do not fit.
    E12,
    /// A type that nothing forces.
    E13,
    /// A predicate that does not follow.
    E14,
    /// A type that contains itself.
    E15,
    /// A width out of its range.
    E16,
    /// A field twice, missing or unknown.
    E17,
    /// An area or struct whose layout breaks the rules.
    E18,
    /// A port whose place, type or name breaks the rules.
    E19,
    /// A match that lets a value through.
    E20,
    /// A match of too many states.
    E21,
    /// Too many ground instances.
    E22,
    /// A type of an instance that is too large.
    E23,
    /// A closure class that leads to itself.
    E24,
    /// A value of too many words.
    E25,
    /// A closure class of too many labels.
    E26,
    /// Too many ground nodes.
    E27,
    /// Areas of too many bytes.
    E28,
    /// Brackets, blocks or forms nested too deep.
    E29,
    /// A source of too many bytes.
    E30,
}

/// The first 200 bytes of a text, or all of it where it is shorter.
fn front(text: &[u8]) -> &[u8]
    ensures front { result.now ≡ take 200 text.now }
    ensures few { length result.now ≤ 200 }
{
    if text.len() <= DETAIL_BYTES {
        text
    } else {
        &text[..DETAIL_BYTES]
    }
}

/// What is at fault in a source, as a text of at most 200 bytes. A contract sees the list of its bytes.
#[derive(Debug, Drop)]
pub struct Detail {
    bytes: Vec<u8>,
}

impl Model for Detail {
    ghost use Rattle.std.specs.Prelude.{List, ℕ, length, ◌≤◌};

    ghost Value = { List ℕ };

    ghost view = { λ detail. detail.bytes.items };

    ghost invariant = { λ detail. length detail.bytes.items ≤ 200 };
}

impl Detail {
    /// The first 200 bytes of a text, or all of it where it is shorter.
    pub fn of(alloc: Global, text: &[u8]) -> Result<Detail, Memory>
        ensures first { IfOk result (λ detail. detail ≡ take 200 text.now) }
    {
        let bytes = Vec::from_slice(alloc, front(text))?;
        Ok(Detail { bytes })
    }

    /// The bytes in their order. Takes no memory.
    pub fn as_slice(&self) -> &[u8]
        ensures bytes { result.now ≡ self.now }
        ensures few { length result.now ≤ 200 }
    {
        self.bytes.as_slice()
    }
}

/// Why a source is refused: the rule, the place of the fault, and what is at fault.
#[derive(Debug, Drop)]
pub struct Refusal {
    pub code: Code,
    pub place: Place,
    pub detail: Detail,
}

/// Why a pass over a source gives no answer: the source is refused, or memory ran out.
#[derive(Debug, Drop)]
pub enum Fault {
    Refused(Refusal),
    Memory,
}

impl From<Memory> for Fault {
    fn from(_memory: Memory) -> Fault {
        Fault::Memory
    }
}

/// The refusal of these parts, where there is memory for its detail. A detail of more than 200 bytes keeps its first 200.
pub fn refused(alloc: Global, code: Code, place: Place, detail: &[u8]) -> Fault
    ensures first { IfRefused (λ refusal. refusal ≡ record { code = code; place = place; detail = take 200 detail.now }) result }
    ensures whole { length detail.now ≤ 200 → IfRefused (λ refusal. refusal ≡ record { code = code; place = place; detail = detail.now }) result }
{
    match Detail::of(alloc, detail) {
        Ok(detail) => Fault::Refused(Refusal {
            code,
            place,
            detail,
        }),
        Err(Memory) => Fault::Memory,
    }
}
