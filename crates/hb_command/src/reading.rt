//! What one word after the command does to what the words before it said.

ghost use Rattle.std.specs.Prelude.{◌≡◌, drop};
ghost use Rattle.hb_command.specs.Readings;
ghost use Rattle.hb_command.specs.Readings.{kind_of, number_after, is_said, with_steps, with_stack, with_map, read, read_any, is_name, is_whole, is_bare};

use crate::number::number_of;

/// What one word is that may be an option.
#[derive(Clone, Copy, Debug, PartialEq, Eq)]
pub enum Kind {
    /// A positional word.
    Name,
    /// `--steps`, whose number is the next word.
    StepsWord,
    /// `--steps=N`.
    StepsEquals,
    /// `--stack`, whose number is the next word.
    StackWord,
    /// `--stack=N`.
    StackEquals,
    /// `--map`.
    MapWord,
    /// `--`, after which all words are positional.
    Dashes,
    /// Any other option.
    Unknown,
}

/// What the next word is.
#[derive(Clone, Copy, Debug, PartialEq, Eq)]
pub enum Next {
    /// An option or a positional word.
    Any,
    /// The number of `--steps`.
    Steps,
    /// The number of `--stack`.
    Stack,
    /// A positional word.
    Names,
}

/// What the next word is, and the options so far.
#[derive(Clone, Copy, Debug, PartialEq, Eq)]
pub struct Reading {
    pub next: Next,
    pub steps: Option<u64>,
    pub stack: Option<u64>,
    pub map: bool,
}

fn is_option(word: &[u8]) -> bool
    ensures { result ≡ Readings.is_option word.now }
{
    match word {
        [first, _, ..] => *first == b'-',
        _ => false,
    }
}

fn number_after(word: &[u8]) -> Option<u64>
    ensures { result ≡ number_after word.now }
{
    let digits = word.get(8..)?;
    number_of(digits)
}

/// What a word is that is none of `--map`, `--stack` and `--stack=N`.
fn other_kind(word: &[u8]) -> Kind
    ensures { result ≡ Readings.other_kind word.now }
{
    if word == b"--".as_slice() {
        Kind::Dashes
    } else if word == b"--steps".as_slice() {
        Kind::StepsWord
    } else if word.starts_with(b"--steps=") {
        Kind::StepsEquals
    } else if is_option(word) {
        Kind::Unknown
    } else {
        Kind::Name
    }
}

fn kind_of(word: &[u8]) -> Kind
    ensures { result ≡ kind_of word.now }
{
    if word == b"--map".as_slice() {
        Kind::MapWord
    } else if word == b"--stack".as_slice() {
        Kind::StackWord
    } else if word.starts_with(b"--stack=") {
        Kind::StackEquals
    } else {
        other_kind(word)
    }
}

pub fn is_said(number: Option<u64>) -> bool
    ensures { result ≡ is_said number }
{
    match number {
        Some(_) => true,
        None => false,
    }
}

impl Reading {
    ghost use Rattle.hb_command.specs.Readings.{nothing_said, with_next};

    pub fn new() -> Reading
        ensures { result ≡ nothing_said }
    {
        Reading {
            next: Next::Any,
            steps: None,
            stack: None,
            map: false,
        }
    }

    fn with_next(self, next: Next) -> Reading
        ensures { result ≡ with_next next self }
    {
        Reading {
            next,
            steps: self.steps,
            stack: self.stack,
            map: self.map,
        }
    }

    /// The steps are this number, where one is written and none was before.
    fn with_steps(self, number: Option<u64>) -> Option<Reading>
        ensures { result ≡ with_steps number self }
    {
        if is_said(self.steps) {
            return None;
        }
        let steps = number?;
        Some(Reading {
            next: Next::Any,
            steps: Some(steps),
            stack: self.stack,
            map: self.map,
        })
    }

    /// The stack is this number, where one is written and none was before.
    fn with_stack(self, number: Option<u64>) -> Option<Reading>
        ensures { result ≡ with_stack number self }
    {
        if is_said(self.stack) {
            return None;
        }
        let stack = number?;
        Some(Reading {
            next: Next::Any,
            steps: self.steps,
            stack: Some(stack),
            map: self.map,
        })
    }

    fn with_map(self) -> Option<Reading>
        ensures { result ≡ with_map self }
    {
        if self.map {
            return None;
        }
        Some(Reading {
            next: Next::Any,
            steps: self.steps,
            stack: self.stack,
            map: true,
        })
    }

    fn read_any(self, word: &[u8]) -> Option<Reading>
        ensures { result ≡ read_any (kind_of word.now) word.now self }
    {
        match kind_of(word) {
            Kind::Name => Some(self),
            Kind::StepsWord => Some(self.with_next(Next::Steps)),
            Kind::StepsEquals => self.with_steps(number_after(word)),
            Kind::StackWord => Some(self.with_next(Next::Stack)),
            Kind::StackEquals => self.with_stack(number_after(word)),
            Kind::MapWord => self.with_map(),
            Kind::Dashes => Some(self.with_next(Next::Names)),
            Kind::Unknown => None,
        }
    }

    /// What is said with this word more, or nothing where it may not stand here.
    pub fn read(self, word: &[u8]) -> Option<Reading>
        ensures { result ≡ read self.next word.now self }
    {
        match self.next {
            Next::Any => self.read_any(word),
            Next::Steps => self.with_steps(number_of(word)),
            Next::Stack => self.with_stack(number_of(word)),
            Next::Names => Some(self),
        }
    }

    /// Is this word positional?
    pub fn is_name(self, word: &[u8]) -> bool
        ensures { result ≡ is_name self.next word.now }
    {
        match self.next {
            Next::Any => match kind_of(word) {
                Kind::Name => true,
                _ => false,
            },
            Next::Steps => false,
            Next::Stack => false,
            Next::Names => true,
        }
    }

    /// May the words end here?
    pub fn is_whole(self) -> bool
        ensures { result ≡ is_whole self.next }
    {
        match self.next {
            Next::Any => true,
            Next::Steps => false,
            Next::Stack => false,
            Next::Names => true,
        }
    }

    /// Is no option said?
    pub fn is_bare(self) -> bool
        ensures { result ≡ is_bare self }
    {
        if is_said(self.steps) {
            return false;
        }
        if is_said(self.stack) {
            return false;
        }
        !self.map
    }
}
