ghost use Rattle.std.specs.Prelude.{◌≡◌, [], ◌∷◌, ◌++◌, ◌<◌, ◌≤◌, IfOk, OnOk, length, drop, MatchOption, Some, unwrap_or};
ghost use Rattle.std.specs.Prelude.{codes, IsTrue, ◌↔◌};
ghost use Rattle.std.specs.Str.{IsUtf8};
ghost use Rattle.hb_words.specs.Words;
ghost use Rattle.hb_words.specs.Words.{with_digit, number_of, kind_of, rest_of, named_command, command_of, run_of, exec_of, HasNames, Reads};
ghost use Rattle.hb_words.specs.declared.words.Command.{Command};

use hb_base::limits::STANDARD_STEPS;
use hb_base::{List, Memory, Text};
use std::alloc::Global;
use std::str;

/// What the words ask for, with the names of files and the most steps of the run.
#[derive(Debug, Drop)]
pub enum Command {
    /// Compiles the source of the first name, writes the image to the third, and runs it on the script of the second.
    Run(Text, Text, Text, u64),
    /// Runs the image of the first name on the script of the second.
    Exec(Text, Text, u64),
}

/// What one word after the command is.
#[derive(Clone, Copy, Debug, PartialEq, Eq)]
pub enum Kind {
    /// A name of a file.
    Name,
    /// `--steps`, whose number is the next word.
    StepsWord,
    /// `--steps=N`.
    StepsEquals,
    /// `--`, after which all words are names.
    Dashes,
    /// Any other option.
    Unknown,
}

/// What the words after the command say: the most steps, where that is said, and names of files.
#[derive(Debug, Drop)]
pub struct Rest {
    pub steps: Option<u64>,
    pub names: List<Text>,
}

fn with_digit(number: u64, byte: u8) -> Option<u64>
    ensures { result ≡ with_digit number byte }
{
    if !byte.is_ascii_digit() {
        return None;
    }
    number.checked_mul(10)?.checked_add(u64::from(byte - b'0'))
}

/// The number that these decimal digits write, if it is below 2^64.
fn number_of(digits: &[u8]) -> Option<u64>
    ensures { result ≡ number_of digits.now }
{
    if digits.is_empty() {
        return None;
    }
    let mut number = 0;
    for byte in digits {
        number = with_digit(number, *byte)?;
    }
    Some(number)
}

/// The number in `--steps=N`.
fn number_after(word: &[u8]) -> Option<u64>
    ensures { result ≡ number_of (drop 8 word.now) }
{
    let digits = word.get(8..)?;
    number_of(digits)
}

fn is_option(word: &[u8]) -> bool
    ensures { result ≡ Words.is_option word.now }
{
    match word {
        [first, _, ..] => *first == b'-',
        _ => false,
    }
}

fn kind_of(word: &[u8]) -> Kind
    ensures { result ≡ kind_of word.now }
{
    if word == b"--".as_slice() {
        Kind::Dashes
    } else if word == b"--steps".as_slice() {
        Kind::StepsWord
    } else if word.starts_with(b"--steps=") {
        Kind::StepsEquals
    } else if is_option(word) {
        Kind::Unknown
    } else {
        Kind::Name
    }
}

fn copy_of(alloc: Global, word: &Text) -> Result<Text, Memory>
    ensures { IfOk result (λ copy. copy ≡ word.now) }
{
    Ok(Text::of(Vec::from_slice(alloc, word.as_slice())?))
}

impl Rest {
    ghost use Rattle.hb_words.specs.Words.{joined, with_steps, numbered, IsRead};
    ghost use Rattle.std.specs.Prelude.{MatchBool, Option, None, length};
    ghost use Rattle.hb_words.specs.declared.words.Rest.{Rest};

    /// Nothing said yet.
    fn new(alloc: Global) -> Rest
        ensures { result ≡ Words.nothing_said }
    {
        Rest {
            steps: None,
            names: List::of(Vec::new(alloc)),
        }
    }

    /// One name more.
    fn add_name(&mut self, alloc: Global, word: &Text) -> Result<(), Memory>
        ensures names { OnOk result (self.new.names ≡ self.old.names ++ word.now ∷ []) }
        ensures steps { self.new.steps ≡ self.old.steps }
    {
        self.names.push(copy_of(alloc, word)?)?;
        Ok(())
    }

    /// All these words are names.
    fn add_names(&mut self, alloc: Global, words: &[Text]) -> Result<(), Memory>
        ensures names { OnOk result (self.new.names ≡ self.old.names ++ words.now) }
        ensures steps { self.new.steps ≡ self.old.steps }
    {
        for word in words {
            self.add_name(alloc, word)?;
        }
        Ok(())
    }

    /// The steps are this number, where one is written and none was before.
    fn set_steps(&mut self, steps: Option<u64>) -> bool
        ensures { MatchBool result ((others : Option Rest) → joined self.new others ≡ joined self.old (with_steps steps others)) ((others : Option Rest) → joined self.old (with_steps steps others) ≡ None) }
    {
        if self.steps.is_some() || steps.is_none() {
            return false;
        }
        self.steps = steps;
        true
    }

    /// Reads the number after `--steps`. Answers the words left, or nothing where no number is there.
    fn take_steps<'a>(&mut self, words: &'a [Text]) -> Option<&'a [Text]>
        ensures { MatchOption result (joined self.old (numbered words.now) ≡ None) (λ left. IsRead self.old self.new (numbered words.now) words.now left.now) }
    {
        let (number, others) = words.split_first()?;
        if self.set_steps(number_of(number.as_slice())) {
            Some(others)
        } else {
            None
        }
    }

    /// Reads this word, with the others after it. Answers the words left to read, or nothing where the words say nothing.
    #[tactic(auto, using(crate::proofs::RestLaws::read_name, crate::proofs::RestLaws::rest_numbered))]
    fn take<'a>(
        &mut self,
        alloc: Global,
        word: &Text,
        others: &'a [Text],
    ) -> Result<Option<&'a [Text]>, Memory>
        ensures { IfOk result (λ left. MatchOption left (joined self.old (rest_of (word.now ∷ others.now)) ≡ None) (λ left. IsRead self.old self.new (rest_of (word.now ∷ others.now)) others.now left.now)) }
    {
        match kind_of(word.as_slice()) {
            Kind::Name => {
                self.add_name(alloc, word)?;
                Ok(Some(others))
            }
            Kind::StepsWord => Ok(self.take_steps(others)),
            Kind::StepsEquals => {
                if self.set_steps(number_after(word.as_slice())) {
                    Ok(Some(others))
                } else {
                    Ok(None)
                }
            }
            Kind::Dashes => {
                self.add_names(alloc, others)?;
                Ok(Some(&others[..0]))
            }
            Kind::Unknown => Ok(None),
        }
    }
}

/// What the words after the command say.
fn read_rest(alloc: Global, words: &[Text]) -> Result<Option<Rest>, Memory>
    ensures { IfOk result (λ rest. rest ≡ rest_of words.now) }
{
    let mut rest = Rest::new(alloc);
    let mut left = words;
    while let Some((word, others)) = left.split_first() {
        let Some(more) = rest.take(alloc, word, others)? else {
            return Ok(None);
        };
        left = more;
    }
    Ok(Some(rest))
}

fn run_of(alloc: Global, steps: u64, names: &[Text]) -> Result<Option<Command>, Memory>
    ensures { IfOk result (λ command. command ≡ run_of steps names.now) }
{
    let [file, script, image] = names else {
        return Ok(None);
    };
    let file = copy_of(alloc, file)?;
    let script = copy_of(alloc, script)?;
    let image = copy_of(alloc, image)?;
    Ok(Some(Command::Run(file, script, image, steps)))
}

fn exec_of(alloc: Global, steps: u64, names: &[Text]) -> Result<Option<Command>, Memory>
    ensures { IfOk result (λ command. command ≡ exec_of steps names.now) }
{
    let [image, script] = names else {
        return Ok(None);
    };
    let image = copy_of(alloc, image)?;
    let script = copy_of(alloc, script)?;
    Ok(Some(Command::Exec(image, script, steps)))
}

fn named_command(alloc: Global, word: &[u8], rest: &Rest) -> Result<Option<Command>, Memory>
    ensures { IfOk result (λ command. command ≡ named_command word.now rest.now) }
{
    let steps = rest.steps.unwrap_or(STANDARD_STEPS);
    let names = rest.names.as_slice();
    if word == b"run".as_slice() {
        let command = run_of(alloc, steps, names)?;
        Ok(command)
    } else if word == b"exec".as_slice() {
        let command = exec_of(alloc, steps, names)?;
        Ok(command)
    } else {
        Ok(None)
    }
}

fn command_of(alloc: Global, words: &[Text]) -> Result<Option<Command>, Memory>
    ensures { IfOk result (λ command. command ≡ command_of words.now) }
{
    let Some((word, others)) = words.split_first() else {
        return Ok(None);
    };
    let Some(rest) = read_rest(alloc, others)? else {
        return Ok(None);
    };
    let command = named_command(alloc, word.as_slice(), &rest)?;
    Ok(command)
}

fn is_utf8(name: &Text) -> bool
    ensures { IsTrue result ↔ IsUtf8 name.now }
{
    str::from_utf8(name.as_slice()).is_ok()
}

fn has_names(command: &Command) -> bool
    ensures { IsTrue result ↔ HasNames command.now }
{
    match command {
        Command::Run(file, script, image, _) => is_utf8(file) && is_utf8(script) && is_utf8(image),
        Command::Exec(image, script, _) => is_utf8(image) && is_utf8(script),
    }
}

/// The command that these words are: `run FILE SCRIPT IMAGE` or `exec IMAGE SCRIPT`, with `--steps N` or `--steps=N` at
/// most once, anywhere after the first word (N is below 2^64, and 100,000,000 where it is not said). After `--` each
/// word is a name. Nothing where the words are no command, or a name is not UTF-8.
///
/// # Errors
///
/// `Memory` where there is no room for the names.
pub fn read_words(alloc: Global, words: &List<Text>) -> Result<Option<Command>, Memory>
    ensures found { IfOk result (λ command. MatchOption command ((command : Command) → Reads words.now command → ⊥) (λ command. Reads words.now command)) }
{
    let Some(command) = command_of(alloc, words.as_slice())? else {
        return Ok(None);
    };
    if !has_names(&command) {
        return Ok(None);
    }
    Ok(Some(command))
}
