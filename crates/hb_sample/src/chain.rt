ghost use Rattle.std.specs.Prelude.{◌≡◌, ◌+◌, ◌^◌, ◌<◌, ◌++◌, IfOk, OnOk};
ghost use Rattle.hb_sample.specs.Samples.{first_lines, signature_line, equation_line, function_lines, main_front, main_call, main_lines, sample_of};

use crate::pieces::{put, put_around};
use hb_base::{Memory, Text};
use std::alloc::Global;

/// The port and the first function, which gives back what it takes.
fn put_first(text: &mut Vec<u8>) -> Result<(), Memory>
    ensures { OnOk result (text.new.items ≡ text.old.items ++ first_lines) }
{
    put(text, b"port tx :: Out Unsigned at X80000000\n")?;
    put(text, b"f0 :: Unsigned -> Unsigned\n")?;
    put(text, b"f0 x = x\n")
}

fn put_signature(text: &mut Vec<u8>, number: u32) -> Result<(), Memory>
    ensures { OnOk result (text.new.items ≡ text.old.items ++ signature_line number) }
{
    put_around(text, b"f", number, b" :: Unsigned -> Unsigned\n")
}

/// The equation of the function after this one.
fn put_equation(text: &mut Vec<u8>, before: u32) -> Result<(), Memory>
    requires { before + 1 < 2 ^ 32 }
    ensures { OnOk result (text.new.items ≡ text.old.items ++ equation_line (before + 1) before) }
{
    let number = before + 1;
    put_around(text, b"f", number, b" x = f")?;
    put_around(text, b"", before, b" (x * ")?;
    put_around(text, b"", number % 7 + 1, b" + ")?;
    put_around(text, b"", number, b")\n")
}

/// The function after this one.
fn put_function(text: &mut Vec<u8>, before: u32) -> Result<(), Memory>
    requires { before + 1 < 2 ^ 32 }
    ensures { OnOk result (text.new.items ≡ text.old.items ++ function_lines before) }
{
    put_signature(text, before + 1)?;
    put_equation(text, before)
}

#[tactic(auto, unfolding(crate::specs::Samples::main_front))]
fn put_main_front(text: &mut Vec<u8>) -> Result<(), Memory>
    ensures { OnOk result (text.new.items ≡ text.old.items ++ main_front) }
{
    put(text, b"main :: M Unit\nmain = writePort tx (")
}

fn put_main_call(text: &mut Vec<u8>, last: u32) -> Result<(), Memory>
    ensures { OnOk result (text.new.items ≡ text.old.items ++ main_call last) }
{
    put_around(text, b"f", last, b" 1)\n")
}

fn put_main(text: &mut Vec<u8>, last: u32) -> Result<(), Memory>
    ensures { OnOk result (text.new.items ≡ text.old.items ++ main_lines last) }
{
    put_main_front(text)?;
    put_main_call(text, last)
}

/// The sample source of number `last`: the port `tx`, the functions `f0` to the one of this number, and `main`, which
/// writes what the last of them makes of 1.
///
/// # Errors
///
/// `Memory` where there is no room for the text.
#[tactic(auto, unfolding(crate::specs::Samples::functions))]
pub fn sample(alloc: Global, last: u32) -> Result<Text, Memory>
    ensures bytes { IfOk result (λ text. text ≡ sample_of last) }
{
    let mut text = Vec::new(alloc);
    put_first(&mut text)?;
    for before in 0..last {
        put_function(&mut text, before)?;
    }
    put_main(&mut text, last)?;
    Ok(Text::of(text))
}
