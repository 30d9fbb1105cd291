ghost use Rattle.std.specs.Prelude.{◌≡◌, All, IfOk};
ghost use Rattle.hb_select.specs.Code.{IsPart, words_of};

use hb_asm::{Asm, AsmPart, encode};
use hb_base::{List, Memory};
use std::alloc::Global;

/// The words of a program's parts, one for each instruction, in their order. `Memory` where memory runs out.
pub fn assemble(alloc: Global, asm: &Asm) -> Result<List<u32>, Memory>
    requires { All IsPart asm.now.parts }
    ensures { IfOk result (λ words. words ≡ words_of asm.now.parts) }
{
    let mut words = Vec::new(alloc);
    for part in asm.parts.as_slice() {
        words.push(word_of(*part))?;
    }
    Ok(List::of(words))
}

/// The word of one part.
fn word_of(part: AsmPart) -> u32
    requires { IsPart part }
    ensures { result ≡ Rattle.hb_select.specs.Code.word_of part }
{
    match part {
        AsmPart::Instr(instr) => encode(instr),
    }
}
