ghost use Rattle.std.specs.Prelude.{◌≡◌, List, All, IfOk};
ghost use Rattle.hb_base.specs.declared.port.Port.{Port};
ghost use Rattle.hb_flat.specs.Rules.{IsFlat};
ghost use Rattle.hb_select.specs.Code.{IsPart, parts_of};
ghost use Rattle.hb_select.specs.Law.{AccessLaw, KeepsLaw};

use crate::parts::{push_step, push_tail};
use hb_asm::Asm;
use hb_base::{List as Items, Memory};
use hb_flat::Flat;
use std::alloc::Global;

/// The instructions of a flat program. A machine with their words as its code shows exactly what the program shows,
/// within the instructions that its counts weigh, and each of its loads and stores lies on the stack or at a port.
/// `Memory` where memory runs out.
pub fn select(alloc: Global, flat: &Flat) -> Result<Asm, Memory>
    requires { (ports : List Port) × IsFlat flat.now ports }
    ensures parts { IfOk result (λ asm. asm.parts ≡ parts_of flat.now) }
    ensures entry { IfOk result (λ asm. asm.entry ≡ flat.now.entry) }
    ensures range { IfOk result (λ asm. All IsPart asm.parts) }
    ensures law { IfOk result (λ asm. KeepsLaw flat.now asm) }
    ensures accesses { IfOk result (λ asm. AccessLaw flat.now asm) }
{
    let block = &flat.blocks.as_slice()[flat.entry as usize];
    let mut parts = Items::of(Vec::new(alloc));
    for step in block.steps.as_slice() {
        push_step(&mut parts, *step)?;
    }
    push_tail(&mut parts, block.tail)?;
    Ok(Asm {
        parts,
        entry: flat.entry,
    })
}
