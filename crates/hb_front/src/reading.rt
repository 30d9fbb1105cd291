ghost use Rattle.std.specs.Prelude.{◌≡◌, ◌≤◌, ◌<◌, ◌^◌, ◌+◌, ◌*◌, List, ℕ, length, IfOk, IfErr, MatchResult};
ghost use Rattle.hb_base.specs.declared.refusal.Refusal.{Refusal as ARefusal};
ghost use Rattle.hb_base.specs.declared.refusal.Fault.TheVariants.{Memory as OutOfMemory};
ghost use Rattle.hb_base.specs.Faults.{IfRefused};
ghost use Rattle.hb_lex.specs.Numbering.{Extends};
ghost use Rattle.hb_tree.specs.Things.{program_things};
ghost use Rattle.hb_tree.specs.declared.declaration.Program.{Program as Tree};
ghost use Rattle.hb_front.specs.Front.{SpellsProgram, FirstFault};

use crate::laying::laid_tokens;
use hb_base::{Fault, Names};
use hb_parser::parse;
use hb_tree::Program;
use std::alloc::Global;

/// The program that a source of at most 1 MiB spells. New names go into the table. A fault is E01, E02, E05, E03, E29
/// `brackets`, E04 or E29 `depth`, the first of these that there is, in this order. Whatever the answer, the table keeps its
/// old names in their places, and gets at most one name for each byte.
pub fn read_program(alloc: Global, bytes: &[u8], names: &mut Names) -> Result<Program, Fault>
    requires few { length bytes.now ≤ 1048576 }
    requires names { length names.old < 2 ^ 31 }
    ensures found { IfOk result (SpellsProgram names.old bytes.now names.new) }
    ensures faults { IfErr result (IfRefused (FirstFault names.old bytes.now)) }

    // The program that the bytes spell is answered, and no other table has its names.
    ensures only { (table : List (List ℕ)) (p : Tree) → SpellsProgram names.old bytes.now table p → MatchResult result (λ answer. (answer ≡ p) × (names.new ≡ table)) (λ fault. fault ≡ OutOfMemory) }

    // A source that breaks a rule is refused for the first one that it breaks.
    ensures refused { (refusal : ARefusal) → FirstFault names.old bytes.now refusal → MatchResult result (λ answer. ⊥) (IfRefused (λ other. other ≡ refusal)) }

    // What can get a number in the program: at most four things for each laid-out token, and so few in all.
    ensures few { IfOk result (λ p. program_things p ≤ 16 * length bytes.now + 24) }
    ensures range { IfOk result (λ p. program_things p < 2 ^ 26) }

    // The table after the call, whatever the answer.
    ensures kept { Extends names.old names.new }
    ensures grows { length names.new ≤ length names.old + length bytes.now }
{
    let laid = laid_tokens(alloc, bytes, names)?;
    let program = parse(alloc, &laid)?;
    Ok(program)
}
