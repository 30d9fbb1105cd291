ghost use Rattle.std.specs.Prelude.{◌≡◌, ◌≤◌, ◌*◌, List, length, IfOk, IfErr, IsTrue, MatchResult};
ghost use Rattle.hb_base.specs.declared.refusal.Refusal.{Refusal as ARefusal};
ghost use Rattle.hb_base.specs.declared.refusal.Fault.TheVariants.{Memory as OutOfMemory};
ghost use Rattle.hb_tokens.specs.Ends.{ends_once};
ghost use Rattle.hb_base.specs.Faults.{IfRefused};
ghost use Rattle.hb_tree.specs.Things.{program_things};
ghost use Rattle.hb_tree.specs.declared.declaration.Program.{Program as Tree};
ghost use Rattle.hb_parser.specs.Parsing.{FirstWrong, HasNodes, AreNodes, Parses, FirstFault, HasTree, Builds};

use hb_base::{Code, Fault, List, Memory, Place, refused};
use hb_build_program::build_program;
use hb_depth::first_too_deep;
use hb_read_declarations::DeclNode;
use hb_read_program::ProgramReader;
use hb_tokens::{Token, Tokens};
use hb_tree::Program;
use std::alloc::Global;

/// The nodes of the program that tokens are, or the place of the first wrong token.
fn read_nodes(alloc: Global, tokens: &[Token]) -> Result<Result<List<DeclNode>, Place>, Memory>
    requires end { IsTrue (ends_once tokens.now) }
    ensures { IfOk result (λ answer. MatchResult answer (HasNodes tokens.now) (FirstWrong tokens.now)) }
{
    let mut reader = ProgramReader::new(alloc)?;
    for token in tokens {
        match reader.take(*token)? {
            Some(next) => reader = next,
            None => return Ok(Err(token.place)),
        }
    }
    // Behind its end a program is whole.
    let nodes = reader.finish()?.unwrap();
    Ok(Ok(nodes))
}

/// The program that has these nodes.
fn whole_program(alloc: Global, nodes: &[DeclNode]) -> Result<Program, Fault>
    requires { AreNodes nodes.now }
    ensures found { IfOk result (HasTree nodes.now) }
    ensures memory { IfErr result (λ fault. fault ≡ OutOfMemory) }
{
    match build_program(alloc, nodes) {
        Ok(program) => Ok(program.unwrap()),
        Err(_memory) => Err(Fault::Memory),
    }
}

/// The program that has these nodes, or where a form in it is nested too deep.
fn shallow_program(alloc: Global, nodes: &[DeclNode]) -> Result<Program, Fault>
    requires { AreNodes nodes.now }
    ensures { Builds nodes.now result }
{
    match first_too_deep(alloc, nodes) {
        Ok(Some(place)) => Err(refused(alloc, Code::E29, place, b"depth")),
        Ok(None) => whole_program(alloc, nodes),
        Err(_memory) => Err(Fault::Memory),
    }
}

/// The program that laid-out tokens are. The last of them, and no other, is the end.
///
/// A fault is E04 at the first token such that no program's tokens begin with those up to and including it; else E29
/// `depth` at the first form of the program that is nested more than 200 deep. The number of each node is 0.
pub fn parse(alloc: Global, tokens: &Tokens) -> Result<Program, Fault>
    requires end { IsTrue (ends_once tokens.now.list) }

    ensures found { IfOk result (Parses tokens.now.list) }
    ensures faults { IfErr result (IfRefused (FirstFault tokens.now.list)) }

    // Neither answer is given in place of the other.
    ensures only { (p : Tree) → Parses tokens.now.list p → MatchResult result (λ answer. answer ≡ p) (λ fault. fault ≡ OutOfMemory) }
    ensures refused { (refusal : ARefusal) → FirstFault tokens.now.list refusal → MatchResult result (λ answer. ⊥) (IfRefused (λ other. other ≡ refusal)) }

    // What can get a number in the program is at most four things for each token.
    ensures few { IfOk result (λ p. program_things p ≤ 4 * length tokens.now.list) }
{
    match read_nodes(alloc, tokens.list.as_slice()) {
        Ok(Ok(nodes)) => shallow_program(alloc, nodes.as_slice()),
        Ok(Err(place)) => Err(refused(alloc, Code::E04, place, b"-")),
        Err(_memory) => Err(Fault::Memory),
    }
}
