ghost use Rattle.std.specs.Prelude.{◌≡◌, ◌≤◌, ◌<◌, ◌^◌, ◌+◌, ◌*◌, List, ℕ, length, IfOk, IfErr, IsTrue, MatchResult};
ghost use Rattle.hb_base.specs.declared.refusal.Refusal.{Refusal as ARefusal};
ghost use Rattle.hb_base.specs.declared.refusal.Fault.TheVariants.{Memory as OutOfMemory};
ghost use Rattle.hb_tokens.specs.Ends.{ends_once};
ghost use Rattle.hb_tokens.specs.declared.token.Token.{Token as AToken};
ghost use Rattle.hb_base.specs.Faults.{IfRefused};
ghost use Rattle.hb_lex.specs.Numbering.{Extends};
ghost use Rattle.hb_lex.specs.Tokens.{FirstFault as TextFault};
ghost use Rattle.hb_front.specs.Front.{SpellsTokens, LaysOut, LayingFault};

use hb_base::{Fault, Names};
use hb_layout::offside;
use hb_lex::lex;
use hb_tokens::Tokens;
use std::alloc::Global;

/// The tokens of a source of at most 1 MiB. New names go into the table.
fn spelled(alloc: Global, bytes: &[u8], names: &mut Names) -> Result<Tokens, Fault>
    requires few { length bytes.now ≤ 1048576 }
    requires names { length names.old < 2 ^ 31 }
    ensures found { IfOk result (λ tokens. SpellsTokens names.old bytes.now names.new tokens.list) }
    ensures faults { IfErr result (IfRefused (LayingFault names.old bytes.now)) }
    ensures only { (table : List (List ℕ)) (ts : List AToken) → SpellsTokens names.old bytes.now table ts → MatchResult result (λ answer. (answer.list ≡ ts) × (names.new ≡ table)) (λ fault. fault ≡ OutOfMemory) }
    ensures refused { (refusal : ARefusal) → TextFault bytes.now refusal → MatchResult result (λ answer. ⊥) (IfRefused (λ other. other ≡ refusal)) }
    ensures few { IfOk result (λ tokens. length tokens.list ≤ length bytes.now + 1) }
    ensures ends { IfOk result (λ tokens. IsTrue (ends_once tokens.list)) }
    ensures kept { Extends names.old names.new }
    ensures grows { length names.new ≤ length names.old + length bytes.now }
{
    let tokens = lex(alloc, bytes, names)?;
    // That the texts of the table are distinct is what `count` promises: so no other tokens are spelled.
    names.count();
    Ok(tokens)
}

/// The laid-out tokens of a source of at most 1 MiB. New names go into the table. A fault is E01, E02, E05, E03 or
/// E29, the first of these that there is, in this order. Whatever the answer, the table keeps its old names in their places,
/// and gets at most one name for each byte.
pub fn laid_tokens(alloc: Global, bytes: &[u8], names: &mut Names) -> Result<Tokens, Fault>
    requires few { length bytes.now ≤ 1048576 }
    requires names { length names.old < 2 ^ 31 }
    ensures found { IfOk result (λ laid. LaysOut names.old bytes.now names.new laid.list) }
    ensures faults { IfErr result (IfRefused (LayingFault names.old bytes.now)) }

    // What is laid out so is answered, and no other table has its names.
    ensures only { (table : List (List ℕ)) (ts : List AToken) → LaysOut names.old bytes.now table ts → MatchResult result (λ answer. (answer.list ≡ ts) × (names.new ≡ table)) (λ fault. fault ≡ OutOfMemory) }

    // A source that breaks a rule is refused for the first one that it breaks.
    ensures refused { (refusal : ARefusal) → LayingFault names.old bytes.now refusal → MatchResult result (λ answer. ⊥) (IfRefused (λ other. other ≡ refusal)) }
    ensures few { IfOk result (λ laid. length laid.list ≤ 4 * length bytes.now + 6) }
    ensures ends { IfOk result (λ laid. IsTrue (ends_once laid.list)) }

    // The table after the call, whatever the answer.
    ensures kept { Extends names.old names.new }
    ensures grows { length names.new ≤ length names.old + length bytes.now }
{
    let tokens = spelled(alloc, bytes, names)?;
    let laid = offside(alloc, &tokens)?;
    Ok(laid)
}
