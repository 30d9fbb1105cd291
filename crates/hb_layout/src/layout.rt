ghost use Rattle.std.specs.Prelude.{◌≡◌, ◌+◌, ◌*◌, ◌<◌, ◌≤◌, ◌^◌, List, length, IsTrue, IfOk, IfErr, MatchResult};
ghost use Rattle.hb_base.specs.declared.refusal.Refusal.{Refusal as ARefusal};
ghost use Rattle.hb_base.specs.declared.refusal.Fault.TheVariants.{Memory as OutOfMemory};
ghost use Rattle.hb_tokens.specs.declared.token.Token.{Token as AToken};
ghost use Rattle.hb_tokens.specs.Ends.{ends_once};
ghost use Rattle.hb_layout.specs.Laid.{laid_out, Laid, FirstFault};
ghost use Rattle.hb_base.specs.Faults.{IfRefused};
ghost use Rattle.hb_layout.specs.Outcomes.{IsLaidOut};

use crate::profile::first_left_out;
use crate::progress::Progress;
use hb_base::{Code, Fault, List, Memory, Place, refused};
use hb_tokens::{Token, Tokens};
use std::alloc::Global;

/// What the rules of layout give of a list of tokens.
#[derive(Drop)]
pub enum Outcome {
    /// These tokens.
    Given(List<Token>),
    /// Too many brackets and blocks are open, here first.
    Deep(Place),
    /// The first token that no rule lets stand is here.
    Unclosed(Place),
}

/// What the rules of layout give.
fn lay_out(alloc: Global, tokens: &[Token]) -> Result<Outcome, Memory>
    requires { length tokens.now < 2 ^ 21 }
    ensures { IfOk result (IsLaidOut (laid_out tokens.now)) }
{
    let mut progress = Progress::new(alloc);
    for token in tokens {
        let fits = progress.take(token)?;
        if !fits {
            return Ok(Outcome::Unclosed(token.place));
        }
    }
    let Progress { draft, deep, .. } = progress;
    match deep {
        Some(place) => Ok(Outcome::Deep(place)),
        None => Ok(Outcome::Given(draft.given)),
    }
}

/// The tokens with the braces and semicolons that their lines and columns stand for.
///
/// There are fewer than 2^21 tokens, of which the last, and no other, is the end. A fault is E05, with the word or
/// form that is left out, at the first such token; else E03 at the first token that no rule lets stand, as a closing
/// bracket without its partner; else E29 where first more than 200 brackets and blocks are open.
pub fn offside(alloc: Global, tokens: &Tokens) -> Result<Tokens, Fault>
    requires short { length tokens.now.list < 2 ^ 21 }
    requires end { IsTrue (ends_once tokens.now.list) }

    ensures found { IfOk result (λ answer. Laid tokens.now.list answer.list) }
    ensures faults { IfErr result (IfRefused (FirstFault tokens.now.list)) }

    // Neither answer is given in place of the other.
    ensures only { (us : List AToken) → Laid tokens.now.list us → MatchResult result (λ answer. answer.list ≡ us) (λ fault. fault ≡ OutOfMemory) }
    ensures refused { (refusal : ARefusal) → FirstFault tokens.now.list refusal → MatchResult result (λ answer. ⊥) (IfRefused (λ other. other ≡ refusal)) }

    ensures few { IfOk result (λ answer. length answer.list ≤ 4 * length tokens.now.list + 2) }
    ensures ends { IfOk result (λ answer. IsTrue (ends_once answer.list)) }
{
    let all = tokens.list.as_slice();
    if let Some(found) = first_left_out(all) {
        return Err(refused(alloc, Code::E05, found.place, found.text));
    }
    match lay_out(alloc, all) {
        Ok(Outcome::Given(list)) => Ok(Tokens { list }),
        Ok(Outcome::Deep(place)) => Err(refused(alloc, Code::E29, place, b"brackets")),
        Ok(Outcome::Unclosed(place)) => Err(refused(alloc, Code::E03, place, b"-")),
        Err(_memory) => Err(Fault::Memory),
    }
}
