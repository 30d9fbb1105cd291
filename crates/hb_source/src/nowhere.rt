ghost use Rattle.std.specs.Prelude.{◌≡◌, ◌++◌, length, OnOk, IsTrue, IfOk};
ghost use Rattle.hb_tokens.specs.Ends.{ends_once};
ghost use Rattle.hb_source.specs.Nowhere.{nowhere as at_no_place, all_nowhere};

use hb_base::{List, Memory, Place};
use hb_tokens::{Token, Tokens};
use std::alloc::Global;

/// A token at 0:0.
fn nowhere(token: Token) -> Token
    ensures { result ≡ at_no_place token }
{
    Token {
        place: Place { line: 0, col: 0 },
        kind: token.kind,
    }
}

/// Puts tokens, each at 0:0, behind those that are there.
fn put_nowhere(tokens: &[Token], out: &mut List<Token>) -> Result<(), Memory>
    ensures ok { OnOk result (out.new ≡ out.old ++ all_nowhere tokens.now) }
{
    let mut left = tokens;
    while let Some((token, rest)) = left.split_first() {
        out.push(nowhere(*token))?;
        left = rest;
    }
    Ok(())
}

/// The same tokens, each at 0:0.
#[tactic(auto, using(crate::proofs::EndLaws::ends_nowhere))]
pub(crate) fn unplaced(alloc: Global, tokens: &Tokens) -> Result<Tokens, Memory>
    requires { IsTrue (ends_once tokens.now.list) }
    ensures moved { IfOk result (λ answer. answer.list ≡ all_nowhere tokens.now.list) }
    ensures ends { IfOk result (λ answer. IsTrue (ends_once answer.list)) }
{
    let mut list = List::of(Vec::new(alloc));
    put_nowhere(tokens.list.as_slice(), &mut list)?;
    Ok(Tokens { list })
}
