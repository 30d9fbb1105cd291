ghost use Rattle.std.specs.Prelude.{◌≡◌, ℕ, ◌+◌, ◌<◌, ◌≤◌, ◌^◌, ◌/◌, ◌%◌, List, length, true, IfOk, IfErr, OnOk, OnErr, IsTrue};
ghost use Rattle.std.specs.List.{list_all};
ghost use Rattle.hb_base.specs.Names.{with_texts};
ghost use Rattle.hb_base.specs.declared.refusal.Refusal.{Refusal};
ghost use Rattle.hb_tokens.specs.Ends.{ends_once};
ghost use Rattle.hb_lex.specs.Bytes.{is_allowed, place_after, first_place};
ghost use Rattle.hb_lex.specs.Tokens.{Lexeme, Spells, FirstFault, hex_digit};
ghost use Rattle.hb_lex.specs.Numbering.{Found, texts_of, EndsAt, Extends};
ghost use Rattle.hb_base.specs.Faults.{IfRefused};
ghost use Rattle.hb_lex.specs.Answers.{IsNotRefused, IsThisRefusal};

use crate::bytes::{Class, after, before, byte_at, place_after, run};
use crate::lexer::Lexer;
use hb_base::{Code, Fault, Names, Place, refused};
use hb_tokens::{Token, TokenKind, Tokens};
use std::alloc::Global;

/// Where the first byte of a source stands.
const FIRST: Place = Place { line: 1, col: 1 };

/// A digit in hexadecimal, in upper case.
fn hex_digit(digit: u8) -> u8
    requires { digit < 16 }
    ensures { result ≡ hex_digit digit }
{
    if digit < 10 { digit + 48 } else { digit + 55 }
}

/// Refuses the first byte that no source has.
fn check_bytes(alloc: Global, bytes: &[u8]) -> Result<(), Fault>
    requires { length bytes.now ≤ 1048576 }
    ensures allowed { OnOk result (list_all is_allowed bytes.now ≡ true) }
    ensures fault { IfErr result (IfRefused (FirstFault bytes.now)) }
{
    let good = run(Class::Allowed, bytes);
    if good == bytes.len() {
        return Ok(());
    }
    let place = place_after(FIRST, before(bytes, good));
    let byte = byte_at(bytes, good);
    let detail = [hex_digit(byte / 16), hex_digit(byte % 16)];
    Err(refused(alloc, Code::E01, place, &detail))
}

/// Where a text of at most 1 MiB ends: the place that a next byte would have.
pub fn text_end(bytes: &[u8]) -> Place
    requires few { length bytes.now ≤ 1048576 }
    ensures { result ≡ place_after first_place bytes.now }
{
    place_after(FIRST, bytes)
}

/// The tokens that the bytes of a source spell. Their names are taken into the table in the order in which they first
/// occur. A byte that no source has is E01, with the byte as its detail; what is no token is E02. The table keeps its
/// old names in their places, whatever the answer, and gets at most one name for each byte.
pub fn lex(alloc: Global, bytes: &[u8], names: &mut Names) -> Result<Tokens, Fault>
    requires few { length bytes.now ≤ 1048576 }
    requires names { length names.old < 2 ^ 31 }

    // The tokens are those that the bytes spell, and each name stands for its text.
    ensures found { IfOk result (λ tokens. Found bytes.now names.new tokens.list) }

    // There are few tokens, each of a byte or more, and the end.
    ensures few { IfOk result (λ tokens. length tokens.list ≤ length bytes.now + 1) }

    // The last token and no other is the end, which stands where a next byte would.
    ensures ends { IfOk result (λ tokens. IsTrue (ends_once tokens.list)) }
    ensures end { IfOk result (λ tokens. EndsAt (place_after first_place bytes.now) tokens.list) }

    // The table has the names of the tokens beside its old ones, in the order of their first occurrence.
    ensures names { OnOk result ((ls : List Lexeme) → Spells bytes.now ls → names.new ≡ with_texts names.old (texts_of ls)) }
    ensures kept { Extends names.old names.new }
    ensures grows { length names.new ≤ length names.old + length bytes.now }

    // A refusal is that of the first rule that the bytes break.
    ensures faults { IfErr result (IfRefused (FirstFault bytes.now)) }

    // Bytes that spell tokens are not refused, and bytes that break a rule are refused for that one.
    ensures only { (ls : List Lexeme) → Spells bytes.now ls → IsNotRefused result }
    ensures refused { (refusal : Refusal) → FirstFault bytes.now refusal → IsThisRefusal refusal result }
{
    check_bytes(alloc, bytes)?;
    let mut lexer = Lexer {
        tokens: Vec::new(alloc),
        glued: false,
        place: FIRST,
    };
    let mut done = 0;
    while done < bytes.len() {
        done += lexer.take(alloc, after(bytes, done), names)?;
    }
    let Lexer {
        mut tokens,
        place,
        ..
    } = lexer;
    let end = Token {
        place,
        kind: TokenKind::End,
    };
    match tokens.push(end) {
        Ok(()) => Ok(Tokens {
            list: hb_base::List::of(tokens),
        }),
        Err(_) => Err(Fault::Memory),
    }
}
