ghost use Rattle.std.specs.Prelude.{◌≡◌};
ghost use Rattle.hb_layout.specs.Roles.{word_role, mark_role, role_of, continues, owed_after};

use crate::entry::Opener;
use hb_tokens::{TokenKind, Word};

/// What a token is to the layout.
#[derive(Clone, Copy, Debug, PartialEq, Eq)]
pub enum Role {
    /// `where`, `let` or `do`: a block comes next.
    Block(Opener),
    /// `of`: a block comes next, and the word goes on with what is before it.
    Of,
    /// `then` or `else`: it goes on with what is before it.
    Follows,
    /// `in`.
    In,
    /// An opening bracket or brace, by its byte.
    Opens(u8),
    /// A closing bracket or brace, by the byte of its partner.
    Closes(u8),
    Semicolon,
    /// The end of the text.
    End,
    /// Anything else.
    Plain,
}

fn word_role(word: Word) -> Role
    ensures { result ≡ word_role word }
{
    match word {
        Word::Where | Word::Do => Role::Block(Opener::Other),
        Word::Let => Role::Block(Opener::Let),
        Word::Of => Role::Of,
        Word::Then | Word::Else => Role::Follows,
        Word::In => Role::In,
        _ => Role::Plain,
    }
}

fn mark_role(mark: u8) -> Role
    ensures { result ≡ mark_role mark }
{
    if mark == b'(' || mark == b'[' || mark == b'{' {
        Role::Opens(mark)
    } else if mark == b')' {
        Role::Closes(b'(')
    } else if mark == b']' {
        Role::Closes(b'[')
    } else if mark == b'}' {
        Role::Closes(b'{')
    } else if mark == b';' {
        Role::Semicolon
    } else {
        Role::Plain
    }
}

/// The role of a token of this kind.
pub fn role_of(kind: &TokenKind) -> Role
    ensures { result ≡ role_of kind.now }
{
    match kind {
        TokenKind::Word(word) => word_role(*word),
        TokenKind::Mark(mark) => mark_role(*mark),
        TokenKind::End => Role::End,
        _ => Role::Plain,
    }
}

impl Role {
    /// The token goes on with what stands before it, so no semicolon comes before it.
    pub fn continues(self) -> bool
        ensures { result ≡ continues self }
    {
        match self {
            Role::Of | Role::Follows | Role::In => true,
            _ => false,
        }
    }

    /// The block that comes right after the token, if one does.
    pub fn owed(self) -> Option<Opener>
        ensures { result ≡ owed_after self }
    {
        match self {
            Role::Block(opener) => Some(opener),
            Role::Of => Some(Opener::Other),
            _ => None,
        }
    }
}
