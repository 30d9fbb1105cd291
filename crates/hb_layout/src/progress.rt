ghost use Rattle.std.specs.Prelude.{◌≡◌, ◌+◌, ◌<◌, ◌≤◌, ◌^◌, [], ◌∷◌, List, length, OnOk, IfOk, if◌then◌else◌};
ghost use Rattle.hb_layout.specs.Laid.{is_deep, deep_at, first_of, is_first, unclosed, laid_out};
ghost use Rattle.hb_layout.specs.Drafts.{lays};
ghost use Rattle.hb_layout.specs.Roles.{role_of};

use crate::draft::{Draft, is_end};
use crate::entry::Opener;
use crate::role::{Role, role_of};
use hb_base::limits::OPEN_BRACKETS;
use hb_base::{Memory, Place};
use hb_tokens::Token;
use std::alloc::Global;

/// A source that is laid out up to a token.
#[derive(Drop)]
pub struct Progress {
    pub draft: Draft,
    /// The block that the last token opens.
    owed: Option<Opener>,
    /// The line of the last token; 0 before the first.
    line: u32,
    /// The first place at which too many brackets and blocks are open.
    pub deep: Option<Place>,
}

/// Too many are open at a token, where so many were open before and after it.
fn is_deep(owed: Option<Opener>, before: usize, after: usize) -> bool
    ensures { result ≡ is_deep owed before after }
{
    let most = OPEN_BRACKETS as usize;
    owed.is_some() && before >= most || after > most
}

/// The place, where it is too deep.
fn deep_at(deep: bool, place: Place) -> Option<Place>
    ensures { result ≡ deep_at deep place }
{
    if deep { Some(place) } else { None }
}

fn first_of(earlier: Option<Place>, later: Option<Place>) -> Option<Place>
    ensures { result ≡ first_of earlier later }
{
    match earlier {
        Some(place) => Some(place),
        None => later,
    }
}

/// The token is the first of its line. The end is the first of no line.
fn is_first(line: u32, token: &Token, role: Role) -> bool
    requires { role ≡ role_of token.now.kind }
    ensures { result ≡ is_first line token.now }
{
    token.place.line != line && !is_end(role)
}

impl Progress {
    /// At the start of the text, which opens a block.
    pub fn new(alloc: Global) -> Progress
        ensures laid { (rest : List Token) → lays result rest ≡ laid_out rest }
        ensures stack { result.draft.stack ≡ [] }
    {
        Progress {
            draft: Draft::new(alloc),
            owed: Some(Opener::Other),
            line: 0,
            deep: None,
        }
    }

    /// Takes the next token. False where no rule lets it stand.
    pub fn take(&mut self, token: &Token) -> Result<bool, Memory>
        requires { length self.old.draft.stack < 2 ^ 31 }
        ensures laid { IfOk result (λ fits. (rest : List Token) → lays self.old (token.now ∷ rest) ≡ (if fits then lays self.new rest else unclosed token.now.place)) }
        ensures few { OnOk result (length self.new.draft.stack ≤ length self.old.draft.stack + 2) }
    {
        let role = role_of(&token.kind);
        let before = self.draft.stack.count();
        let first = is_first(self.line, token, role);
        let fits = self.draft.place(self.owed, first, token.place, role)?;
        if !fits {
            return Ok(false);
        }
        self.draft.given.push(*token)?;
        let deep = is_deep(self.owed, before, self.draft.stack.count());
        self.deep = first_of(self.deep, deep_at(deep, token.place));
        self.owed = role.owed();
        self.line = token.place.line;
        Ok(true)
    }
}
