ghost use Rattle.std.specs.Prelude.{◌≡◌, ◌+◌, ◌<◌, ◌≤◌, ◌^◌, ◌&&◌, not, [], ◌∷◌, ◌++◌, length, OnOk, IfOk, Some, None, if◌then◌else◌};
ghost use Rattle.hb_layout.specs.Stacks.{innermost, ended_let};
ghost use Rattle.hb_layout.specs.Rules.{closings, aligned, stands_at, is_partner, bracket_closed, let_ended, all_closed, acted, settled, begun, moved, is_brace, is_end, enclosing};
ghost use Rattle.hb_layout.specs.Laid.{token_at, inserted};
ghost use Rattle.hb_layout.specs.Drafts.{drafted};

use crate::entry::{Entry, Opener};
use crate::role::Role;
use crate::stack::{Stack, is_let};
use hb_base::{List, Memory, Place};
use hb_tokens::{Token, TokenKind};
use std::alloc::Global;

/// What is laid out so far: the tokens given, and what is open after them.
#[derive(Drop)]
pub struct Draft {
    pub given: List<Token>,
    pub stack: Stack,
}

/// Inserts a mark before the token at a place.
fn insert(given: &mut List<Token>, mark: u8, place: Place) -> Result<(), Memory>
    ensures { OnOk result (given.new ≡ given.old ++ token_at place mark ∷ []) }
{
    given.push(Token {
        place,
        kind: TokenKind::Mark(mark),
    })
}

/// Inserts so many closing braces before the token at a place.
fn insert_closings(given: &mut List<Token>, count: usize, place: Place) -> Result<(), Memory>
    ensures { OnOk result (given.new ≡ given.old ++ inserted place (closings count)) }
{
    for _ in 0..count {
        insert(given, b'}', place)?;
    }
    Ok(())
}

/// The innermost entry is a block of this column.
fn stands_at(column: u32, entry: Option<Entry>) -> bool
    ensures { result ≡ stands_at column entry }
{
    match entry {
        Some(Entry::Implicit(other, _)) => column == other,
        _ => false,
    }
}

/// A closing bracket closes this entry, where its partner has this byte.
fn is_partner(mark: u8, entry: Option<Entry>) -> bool
    ensures { result ≡ is_partner mark entry }
{
    match entry {
        Some(Entry::Bracket(other)) => mark == other,
        Some(Entry::Explicit(_)) => mark == b'{',
        _ => false,
    }
}

/// The column of the innermost entry, if it is a block whose braces are inserted, else 0.
fn enclosing(stack: &Stack) -> u32
    ensures { result ≡ enclosing stack.now }
{
    match stack.innermost() {
        Some(Entry::Implicit(column, _)) => column,
        _ => 0,
    }
}

fn is_brace(role: Role) -> bool
    ensures { result ≡ is_brace role }
{
    match role {
        Role::Opens(mark) => mark == b'{',
        _ => false,
    }
}

pub fn is_end(role: Role) -> bool
    ensures { result ≡ is_end role }
{
    match role {
        Role::End => true,
        _ => false,
    }
}

impl Draft {
    /// Nothing is given, and nothing is open.
    pub fn new(alloc: Global) -> Draft
        ensures given { result.given ≡ [] }
        ensures stack { result.stack ≡ [] }
    {
        Draft {
            given: List::of(Vec::new(alloc)),
            stack: Stack::new(alloc),
        }
    }

    /// Before the first token of a line: blocks of a greater column close, and a semicolon parts the items of a block.
    fn align(&mut self, place: Place, continues: bool) -> Result<(), Memory>
        requires { length self.old.stack < 2 ^ 32 }
        ensures moved { OnOk result (Some self.new ≡ drafted self.old.given place (Some (aligned place.col continues self.old.stack))) }
        ensures few { OnOk result (length self.new.stack ≤ length self.old.stack) }
    {
        let count = self.stack.close_wider(place.col);
        insert_closings(&mut self.given, count, place)?;
        let semicolon = stands_at(place.col, self.stack.innermost()) && !continues;
        if !semicolon {
            return Ok(());
        }
        self.stack.unmark();
        insert(&mut self.given, b';', place)?;
        Ok(())
    }

    /// At a closing bracket: the blocks inside its partner close, and the partner goes. False where it has none.
    fn close_bracket(&mut self, mark: u8, place: Place) -> Result<bool, Memory>
        requires { length self.old.stack < 2 ^ 32 }
        ensures moved { IfOk result (λ fits. drafted self.old.given place (bracket_closed mark self.old.stack) ≡ (if fits then Some self.new else None)) }
        ensures few { OnOk result (length self.new.stack ≤ length self.old.stack) }
    {
        let inside = self.stack.close_implicit();
        if !is_partner(mark, self.stack.innermost()) {
            return Ok(false);
        }
        self.stack.close();
        insert_closings(&mut self.given, inside, place)?;
        Ok(true)
    }

    /// At `in`: the blocks up to its `let` close. False where it has none.
    fn end_let(&mut self, place: Place) -> Result<bool, Memory>
        requires { length self.old.stack < 2 ^ 32 }
        ensures moved { IfOk result (λ fits. drafted self.old.given place (let_ended (ended_let self.old.stack)) ≡ (if fits then Some self.new else None)) }
        ensures few { OnOk result (length self.new.stack ≤ length self.old.stack) }
    {
        match self.stack.end_let() {
            Some(count) => {
                insert_closings(&mut self.given, count, place)?;
                Ok(true)
            }
            None => Ok(false),
        }
    }

    /// At the end: all blocks close. False where something else is open.
    fn close_all(&mut self, place: Place) -> Result<bool, Memory>
        requires { length self.old.stack < 2 ^ 32 }
        ensures moved { IfOk result (λ fits. drafted self.old.given place (all_closed self.old.stack) ≡ (if fits then Some self.new else None)) }
        ensures few { OnOk result (length self.new.stack ≤ length self.old.stack) }
    {
        let count = self.stack.close_implicit();
        if self.stack.innermost().is_some() {
            return Ok(false);
        }
        insert_closings(&mut self.given, count, place)?;
        Ok(true)
    }

    /// What a token does by its own role. False where it cannot stand.
    fn act(&mut self, place: Place, role: Role) -> Result<bool, Memory>
        requires { length self.old.stack < 2 ^ 32 }
        ensures moved { IfOk result (λ fits. drafted self.old.given place (acted role self.old.stack) ≡ (if fits then Some self.new else None)) }
        ensures few { OnOk result (length self.new.stack ≤ length self.old.stack + 1) }
    {
        match role {
            Role::Opens(mark) => {
                self.stack.push(Entry::Bracket(mark))?;
                Ok(true)
            }
            Role::Closes(mark) => self.close_bracket(mark, place),
            Role::Semicolon => {
                self.stack.unmark();
                Ok(true)
            }
            Role::In => self.end_let(place),
            Role::End => self.close_all(place),
            Role::Block(_) | Role::Of | Role::Follows | Role::Plain => Ok(true),
        }
    }

    /// A token that has not just opened a block.
    fn settle(&mut self, first: bool, place: Place, role: Role) -> Result<bool, Memory>
        requires { length self.old.stack < 2 ^ 32 }
        ensures moved { IfOk result (λ fits. drafted self.old.given place (settled first place.col role self.old.stack) ≡ (if fits then Some self.new else None)) }
        ensures few { OnOk result (length self.new.stack ≤ length self.old.stack + 1) }
    {
        if !first {
            return self.act(place, role);
        }
        self.align(place, role.continues())?;
        self.act(place, role)
    }

    /// The first token of a block, or the token after an empty block.
    fn begin(
        &mut self,
        opener: Opener,
        first: bool,
        place: Place,
        role: Role,
    ) -> Result<bool, Memory>
        requires { length self.old.stack < 2 ^ 31 }
        ensures moved { IfOk result (λ fits. drafted self.old.given place (begun opener first place.col role self.old.stack) ≡ (if fits then Some self.new else None)) }
        ensures few { OnOk result (length self.new.stack ≤ length self.old.stack + 2) }
    {
        if is_brace(role) {
            self.stack.push(Entry::Explicit(opener))?;
            return Ok(true);
        }
        insert(&mut self.given, b'{', place)?;
        let opens = enclosing(&self.stack) < place.col && !is_end(role);
        if opens {
            self.stack.push(Entry::Implicit(place.col, opener))?;
            return self.act(place, role);
        }
        insert(&mut self.given, b'}', place)?;
        if is_let(opener) {
            self.stack.mark();
        }
        self.settle(first, place, role)
    }

    /// Inserts what comes before a token, and opens or closes what the token does. False where no rule lets it stand.
    pub fn place(
        &mut self,
        owed: Option<Opener>,
        first: bool,
        place: Place,
        role: Role,
    ) -> Result<bool, Memory>
        requires { length self.old.stack < 2 ^ 31 }
        ensures moved { IfOk result (λ fits. drafted self.old.given place (moved owed first place.col role self.old.stack) ≡ (if fits then Some self.new else None)) }
        ensures few { OnOk result (length self.new.stack ≤ length self.old.stack + 2) }
    {
        match owed {
            Some(opener) => self.begin(opener, first, place, role),
            None => self.settle(first, place, role),
        }
    }
}
