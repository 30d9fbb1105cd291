ghost use Rattle.std.specs.Prelude.{◌≡◌};
ghost use Rattle.hb_layout.specs.Stacks.{is_let, leaves_mark, implicit_opener};

use crate::entry::{Entry, Opener};
use hb_base::Memory;
use std::alloc::Global;
use std::marker::Model;

/// An entry, and how many due marks lie right under it.
#[derive(Clone, Copy)]
struct Open {
    entry: Entry,
    under: usize,
}

/// What is open, and the due marks between and above. Contracts see the layers, the innermost first.
///
/// Due marks are counted, so that looking past them takes no time.
#[derive(Drop)]
pub struct Stack {
    open: Vec<Open>,
    due: usize,
}

impl Model for Stack {
    ghost use Rattle.hb_layout.specs.Stacks as stacks;
    ghost use Rattle.hb_layout.specs.Views.{layers};

    ghost Value = { stacks.Stack };

    ghost view = { λ s. layers s.open.items s.due };
}

impl Stack {
    ghost use Rattle.std.specs.Prelude.{◌≡◌, ◌-◌, ◌<◌, ◌≤◌, ◌^◌, true, [], ◌∷◌, length, OnOk};
    ghost use Rattle.hb_layout.specs.Stacks.{opened, due, innermost, under, unmarked, open_count, close, closed, has_mark, is_top, is_wider, is_implicit, leading, ended_let, paired};

    pub fn new(alloc: Global) -> Stack
        ensures { result ≡ [] }
    {
        Stack {
            open: Vec::new(alloc),
            due: 0,
        }
    }

    /// How many brackets and blocks are open.
    pub fn count(&self) -> usize
        ensures { result ≡ open_count self.now }
    {
        self.open.len()
    }

    /// The innermost entry, due marks aside.
    pub fn innermost(&self) -> Option<Entry>
        ensures { result ≡ innermost self.now }
    {
        match self.open.as_slice().last().copied() {
            Some(open) => Some(open.entry),
            None => None,
        }
    }

    /// Opens a bracket or a block.
    pub fn push(&mut self, entry: Entry) -> Result<(), Memory>
        ensures { OnOk result (self.new ≡ opened entry ∷ self.old) }
    {
        let under = self.due;
        self.open.push(Open { entry, under })?;
        self.due = 0;
        Ok(())
    }

    /// Puts a due mark on top.
    pub fn mark(&mut self)
        requires { length self.old < 2 ^ 32 }
        ensures { self.new ≡ due ∷ self.old }
    {
        self.due += 1;
    }

    /// Removes the due marks on top.
    pub fn unmark(&mut self)
        ensures unmarked { self.new ≡ unmarked self.old }
        ensures few { length self.new ≤ length self.old }
    {
        self.due = 0;
    }

    /// Closes the innermost entry; a `let` block leaves a due mark.
    pub fn close(&mut self)
        requires { length self.old < 2 ^ 32 }
        ensures close { self.new ≡ close self.old }
        ensures few { length self.new ≤ length self.old }
    {
        let mark = leaves_mark(self.innermost());
        self.remove();
        if mark {
            self.mark();
        }
    }

    /// Removes the innermost entry with the due marks above it.
    fn remove(&mut self)
        ensures under { self.new ≡ under self.old }
        ensures few { length self.new ≤ length self.old - 1 }
    {
        match self.open.pop() {
            Some(open) => self.due = open.under,
            None => self.due = 0,
        }
    }

    /// A due mark lies on top.
    fn has_mark(&self) -> bool
        ensures { result ≡ has_mark self.now }
    {
        self.due > 0
    }

    /// Removes the due mark that lies on top.
    fn take_mark(&mut self)
        requires { has_mark self.old ≡ true }
        ensures { self.old ≡ due ∷ self.new }
    {
        self.due -= 1;
    }

    /// The innermost entry is a block of a greater column.
    fn is_wider(&self, column: u32) -> bool
        ensures { result ≡ is_top (is_wider column) self.now }
    {
        match self.innermost() {
            Some(Entry::Implicit(other, _)) => column < other,
            _ => false,
        }
    }

    /// The innermost entry is a block whose braces are inserted.
    fn is_implicit(&self) -> bool
        ensures { result ≡ is_top is_implicit self.now }
    {
        match self.innermost() {
            Some(Entry::Implicit(_, _)) => true,
            _ => false,
        }
    }

    /// Closes the innermost blocks while their column is greater, and gives their number.
    pub fn close_wider(&mut self, column: u32) -> usize
        requires { length self.old < 2 ^ 32 }
        ensures count { result ≡ leading (is_wider column) self.old }
        ensures stack { self.new ≡ closed (leading (is_wider column) self.old) self.old }
        ensures few { length self.new ≤ length self.old }
    {
        let mut count = 0;
        while self.is_wider(column) {
            self.close();
            count += 1;
        }
        count
    }

    /// Closes the innermost blocks whose braces are inserted, and gives their number.
    pub fn close_implicit(&mut self) -> usize
        requires { length self.old < 2 ^ 32 }
        ensures count { result ≡ leading is_implicit self.old }
        ensures stack { self.new ≡ closed (leading is_implicit self.old) self.old }
        ensures few { length self.new ≤ length self.old }
    {
        let mut count = 0;
        while self.is_implicit() {
            self.close();
            count += 1;
        }
        count
    }

    /// Takes entries from the top for an `in`, and gives the number of blocks closed; none where the `in` has no `let`.
    pub fn end_let(&mut self) -> Option<usize>
        requires { length self.old < 2 ^ 32 }
        ensures taken { ended_let self.old ≡ paired result self.new }
        ensures few { length self.new ≤ length self.old }
    {
        let mut count = 0;
        loop {
            if self.has_mark() {
                self.take_mark();
                return Some(count);
            }
            let opener = implicit_opener(self.innermost())?;
            self.remove();
            count += 1;
            if is_let(opener) {
                return Some(count);
            }
        }
    }
}

/// The opener of a block whose braces are inserted.
fn implicit_opener(entry: Option<Entry>) -> Option<Opener>
    ensures { result ≡ implicit_opener entry }
{
    match entry {
        Some(Entry::Implicit(_, opener)) => Some(opener),
        _ => None,
    }
}

pub fn is_let(opener: Opener) -> bool
    ensures { result ≡ is_let opener }
{
    match opener {
        Opener::Let => true,
        Opener::Other => false,
    }
}

/// A `let` block leaves a due mark.
fn leaves_mark(entry: Option<Entry>) -> bool
    ensures { result ≡ leaves_mark entry }
{
    match entry {
        Some(Entry::Explicit(opener)) | Some(Entry::Implicit(_, opener)) => is_let(opener),
        _ => false,
    }
}
