ghost use Rattle.std.specs.Prelude.{◌≡◌, [], ◌∷◌, OnOk, OnErr, is_none, length, reverse};
ghost use Rattle.hb_stack.specs.Stacks.{Popped, first_of, is_empty, rest_of};

use hb_base::{List, Memory};
use std::alloc::Global;
use std::marker::Model;
use std::mem;

/// A stack. Contracts see it as the list of its items, the top first.
#[derive(Debug, Drop)]
pub struct Stack<T> {
    items: Vec<T>,
}

impl<T> Model for Stack<T> {
    ghost use Rattle.std.specs.Coded.{coded_list};
    ghost use Rattle.std.specs.Prelude as prelude;

    ghost Value = { prelude.List T };

    ghost coded = { coded_list T.code };

    ghost view = { λ stack. prelude.reverse stack.items.items };
}

impl<T: Drop> Stack<T> {
    /// A stack with nothing on it. Takes no memory.
    pub fn new(alloc: Global) -> Stack<T>
        ensures { result ≡ [] }
    {
        Stack {
            items: Vec::new(alloc),
        }
    }

    /// Puts one item on top. After `Memory` the stack is as it was.
    pub fn push(&mut self, item: T) -> Result<(), Memory>
        ensures ok { OnOk result (self.new ≡ item ∷ self.old) }
        ensures err { OnErr result (self.new ≡ self.old) }
    {
        self.items.push(item)?;
        Ok(())
    }

    /// Takes the top item off, if there is one. Takes no memory.
    pub fn pop(&mut self) -> Option<T>
        ensures popped { Popped self.old result self.new }
        ensures top { result ≡ first_of self.old }
        ensures rest { self.new ≡ rest_of self.old }
    {
        self.items.pop()
    }

    /// Nothing is on it.
    pub fn is_empty(&self) -> bool
        ensures empty { result ≡ is_empty self.now }
        ensures none { result ≡ is_none (first_of self.now) }
    {
        self.items.is_empty()
    }

    /// The number of items.
    pub fn len(&self) -> usize
        ensures { result ≡ length self.now }
    {
        self.items.len()
    }

    /// Takes all items off, and answers them in the order in which they were put. Takes no memory.
    pub fn take_all(&mut self, alloc: Global) -> List<T>
        ensures all { result ≡ reverse self.old }
        ensures none_left { self.new ≡ [] }
    {
        List::of(mem::replace(&mut self.items, Vec::new(alloc)))
    }

    /// All items, the top first. Takes no memory.
    pub fn into_list(mut self) -> List<T>
        ensures { result ≡ self }
    {
        self.items.reverse();
        List::of(self.items)
    }

    /// The items, the top last.
    pub fn as_slice(&self) -> &[T]
        ensures { reverse result.now ≡ self.now }
    {
        self.items.as_slice()
    }

    /// Takes everything off. Takes no memory.
    pub fn clear(&mut self)
        ensures { self.new ≡ [] }
    {
        self.items.clear();
    }
}

impl<T: Copy + Drop> Stack<T> {
    /// The top item, if there is one.
    pub fn top(&self) -> Option<T>
        ensures { result ≡ first_of self.now }
    {
        self.items.last().copied()
    }
}
