ghost use Rattle.std.specs.Prelude.{◌≡◌, [], ◌∷◌, IfOk};
ghost use Rattle.hb_stack.specs.Stacks.{rest_of};
ghost use Rattle.hb_depth.specs.Marking.{applied, arrowed, chains_by, dropped, levels_by, mark as marking};

use crate::chain::{Chain, arguments, arrows, sum};
use crate::mark::Mark;
use crate::shape::{Kind, Shape};
use hb_base::Memory;
use hb_stack::Stack;
use std::alloc::Global;

/// The forms whose parts are done, and the marks of the nodes so far.
#[derive(Debug, Drop)]
pub struct Marker {
    pub chains: Stack<Chain>,
    pub marks: Stack<Mark>,
}

impl Marker {
    /// No node is marked yet. Takes no memory.
    pub fn new(alloc: Global) -> Marker
        ensures chains { result.chains ≡ [] }
        ensures marks { result.marks ≡ [] }
    {
        Marker {
            chains: Stack::new(alloc),
            marks: Stack::new(alloc),
        }
    }

    /// Marks the next node.
    pub fn take(&mut self, shape: Shape) -> Result<(), Memory>
        ensures chains { IfOk result (λ _. self.new.chains ≡ chains_by shape.kind shape.parts self.old.chains) }
        ensures marks { IfOk result (λ _. self.new.marks ≡ marking shape (levels_by shape.kind self.old.chains) ∷ self.old.marks) }
    {
        match shape.kind {
            Kind::Levels(levels) => {
                self.drop_parts(shape.parts);
                self.put(Chain::Other, Mark { shape, levels })
            }
            Kind::Apply => {
                let levels = self.drop_application();
                self.put(Chain::Apply(levels), Mark { shape, levels })
            }
            Kind::Arrow => {
                let levels = self.drop_arrow();
                self.put(Chain::Arrow(levels), Mark { shape, levels })
            }
        }
    }

    /// Puts a form and its mark.
    fn put(&mut self, chain: Chain, mark: Mark) -> Result<(), Memory>
        ensures chains { IfOk result (λ _. self.new.chains ≡ chain ∷ self.old.chains) }
        ensures marks { IfOk result (λ _. self.new.marks ≡ mark ∷ self.old.marks) }
    {
        self.chains.push(chain)?;
        self.marks.push(mark)?;
        Ok(())
    }

    /// Takes the argument and the head of an application off, and answers its levels.
    fn drop_application(&mut self) -> u32
        ensures levels { result ≡ applied self.old.chains }
        ensures chains { self.new.chains ≡ rest_of (rest_of self.old.chains) }
        ensures marks { self.new.marks ≡ self.old.marks }
    {
        let _argument = self.chains.pop();
        let head = self.chains.pop();
        sum(arguments(head), 1)
    }

    /// Takes the parts of an arrow off, and answers its levels.
    fn drop_arrow(&mut self) -> u32
        ensures levels { result ≡ arrowed self.old.chains }
        ensures chains { self.new.chains ≡ rest_of (rest_of self.old.chains) }
        ensures marks { self.new.marks ≡ self.old.marks }
    {
        let right = self.chains.pop();
        let _from = self.chains.pop();
        sum(arrows(right), 1)
    }

    /// Takes so many forms off, or all where there are fewer.
    #[tactic(auto, using(crate::proofs::Dropping::one_less, crate::proofs::Dropping::none_left, crate::proofs::Dropping::none_more))]
    fn drop_parts(&mut self, parts: u128)
        ensures chains { self.new.chains ≡ dropped parts self.old.chains }
        ensures marks { self.new.marks ≡ self.old.marks }
    {
        let mut left = parts;
        while left > 0 {
            if self.chains.pop().is_none() {
                return;
            }
            left -= 1;
        }
    }
}
