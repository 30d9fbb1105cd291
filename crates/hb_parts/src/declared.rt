use crate::graph::Span;
use crate::heads::FIRST_DECLARED;
use crate::spines::Spines;
use crate::templates::Templates;
use hb_base::Memory;
use hb_mono::{Constructor, DeclaredForm, Mono};
use std::alloc::Global;

/// The declared types: what each is, the constructors of each by their numbers, and for each constructor the templates of the types
/// of its arguments.
#[derive(Debug, Drop)]
pub(crate) struct Declared {
    forms: Vec<DeclaredForm>,
    constructors: Vec<Span>,
    arguments: Vec<Span>,
    pub(crate) templates: Templates,
}

impl Declared {
    /// What the declared type of a type constructor is.
    pub(crate) fn form(&self, con: u32) -> Option<DeclaredForm> {
        let number = con.checked_sub(FIRST_DECLARED)?;
        self.forms.get(number as usize).copied()
    }

    /// The constructors of the declared type of a type constructor.
    pub(crate) fn constructors(&self, con: u32) -> Span {
        let number = con.saturating_sub(FIRST_DECLARED) as usize;
        match self.constructors.get(number) {
            Some(span) => *span,
            None => Span { first: 0, count: 0 },
        }
    }

    /// The templates of the types of a constructor's arguments.
    pub(crate) fn arguments(&self, constructor: usize) -> Span {
        match self.arguments.get(constructor) {
            Some(span) => *span,
            None => Span { first: 0, count: 0 },
        }
    }

    /// The constructors of one type stand next to each other.
    fn counts(&mut self, number: usize, of: u32) {
        if let Some(span) = self.constructors.get_mut(of as usize) {
            if span.count == 0 {
                span.first = number;
            }
            span.count = span.count.saturating_add(1);
        }
    }

    fn put(&mut self, spines: &Spines, constructor: &Constructor) -> Result<(), Memory> {
        let number = self.arguments.len();
        self.counts(number, constructor.of);
        let first = self.templates.len();
        for argument in constructor.arguments.as_slice() {
            self.templates.put(spines, *argument)?;
        }
        self.arguments.push(Span {
            first,
            count: constructor.arguments.len(),
        })?;
        Ok(())
    }

    pub(crate) fn new(alloc: Global, spines: &Spines, mono: &Mono) -> Result<Declared, Memory> {
        let forms = Vec::from_slice(alloc, mono.data.as_slice())?;
        let none = Span { first: 0, count: 0 };
        let mut declared = Declared {
            constructors: vec![in alloc; none; forms.len()]?,
            forms,
            arguments: Vec::new(alloc),
            templates: Templates::new(alloc),
        };
        for constructor in mono.constructors.as_slice() {
            declared.put(spines, constructor)?;
        }
        Ok(declared)
    }
}
