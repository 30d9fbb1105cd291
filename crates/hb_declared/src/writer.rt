use crate::form::{Ask, Scheme};
use crate::numbers::{ARROW, NameNumbers, Numbers, next};
use hb_base::{List, Memory, Name, fixed};
use hb_shared::SharedTypes;
use hb_tree::{NameAt, PredExpr, TypeExpr, TypeKind};
use hb_types::{Form, Types};
use indexmap::IndexMap;
use std::alloc::Global;

/// Writes types down as types of a table. The variables of the scheme at work have numbers by their names, and sums have numbers by the
/// places of what they add.
#[derive(Drop)]
pub struct Writer {
    pub alloc: Global,
    pub numbers: Numbers,
    table: SharedTypes,
    variables: NameNumbers,
    bound: Vec<Name>,
    sums: IndexMap<(usize, usize), u32>,
    count: u32,
}

impl Writer {
    pub fn new(alloc: Global, count: u32, numbers: Numbers) -> Result<Writer, Memory> {
        Ok(Writer {
            alloc,
            numbers,
            table: SharedTypes::new(alloc),
            variables: NameNumbers::new(alloc, count)?,
            bound: Vec::new(alloc),
            sums: IndexMap::new(alloc),
            count: 0,
        })
    }

    /// A new scheme: no variable is known, and its table is empty.
    pub fn begin(&mut self) {
        for name in &self.bound {
            self.variables.set(*name, None);
        }
        self.bound.clear();
        self.table = SharedTypes::new(self.alloc);
        self.sums = IndexMap::new(self.alloc);
        self.count = 0;
    }

    /// How many variables there are so far.
    pub fn count(&self) -> u32 {
        self.count
    }

    /// A name is a variable, if it is none yet.
    pub fn bind(&mut self, name: Name) -> Result<(), Memory> {
        if self.variables.of(name).is_none() {
            self.variables.set(name, Some(self.count));
            self.count = next(self.count);
            self.bound.push(name)?;
        }
        Ok(())
    }

    pub fn bind_all(&mut self, names: &[NameAt]) -> Result<(), Memory> {
        for at in names {
            self.bind(at.name)?;
        }
        Ok(())
    }

    /// Binds the variables that are written in a type, in their order.
    pub fn bind_type(&mut self, of: &TypeExpr) -> Result<(), Memory> {
        match &of.kind {
            TypeKind::Con(_) => Ok(()),
            TypeKind::Var(name) => self.bind(*name),
            TypeKind::Number(_) => Ok(()),
            TypeKind::Unit => Ok(()),
            TypeKind::Pair(a, b) => {
                self.bind_type(a)?;
                self.bind_type(b)
            }
            TypeKind::Apply(a, b) => {
                self.bind_type(a)?;
                self.bind_type(b)
            }
            TypeKind::Arrow(a, b) => {
                self.bind_type(a)?;
                self.bind_type(b)
            }
            TypeKind::Sum(a, b) => {
                self.bind_type(a)?;
                self.bind_type(b)
            }
        }
    }

    pub fn bind_types(&mut self, all: &[TypeExpr]) -> Result<(), Memory> {
        for of in all {
            self.bind_type(of)?;
        }
        Ok(())
    }

    pub fn bind_preds(&mut self, all: &[PredExpr]) -> Result<(), Memory> {
        for pred in all {
            self.bind_pred(pred)?;
        }
        Ok(())
    }

    fn bind_pred(&mut self, pred: &PredExpr) -> Result<(), Memory> {
        match pred {
            PredExpr::Class(_, args) => self.bind_types(args.as_slice()),
            PredExpr::Sum(a, b, c) | PredExpr::Product(a, b, c) => {
                self.bind_type(a)?;
                self.bind_type(b)?;
                self.bind_type(c)
            }
            PredExpr::Power(a, b) | PredExpr::AtMost(a, b) => {
                self.bind_type(a)?;
                self.bind_type(b)
            }
        }
    }

    fn named(&mut self, name: Name) -> Result<usize, Memory> {
        match self.numbers.types.of(name) {
            Some(number) => self.table.con(number),
            None => self.table.put(Form::Unknown(0)),
        }
    }

    fn variable(&mut self, name: Name) -> Result<usize, Memory> {
        match self.variables.of(name) {
            Some(number) => self.table.variable(number),
            None => self.table.put(Form::Unknown(0)),
        }
    }

    /// A type constructor by its number at this many variables from the first on.
    pub fn at_variables(&mut self, number: u32, count: u32) -> Result<usize, Memory> {
        let mut whole = self.table.con(number)?;
        for variable in 0..count {
            let argument = self.table.variable(variable)?;
            whole = self.table.apply(whole, argument)?;
        }
        Ok(whole)
    }

    pub fn arrow(&mut self, from: usize, to: usize) -> Result<usize, Memory> {
        let con = self.table.con(ARROW)?;
        let half = self.table.apply(con, from)?;
        self.table.apply(half, to)
    }

    /// The place of a type, whose written variables are bound.
    pub fn type_expr(&mut self, of: &TypeExpr) -> Result<usize, Memory> {
        match &of.kind {
            TypeKind::Con(name) => self.named(*name),
            TypeKind::Var(name) => self.variable(*name),
            TypeKind::Number(number) => self.table.number(*number),
            TypeKind::Unit => self.named(fixed::UNIT),
            TypeKind::Pair(a, b) => {
                let pair = self.named(fixed::PAIR)?;
                let first = self.type_expr(a)?;
                let second = self.type_expr(b)?;
                let half = self.table.apply(pair, first)?;
                self.table.apply(half, second)
            }
            TypeKind::Apply(f, x) => {
                let function = self.type_expr(f)?;
                let argument = self.type_expr(x)?;
                self.table.apply(function, argument)
            }
            TypeKind::Arrow(a, b) => {
                let from = self.type_expr(a)?;
                let to = self.type_expr(b)?;
                self.arrow(from, to)
            }
            TypeKind::Sum(a, b) => {
                let number = self.count;
                self.count = next(self.count);
                let left = self.type_expr(a)?;
                let right = self.type_expr(b)?;
                self.sum(number, left, right)
            }
        }
    }

    /// The variable that stands for a sum: the one that is known for it, or the one of this number.
    fn sum(&mut self, number: u32, left: usize, right: usize) -> Result<usize, Memory> {
        if let Some(known) = self.sums.get(&(left, right)) {
            let known = *known;
            if self.count == next(number) {
                self.count = number;
            }
            return self.table.variable(known);
        }
        self.sums.insert((left, right), number)?;
        self.table.variable(number)
    }

    /// The types of some forms, each by its place.
    pub fn type_exprs(&mut self, all: &[TypeExpr]) -> Result<List<usize>, Memory> {
        let mut places = List::of(Vec::new(self.alloc));
        for of in all {
            let place = self.type_expr(of)?;
            places.push(place)?;
        }
        Ok(places)
    }

    fn three(&mut self, a: &TypeExpr, b: &TypeExpr, c: &TypeExpr) -> Result<List<usize>, Memory> {
        let mut places = self.two(a, b)?;
        let third = self.type_expr(c)?;
        places.push(third)?;
        Ok(places)
    }

    fn two(&mut self, a: &TypeExpr, b: &TypeExpr) -> Result<List<usize>, Memory> {
        let mut places = List::of(Vec::new(self.alloc));
        let first = self.type_expr(a)?;
        places.push(first)?;
        let second = self.type_expr(b)?;
        places.push(second)?;
        Ok(places)
    }

    fn class_number(&self, name: Name) -> u32 {
        match self.numbers.classes.of(name) {
            Some(number) => number,
            None => u32::MAX,
        }
    }

    fn pred(&mut self, pred: &PredExpr) -> Result<Ask, Memory> {
        match pred {
            PredExpr::Class(at, args) => {
                let class = self.class_number(at.name);
                let args = self.type_exprs(args.as_slice())?;
                Ok(Ask { class, args })
            }
            PredExpr::Sum(a, b, c) => {
                let args = self.three(a, b, c)?;
                Ok(Ask { class: 0, args })
            }
            PredExpr::Product(a, b, c) => {
                let args = self.three(a, b, c)?;
                Ok(Ask { class: 1, args })
            }
            PredExpr::Power(a, b) => {
                let args = self.two(a, b)?;
                Ok(Ask { class: 2, args })
            }
            PredExpr::AtMost(a, b) => {
                let args = self.two(a, b)?;
                Ok(Ask { class: 3, args })
            }
        }
    }

    /// What a context asks for.
    pub fn context(&mut self, all: &[PredExpr]) -> Result<List<Ask>, Memory> {
        let mut asks = List::of(Vec::new(self.alloc));
        self.put_context(all, &mut asks)?;
        Ok(asks)
    }

    /// Puts what a context asks for behind the asks.
    pub fn put_context(&mut self, all: &[PredExpr], asks: &mut List<Ask>) -> Result<(), Memory> {
        for pred in all {
            let ask = self.pred(pred)?;
            asks.push(ask)?;
        }
        Ok(())
    }

    /// Puts what the sums of the signature ask for, each that its variable is the sum.
    pub fn put_sums(&mut self, asks: &mut List<Ask>) -> Result<(), Memory> {
        let mut found = Vec::new(self.alloc);
        for (parts, number) in self.sums.iter() {
            found.push((*number, parts.0, parts.1))?;
        }
        found.sort_unstable();
        for (number, left, right) in &found {
            let ask = self.is_sum(*left, *right, *number)?;
            asks.push(ask)?;
        }
        Ok(())
    }

    fn is_sum(&mut self, left: usize, right: usize, number: u32) -> Result<Ask, Memory> {
        let variable = self.table.variable(number)?;
        let mut args = List::of(Vec::new(self.alloc));
        args.push(left)?;
        args.push(right)?;
        args.push(variable)?;
        Ok(Ask { class: 0, args })
    }

    /// The variable of a number, by its place.
    pub fn variable_at(&mut self, number: u32) -> Result<usize, Memory> {
        self.table.variable(number)
    }

    /// The table of the scheme at work, which ends with this.
    pub fn end(&mut self) -> Types {
        let table = std::mem::replace(&mut self.table, SharedTypes::new(self.alloc));
        table.into_types()
    }

    /// The scheme at work, with this type and these asks.
    pub fn scheme(&mut self, asks: List<Ask>, body: usize) -> Scheme {
        let variables = self.count;
        Scheme {
            variables,
            types: self.end(),
            asks,
            body,
        }
    }
}
