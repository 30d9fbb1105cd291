use crate::faults::Faults;
use crate::meanings::Meanings;
use crate::name_set::NameSet;
use crate::sorts::{Sort, Sorts};
use hb_base::{List, Memory, Name, Place, fixed};
use hb_resolved::Target;
use hb_tree::{BitCon, BitPart, DataCon, Decl, FieldDecl, NameAt, Sig, StructPart};
use std::alloc::Global;

/// What the names in expressions and patterns mean.
#[derive(Drop)]
pub(crate) struct Tables {
    pub(crate) variables: Meanings,
    pub(crate) constructors: Meanings,
    /// The fields of all types.
    pub(crate) labels: NameSet,
}

/// What a program declares. Where a name is declared twice, the first declaration counts.
#[derive(Drop)]
pub(crate) struct Declared {
    pub(crate) tables: Tables,
    pub(crate) sorts: Sorts,
    pub(crate) signed: NameSet,
    pub(crate) defined: NameSet,
    /// The primitives, methods, areas and ports.
    others: NameSet,
    /// The names of which a fixity is declared.
    grouped: NameSet,
    /// The names of one list.
    listed: NameSet,
    methods: u32,
    cons: u32,
}

impl Tables {
    /// So many names that mean nothing.
    fn new(alloc: Global, names: u32) -> Result<Tables, Memory> {
        Ok(Tables {
            variables: Meanings::new(alloc, names)?,
            constructors: Meanings::new(alloc, names)?,
            labels: NameSet::new(alloc, names)?,
        })
    }
}

impl Declared {
    /// So many names, of which nothing is declared.
    fn empty(alloc: Global, names: u32) -> Result<Declared, Memory> {
        Ok(Declared {
            tables: Tables::new(alloc, names)?,
            sorts: Sorts::new(alloc, names)?,
            signed: NameSet::new(alloc, names)?,
            defined: NameSet::new(alloc, names)?,
            others: NameSet::new(alloc, names)?,
            grouped: NameSet::new(alloc, names)?,
            listed: NameSet::new(alloc, names)?,
            methods: 0,
            cons: 0,
        })
    }

    /// So many names, of which what no program declares is known.
    pub(crate) fn new(alloc: Global, names: u32) -> Result<Declared, Memory> {
        let mut declared = Declared::empty(alloc, names)?;
        for number in 0..fixed::PRIMITIVES {
            let name = Name(fixed::FIRST_PRIMITIVE + number);
            declared
                .tables
                .variables
                .declare(name, Target::Prim(number));
            declared.others.put(name);
        }
        Ok(declared)
    }

    /// A signature and the definition that it belongs to are one declaration.
    fn sign(&mut self, at: NameAt, faults: &mut Faults) {
        if self.signed.put(at.name) || self.others.has(at.name) {
            faults.put_twice(at.place, at.name);
        }
    }

    fn sign_all(&mut self, sig: &Sig, faults: &mut Faults) {
        for at in sig.names.as_slice() {
            self.sign(*at, faults);
        }
    }

    /// A definition of this declaration.
    fn define(&mut self, place: Place, name: Name, number: u32, faults: &mut Faults) {
        if self.defined.put(name) || self.others.has(name) {
            faults.put_twice(place, name);
        }
        self.tables.variables.declare(name, Target::Top(number));
    }

    /// A method, an area or a port, which has no signature.
    fn declare(&mut self, at: NameAt, target: Target, faults: &mut Faults) {
        let is_other = self.others.put(at.name);
        if is_other || self.signed.has(at.name) || self.defined.has(at.name) {
            faults.put_twice(at.place, at.name);
        }
        self.tables.variables.declare(at.name, target);
    }

    fn declare_methods(&mut self, sig: &Sig, faults: &mut Faults) {
        for at in sig.names.as_slice() {
            self.declare(*at, Target::Method(self.methods), faults);
            self.methods = self.methods.wrapping_add(1);
        }
    }

    fn declare_sort(&mut self, at: NameAt, sort: Sort, faults: &mut Faults) {
        if self.sorts.declare(at.name, sort) {
            faults.put_twice(at.place, at.name);
        }
    }

    fn declare_con(&mut self, at: NameAt, faults: &mut Faults) {
        if self.tables.constructors.is_known(at.name) {
            faults.put_twice(at.place, at.name);
        }
        self.tables
            .constructors
            .declare(at.name, Target::Con(self.cons));
        self.cons = self.cons.wrapping_add(1);
    }

    /// The names of a list that is read: none comes twice.
    fn list(&mut self, names: &[NameAt], faults: &mut Faults) {
        for at in names {
            if self.listed.put(at.name) {
                faults.put_twice(at.place, at.name);
            }
        }
    }

    /// The parameters of a type or a class.
    fn params(&mut self, names: &[NameAt], faults: &mut Faults) {
        self.listed.clear();
        self.list(names, faults);
    }

    fn group(&mut self, names: &[NameAt], faults: &mut Faults) {
        for at in names {
            if self.grouped.put(at.name) {
                faults.put_twice(at.place, at.name);
            }
        }
    }

    /// The fields of one type in the constructor or struct that is read.
    fn fields(&mut self, fields: &FieldDecl, faults: &mut Faults) {
        self.list(fields.names.as_slice(), faults);
        for at in fields.names.as_slice() {
            self.tables.labels.put(at.name);
        }
    }

    fn data_cons(&mut self, cons: &[DataCon], faults: &mut Faults) {
        for con in cons {
            self.declare_con(con.name, faults);
        }
    }

    fn bit_con(&mut self, con: &BitCon, faults: &mut Faults) {
        self.declare_con(con.name, faults);
        self.listed.clear();
        for part in con.parts.as_slice() {
            if let BitPart::Fields(fields) = part {
                self.fields(fields, faults);
            }
        }
    }

    fn bit_cons(&mut self, cons: &[BitCon], faults: &mut Faults) {
        for con in cons {
            self.bit_con(con, faults);
        }
    }

    fn struct_parts(&mut self, parts: &[StructPart], faults: &mut Faults) {
        self.listed.clear();
        for part in parts {
            if let StructPart::Fields(fields) = part {
                self.fields(fields, faults);
            }
        }
    }

    fn methods_of(&mut self, sigs: &[Sig], faults: &mut Faults) {
        for sig in sigs {
            self.declare_methods(sig, faults);
        }
    }

    /// The declaration of this number.
    fn decl(&mut self, number: u32, decl: &Decl, faults: &mut Faults) {
        match decl {
            Decl::Sig(sig) => self.sign_all(sig, faults),
            Decl::Equation(bind) => self.define(bind.place, bind.name, number, faults),
            Decl::Fixity(_, _, _, names) => self.group(names.as_slice(), faults),
            Decl::Data(_, name, params, cons) => {
                self.declare_sort(*name, Sort::Type, faults);
                self.params(params.as_slice(), faults);
                self.data_cons(cons.as_slice(), faults);
            }
            Decl::Bitdata(_, name, _, cons) => {
                self.declare_sort(*name, Sort::Type, faults);
                self.bit_cons(cons.as_slice(), faults);
            }
            Decl::Struct(_, name, _, parts) => {
                self.declare_sort(*name, Sort::Type, faults);
                self.struct_parts(parts.as_slice(), faults);
            }
            Decl::Area(_, name, _, _, _) => self.declare(*name, Target::Top(number), faults),
            Decl::Port(_, name, _, _, _, _) => self.declare(*name, Target::Top(number), faults),
            Decl::Class(_, _, name, params, _, sigs) => {
                self.declare_sort(*name, Sort::Class, faults);
                self.params(params.as_slice(), faults);
                self.methods_of(sigs.as_slice(), faults);
            }
            Decl::Instance(_, _, _, _, _) => {}
        }
    }

    /// Takes in all declarations of a program.
    pub(crate) fn take_in(&mut self, decls: &List<Decl>, faults: &mut Faults) {
        let mut number = 0u32;
        for decl in decls.as_slice() {
            self.decl(number, decl, faults);
            number = number.wrapping_add(1);
        }
    }
}
