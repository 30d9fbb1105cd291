use crate::faults::Faults;
use crate::name_set::NameSet;
use crate::sorts::{Sort, Sorts};
use hb_base::{List, Memory};
use hb_tree::{
    BitCon, BitPart, DataCon, Decl, Depend, FieldDecl, NameAt, PredExpr, Sig, StructPart, TypeExpr,
    TypeKind,
};
use std::alloc::Global;

/// Looks at the names in types. Where `closed`, only the variables in `known` may stand there; elsewhere every one may.
#[derive(Drop)]
pub(crate) struct TypeNames {
    sorts: Sorts,
    known: NameSet,
    closed: bool,
}

impl TypeNames {
    pub(crate) fn new(alloc: Global, names: u32, sorts: Sorts) -> Result<TypeNames, Memory> {
        Ok(TypeNames {
            sorts,
            known: NameSet::new(alloc, names)?,
            closed: false,
        })
    }

    /// From here on every variable may stand in a type.
    fn open(&mut self) {
        self.closed = false;
    }

    /// From here on only these variables may stand in a type.
    fn close(&mut self, params: &[NameAt]) {
        self.closed = true;
        self.known.clear();
        for at in params {
            self.known.put(at.name);
        }
    }

    fn type_name(&self, at: NameAt, faults: &mut Faults) {
        if !matches!(self.sorts.of(at.name), Sort::Type) {
            faults.put_unbound(at.place, at.name);
        }
    }

    fn variable(&self, at: NameAt, faults: &mut Faults) {
        if self.closed && !self.known.has(at.name) {
            faults.put_unbound(at.place, at.name);
        }
    }

    fn type_expr(&self, of: &TypeExpr, faults: &mut Faults) {
        let place = of.place;
        match &of.kind {
            TypeKind::Con(name) => self.type_name(NameAt { place, name: *name }, faults),
            TypeKind::Var(name) => self.variable(NameAt { place, name: *name }, faults),
            TypeKind::Number(_) => {}
            TypeKind::Unit => {}
            TypeKind::Pair(first, second) => {
                self.type_expr(first, faults);
                self.type_expr(second, faults);
            }
            TypeKind::Apply(first, second) => {
                self.type_expr(first, faults);
                self.type_expr(second, faults);
            }
            TypeKind::Arrow(first, second) => {
                self.type_expr(first, faults);
                self.type_expr(second, faults);
            }
            TypeKind::Sum(first, second) => {
                self.type_expr(first, faults);
                self.type_expr(second, faults);
            }
        }
    }

    fn type_exprs(&self, all: &[TypeExpr], faults: &mut Faults) {
        for of in all {
            self.type_expr(of, faults);
        }
    }

    fn pred(&self, pred: &PredExpr, faults: &mut Faults) {
        match pred {
            PredExpr::Class(at, args) => {
                match self.sorts.of(at.name) {
                    Sort::Class | Sort::Fact => {}
                    Sort::Unknown | Sort::Type => faults.put_unbound(at.place, at.name),
                }
                self.type_exprs(args.as_slice(), faults);
            }
            PredExpr::Sum(a, b, c) => {
                self.type_expr(a, faults);
                self.type_expr(b, faults);
                self.type_expr(c, faults);
            }
            PredExpr::Product(a, b, c) => {
                self.type_expr(a, faults);
                self.type_expr(b, faults);
                self.type_expr(c, faults);
            }
            PredExpr::Power(a, b) => {
                self.type_expr(a, faults);
                self.type_expr(b, faults);
            }
            PredExpr::AtMost(a, b) => {
                self.type_expr(a, faults);
                self.type_expr(b, faults);
            }
        }
    }

    fn context(&self, preds: &[PredExpr], faults: &mut Faults) {
        for pred in preds {
            self.pred(pred, faults);
        }
    }

    fn sig(&self, sig: &Sig, faults: &mut Faults) {
        self.context(sig.context.as_slice(), faults);
        self.type_expr(&sig.body, faults);
    }

    fn sigs(&self, sigs: &[Sig], faults: &mut Faults) {
        for sig in sigs {
            self.sig(sig, faults);
        }
    }

    fn data_cons(&self, cons: &[DataCon], faults: &mut Faults) {
        for con in cons {
            self.type_exprs(con.args.as_slice(), faults);
        }
    }

    fn fields(&self, fields: &FieldDecl, faults: &mut Faults) {
        self.type_expr(&fields.of, faults);
    }

    fn bit_parts(&self, parts: &[BitPart], faults: &mut Faults) {
        for part in parts {
            if let BitPart::Fields(fields) = part {
                self.fields(fields, faults);
            }
        }
    }

    fn bit_cons(&self, cons: &[BitCon], faults: &mut Faults) {
        for con in cons {
            self.bit_parts(con.parts.as_slice(), faults);
        }
    }

    fn struct_parts(&self, parts: &[StructPart], faults: &mut Faults) {
        for part in parts {
            if let StructPart::Fields(fields) = part {
                self.fields(fields, faults);
            }
        }
    }

    fn variables(&self, names: &[NameAt], faults: &mut Faults) {
        for at in names {
            self.variable(*at, faults);
        }
    }

    fn depends(&self, depends: &[Depend], faults: &mut Faults) {
        for depend in depends {
            self.variables(depend.from.as_slice(), faults);
            self.variables(depend.to.as_slice(), faults);
        }
    }

    /// An instance is one of a class that a declaration makes.
    fn head(&self, at: NameAt, faults: &mut Faults) {
        if !matches!(self.sorts.of(at.name), Sort::Class) {
            faults.put_unbound(at.place, at.name);
        }
    }

    fn decl(&mut self, decl: &Decl, faults: &mut Faults) {
        match decl {
            Decl::Sig(sig) => {
                self.open();
                self.sig(sig, faults);
            }
            Decl::Equation(_) => {}
            Decl::Fixity(_, _, _, _) => {}
            Decl::Data(_, _, params, cons) => {
                self.close(params.as_slice());
                self.data_cons(cons.as_slice(), faults);
            }
            Decl::Bitdata(_, _, _, cons) => {
                self.close(&[]);
                self.bit_cons(cons.as_slice(), faults);
            }
            Decl::Struct(_, _, _, parts) => {
                self.close(&[]);
                self.struct_parts(parts.as_slice(), faults);
            }
            Decl::Area(_, _, _, of, _) => {
                self.close(&[]);
                self.type_expr(of, faults);
            }
            Decl::Port(_, _, _, of, _, _) => {
                self.close(&[]);
                self.type_expr(of, faults);
            }
            Decl::Class(_, context, _, params, depends, sigs) => {
                self.close(params.as_slice());
                self.depends(depends.as_slice(), faults);
                self.open();
                self.context(context.as_slice(), faults);
                self.sigs(sigs.as_slice(), faults);
            }
            Decl::Instance(_, name, types, context, _) => {
                self.open();
                self.head(*name, faults);
                self.type_exprs(types.as_slice(), faults);
                self.context(context.as_slice(), faults);
            }
        }
    }

    /// Looks at the types of all declarations.
    pub(crate) fn decls(&mut self, decls: &List<Decl>, faults: &mut Faults) {
        for decl in decls.as_slice() {
            self.decl(decl, faults);
        }
    }
}
