//! The texts of declarations and programs.

use crate::trees::Printer;
use hb_base::{Dir, Place};
use hb_tree::{
    Bind, BitPart, DataCon, Decl, Depend, FieldDecl, Fix, InitExpr, InitKind, NameAt, PredExpr,
    Program, Sig, StructPart, TypeExpr,
};
use std::test::Fail;

impl Printer {
    fn init(&mut self, init: &InitExpr) -> Result<(), Fail> {
        self.at(init.place, "|")?;
        match &init.kind {
            InitKind::Each(name, part) => {
                self.put("(each ")?;
                self.name_at(name)?;
                self.put(" ")?;
                self.init(part)?;
                self.put(")")
            }
            InitKind::Fields(fields) => {
                self.put("(fields")?;
                for field in fields.as_slice() {
                    self.put(" (")?;
                    self.name_at(&field.name)?;
                    self.put(" ")?;
                    self.init(&field.init)?;
                    self.put(")")?;
                }
                self.put(")")
            }
            InitKind::Cell(e) => self.expr(e),
        }
    }

    fn size(&mut self, size: &Option<u64>) -> Result<(), Fail> {
        if let Some(number) = size {
            self.put(" /")?;
            self.number(*number)?;
        }
        Ok(())
    }

    fn field_decl(&mut self, fields: &FieldDecl) -> Result<(), Fail> {
        self.put(" ((")?;
        self.names(fields.names.as_slice())?;
        self.put(") ")?;
        self.type_expr(&fields.of)?;
        self.put(")")
    }

    fn data_con(&mut self, con: &DataCon) -> Result<(), Fail> {
        self.put(" (")?;
        self.name_at(&con.name)?;
        self.types(con.args.as_slice())?;
        self.put(")")
    }

    fn bit_con(&mut self, name: &NameAt, parts: &[BitPart]) -> Result<(), Fail> {
        self.put(" (")?;
        self.name_at(name)?;
        for part in parts {
            match part {
                BitPart::Tag(width, number) => {
                    self.put(" ")?;
                    self.bits(*width, *number)?;
                }
                BitPart::Fields(fields) => self.field_decl(fields)?,
            }
        }
        self.put(")")
    }

    fn struct_part(&mut self, part: &StructPart) -> Result<(), Fail> {
        match part {
            StructPart::Pad(bytes) => {
                self.put(" (Pad ")?;
                self.number(*bytes)?;
                self.put(")")
            }
            StructPart::Fields(fields) => self.field_decl(fields),
        }
    }

    fn depend(&mut self, depend: &Depend) -> Result<(), Fail> {
        self.put(" (")?;
        self.names(depend.from.as_slice())?;
        self.put(" -> ")?;
        self.names(depend.to.as_slice())?;
        self.put(")")
    }

    fn name_and_names(&mut self, name: &NameAt, names: &[NameAt]) -> Result<(), Fail> {
        self.put(" ")?;
        self.name_at(name)?;
        self.put(" (")?;
        self.names(names)?;
        self.put(")")
    }

    fn named(&mut self, place: Place, word: &str, name: &NameAt) -> Result<(), Fail> {
        self.at(place, ":")?;
        self.put(word)?;
        self.name_at(name)
    }

    fn area(
        &mut self,
        init: &Option<InitExpr>,
        of: &TypeExpr,
        align: &Option<u64>,
    ) -> Result<(), Fail> {
        if let Some(init) = init {
            self.put(" <- ")?;
            self.init(init)?;
        }
        self.put(" ")?;
        self.type_expr(of)?;
        if let Some(number) = align {
            self.put(" aligned ")?;
            self.number(*number)?;
        }
        Ok(())
    }

    fn class(
        &mut self,
        name: &NameAt,
        params: &[NameAt],
        depends: &[Depend],
        sigs: &[Sig],
    ) -> Result<(), Fail> {
        self.name_and_names(name, params)?;
        for depend in depends {
            self.depend(depend)?;
        }
        for sig in sigs {
            self.put(" ")?;
            self.sig(sig)?;
        }
        Ok(())
    }

    fn instance(
        &mut self,
        args: &[TypeExpr],
        preds: &[PredExpr],
        rows: &[Bind],
    ) -> Result<(), Fail> {
        self.types(args)?;
        self.preds(preds)?;
        for row in rows {
            self.put(" ")?;
            self.bind(row)?;
        }
        Ok(())
    }

    fn parameters(&mut self, names: &[NameAt]) -> Result<(), Fail> {
        self.put(" (")?;
        self.names(names)?;
        self.put(")")
    }

    /// An area, a port, a class or an instance, without its last bracket.
    fn other_decl(&mut self, decl: &Decl) -> Result<(), Fail> {
        match decl {
            Decl::Area(place, name, init, of, align) => {
                self.named(*place, "(area ", name)?;
                self.area(init, of, align)?;
            }
            Decl::Port(place, name, dir, of, width, number) => {
                self.named(*place, "(port ", name)?;
                self.put(match dir {
                    Dir::In => " In ",
                    Dir::Out => " Out ",
                })?;
                self.type_expr(of)?;
                self.put(" ")?;
                self.bits(*width, *number)?;
            }
            Decl::Class(place, preds, name, params, depends, sigs) => {
                self.at(*place, ":")?;
                self.put("(class")?;
                self.preds(preds.as_slice())?;
                self.class(name, params.as_slice(), depends.as_slice(), sigs.as_slice())?;
            }
            Decl::Instance(place, name, args, preds, rows) => {
                self.named(*place, "(instance ", name)?;
                self.instance(args.as_slice(), preds.as_slice(), rows.as_slice())?;
            }
            _ => self.put("?")?,
        }
        Ok(())
    }

    fn decl(&mut self, decl: &Decl) -> Result<(), Fail> {
        match decl {
            Decl::Sig(sig) => return self.sig(sig),
            Decl::Equation(bind) => return self.bind(bind),
            Decl::Fixity(place, fix, level, names) => {
                self.at(*place, ":")?;
                self.put(match fix {
                    Fix::Left => "(infixl ",
                    Fix::Right => "(infixr ",
                    Fix::Neither => "(infix ",
                })?;
                self.number(u64::from(*level))?;
                self.parameters(names.as_slice())?;
            }
            Decl::Data(place, name, params, cons) => {
                self.named(*place, "(data ", name)?;
                self.parameters(params.as_slice())?;
                for con in cons.as_slice() {
                    self.data_con(con)?;
                }
            }
            Decl::Bitdata(place, name, width, cons) => {
                self.named(*place, "(bitdata ", name)?;
                self.size(width)?;
                for con in cons.as_slice() {
                    self.bit_con(&con.name, con.parts.as_slice())?;
                }
            }
            Decl::Struct(place, name, bytes, parts) => {
                self.named(*place, "(struct ", name)?;
                self.size(bytes)?;
                for part in parts.as_slice() {
                    self.struct_part(part)?;
                }
            }
            _ => self.other_decl(decl)?,
        }
        self.put(")")
    }

    pub fn program(&mut self, program: &Program) -> Result<(), Fail> {
        let mut first = true;
        for decl in program.decls.as_slice() {
            if !first {
                self.put(" ")?;
            }
            first = false;
            self.decl(decl)?;
        }
        Ok(())
    }
}
