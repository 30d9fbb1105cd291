//! What a source gives, as a short text: its tree as bracketed lists, or its refusal. Where places are asked for, each
//! part that has a place stands behind it, as `5:x` on line 1 and `2.5:x` on line 2, and an expression of a definition or
//! a cell stands behind its first token, as `4|5:x`.

use crate::read_program;
use hb_base::{Fault, Name, Names, Place};
use hb_tree::{NameAt, Pat, PatKind, PredExpr, Sig, TypeExpr, TypeKind};
use std::alloc::Global;
use std::fmt::Write;
use std::test::Fail;

/// The tree of a source without its places, or its refusal.
pub fn tree(alloc: Global, source: &str) -> Result<String, Fail> {
    answer(alloc, source.as_bytes(), false)
}

/// The tree of a source with its places, or its refusal.
pub fn placed(alloc: Global, source: &str) -> Result<String, Fail> {
    answer(alloc, source.as_bytes(), true)
}

/// The word `read` for a source that is read, or its refusal as `E04 1:31 -`.
pub fn outcome(alloc: Global, source: &str) -> Result<String, Fail> {
    let mut names = Names::new(alloc)?;
    if source.len() > 1_048_576 || names.count() >= 0x8000_0000 {
        return Err(Fail::from("too much"));
    }
    match read_program(alloc, source.as_bytes(), &mut names) {
        Ok(_) => Ok(format!(in alloc; "read")?),
        Err(fault) => refusal_text(alloc, &fault),
    }
}

/// The tree of a source, or its refusal as `E04 1:31 -`.
pub fn answer(alloc: Global, source: &[u8], places: bool) -> Result<String, Fail> {
    let mut names = Names::new(alloc)?;
    if source.len() > 1_048_576 || names.count() >= 0x8000_0000 {
        return Err(Fail::from("too much"));
    }
    match read_program(alloc, source, &mut names) {
        Ok(program) => {
            let mut printer = Printer {
                names,
                places,
                text: String::new(alloc),
            };
            printer.program(&program)?;
            Ok(printer.text)
        }
        Err(fault) => refusal_text(alloc, &fault),
    }
}

fn refusal_text(alloc: Global, fault: &Fault) -> Result<String, Fail> {
    let Fault::Refused(refusal) = fault else {
        return Err(Fail::from("out of memory"));
    };
    let Ok(detail) = str::from_utf8(refusal.detail.as_slice()) else {
        return Err(Fail::from("a detail that is no text"));
    };
    let code = refusal.code;
    let line = refusal.place.line;
    let col = refusal.place.col;
    Ok(format!(in alloc; "{code:?} {line}:{col} {detail}")?)
}

/// Writes a tree to its text.
#[derive(Drop)]
pub struct Printer {
    pub names: Names,
    pub places: bool,
    pub text: String,
}

impl Printer {
    pub fn put(&mut self, text: &str) -> Result<(), Fail> {
        self.text.push_str(text)?;
        Ok(())
    }

    pub fn at(&mut self, place: Place, mark: &str) -> Result<(), Fail> {
        let line = place.line;
        let col = place.col;
        if self.places {
            if line != 1 {
                write!(self.text, "{line}.")?;
            }
            write!(self.text, "{col}{mark}")?;
        }
        Ok(())
    }

    pub fn name(&mut self, name: Name) -> Result<(), Fail> {
        match self.names.text(name) {
            Some(bytes) => match str::from_utf8(bytes) {
                Ok(text) => self.text.push_str(text)?,
                Err(_) => self.text.push_str("?")?,
            },
            None => self.text.push_str("?")?,
        }
        Ok(())
    }

    pub fn name_at(&mut self, name: &NameAt) -> Result<(), Fail> {
        self.at(name.place, ":")?;
        self.name(name.name)
    }

    /// Names with a space between two of them.
    pub fn names(&mut self, names: &[NameAt]) -> Result<(), Fail> {
        let mut first = true;
        for name in names {
            if !first {
                self.put(" ")?;
            }
            first = false;
            self.name_at(name)?;
        }
        Ok(())
    }

    pub fn number(&mut self, number: u64) -> Result<(), Fail> {
        write!(self.text, "{number}")?;
        Ok(())
    }

    pub fn bits(&mut self, width: u32, number: u128) -> Result<(), Fail> {
        write!(self.text, "{width}'{number}")?;
        Ok(())
    }

    // Types.

    pub fn two_types(&mut self, word: &str, a: &TypeExpr, b: &TypeExpr) -> Result<(), Fail> {
        self.put(word)?;
        self.type_expr(a)?;
        self.put(" ")?;
        self.type_expr(b)?;
        self.put(")")
    }

    pub fn type_expr(&mut self, of: &TypeExpr) -> Result<(), Fail> {
        self.at(of.place, ":")?;
        match &of.kind {
            TypeKind::Con(name) | TypeKind::Var(name) => self.name(*name),
            TypeKind::Number(number) => self.number(*number),
            TypeKind::Unit => self.put("()"),
            TypeKind::Pair(a, b) => {
                self.put("(, ")?;
                self.type_expr(a)?;
                self.put(" ")?;
                self.type_expr(b)?;
                self.put(")")
            }
            TypeKind::Apply(f, x) => {
                self.put("(@ ")?;
                self.type_expr(f)?;
                self.put(" ")?;
                self.type_expr(x)?;
                self.put(")")
            }
            TypeKind::Arrow(from, to) => {
                self.put("(-> ")?;
                self.type_expr(from)?;
                self.put(" ")?;
                self.type_expr(to)?;
                self.put(")")
            }
            TypeKind::Sum(a, b) => {
                self.put("(+ ")?;
                self.type_expr(a)?;
                self.put(" ")?;
                self.type_expr(b)?;
                self.put(")")
            }
        }
    }

    /// Types, each behind a space.
    pub fn types(&mut self, all: &[TypeExpr]) -> Result<(), Fail> {
        for of in all {
            self.put(" ")?;
            self.type_expr(of)?;
        }
        Ok(())
    }

    pub fn three_types(
        &mut self,
        word: &str,
        a: &TypeExpr,
        b: &TypeExpr,
        c: &TypeExpr,
    ) -> Result<(), Fail> {
        self.put(word)?;
        self.type_expr(a)?;
        self.put(" ")?;
        self.type_expr(b)?;
        self.put(" ")?;
        self.type_expr(c)?;
        self.put(")")
    }

    pub fn pred(&mut self, pred: &PredExpr) -> Result<(), Fail> {
        match pred {
            PredExpr::Class(name, all) => {
                self.put("(")?;
                self.name_at(name)?;
                self.types(all.as_slice())?;
                self.put(")")
            }
            PredExpr::Sum(a, b, c) => self.three_types("(+= ", a, b, c),
            PredExpr::Product(a, b, c) => self.three_types("(*= ", a, b, c),
            PredExpr::Power(a, b) => self.two_types("(2^= ", a, b),
            PredExpr::AtMost(a, b) => self.two_types("(<= ", a, b),
        }
    }

    /// Predicates in brackets.
    pub fn preds(&mut self, all: &[PredExpr]) -> Result<(), Fail> {
        self.put(" (")?;
        let mut first = true;
        for pred in all {
            if !first {
                self.put(" ")?;
            }
            first = false;
            self.pred(pred)?;
        }
        self.put(")")
    }

    pub fn sig(&mut self, sig: &Sig) -> Result<(), Fail> {
        self.at(sig.place, ":")?;
        self.put("(sig (")?;
        self.names(sig.names.as_slice())?;
        self.put(")")?;
        self.preds(sig.context.as_slice())?;
        self.put(" ")?;
        self.type_expr(&sig.body)?;
        self.put(")")
    }

    // Patterns.

    pub fn pat(&mut self, pat: &Pat) -> Result<(), Fail> {
        self.at(pat.place, ":")?;
        match &pat.kind {
            PatKind::Any => self.put("_"),
            PatKind::Var(name) => self.name(*name),
            PatKind::Number(number) => self.number(*number),
            PatKind::Bits(width, number) => self.bits(*width, *number),
            PatKind::Con(name, args) => {
                if args.len() == 0 {
                    return self.name(*name);
                }
                self.put("(")?;
                self.name(*name)?;
                for arg in args.as_slice() {
                    self.put(" ")?;
                    self.pat(arg)?;
                }
                self.put(")")
            }
            PatKind::Fields(name, fields) => {
                self.put("[")?;
                self.name(*name)?;
                for field in fields.as_slice() {
                    self.put(" (")?;
                    self.at(field.place, ":")?;
                    self.name(field.name)?;
                    self.put(" ")?;
                    self.pat(&field.pat)?;
                    self.put(")")?;
                }
                self.put("]")
            }
            PatKind::Pair(a, b) => {
                self.put("(, ")?;
                self.pat(a)?;
                self.put(" ")?;
                self.pat(b)?;
                self.put(")")
            }
            PatKind::Unit => self.put("()"),
        }
    }

    /// Patterns in brackets.
    pub fn pats(&mut self, all: &[Pat]) -> Result<(), Fail> {
        self.put(" (")?;
        let mut first = true;
        for pat in all {
            if !first {
                self.put(" ")?;
            }
            first = false;
            self.pat(pat)?;
        }
        self.put(")")
    }
}
