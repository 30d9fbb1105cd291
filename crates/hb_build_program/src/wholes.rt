ghost use Rattle.std.specs.Prelude.{◌≡◌, Some, None, IfOk};
ghost use Rattle.hb_build.specs.Building.{Stepped};
ghost use Rattle.hb_build_program.specs.DeclarationSteps.{of_equation, of_fixity, of_data, of_bitdata, of_struct, area_of, of_area, of_port, of_class, of_instance, of_program};

use crate::builder::DeclBuilder;
use hb_base::{Dir, Memory, Place};
use hb_tree::{Decl, Fix, NameAt, Program, TypeExpr};
use std::alloc::Global;

impl DeclBuilder {
    /// The last definition is a declaration.
    pub(crate) fn equation(&mut self) -> Result<bool, Memory>
        ensures { IfOk result (λ taken. Stepped taken (of_equation self.old self.old.exprs.binds) self.new) }
    {
        match self.exprs.binds.pop() {
            Some(bind) => {
                self.decls.push(Decl::Equation(bind))?;
                Ok(true)
            }
            None => Ok(false),
        }
    }

    /// The last list of names becomes a fixity.
    pub(crate) fn fixity(&mut self, place: Place, fix: Fix, level: u8) -> Result<bool, Memory>
        ensures { IfOk result (λ taken. Stepped taken (of_fixity self.old place fix level self.old.heads.lists) self.new) }
    {
        match self.heads.lists.pop() {
            Some(names) => {
                self.decls.push(Decl::Fixity(place, fix, level, names))?;
                Ok(true)
            }
            None => Ok(false),
        }
    }

    /// All constructors become a data type, with the last list of names as its parameters.
    pub(crate) fn data_type(&mut self, alloc: Global, place: Place) -> Result<bool, Memory>
        ensures { IfOk result (λ taken. Stepped taken (of_data self.old place self.old.heads self.old.members self.old.heads.names self.old.heads.lists) self.new) }
    {
        match (self.heads.names.pop(), self.heads.lists.pop()) {
            (Some(name), Some(params)) => {
                let cons = self.members.cons.take_all(alloc);
                self.decls.push(Decl::Data(place, name, params, cons))?;
                Ok(true)
            }
            _ => Ok(false),
        }
    }

    /// All constructors become a bitdata type, with the last number as its width.
    pub(crate) fn bitdata(&mut self, alloc: Global, place: Place) -> Result<bool, Memory>
        ensures { IfOk result (λ taken. Stepped taken (of_bitdata self.old place self.old.heads self.old.members self.old.heads.names self.old.heads.numbers) self.new) }
    {
        match (self.heads.names.pop(), self.heads.numbers.pop()) {
            (Some(name), Some(width)) => {
                let cons = self.members.bit_cons.take_all(alloc);
                self.decls.push(Decl::Bitdata(place, name, width, cons))?;
                Ok(true)
            }
            _ => Ok(false),
        }
    }

    /// All parts become a struct, with the last number as its size.
    pub(crate) fn struct_type(&mut self, alloc: Global, place: Place) -> Result<bool, Memory>
        ensures { IfOk result (λ taken. Stepped taken (of_struct self.old place self.old.heads self.old.members self.old.heads.names self.old.heads.numbers) self.new) }
    {
        match (self.heads.names.pop(), self.heads.numbers.pop()) {
            (Some(name), Some(bytes)) => {
                let parts = self.members.struct_parts.take_all(alloc);
                self.decls.push(Decl::Struct(place, name, bytes, parts))?;
                Ok(true)
            }
            _ => Ok(false),
        }
    }

    /// The last name and type, initialiser and number become an area.
    pub(crate) fn area(&mut self, place: Place) -> Result<bool, Memory>
        ensures { IfOk result (λ taken. Stepped taken (of_area self.old place self.old.heads.names self.old.types.types) self.new) }
    {
        match (self.heads.names.pop(), self.types.types.pop()) {
            (Some(name), Some(of)) => self.area_of(place, name, of),
            _ => Ok(false),
        }
    }

    /// The last initialiser and the last number become an area with this name and type.
    fn area_of(&mut self, place: Place, name: NameAt, of: TypeExpr) -> Result<bool, Memory>
        ensures { IfOk result (λ taken. Stepped taken (area_of self.old place name of self.old.heads self.old.starts.given self.old.heads.numbers) self.new) }
    {
        match (self.starts.given.pop(), self.heads.numbers.pop()) {
            (Some(init), Some(align)) => {
                self.decls.push(Decl::Area(place, name, init, of, align))?;
                Ok(true)
            }
            _ => Ok(false),
        }
    }

    /// The last name and type become a port.
    pub(crate) fn port(
        &mut self,
        place: Place,
        dir: Dir,
        width: u32,
        value: u128,
    ) -> Result<bool, Memory>
        ensures { IfOk result (λ taken. Stepped taken (of_port self.old place dir width value self.old.heads.names self.old.types.types) self.new) }
    {
        match (self.heads.names.pop(), self.types.types.pop()) {
            (Some(name), Some(of)) => {
                self.decls
                    .push(Decl::Port(place, name, dir, of, width, value))?;
                Ok(true)
            }
            _ => Ok(false),
        }
    }

    /// All dependencies and all signatures become a class.
    pub(crate) fn class(&mut self, alloc: Global, place: Place) -> Result<bool, Memory>
        ensures { IfOk result (λ taken. Stepped taken (of_class self.old place self.old.heads self.old.members self.old.heads.supers self.old.heads.names self.old.heads.lists) self.new) }
    {
        match (
            self.heads.supers.take(),
            self.heads.names.pop(),
            self.heads.lists.pop(),
        ) {
            (Some(context), Some(name), Some(params)) => {
                let depends = self.members.depends.take_all(alloc);
                let sigs = self.members.sigs.take_all(alloc);
                self.decls
                    .push(Decl::Class(place, context, name, params, depends, sigs))?;
                Ok(true)
            }
            _ => Ok(false),
        }
    }

    /// The last list of types, the context and all definitions become an instance.
    pub(crate) fn instance(&mut self, alloc: Global, place: Place) -> Result<bool, Memory>
        ensures { IfOk result (λ taken. Stepped taken (of_instance self.old place self.old.heads self.old.types.context self.old.heads.names self.old.heads.types) self.new) }
    {
        match (
            self.types.context.take(),
            self.heads.names.pop(),
            self.heads.types.pop(),
        ) {
            (Some(context), Some(name), Some(args)) => {
                let rows = self.exprs.binds.take_all(alloc);
                self.decls
                    .push(Decl::Instance(place, name, args, context, rows))?;
                Ok(true)
            }
            _ => Ok(false),
        }
    }

    /// All declarations, which must be so many, are a program.
    pub(crate) fn program(&mut self, alloc: Global, count: usize) -> Result<bool, Memory>
        ensures { IfOk result (λ taken. Stepped taken (of_program self.old count) self.new) }
    {
        if count != self.decls.len() {
            return Ok(false);
        }
        let decls = self.decls.take_all(alloc);
        self.whole = Some(Program { decls });
        Ok(true)
    }
}
