ghost use Rattle.std.specs.Prelude.{◌≡◌, [], Some, None, IfOk};
ghost use Rattle.hb_build.specs.Building.{Stepped};
ghost use Rattle.hb_build_expressions.specs.Taking.{off};
ghost use Rattle.hb_build_program.specs.MemberSteps.{with_tag, of_bit_fields, with_pad, of_struct_fields};
ghost use Rattle.hb_build_program.specs.DeclarationSteps.{in_members, of_data_con, of_fields, of_bit_con};

use crate::builder::DeclBuilder;
use hb_base::Memory;
use hb_build_expressions::take_off;
use hb_tree::{BitCon, BitPart, DataCon, FieldDecl, StructPart};
use std::alloc::Global;

impl DeclBuilder {
    /// The last name and the last list of types become a constructor.
    pub(crate) fn data_con(&mut self) -> Result<bool, Memory>
        ensures { IfOk result (λ taken. Stepped taken (of_data_con self.old self.old.heads self.old.heads.names self.old.heads.types) self.new) }
    {
        match (self.heads.names.pop(), self.heads.types.pop()) {
            (Some(name), Some(args)) => {
                self.members.cons.push(DataCon { name, args })?;
                Ok(true)
            }
            _ => Ok(false),
        }
    }

    /// The last list of names and the last type become fields.
    pub(crate) fn fields(&mut self) -> Result<bool, Memory>
        ensures { IfOk result (λ taken. Stepped taken (of_fields self.old self.old.heads.lists self.old.types.types) self.new) }
    {
        match (self.heads.lists.pop(), self.types.types.pop()) {
            (Some(names), Some(of)) => {
                self.members.fields.push(FieldDecl { names, of })?;
                Ok(true)
            }
            _ => Ok(false),
        }
    }

    /// Fixed bits are a part.
    pub(crate) fn tag(&mut self, width: u32, value: u128) -> Result<bool, Memory>
        ensures { IfOk result (λ taken. Stepped taken (in_members self.old (Some (with_tag self.old.members width value))) self.new) }
    {
        self.members.bit_parts.push(BitPart::Tag(width, value))?;
        Ok(true)
    }

    /// The last fields become a part of a bitdata constructor.
    pub(crate) fn bit_fields(&mut self) -> Result<bool, Memory>
        ensures { IfOk result (λ taken. Stepped taken (in_members self.old (of_bit_fields self.old.members self.old.members.fields)) self.new) }
    {
        match self.members.fields.pop() {
            Some(fields) => {
                self.members.bit_parts.push(BitPart::Fields(fields))?;
                Ok(true)
            }
            None => Ok(false),
        }
    }

    /// The last name and so many parts become a bitdata constructor.
    pub(crate) fn bit_con(&mut self, alloc: Global, count: usize) -> Result<bool, Memory>
        ensures { IfOk result (λ taken. Stepped taken (of_bit_con self.old self.old.heads.names (off count self.old.members.bit_parts [])) self.new) }
    {
        match (
            self.heads.names.pop(),
            take_off(&mut self.members.bit_parts, alloc, count)?,
        ) {
            (Some(name), Some(parts)) => {
                self.members.bit_cons.push(BitCon { name, parts })?;
                Ok(true)
            }
            _ => Ok(false),
        }
    }

    /// Bytes without a name are a part.
    pub(crate) fn pad(&mut self, bytes: u64) -> Result<bool, Memory>
        ensures { IfOk result (λ taken. Stepped taken (in_members self.old (Some (with_pad self.old.members bytes))) self.new) }
    {
        self.members.struct_parts.push(StructPart::Pad(bytes))?;
        Ok(true)
    }

    /// The last fields become a part of a struct.
    pub(crate) fn struct_fields(&mut self) -> Result<bool, Memory>
        ensures { IfOk result (λ taken. Stepped taken (in_members self.old (of_struct_fields self.old.members self.old.members.fields)) self.new) }
    {
        match self.members.fields.pop() {
            Some(fields) => {
                self.members.struct_parts.push(StructPart::Fields(fields))?;
                Ok(true)
            }
            None => Ok(false),
        }
    }
}
