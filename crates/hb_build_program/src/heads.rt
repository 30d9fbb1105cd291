ghost use Rattle.std.specs.Prelude.{◌≡◌, [], Some, None, IfOk};
ghost use Rattle.hb_build.specs.Building.{Stepped};
ghost use Rattle.hb_build_expressions.specs.Taking.{off, two_off};
ghost use Rattle.hb_build_program.specs.MemberSteps.{with_name, of_names, with_number};
ghost use Rattle.hb_build_program.specs.DeclarationSteps.{in_heads, of_types, with_method, of_sig, of_depend, of_depends};

use crate::builder::DeclBuilder;
use hb_base::{Memory, Name, Place};
use hb_build_expressions::{pop_two, take_off};
use hb_tree::{Decl, Depend, NameAt, Sig};
use std::alloc::Global;

impl DeclBuilder {
    /// A name where it is written.
    pub(crate) fn name(&mut self, place: Place, name: Name) -> Result<bool, Memory>
        ensures { IfOk result (λ taken. Stepped taken (in_heads self.old (Some (with_name self.old.heads place name))) self.new) }
    {
        self.heads.names.push(NameAt { place, name })?;
        Ok(true)
    }

    /// The last names, so many, become a list.
    pub(crate) fn names(&mut self, alloc: Global, count: usize) -> Result<bool, Memory>
        ensures { IfOk result (λ taken. Stepped taken (in_heads self.old (of_names self.old.heads (off count self.old.heads.names []))) self.new) }
    {
        match take_off(&mut self.heads.names, alloc, count)? {
            Some(names) => {
                self.heads.lists.push(names)?;
                Ok(true)
            }
            None => Ok(false),
        }
    }

    /// A number, or that it is left out.
    pub(crate) fn number(&mut self, value: Option<u64>) -> Result<bool, Memory>
        ensures { IfOk result (λ taken. Stepped taken (in_heads self.old (Some (with_number self.old.heads value))) self.new) }
    {
        self.heads.numbers.push(value)?;
        Ok(true)
    }

    /// All types, which must be so many, become a list.
    pub(crate) fn type_list(&mut self, alloc: Global, count: usize) -> Result<bool, Memory>
        ensures { IfOk result (λ taken. Stepped taken (of_types self.old count self.old.types self.old.heads) self.new) }
    {
        if count != self.types.types.len() {
            return Ok(false);
        }
        let types = self.types.types.take_all(alloc);
        self.heads.types.push(types)?;
        Ok(true)
    }

    /// The last list of names, the context and the last type become a signature.
    pub(crate) fn sig(&mut self, place: Place) -> Result<bool, Memory>
        ensures { IfOk result (λ taken. Stepped taken (of_sig self.old place self.old.heads.lists self.old.types.context self.old.types.types) self.new) }
    {
        match (
            self.heads.lists.pop(),
            self.types.context.take(),
            self.types.types.pop(),
        ) {
            (Some(names), Some(context), Some(body)) => self.method(Sig {
                place,
                names,
                context,
                body,
            }),
            _ => Ok(false),
        }
    }

    /// A signature behind the head of a class is one of its methods; any other is a declaration.
    fn method(&mut self, sig: Sig) -> Result<bool, Memory>
        ensures { IfOk result (λ taken. Stepped taken (with_method self.old self.old.heads.supers sig) self.new) }
    {
        if self.heads.supers.is_some() {
            self.members.sigs.push(sig)?;
        } else {
            self.decls.push(Decl::Sig(sig))?;
        }
        Ok(true)
    }

    /// The last two lists of names become a dependency.
    pub(crate) fn depend(&mut self) -> Result<bool, Memory>
        ensures { IfOk result (λ taken. Stepped taken (of_depend self.old (two_off self.old.heads.lists)) self.new) }
    {
        match pop_two(&mut self.heads.lists) {
            Some((from, to)) => {
                self.members.depends.push(Depend { from, to })?;
                Ok(true)
            }
            None => Ok(false),
        }
    }

    /// All dependencies, which must be so many, end the head of a class, whose context makes room for those of its
    /// signatures.
    pub(crate) fn end_depends(&mut self, count: usize) -> Result<bool, Memory>
        ensures { IfOk result (λ taken. Stepped taken (of_depends self.old count self.old.types self.old.heads) self.new) }
    {
        if count != self.members.depends.len() {
            return Ok(false);
        }
        self.heads.supers = self.types.context.take();
        Ok(true)
    }
}
