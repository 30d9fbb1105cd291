use crate::description::{bit_form, needed};
use crate::order::dependency_order;
use hb_base::{Fault, Memory, Place};
use hb_bitdata::BitLayout;
use hb_declared::{Declared, DeclaredType, TypeForm};
use std::alloc::Global;

/// The layouts of the declared types by their numbers: none for a type that is no bitdata type, or whose widths break the rules; and
/// the first place where they do.
#[derive(Drop)]
pub struct Layouts {
    pub of: Vec<Option<BitLayout>>,
    pub fault: Option<Place>,
}

/// Which of two places comes first in the text.
fn is_earlier(a: Place, b: Place) -> bool {
    a.line < b.line || (a.line == b.line && a.col < b.col)
}

impl Layouts {
    /// The layout of a declared type.
    pub fn layout(&self, number: usize) -> Option<&BitLayout> {
        self.of.get(number)?.as_ref()
    }

    /// The width of a declared type.
    pub fn width(&self, number: usize) -> Option<u64> {
        let layout = self.layout(number)?;
        Some(layout.width as u64)
    }

    fn put_fault(&mut self, place: Place) {
        match self.fault {
            Some(known) if !is_earlier(place, known) => {}
            _ => self.fault = Some(place),
        }
    }

    fn set(&mut self, number: usize, layout: BitLayout) {
        if let Some(entry) = self.of.get_mut(number) {
            *entry = Some(layout);
        }
    }

    /// Lays out a type whose fields' types are laid out.
    fn lay(&mut self, alloc: Global, declared: &Declared, number: usize) -> Result<(), Memory> {
        let Some(of) = bitdata(declared, number) else {
            return Ok(());
        };
        let form = bit_form(alloc, declared, self, of)?;
        match BitLayout::of(alloc, &form) {
            Ok(layout) => {
                self.set(number, layout);
                Ok(())
            }
            Err(Fault::Refused(refusal)) => {
                self.put_fault(refusal.place);
                Ok(())
            }
            Err(Fault::Memory) => Err(Memory),
        }
    }
}

/// The bitdata type of a number.
fn bitdata(declared: &Declared, number: usize) -> Option<&DeclaredType> {
    let of = declared.types.as_slice().get(number)?;
    if of.form == TypeForm::Bitdata {
        Some(of)
    } else {
        None
    }
}

/// The bit layouts of a program whose types do not contain themselves.
pub fn lay_out(alloc: Global, declared: &Declared) -> Result<Layouts, Memory> {
    let mut needs = Vec::new(alloc);
    let mut of = Vec::new(alloc);
    for declared_type in declared.types.as_slice() {
        let needed = needed(alloc, declared, declared_type)?;
        needs.push(needed)?;
        of.push(None)?;
    }
    let order = dependency_order(alloc, &needs)?;
    let mut layouts = Layouts { of, fault: None };
    for number in &order {
        layouts.lay(alloc, declared, *number)?;
    }
    Ok(layouts)
}
