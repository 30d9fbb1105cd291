//! Where each label stands.

use hb_base::Memory;
use hb_labelled::Part;
use std::alloc::Global;

/// Where code starts.
pub const CODE_BASE: u32 = 0x0001_0000;

/// So many labels there are beside those of the parts.
const MORE_LABELS: usize = 16;

/// The addresses of labels, by their numbers.
#[derive(Drop)]
pub struct Addresses {
    known: Vec<Option<u32>>,
}

/// The bytes of a part's code.
pub fn size_of(part: &Part) -> u32 {
    match part {
        Part::Instr(_) => 4,
        Part::Label(_) => 0,
        Part::Goto(_) | Part::Call(_) => 8,
        Part::Branch(_, _, _, _) => 12,
    }
}

impl Addresses {
    /// The addresses of the labels among these parts, where the code of the first part stands at the base. A label
    /// has a number below that of the parts and 16 more, and stands once: the last place counts.
    pub fn of(alloc: Global, parts: &[Part]) -> Result<Addresses, Memory> {
        let labels = parts.len().saturating_add(MORE_LABELS);
        let mut addresses = Addresses {
            known: vec![in alloc; None; labels]?,
        };
        let mut here = CODE_BASE;
        for part in parts {
            addresses.note(part, here);
            here = here.wrapping_add(size_of(part));
        }
        Ok(addresses)
    }

    /// Keeps the address of a part that is a label.
    fn note(&mut self, part: &Part, here: u32) {
        if let Part::Label(label) = part {
            if let Some(address) = self.known.get_mut(*label as usize) {
                *address = Some(here);
            }
        }
    }

    /// The address of a label. An unknown one stands at address 0, where there is no code.
    pub fn of_label(&self, label: u32) -> u32 {
        match self.known.get(label as usize) {
            Some(Some(address)) => *address,
            _ => 0,
        }
    }
}
