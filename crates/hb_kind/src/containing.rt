use hb_base::{Memory, Name, Place};
use hb_tree::{BitCon, BitPart, DataCon, Decl, StructPart, TypeExpr, TypeKind};
use std::alloc::Global;

/// The name `Ref`.
const REF: Name = Name(14);

/// A declared type: where it is declared, its name, whether it is a struct, and how many mentions there are up to it.
#[derive(Clone, Copy, Debug)]
pub struct Container {
    pub place: Place,
    pub name: Name,
    pub is_struct: bool,
    pub end: usize,
}

/// A name in the declaration of a type, and whether it stands somewhere below a `Ref`.
#[derive(Clone, Copy, Debug)]
pub struct Mention {
    pub name: Name,
    pub under_ref: bool,
}

/// The declared types in text order, and what their declarations mention, one behind the other.
#[derive(Drop)]
pub struct Containers {
    pub types: Vec<Container>,
    pub mentions: Vec<Mention>,
}

fn is_ref(t: &TypeExpr) -> bool {
    matches!(t.kind, TypeKind::Con(name) if name.0 == REF.0)
}

impl Containers {
    fn mention(&mut self, under_ref: bool, t: &TypeExpr) -> Result<(), Memory> {
        match &t.kind {
            TypeKind::Con(name) => {
                self.mentions.push(Mention {
                    name: *name,
                    under_ref,
                })?;
                Ok(())
            }
            TypeKind::Var(_) | TypeKind::Number(_) | TypeKind::Unit => Ok(()),
            TypeKind::Apply(f, x) => {
                self.mention(under_ref, f)?;
                self.mention(under_ref || is_ref(f), x)
            }
            TypeKind::Pair(a, b) | TypeKind::Arrow(a, b) | TypeKind::Sum(a, b) => {
                self.mention(under_ref, a)?;
                self.mention(under_ref, b)
            }
        }
    }

    fn data(&mut self, cons: &[DataCon]) -> Result<(), Memory> {
        for con in cons {
            for t in con.args.as_slice() {
                self.mention(false, t)?;
            }
        }
        Ok(())
    }

    fn bitdata(&mut self, cons: &[BitCon]) -> Result<(), Memory> {
        for con in cons {
            for part in con.parts.as_slice() {
                if let BitPart::Fields(fields) = part {
                    self.mention(false, &fields.of)?;
                }
            }
        }
        Ok(())
    }

    fn fields(&mut self, parts: &[StructPart]) -> Result<(), Memory> {
        for part in parts {
            if let StructPart::Fields(fields) = part {
                self.mention(false, &fields.of)?;
            }
        }
        Ok(())
    }

    fn close(&mut self, place: Place, name: Name, is_struct: bool) -> Result<(), Memory> {
        let end = self.mentions.len();
        self.types.push(Container {
            place,
            name,
            is_struct,
            end,
        })?;
        Ok(())
    }

    fn put(&mut self, decl: &Decl) -> Result<(), Memory> {
        match decl {
            Decl::Data(place, name, _, cons) => {
                self.data(cons.as_slice())?;
                self.close(*place, name.name, false)
            }
            Decl::Bitdata(place, name, _, cons) => {
                self.bitdata(cons.as_slice())?;
                self.close(*place, name.name, false)
            }
            Decl::Struct(place, name, _, parts) => {
                self.fields(parts.as_slice())?;
                self.close(*place, name.name, true)
            }
            _ => Ok(()),
        }
    }
}

/// What the declared types of a program mention.
pub fn containers_of(alloc: Global, decls: &[Decl]) -> Result<Containers, Memory> {
    let mut all = Containers {
        types: Vec::new(alloc),
        mentions: Vec::new(alloc),
    };
    for decl in decls {
        all.put(decl)?;
    }
    Ok(all)
}
