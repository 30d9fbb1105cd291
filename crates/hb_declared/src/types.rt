use crate::form::{
    BitField, BitPart, Constructor, ConstructorForm, DeclaredType, StructField, StructPart,
};
use crate::writer::Writer;
use hb_base::{List, Memory};
use hb_tree::{BitCon, DataCon, FieldDecl, NameAt};

/// The type to which a constructor belongs: its number among the declared ones, that among type constructors, and its parameters; and
/// the place of the constructor in it.
#[derive(Clone, Copy)]
pub struct Owner<'a> {
    pub of: u32,
    pub tycon: u32,
    pub params: &'a [NameAt],
}

/// The type from these arguments to the type of the owner.
fn whole(writer: &mut Writer, owner: Owner, args: &[usize]) -> Result<usize, Memory> {
    let parameters = u32::try_from(owner.params.len()).unwrap_or(0);
    let mut to = writer.at_variables(owner.tycon, parameters)?;
    for from in args.iter().rev() {
        to = writer.arrow(*from, to)?;
    }
    Ok(to)
}

/// A constructor of a data type.
pub fn data_con(
    writer: &mut Writer,
    owner: Owner,
    index: u32,
    con: &DataCon,
) -> Result<Constructor, Memory> {
    writer.begin();
    writer.bind_all(owner.params)?;
    let args = writer.type_exprs(con.args.as_slice())?;
    let body = whole(writer, owner, args.as_slice())?;
    let asks = List::of(Vec::new(writer.alloc));
    Ok(Constructor {
        name: con.name,
        of: owner.of,
        index,
        scheme: writer.scheme(asks, body),
        form: ConstructorForm::Data(args),
    })
}

fn put_fields(
    writer: &mut Writer,
    fields: &FieldDecl,
    parts: &mut List<BitPart>,
) -> Result<(), Memory> {
    let of = writer.type_expr(&fields.of)?;
    for name in fields.names.as_slice() {
        parts.push(BitPart::Field(BitField {
            name: *name,
            type_place: fields.of.place,
            of,
        }))?;
    }
    Ok(())
}

/// A constructor of a bitdata type.
pub fn bit_con(
    writer: &mut Writer,
    owner: Owner,
    index: u32,
    con: &BitCon,
) -> Result<Constructor, Memory> {
    writer.begin();
    let mut parts = List::of(Vec::new(writer.alloc));
    for part in con.parts.as_slice() {
        match part {
            hb_tree::BitPart::Tag(width, value) => parts.push(BitPart::Tag(*width, *value))?,
            hb_tree::BitPart::Fields(fields) => put_fields(writer, fields, &mut parts)?,
        }
    }
    let body = whole(writer, owner, &[])?;
    let asks = List::of(Vec::new(writer.alloc));
    Ok(Constructor {
        name: con.name,
        of: owner.of,
        index,
        scheme: writer.scheme(asks, body),
        form: ConstructorForm::Bits(parts),
    })
}

fn put_struct_fields(
    writer: &mut Writer,
    fields: &FieldDecl,
    parts: &mut List<StructPart>,
) -> Result<(), Memory> {
    let of = writer.type_expr(&fields.of)?;
    for name in fields.names.as_slice() {
        parts.push(StructPart::Field(StructField {
            name: *name,
            type_place: fields.of.place,
            of,
        }))?;
    }
    Ok(())
}

/// The parts of a struct, whose types stand in the table of the type.
pub fn struct_parts(
    writer: &mut Writer,
    of: &mut DeclaredType,
    all: &[hb_tree::StructPart],
) -> Result<(), Memory> {
    writer.begin();
    for part in all {
        match part {
            hb_tree::StructPart::Pad(count) => of.parts.push(StructPart::Pad(*count))?,
            hb_tree::StructPart::Fields(fields) => {
                put_struct_fields(writer, fields, &mut of.parts)?;
            }
        }
    }
    of.types = writer.end();
    Ok(())
}
