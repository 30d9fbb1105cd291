use crate::form::Scheme;
use crate::writer::Writer;
use hb_base::{List, Memory};
use hb_tree::{PredExpr, TypeExpr};

/// The type of a signature.
pub fn signature(
    writer: &mut Writer,
    context: &[PredExpr],
    body: &TypeExpr,
) -> Result<Scheme, Memory> {
    writer.begin();
    writer.bind_preds(context)?;
    writer.bind_type(body)?;
    let mut asks = writer.context(context)?;
    let body = writer.type_expr(body)?;
    writer.put_sums(&mut asks)?;
    Ok(writer.scheme(asks, body))
}

/// A type without variables.
pub fn closed(writer: &mut Writer, of: &TypeExpr) -> Result<Scheme, Memory> {
    writer.begin();
    let body = writer.type_expr(of)?;
    let asks = List::of(Vec::new(writer.alloc));
    Ok(writer.scheme(asks, body))
}
