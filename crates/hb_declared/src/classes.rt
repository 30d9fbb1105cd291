use crate::form::{Ask, Class, Depends, Instance, Scheme};
use crate::numbers::FIRST_CLASS;
use crate::writer::Writer;
use hb_base::{List, Memory, Name, Place};
use hb_tree::{Bind, Depend, NameAt, PredExpr, Sig, TypeExpr};

/// The places of some names among parameters; names that are none are left out.
fn places(writer: &Writer, params: &[NameAt], names: &[NameAt]) -> Result<List<u32>, Memory> {
    let mut found = List::of(Vec::new(writer.alloc));
    for at in names {
        if let Some(place) = params.iter().position(|param| param.name == at.name) {
            if let Ok(place) = u32::try_from(place) {
                found.push(place)?;
            }
        }
    }
    Ok(found)
}

fn dependencies(
    writer: &Writer,
    params: &[NameAt],
    all: &[Depend],
) -> Result<List<Depends>, Memory> {
    let mut found = List::of(Vec::new(writer.alloc));
    for depend in all {
        found.push(Depends {
            from: places(writer, params, depend.from.as_slice())?,
            to: places(writer, params, depend.to.as_slice())?,
        })?;
    }
    Ok(found)
}

/// The head and the context of a class.
#[derive(Clone, Copy)]
pub struct ClassHead<'a> {
    pub place: Place,
    pub context: &'a [PredExpr],
    pub name: NameAt,
    pub params: &'a [NameAt],
    pub depends: &'a [Depend],
}

/// A class whose methods are so many from the first on.
pub fn class(
    writer: &mut Writer,
    head: &ClassHead,
    first: u32,
    count: u32,
) -> Result<Class, Memory> {
    writer.begin();
    writer.bind_all(head.params)?;
    let parameters = writer.count();
    writer.bind_preds(head.context)?;
    let context = writer.context(head.context)?;
    let depends = dependencies(writer, head.params, head.depends)?;
    Ok(Class {
        name: head.name,
        place: head.place,
        parameters,
        types: writer.end(),
        context,
        depends,
        first,
        count,
    })
}

/// What a method asks for first: its class at the class's parameters.
fn own_class(writer: &mut Writer, class: u32, params: &[NameAt]) -> Result<List<Ask>, Memory> {
    let mut args = List::of(Vec::new(writer.alloc));
    for number in 0..u32::try_from(params.len()).unwrap_or(0) {
        let place = writer.variable_at(number)?;
        args.push(place)?;
    }
    let mut asks = List::of(Vec::new(writer.alloc));
    asks.push(Ask {
        class: FIRST_CLASS.saturating_add(class),
        args,
    })?;
    Ok(asks)
}

/// The scheme of the methods of a signature, in a class with this number and these parameters.
pub fn method_scheme(
    writer: &mut Writer,
    class: u32,
    params: &[NameAt],
    sig: &Sig,
) -> Result<Scheme, Memory> {
    writer.begin();
    writer.bind_all(params)?;
    writer.bind_preds(sig.context.as_slice())?;
    writer.bind_type(&sig.body)?;
    let mut asks = own_class(writer, class, params)?;
    writer.put_context(sig.context.as_slice(), &mut asks)?;
    let body = writer.type_expr(&sig.body)?;
    writer.put_sums(&mut asks)?;
    Ok(writer.scheme(asks, body))
}

/// An instance as it is written.
#[derive(Clone, Copy)]
pub struct InstanceHead<'a> {
    pub place: Place,
    pub decl: u32,
    pub class: u32,
    pub args: &'a [TypeExpr],
    pub context: &'a [PredExpr],
}

/// An instance of a class whose methods have these names, with its definitions.
pub fn instance(
    writer: &mut Writer,
    head: &InstanceHead,
    methods: &[Name],
    binds: &[Bind],
) -> Result<Instance, Memory> {
    writer.begin();
    writer.bind_types(head.args)?;
    writer.bind_preds(head.context)?;
    let args = writer.type_exprs(head.args)?;
    let context = writer.context(head.context)?;
    let variables = writer.count();
    Ok(Instance {
        place: head.place,
        decl: head.decl,
        class: head.class,
        variables,
        types: writer.end(),
        head: args,
        context,
        equations: equations(writer, methods, binds)?,
    })
}

/// For each name which of the definitions is of it.
fn equations(
    writer: &Writer,
    methods: &[Name],
    binds: &[Bind],
) -> Result<List<Option<u32>>, Memory> {
    let mut found = List::of(Vec::new(writer.alloc));
    for name in methods {
        found.push(definition_of(*name, binds))?;
    }
    Ok(found)
}

fn definition_of(name: Name, binds: &[Bind]) -> Option<u32> {
    let place = binds.iter().position(|bind| bind.name == name)?;
    u32::try_from(place).ok()
}
