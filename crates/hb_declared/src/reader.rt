use crate::classes::{ClassHead, InstanceHead, class, instance, method_scheme};
use crate::form::{
    Area, Constructor, Declared, DeclaredType, Definition, Method, Port, Scheme, Top, TypeForm,
};
use crate::items::{closed, signature};
use crate::numbers::{FIRST_CLASS, FIRST_TYPE, NameNumbers, Numbers, next};
use crate::types::{Owner, bit_con, data_con, struct_parts};
use crate::writer::Writer;
use hb_base::{List, Memory, Name, Place};
use hb_resolved::Resolved;
use hb_tree::{BitCon, DataCon, Decl, NameAt, Sig};
use hb_types::Types;
use std::alloc::Global;

/// The number of the items of a list. No list here is longer than the source.
pub(crate) fn count<T>(items: &List<T>) -> u32 {
    u32::try_from(items.len()).unwrap_or(u32::MAX)
}

/// Reads declarations. `signed` has for each name that a signature of the top has the number of its scheme.
#[derive(Drop)]
pub(crate) struct Reader {
    pub(crate) alloc: Global,
    pub(crate) writer: Writer,
    pub(crate) found: Declared,
    pub(crate) signed: NameNumbers,
}

fn nothing(alloc: Global) -> Declared {
    Declared {
        schemes: List::of(Vec::new(alloc)),
        types: List::of(Vec::new(alloc)),
        constructors: List::of(Vec::new(alloc)),
        classes: List::of(Vec::new(alloc)),
        methods: List::of(Vec::new(alloc)),
        instances: List::of(Vec::new(alloc)),
        definitions: List::of(Vec::new(alloc)),
        areas: List::of(Vec::new(alloc)),
        ports: List::of(Vec::new(alloc)),
        tops: List::of(Vec::new(alloc)),
    }
}

/// A declared type as its declaration begins.
#[derive(Clone, Copy)]
struct TypeHead<'a> {
    place: Place,
    name: NameAt,
    decl: u32,
    form: TypeForm,
    params: &'a [NameAt],
    number: Option<u64>,
}

impl Reader {
    fn new(alloc: Global, names: u32, decls: &[Decl]) -> Result<Reader, Memory> {
        let numbers = Numbers::of(alloc, names, decls)?;
        Ok(Reader {
            alloc,
            writer: Writer::new(alloc, names, numbers)?,
            found: nothing(alloc),
            signed: NameNumbers::new(alloc, names)?,
        })
    }

    /// Puts a type whose constructors are still to come.
    fn declared_type(&self, head: &TypeHead) -> DeclaredType {
        DeclaredType {
            name: head.name,
            place: head.place,
            decl: head.decl,
            form: head.form,
            parameters: u32::try_from(head.params.len()).unwrap_or(0),
            number: head.number,
            first: count(&self.found.constructors),
            count: 0,
            types: Types::new(self.alloc),
            parts: List::of(Vec::new(self.alloc)),
        }
    }

    fn owner<'a>(&self, params: &'a [NameAt]) -> Owner<'a> {
        let of = count(&self.found.types);
        Owner {
            of,
            tycon: FIRST_TYPE.saturating_add(of),
            params,
        }
    }

    fn data(&mut self, head: &TypeHead, cons: &[DataCon]) -> Result<(), Memory> {
        let mut of = self.declared_type(head);
        let owner = self.owner(head.params);
        for con in cons {
            let made = data_con(&mut self.writer, owner, of.count, con)?;
            self.found.constructors.push(made)?;
            of.count = next(of.count);
        }
        self.found.types.push(of)?;
        Ok(())
    }

    fn bitdata(&mut self, head: &TypeHead, cons: &[BitCon]) -> Result<(), Memory> {
        let mut of = self.declared_type(head);
        let owner = self.owner(head.params);
        for con in cons {
            let made = bit_con(&mut self.writer, owner, of.count, con)?;
            self.found.constructors.push(made)?;
            of.count = next(of.count);
        }
        self.found.types.push(of)?;
        Ok(())
    }

    fn record(&mut self, head: &TypeHead, parts: &[hb_tree::StructPart]) -> Result<(), Memory> {
        let mut of = self.declared_type(head);
        struct_parts(&mut self.writer, &mut of, parts)?;
        self.found.types.push(of)?;
        Ok(())
    }

    /// Puts a scheme, and answers its number.
    fn scheme(&mut self, scheme: Scheme) -> Result<u32, Memory> {
        let number = count(&self.found.schemes);
        self.found.schemes.push(scheme)?;
        Ok(number)
    }

    fn methods(&mut self, params: &[NameAt], sigs: &[Sig]) -> Result<u32, Memory> {
        let class = count(&self.found.classes);
        let mut index = 0;
        for sig in sigs {
            let scheme = method_scheme(&mut self.writer, class, params, sig)?;
            let scheme = self.scheme(scheme)?;
            for name in sig.names.as_slice() {
                self.found.methods.push(Method {
                    name: *name,
                    class,
                    index,
                    scheme,
                })?;
                index = next(index);
            }
        }
        Ok(index)
    }

    fn class(&mut self, head: &ClassHead, sigs: &[Sig]) -> Result<(), Memory> {
        let first = count(&self.found.methods);
        let methods = self.methods(head.params, sigs)?;
        let class = class(&mut self.writer, head, first, methods)?;
        self.found.classes.push(class)?;
        Ok(())
    }

    fn sig(&mut self, sig: &Sig) -> Result<(), Memory> {
        let scheme = signature(&mut self.writer, sig.context.as_slice(), &sig.body)?;
        let number = self.scheme(scheme)?;
        for name in sig.names.as_slice() {
            self.signed.set(name.name, Some(number));
        }
        Ok(())
    }

    /// Types, classes and signatures.
    fn first(&mut self, number: u32, decl: &Decl) -> Result<(), Memory> {
        match decl {
            Decl::Sig(sig) => self.sig(sig),
            Decl::Data(place, name, params, cons) => {
                let head = head(
                    *place,
                    *name,
                    number,
                    TypeForm::Data,
                    params.as_slice(),
                    None,
                );
                self.data(&head, cons.as_slice())
            }
            Decl::Bitdata(place, name, width, cons) => {
                let head = head(*place, *name, number, TypeForm::Bitdata, &[], *width);
                self.bitdata(&head, cons.as_slice())
            }
            Decl::Struct(place, name, size, parts) => {
                let head = head(*place, *name, number, TypeForm::Struct, &[], *size);
                self.record(&head, parts.as_slice())
            }
            Decl::Class(place, context, name, params, depends, sigs) => {
                let head = ClassHead {
                    place: *place,
                    context: context.as_slice(),
                    name: *name,
                    params: params.as_slice(),
                    depends: depends.as_slice(),
                };
                self.class(&head, sigs.as_slice())
            }
            _ => Ok(()),
        }
    }

    /// The names of the methods of a class.
    fn method_names(&self, class: u32) -> Result<Vec<Name>, Memory> {
        let mut names = Vec::new(self.alloc);
        if let Some(of) = self.found.classes.as_slice().get(class as usize) {
            let methods = self.found.methods.as_slice();
            for number in of.first..of.first.saturating_add(of.count) {
                if let Some(method) = methods.get(number as usize) {
                    names.push(method.name.name)?;
                }
            }
        }
        Ok(names)
    }

    fn definition(&mut self, name: Name, decl: u32) -> Result<Top, Memory> {
        let number = count(&self.found.definitions);
        let scheme = self.signed.of(name).unwrap_or(u32::MAX);
        self.found
            .definitions
            .push(Definition { name, decl, scheme })?;
        Ok(Top::Definition(number))
    }

    fn class_of(&self, name: Name) -> u32 {
        match self.writer.numbers.classes.of(name) {
            Some(number) => number.saturating_sub(FIRST_CLASS),
            None => u32::MAX,
        }
    }

    /// Definitions, instances, areas and ports.
    fn second(&mut self, number: u32, decl: &Decl) -> Result<Top, Memory> {
        match decl {
            Decl::Equation(bind) => self.definition(bind.name, number),
            Decl::Instance(place, name, args, context, binds) => {
                let head = InstanceHead {
                    place: *place,
                    decl: number,
                    class: self.class_of(name.name),
                    args: args.as_slice(),
                    context: context.as_slice(),
                };
                let names = self.method_names(head.class)?;
                let made = instance(&mut self.writer, &head, &names, binds.as_slice())?;
                self.found.instances.push(made)?;
                Ok(Top::None)
            }
            Decl::Area(..) => self.area(number, decl),
            Decl::Port(..) => self.port(decl),
            _ => Ok(Top::None),
        }
    }

    fn area(&mut self, number: u32, decl: &Decl) -> Result<Top, Memory> {
        if let Decl::Area(place, name, _, of, aligned) = decl {
            let area = count(&self.found.areas);
            let made = Area {
                name: *name,
                place: *place,
                decl: number,
                of: closed(&mut self.writer, of)?,
                type_place: of.place,
                aligned: *aligned,
            };
            self.found.areas.push(made)?;
            return Ok(Top::Area(area));
        }
        Ok(Top::None)
    }

    fn port(&mut self, decl: &Decl) -> Result<Top, Memory> {
        if let Decl::Port(place, name, dir, of, width, address) = decl {
            let port = count(&self.found.ports);
            let made = Port {
                name: *name,
                place: *place,
                dir: *dir,
                of: closed(&mut self.writer, of)?,
                width: *width,
                address: *address,
            };
            self.found.ports.push(made)?;
            return Ok(Top::Port(port));
        }
        Ok(Top::None)
    }

    fn program(&mut self, decls: &[Decl]) -> Result<(), Memory> {
        for (number, decl) in decls.iter().enumerate() {
            self.first(u32::try_from(number).unwrap_or(u32::MAX), decl)?;
        }
        for (number, decl) in decls.iter().enumerate() {
            let top = self.second(u32::try_from(number).unwrap_or(u32::MAX), decl)?;
            self.found.tops.push(top)?;
        }
        Ok(())
    }
}

fn head<'a>(
    place: Place,
    name: NameAt,
    decl: u32,
    form: TypeForm,
    params: &'a [NameAt],
    number: Option<u64>,
) -> TypeHead<'a> {
    TypeHead {
        place,
        name,
        decl,
        form,
        params,
        number,
    }
}

/// What a resolved program declares.
pub fn declared(alloc: Global, tree: &Resolved) -> Result<Declared, Memory> {
    let decls = tree.program.decls.as_slice();
    let mut reader = Reader::new(alloc, tree.names.count(), decls)?;
    reader.program(decls)?;
    let Reader { found, .. } = reader;
    Ok(found)
}
