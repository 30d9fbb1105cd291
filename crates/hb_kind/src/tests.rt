use crate::{KindTable, finite_data, kinds};
use hb_base::{Code, Fault, List, Memory, Name, Names, Place};
use hb_resolved::Resolved;
use hb_tree::{DataCon, Decl, FieldDecl, NameAt, PredExpr, Program, Sig, StructPart, TypeExpr};
use hb_types::{Atom, Form, Types};
use std::alloc::Global;
use std::test::Fail;

const UNSIGNED: Name = Name(8);

const BIT: Name = Name(10);

const REF: Name = Name(14);

const STORED: Name = Name(15);

const ARRAY: Name = Name(17);

const WIDTH: Name = Name(18);

const CELL: Name = Name(22);

fn at(col: u32) -> Place {
    Place { line: 1, col }
}

fn named(col: u32, name: Name) -> NameAt {
    NameAt {
        place: at(col),
        name,
    }
}

fn con(col: u32, name: Name) -> TypeExpr {
    TypeExpr::con(at(col), name)
}

fn var(col: u32, name: Name) -> TypeExpr {
    TypeExpr::var(at(col), name)
}

fn apply(alloc: Global, f: TypeExpr, x: TypeExpr) -> Result<TypeExpr, Memory> {
    let place = f.place;
    TypeExpr::apply(alloc, place, f, x)
}

fn one<T: Drop>(alloc: Global, item: T) -> Result<List<T>, Memory> {
    let mut list = List::of(Vec::new(alloc));
    list.push(item)?;
    Ok(list)
}

fn none<T: Drop>(alloc: Global) -> List<T> {
    List::of(Vec::new(alloc))
}

/// A data type with these parameters and one constructor with these arguments.
fn data(
    alloc: Global,
    col: u32,
    name: Name,
    params: List<NameAt>,
    args: List<TypeExpr>,
) -> Result<Decl, Memory> {
    let con = DataCon {
        name: named(col, name),
        args,
    };
    Ok(Decl::Data(at(col), named(col, name), params, one(alloc, con)?))
}

/// A signature of one name without a context.
fn signature(alloc: Global, context: List<PredExpr>, body: TypeExpr) -> Result<Decl, Memory> {
    Ok(Decl::Sig(Sig {
        place: at(1),
        names: one(alloc, named(1, Name(7)))?,
        context,
        body,
    }))
}

/// A struct with one field of this type.
fn structure(alloc: Global, col: u32, name: Name, of: TypeExpr) -> Result<Decl, Memory> {
    let fields = FieldDecl {
        names: one(alloc, named(col, name))?,
        of,
    };
    Ok(Decl::Struct(
        at(col),
        named(col, name),
        None,
        one(alloc, StructPart::Fields(fields))?,
    ))
}

fn resolved(alloc: Global, names: Names, decls: List<Decl>) -> Resolved {
    Resolved {
        program: Program { decls },
        targets: none(alloc),
        names,
    }
}

/// The form of the kind at a place, if it is one.
fn form_at(kinds: &Types, place: usize) -> Option<Form> {
    if place < kinds.len() {
        Some(kinds.form(place))
    } else {
        None
    }
}

/// The form of the kind of a type constructor.
fn form_of(table: &KindTable, number: u32) -> Option<Form> {
    let place = table.of(number)?;
    form_at(table.kinds(), place)
}

/// The refusal's column, where its code and detail are these.
fn refused_at<T: Drop>(answer: Result<T, Fault>, code: Code, detail: &[u8]) -> Option<u32> {
    match answer {
        Err(Fault::Refused(refusal)) => {
            if refusal.code == code && refusal.detail.as_slice() == detail {
                Some(refusal.place.col)
            } else {
                None
            }
        }
        _ => None,
    }
}

#[test]
fn built_in_types_have_their_kinds(rt: HostRuntime) -> Result<(), Fail> {
    let alloc = rt.alloc();
    let tree = resolved(alloc, Names::new(alloc)?, none(alloc));
    let table = kinds(alloc, &tree)?;
    assert!(rt; form_of(&table, 0) == Some(Form::Leaf(Atom::Con(0))));
    assert!(rt; matches!(form_of(&table, 12), Some(Form::Apply(_, _))));
    assert!(rt; form_of(&table, 13) == None);
    Ok(())
}

#[test]
fn a_parameter_that_nothing_fixes_is_a_type(rt: HostRuntime) -> Result<(), Fail> {
    let alloc = rt.alloc();
    let mut names = Names::new(alloc)?;
    let t = names.intern(b"T")?;
    let a = names.intern(b"a")?;
    let decl = data(alloc, 1, t, one(alloc, named(8, a))?, none(alloc))?;
    let tree = resolved(alloc, names, one(alloc, decl)?);
    let table = kinds(alloc, &tree)?;
    // The kind of T is an arrow applied to two kinds of types.
    match form_of(&table, 13) {
        Some(Form::Apply(half, to)) => {
            assert!(rt; form_at(table.kinds(), to) == Some(Form::Leaf(Atom::Con(0))));
            assert!(rt; matches!(form_at(table.kinds(), half), Some(Form::Apply(_, _))));
        }
        _ => assert!(rt; false),
    }
    Ok(())
}

#[test]
fn a_struct_is_no_type_of_values(rt: HostRuntime) -> Result<(), Fail> {
    let alloc = rt.alloc();
    let mut names = Names::new(alloc)?;
    let s = names.intern(b"S")?;
    let stored = apply(alloc, con(20, STORED), con(27, UNSIGNED))?;
    let mut decls = one(alloc, structure(alloc, 1, s, stored)?)?;
    decls.push(signature(alloc, none(alloc), con(40, s))?)?;
    let tree = resolved(alloc, names, decls);
    assert!(rt; refused_at(kinds(alloc, &tree), Code::E10, b"kind") == Some(40));
    Ok(())
}

#[test]
fn a_struct_may_stand_behind_ref(rt: HostRuntime) -> Result<(), Fail> {
    let alloc = rt.alloc();
    let mut names = Names::new(alloc)?;
    let s = names.intern(b"S")?;
    let stored = apply(alloc, con(20, STORED), con(27, UNSIGNED))?;
    let mut decls = one(alloc, structure(alloc, 1, s, stored)?)?;
    let reference = apply(alloc, con(40, REF), con(44, s))?;
    decls.push(signature(alloc, none(alloc), reference)?)?;
    let tree = resolved(alloc, names, decls);
    assert!(rt; kinds(alloc, &tree).is_ok());
    Ok(())
}

#[test]
fn a_type_of_values_is_no_area(rt: HostRuntime) -> Result<(), Fail> {
    let alloc = rt.alloc();
    let array = apply(alloc, con(15, ARRAY), TypeExpr::number(at(21), 4))?;
    let wrong = apply(alloc, array, con(23, UNSIGNED))?;
    let decls = one(
        alloc,
        Decl::Area(at(1), named(6, Name(7)), None, wrong, None),
    )?;
    let tree = resolved(alloc, Names::new(alloc)?, decls);
    assert!(rt; refused_at(kinds(alloc, &tree), Code::E10, b"kind") == Some(15));
    Ok(())
}

#[test]
fn the_first_wrong_type_is_told(rt: HostRuntime) -> Result<(), Fail> {
    let alloc = rt.alloc();
    let mut decls = one(alloc, signature(alloc, none(alloc), con(10, UNSIGNED))?)?;
    decls.push(signature(alloc, none(alloc), con(20, BIT))?)?;
    decls.push(signature(alloc, none(alloc), con(30, UNSIGNED))?)?;
    decls.push(signature(alloc, none(alloc), con(40, STORED))?)?;
    let tree = resolved(alloc, Names::new(alloc)?, decls);
    assert!(rt; refused_at(kinds(alloc, &tree), Code::E10, b"kind") == Some(20));
    Ok(())
}

#[test]
fn a_sum_stands_in_signatures_alone(rt: HostRuntime) -> Result<(), Fail> {
    let alloc = rt.alloc();
    let mut names = Names::new(alloc)?;
    let t = names.intern(b"T")?;
    let m = names.intern(b"m")?;
    let good = TypeExpr::sum(alloc, at(12), var(12, m), TypeExpr::number(at(16), 1))?;
    let mut decls = one(
        alloc,
        signature(alloc, none(alloc), apply(alloc, con(7, BIT), good)?)?,
    )?;
    let bad = TypeExpr::sum(
        alloc,
        at(32),
        TypeExpr::number(at(32), 1),
        TypeExpr::number(at(36), 1),
    )?;
    let args = one(alloc, apply(alloc, con(30, BIT), bad)?)?;
    decls.push(data(alloc, 21, t, none(alloc), args)?)?;
    let tree = resolved(alloc, names, decls);
    assert!(rt; refused_at(kinds(alloc, &tree), Code::E10, b"sum") == Some(30));
    Ok(())
}

#[test]
fn a_wrong_number_of_arguments_is_told_at_the_last(rt: HostRuntime) -> Result<(), Fail> {
    let alloc = rt.alloc();
    let mut args = one(alloc, TypeExpr::number(at(7), 3))?;
    args.push(TypeExpr::number(at(9), 4))?;
    let context = one(alloc, PredExpr::Class(named(1, WIDTH), args))?;
    let decls = one(alloc, signature(alloc, context, con(20, UNSIGNED))?)?;
    let tree = resolved(alloc, Names::new(alloc)?, decls);
    assert!(rt; refused_at(kinds(alloc, &tree), Code::E10, b"kind") == Some(9));
    let few = one(alloc, con(6, STORED))?;
    let context = one(alloc, PredExpr::Class(named(1, CELL), few))?;
    let decls = one(alloc, signature(alloc, context, con(20, UNSIGNED))?)?;
    let tree = resolved(alloc, Names::new(alloc)?, decls);
    assert!(rt; refused_at(kinds(alloc, &tree), Code::E10, b"kind") == Some(6));
    Ok(())
}

#[test]
fn a_class_may_be_over_areas(rt: HostRuntime) -> Result<(), Fail> {
    let alloc = rt.alloc();
    let mut names = Names::new(alloc)?;
    let c = names.intern(b"C")?;
    let a = names.intern(b"a")?;
    let reference = apply(alloc, con(30, REF), var(34, a))?;
    let sig = Sig {
        place: at(20),
        names: one(alloc, named(20, Name(7)))?,
        context: none(alloc),
        body: reference,
    };
    let class = Decl::Class(
        at(1),
        none(alloc),
        named(7, c),
        one(alloc, named(9, a))?,
        none(alloc),
        one(alloc, sig)?,
    );
    let mut decls = one(alloc, class)?;
    let stored = apply(alloc, con(50, STORED), con(57, UNSIGNED))?;
    decls.push(Decl::Instance(
        at(41),
        named(48, c),
        one(alloc, stored)?,
        none(alloc),
        none(alloc),
    ))?;
    decls.push(Decl::Instance(
        at(61),
        named(68, c),
        one(alloc, con(70, UNSIGNED))?,
        none(alloc),
        none(alloc),
    ))?;
    let tree = resolved(alloc, names, decls);
    assert!(rt; refused_at(kinds(alloc, &tree), Code::E10, b"kind") == Some(70));
    Ok(())
}

#[test]
fn a_later_declaration_fixes_an_earlier_parameter(rt: HostRuntime) -> Result<(), Fail> {
    let alloc = rt.alloc();
    let mut names = Names::new(alloc)?;
    let t = names.intern(b"T")?;
    let u = names.intern(b"U")?;
    let f = names.intern(b"f")?;
    // data T f = T (f Unsigned)    data U = U (T Bit)
    let inner = apply(alloc, var(12, f), con(14, UNSIGNED))?;
    let mut decls = one(
        alloc,
        data(alloc, 1, t, one(alloc, named(8, f))?, one(alloc, inner)?)?,
    )?;
    let wrong = apply(alloc, con(40, t), con(42, BIT))?;
    decls.push(data(alloc, 30, u, none(alloc), one(alloc, wrong)?)?)?;
    let tree = resolved(alloc, names, decls);
    assert!(rt; refused_at(kinds(alloc, &tree), Code::E10, b"kind") == Some(40));
    Ok(())
}

#[test]
fn a_type_that_contains_itself_is_told(rt: HostRuntime) -> Result<(), Fail> {
    let alloc = rt.alloc();
    let mut names = Names::new(alloc)?;
    let a = names.intern(b"A")?;
    let b = names.intern(b"B")?;
    let c = names.intern(b"C")?;
    // A has B, B has C, C has B: B is the first that contains itself.
    let mut decls = one(
        alloc,
        data(alloc, 1, a, none(alloc), one(alloc, con(10, b))?)?,
    )?;
    decls.push(data(alloc, 21, b, none(alloc), one(alloc, con(30, c))?)?)?;
    decls.push(data(alloc, 41, c, none(alloc), one(alloc, con(50, b))?)?)?;
    let tree = resolved(alloc, names, decls);
    assert!(rt; refused_at(finite_data(alloc, &tree), Code::E15, b"B") == Some(21));
    Ok(())
}

#[test]
fn a_struct_behind_a_reference_is_not_contained(rt: HostRuntime) -> Result<(), Fail> {
    let alloc = rt.alloc();
    let mut names = Names::new(alloc)?;
    let s = names.intern(b"S")?;
    let reference = apply(alloc, con(27, REF), con(31, s))?;
    let stored = apply(alloc, con(20, STORED), reference)?;
    let decls = one(alloc, structure(alloc, 1, s, stored)?)?;
    let tree = resolved(alloc, names, decls);
    assert!(rt; finite_data(alloc, &tree).is_ok());
    Ok(())
}

#[test]
fn a_data_type_behind_a_reference_is_contained(rt: HostRuntime) -> Result<(), Fail> {
    let alloc = rt.alloc();
    let mut names = Names::new(alloc)?;
    let t = names.intern(b"T")?;
    let stored = apply(alloc, con(20, STORED), con(27, t))?;
    let reference = apply(alloc, con(15, REF), stored)?;
    let decls = one(
        alloc,
        data(alloc, 1, t, none(alloc), one(alloc, reference)?)?,
    )?;
    let tree = resolved(alloc, names, decls);
    assert!(rt; refused_at(finite_data(alloc, &tree), Code::E15, b"T") == Some(1));
    Ok(())
}

#[test]
fn two_ways_to_one_type_are_no_cycle(rt: HostRuntime) -> Result<(), Fail> {
    let alloc = rt.alloc();
    let mut names = Names::new(alloc)?;
    let a = names.intern(b"A")?;
    let b = names.intern(b"B")?;
    let c = names.intern(b"C")?;
    let mut args = one(alloc, con(10, b))?;
    args.push(con(12, c))?;
    let mut decls = one(alloc, data(alloc, 1, a, none(alloc), args)?)?;
    decls.push(data(alloc, 21, b, none(alloc), one(alloc, con(30, c))?)?)?;
    decls.push(data(alloc, 41, c, none(alloc), one(alloc, con(50, UNSIGNED))?)?)?;
    let tree = resolved(alloc, names, decls);
    assert!(rt; finite_data(alloc, &tree).is_ok());
    Ok(())
}
