use crate::first_too_deep;
use hb_base::{Name, Place};
use hb_read_declarations::DeclNode;
use hb_read_expressions::ExprNode;
use hb_read_patterns::PatNode;
use hb_read_types::TypeNode;
use std::alloc::Global;
use std::test::Fail;

const NAME: Name = Name(70);

fn at(line: u32, col: u32) -> Place {
    Place { line, col }
}

/// The answer for these nodes is this one.
fn is_answer(alloc: Global, nodes: Vec<DeclNode>, wanted: Option<Place>) -> Result<bool, Fail> {
    let answer = first_too_deep(alloc, nodes.as_slice())?;
    Ok(answer == wanted)
}

/// A variable.
fn put_var(nodes: &mut Vec<DeclNode>, place: Place) -> Result<(), Fail> {
    nodes.push(DeclNode::Expr(ExprNode::Var(place, NAME)))?;
    Ok(())
}

/// A type constructor.
fn put_con(nodes: &mut Vec<DeclNode>, place: Place) -> Result<(), Fail> {
    nodes.push(DeclNode::Type(TypeNode::Con(place, NAME)))?;
    Ok(())
}

/// The end of an equation without patterns and without local rows, and of the program.
fn end_equation(nodes: &mut Vec<DeclNode>) -> Result<(), Fail> {
    nodes.push(DeclNode::Expr(ExprNode::Row(NAME, at(1, 1), 0, at(1, 5), 0)))?;
    nodes.push(DeclNode::Equation)?;
    nodes.push(DeclNode::Program(1))?;
    Ok(())
}

/// The beginning of a signature of one name without a context.
fn begin_sig(nodes: &mut Vec<DeclNode>) -> Result<(), Fail> {
    nodes.push(DeclNode::Name(at(1, 1), NAME))?;
    nodes.push(DeclNode::Names(1))?;
    nodes.push(DeclNode::Type(TypeNode::Context(0)))?;
    Ok(())
}

/// The end of a signature, and of the program.
fn end_sig(nodes: &mut Vec<DeclNode>) -> Result<(), Fail> {
    nodes.push(DeclNode::Sig(at(1, 1)))?;
    nodes.push(DeclNode::Program(1))?;
    Ok(())
}

/// An equation whose body is this many lambdas in one another. The last pattern is on line 2, and behind it the variable.
fn lambdas(alloc: Global, count: u32) -> Result<Vec<DeclNode>, Fail> {
    let mut nodes = Vec::new(alloc);
    for _ in 1..count {
        nodes.push(DeclNode::Expr(ExprNode::Pat(PatNode::Any(at(1, 7)))))?;
    }
    nodes.push(DeclNode::Expr(ExprNode::Pat(PatNode::Any(at(2, 1)))))?;
    put_var(&mut nodes, at(2, 5))?;
    for _ in 0..count {
        nodes.push(DeclNode::Expr(ExprNode::Lambda(at(1, 5), 1)))?;
    }
    end_equation(&mut nodes)?;
    Ok(nodes)
}

/// An equation whose body is this many `if` in one another. The variables of the innermost one are on line 2.
fn ifs(alloc: Global, count: u32) -> Result<Vec<DeclNode>, Fail> {
    let mut nodes = Vec::new(alloc);
    for _ in 1..count {
        put_var(&mut nodes, at(1, 8))?;
        put_var(&mut nodes, at(1, 10))?;
    }
    for col in 1..4 {
        put_var(&mut nodes, at(2, col))?;
    }
    for _ in 0..count {
        nodes.push(DeclNode::Expr(ExprNode::If(at(1, 5))))?;
    }
    end_equation(&mut nodes)?;
    Ok(nodes)
}

/// An equation whose body is a run of this many operators. The first operand is on line 2.
fn run(alloc: Global, count: u32) -> Result<Vec<DeclNode>, Fail> {
    let mut nodes = Vec::new(alloc);
    put_var(&mut nodes, at(2, 1))?;
    for _ in 0..count {
        put_var(&mut nodes, at(2, 3))?;
        put_var(&mut nodes, at(2, 5))?;
    }
    nodes.push(DeclNode::Expr(ExprNode::Run(at(1, 5), count)))?;
    end_equation(&mut nodes)?;
    Ok(nodes)
}

/// An equation whose body is an application to this many arguments. The function is on line 2.
fn application(alloc: Global, count: u32) -> Result<Vec<DeclNode>, Fail> {
    let mut nodes = Vec::new(alloc);
    put_var(&mut nodes, at(2, 1))?;
    for _ in 0..count {
        put_var(&mut nodes, at(2, 3))?;
        nodes.push(DeclNode::Expr(ExprNode::Apply(at(1, 5))))?;
    }
    end_equation(&mut nodes)?;
    Ok(nodes)
}

/// A signature of this many arrows. The first part is on line 2.
fn arrows(alloc: Global, count: u32) -> Result<Vec<DeclNode>, Fail> {
    let mut nodes = Vec::new(alloc);
    begin_sig(&mut nodes)?;
    put_con(&mut nodes, at(2, 1))?;
    for _ in 0..count {
        put_con(&mut nodes, at(2, 3))?;
    }
    for _ in 0..count {
        nodes.push(DeclNode::Type(TypeNode::Arrow(at(1, 5))))?;
    }
    end_sig(&mut nodes)?;
    Ok(nodes)
}

/// A signature of a type that is applied to this many types. The constructor is on line 2.
fn type_application(alloc: Global, count: u32) -> Result<Vec<DeclNode>, Fail> {
    let mut nodes = Vec::new(alloc);
    begin_sig(&mut nodes)?;
    put_con(&mut nodes, at(2, 1))?;
    for _ in 0..count {
        put_con(&mut nodes, at(2, 3))?;
        nodes.push(DeclNode::Type(TypeNode::Apply(at(1, 5))))?;
    }
    end_sig(&mut nodes)?;
    Ok(nodes)
}

/// An equation with a pattern of this many constructors in one another. The innermost pattern is on line 2.
fn patterns(alloc: Global, count: u32) -> Result<Vec<DeclNode>, Fail> {
    let mut nodes = Vec::new(alloc);
    nodes.push(DeclNode::Expr(ExprNode::Pat(PatNode::Any(at(2, 1)))))?;
    for _ in 0..count {
        nodes.push(DeclNode::Expr(ExprNode::Pat(PatNode::Con(at(1, 3), NAME, 1))))?;
    }
    put_var(&mut nodes, at(3, 1))?;
    nodes.push(DeclNode::Expr(ExprNode::Row(NAME, at(1, 1), 1, at(3, 1), 0)))?;
    nodes.push(DeclNode::Equation)?;
    nodes.push(DeclNode::Program(1))?;
    Ok(nodes)
}

/// The end of an initialiser, of an area of a type on line 4, and of the program.
fn end_area(nodes: &mut Vec<DeclNode>) -> Result<(), Fail> {
    nodes.push(DeclNode::Init)?;
    put_con(nodes, at(4, 1))?;
    nodes.push(DeclNode::NoNumber)?;
    nodes.push(DeclNode::Area(at(1, 1)))?;
    nodes.push(DeclNode::Program(1))?;
    Ok(())
}

/// The column behind this many parts of one width, the first of which stands in this column.
fn column(first: u32, width: u32, parts: u32) -> u32 {
    first.saturating_add(width.saturating_mul(parts))
}

/// `area r <- `, and this many times `each i -> ` before the cell and its expression, which stand at these places.
fn eaches(alloc: Global, count: u32, cell: Place, value: Place) -> Result<Vec<DeclNode>, Fail> {
    let mut nodes = Vec::new(alloc);
    nodes.push(DeclNode::Name(at(1, 6), NAME))?;
    for before in 0..count {
        nodes.push(DeclNode::Name(at(1, column(16, 10, before)), NAME))?;
    }
    put_var(&mut nodes, value)?;
    nodes.push(DeclNode::InitCell(cell))?;
    for behind in 0..count {
        nodes.push(DeclNode::InitEach(at(1, column(1, 10, count.saturating_sub(behind)))))?;
    }
    end_area(&mut nodes)?;
    Ok(nodes)
}

/// `area r <- `, and this many times `fields [a <- ` before a cell on line 2, whose expression is on line 3.
fn fields(alloc: Global, count: u32) -> Result<Vec<DeclNode>, Fail> {
    let mut nodes = Vec::new(alloc);
    nodes.push(DeclNode::Name(at(1, 6), NAME))?;
    for before in 0..count {
        nodes.push(DeclNode::Name(at(1, column(19, 13, before)), NAME))?;
    }
    put_var(&mut nodes, at(3, 1))?;
    nodes.push(DeclNode::InitCell(at(2, 1)))?;
    for behind in 0..count {
        nodes.push(DeclNode::InitField)?;
        let word = at(
            1,
            column(11, 13, count.saturating_sub(behind).saturating_sub(1)),
        );
        nodes.push(DeclNode::InitFields(word, 1))?;
    }
    end_area(&mut nodes)?;
    Ok(nodes)
}

#[test]
fn a_pattern_of_a_lambda_is_at_most_200_deep(rt: HostRuntime) -> Result<(), Fail> {
    let alloc = rt.alloc();
    assert!(rt; is_answer(alloc, lambdas(alloc, 197)?, None)?);
    assert!(rt; is_answer(alloc, lambdas(alloc, 198)?, None)?);
    assert!(rt; is_answer(alloc, lambdas(alloc, 199)?, Some(at(2, 1)))?);
    Ok(())
}

#[test]
fn a_part_of_an_if_is_at_most_200_deep(rt: HostRuntime) -> Result<(), Fail> {
    let alloc = rt.alloc();
    assert!(rt; is_answer(alloc, ifs(alloc, 197)?, None)?);
    assert!(rt; is_answer(alloc, ifs(alloc, 198)?, None)?);
    assert!(rt; is_answer(alloc, ifs(alloc, 199)?, Some(at(2, 1)))?);
    Ok(())
}

#[test]
fn operands_are_as_many_levels_deeper_as_there_are_operators(rt: HostRuntime) -> Result<(), Fail> {
    let alloc = rt.alloc();
    assert!(rt; is_answer(alloc, run(alloc, 197)?, None)?);
    assert!(rt; is_answer(alloc, run(alloc, 198)?, None)?);
    assert!(rt; is_answer(alloc, run(alloc, 199)?, Some(at(2, 1)))?);
    Ok(())
}

#[test]
fn a_function_is_as_many_levels_deeper_as_it_has_arguments(rt: HostRuntime) -> Result<(), Fail> {
    let alloc = rt.alloc();
    assert!(rt; is_answer(alloc, application(alloc, 197)?, None)?);
    assert!(rt; is_answer(alloc, application(alloc, 198)?, None)?);
    assert!(rt; is_answer(alloc, application(alloc, 199)?, Some(at(2, 1)))?);
    assert!(rt; is_answer(alloc, type_application(alloc, 197)?, None)?);
    assert!(rt; is_answer(alloc, type_application(alloc, 198)?, None)?);
    assert!(rt; is_answer(alloc, type_application(alloc, 199)?, Some(at(2, 1)))?);
    Ok(())
}

#[test]
fn parts_of_arrows_are_as_many_levels_deeper_as_there_are_arrows(
    rt: HostRuntime,
) -> Result<(), Fail> {
    let alloc = rt.alloc();
    assert!(rt; is_answer(alloc, arrows(alloc, 197)?, None)?);
    assert!(rt; is_answer(alloc, arrows(alloc, 198)?, None)?);
    assert!(rt; is_answer(alloc, arrows(alloc, 199)?, Some(at(2, 1)))?);
    Ok(())
}

#[test]
fn a_pattern_is_at_most_200_deep(rt: HostRuntime) -> Result<(), Fail> {
    let alloc = rt.alloc();
    assert!(rt; is_answer(alloc, patterns(alloc, 197)?, None)?);
    assert!(rt; is_answer(alloc, patterns(alloc, 198)?, None)?);
    assert!(rt; is_answer(alloc, patterns(alloc, 199)?, Some(at(2, 1)))?);
    Ok(())
}

#[test]
fn a_cell_and_its_expression_are_at_most_200_deep(rt: HostRuntime) -> Result<(), Fail> {
    let alloc = rt.alloc();
    let (cell, value) = (at(2, 1), at(3, 1));
    assert!(rt; is_answer(alloc, eaches(alloc, 196, cell, value)?, None)?);
    assert!(rt; is_answer(alloc, eaches(alloc, 197, cell, value)?, None)?);
    assert!(rt; is_answer(alloc, eaches(alloc, 198, cell, value)?, Some(value))?);
    assert!(rt; is_answer(alloc, eaches(alloc, 199, cell, value)?, Some(cell))?);
    Ok(())
}

#[test]
fn an_each_is_at_most_200_deep_and_stands_at_its_word(rt: HostRuntime) -> Result<(), Fail> {
    let alloc = rt.alloc();
    for (count, found) in [
        (198, 1991),
        (199, 2001),
        (200, 2001),
        (201, 2001),
        (300, 2001),
    ] {
        let x = at(1, column(11, 10, count));
        assert!(rt; is_answer(alloc, eaches(alloc, count, x, x)?, Some(at(1, found)))?);
    }
    Ok(())
}

#[test]
fn fields_are_at_most_200_deep_and_stand_at_their_word(rt: HostRuntime) -> Result<(), Fail> {
    let alloc = rt.alloc();
    assert!(rt; is_answer(alloc, fields(alloc, 197)?, None)?);
    assert!(rt; is_answer(alloc, fields(alloc, 198)?, Some(at(3, 1)))?);
    assert!(rt; is_answer(alloc, fields(alloc, 199)?, Some(at(2, 1)))?);
    assert!(rt; is_answer(alloc, fields(alloc, 200)?, Some(at(1, 2598)))?);
    assert!(rt; is_answer(alloc, fields(alloc, 201)?, Some(at(1, 2598)))?);
    Ok(())
}

/// A pair, in this many lambdas, of variables at these places.
fn pair(alloc: Global, count: u32, first: Place, second: Place) -> Result<Vec<DeclNode>, Fail> {
    let mut nodes = Vec::new(alloc);
    put_var(&mut nodes, first)?;
    put_var(&mut nodes, second)?;
    nodes.push(DeclNode::Expr(ExprNode::Pair(at(1, 6))))?;
    for _ in 0..count {
        nodes.push(DeclNode::Expr(ExprNode::Lambda(at(1, 5), 0)))?;
    }
    end_equation(&mut nodes)?;
    Ok(nodes)
}

#[test]
fn the_first_place_is_the_least_by_line_and_then_by_column(rt: HostRuntime) -> Result<(), Fail> {
    let alloc = rt.alloc();
    assert!(rt; is_answer(alloc, pair(alloc, 197, at(5, 9), at(6, 1))?, None)?);
    assert!(rt; is_answer(alloc, pair(alloc, 198, at(5, 9), at(6, 1))?, Some(at(5, 9)))?);
    assert!(rt; is_answer(alloc, pair(alloc, 198, at(6, 1), at(5, 9))?, Some(at(5, 9)))?);
    assert!(rt; is_answer(alloc, pair(alloc, 198, at(5, 9), at(5, 3))?, Some(at(5, 3)))?);
    assert!(rt; is_answer(alloc, pair(alloc, 199, at(5, 9), at(6, 1))?, Some(at(1, 6)))?);
    Ok(())
}

/// This many lambdas around a variable on line 2.
fn put_lambdas(nodes: &mut Vec<DeclNode>, count: u32) -> Result<(), Fail> {
    put_var(nodes, at(2, 1))?;
    for _ in 0..count {
        nodes.push(DeclNode::Expr(ExprNode::Lambda(at(1, 5), 0)))?;
    }
    Ok(())
}

/// An equation of an instance whose body is this many lambdas.
fn instance(alloc: Global, count: u32) -> Result<Vec<DeclNode>, Fail> {
    let mut nodes = Vec::new(alloc);
    nodes.push(DeclNode::Name(at(1, 10), NAME))?;
    put_con(&mut nodes, at(1, 13))?;
    nodes.push(DeclNode::Types(1))?;
    nodes.push(DeclNode::Type(TypeNode::Context(0)))?;
    put_lambdas(&mut nodes, count)?;
    nodes.push(DeclNode::Expr(ExprNode::Row(NAME, at(1, 20), 0, at(1, 22), 0)))?;
    nodes.push(DeclNode::Equations(1))?;
    nodes.push(DeclNode::Instance(at(1, 1)))?;
    nodes.push(DeclNode::Program(1))?;
    Ok(nodes)
}

/// A class of one signature of this many arrows. The first part is on line 2.
fn class(alloc: Global, count: u32) -> Result<Vec<DeclNode>, Fail> {
    let mut nodes = Vec::new(alloc);
    nodes.push(DeclNode::Type(TypeNode::Context(0)))?;
    nodes.push(DeclNode::Name(at(1, 7), NAME))?;
    nodes.push(DeclNode::Names(0))?;
    nodes.push(DeclNode::Depends(0))?;
    begin_sig(&mut nodes)?;
    put_con(&mut nodes, at(2, 1))?;
    for _ in 0..count {
        put_con(&mut nodes, at(2, 3))?;
    }
    for _ in 0..count {
        nodes.push(DeclNode::Type(TypeNode::Arrow(at(1, 25))))?;
    }
    nodes.push(DeclNode::Sig(at(1, 20)))?;
    nodes.push(DeclNode::Sigs(1))?;
    nodes.push(DeclNode::Class(at(1, 1)))?;
    nodes.push(DeclNode::Program(1))?;
    Ok(nodes)
}

/// An equation whose body is a `let` of one row, whose body is this many lambdas.
fn local(alloc: Global, count: u32) -> Result<Vec<DeclNode>, Fail> {
    let mut nodes = Vec::new(alloc);
    put_lambdas(&mut nodes, count)?;
    nodes.push(DeclNode::Expr(ExprNode::Row(NAME, at(1, 9), 0, at(1, 11), 0)))?;
    put_var(&mut nodes, at(3, 1))?;
    nodes.push(DeclNode::Expr(ExprNode::Let(at(1, 5), 1)))?;
    end_equation(&mut nodes)?;
    Ok(nodes)
}

#[test]
fn an_equation_of_an_instance_and_a_signature_of_a_class_are_levels(
    rt: HostRuntime,
) -> Result<(), Fail> {
    let alloc = rt.alloc();
    assert!(rt; is_answer(alloc, instance(alloc, 197)?, None)?);
    assert!(rt; is_answer(alloc, instance(alloc, 198)?, Some(at(2, 1)))?);
    assert!(rt; is_answer(alloc, class(alloc, 197)?, None)?);
    assert!(rt; is_answer(alloc, class(alloc, 198)?, Some(at(2, 1)))?);
    Ok(())
}

#[test]
fn a_local_row_is_a_level(rt: HostRuntime) -> Result<(), Fail> {
    let alloc = rt.alloc();
    assert!(rt; is_answer(alloc, local(alloc, 196)?, None)?);
    assert!(rt; is_answer(alloc, local(alloc, 197)?, Some(at(2, 1)))?);
    Ok(())
}

#[test]
fn a_count_of_parts_that_are_not_there_costs_no_time(rt: HostRuntime) -> Result<(), Fail> {
    let alloc = rt.alloc();
    let mut nodes = Vec::new(alloc);
    nodes.push(DeclNode::BitCon(usize::MAX))?;
    nodes.push(DeclNode::Names(usize::MAX))?;
    assert!(rt; is_answer(alloc, nodes, None)?);
    Ok(())
}
