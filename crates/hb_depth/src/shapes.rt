ghost use Rattle.std.specs.Prelude.{◌≡◌};
ghost use Rattle.hb_depth.specs.Shapes.{decl_shape, expr_shape, pat_shape, shape, type_shape};
ghost use Rattle.hb_depth.specs.declared.shape.Kind.TheVariants.{Levels};
ghost use Rattle.std.specs.Prelude.{Some, None};

use crate::shape::{Kind, Shape};
use hb_base::Place;
use hb_read_declarations::DeclNode;
use hb_read_expressions::ExprNode;
use hb_read_patterns::PatNode;
use hb_read_types::TypeNode;

/// A form of one level, with so many parts.
fn plain(place: Place, parts: u128) -> Shape
    ensures { result ≡ shape (Levels 1) (Some place) parts }
{
    Shape {
        kind: Kind::Levels(1),
        place: Some(place),
        parts,
    }
}

/// A form of one level without a place.
fn unplaced(parts: u128) -> Shape
    ensures { result ≡ shape (Levels 1) None parts }
{
    Shape {
        kind: Kind::Levels(1),
        place: None,
        parts,
    }
}

/// So many parts, which are as deep as the node itself.
fn hidden(parts: u128) -> Shape
    ensures { result ≡ shape (Levels 0) None parts }
{
    Shape {
        kind: Kind::Levels(0),
        place: None,
        parts,
    }
}

/// A form of this kind at this place.
fn placed(kind: Kind, place: Place, parts: u128) -> Shape
    ensures { result ≡ shape kind (Some place) parts }
{
    Shape {
        kind,
        place: Some(place),
        parts,
    }
}

/// The shape of a node of a type.
pub fn of_type(node: TypeNode) -> Shape
    ensures { result ≡ type_shape node }
{
    match node {
        TypeNode::Con(place, _name) => plain(place, 0),
        TypeNode::Var(place, _name) => plain(place, 0),
        TypeNode::Number(place, _value) => plain(place, 0),
        TypeNode::Unit(place) => plain(place, 0),
        TypeNode::Pair(place) => plain(place, 2),
        TypeNode::Apply(place) => placed(Kind::Apply, place, 2),
        TypeNode::Arrow(place) => placed(Kind::Arrow, place, 2),
        TypeNode::Sum(place) => plain(place, 2),
        TypeNode::Class(place, _name, count) => plain(place, count as u128),
        TypeNode::SumFact => unplaced(3),
        TypeNode::ProductFact => unplaced(3),
        TypeNode::PowerFact => unplaced(2),
        TypeNode::AtMostFact => unplaced(2),
        TypeNode::Context(count) => hidden(count as u128),
    }
}

/// The shape of a node of a pattern.
pub fn of_pat(node: PatNode) -> Shape
    ensures { result ≡ pat_shape node }
{
    match node {
        PatNode::Any(place) => plain(place, 0),
        PatNode::Var(place, _name) => plain(place, 0),
        PatNode::Number(place, _value) => plain(place, 0),
        PatNode::Bits(place, _width, _value) => plain(place, 0),
        PatNode::Con(place, _name, count) => plain(place, count as u128),
        PatNode::Fields(place, _name, count) => plain(place, count as u128),
        PatNode::Field(_place, _name) => hidden(1),
        PatNode::Pair(place) => plain(place, 2),
        PatNode::Unit(place) => plain(place, 0),
        PatNode::Row(count) => hidden(count as u128),
    }
}

/// The shape of a node of an expression.
pub fn of_expr(node: ExprNode) -> Shape
    ensures { result ≡ expr_shape node }
{
    match node {
        ExprNode::Var(place, _name) => plain(place, 0),
        ExprNode::Con(place, _name) => plain(place, 0),
        ExprNode::Number(place, _value) => plain(place, 0),
        ExprNode::Bits(place, _width, _value) => plain(place, 0),
        ExprNode::Unit(place) => plain(place, 0),
        ExprNode::Apply(place) => placed(Kind::Apply, place, 2),
        ExprNode::Run(place, count) => {
            placed(
                Kind::Levels(count),
                place,
                count as u128 + count as u128 + 1,
            )
        }
        ExprNode::Lambda(place, count) => plain(place, count as u128 + 1),
        ExprNode::Let(place, count) => plain(place, count as u128 + 1),
        ExprNode::If(place) => plain(place, 3),
        ExprNode::Case(place, count) => plain(place, count as u128 + 1),
        ExprNode::Do(place, count) => plain(place, count as u128),
        ExprNode::Select(place, _name) => plain(place, 1),
        ExprNode::Field(_place, _name) => hidden(1),
        ExprNode::Build(place, _name, count) => plain(place, count as u128),
        ExprNode::Update(place, count) => plain(place, count as u128 + 1),
        ExprNode::Pair(place) => plain(place, 2),
        ExprNode::Pat(inner) => of_pat(inner),
        ExprNode::Alternative => hidden(2),
        ExprNode::TakeStmt => hidden(2),
        ExprNode::LetStmt(count) => hidden(count as u128),
        ExprNode::DoStmt => hidden(1),
        ExprNode::Row(_name, place, pats, _first, rows) => {
            plain(place, pats as u128 + 1 + rows as u128)
        }
    }
}

/// The shape of a node of a program.
pub fn of_decl(node: DeclNode) -> Shape
    ensures { result ≡ decl_shape node }
{
    match node {
        DeclNode::Type(inner) => of_type(inner),
        DeclNode::Expr(inner) => of_expr(inner),
        DeclNode::Name(_place, _name) => hidden(0),
        DeclNode::Names(count) => hidden(count as u128),
        DeclNode::Types(count) => hidden(count as u128),
        DeclNode::NoNumber => hidden(0),
        DeclNode::Number(_value) => hidden(0),
        DeclNode::Sig(place) => plain(place, 3),
        DeclNode::Sigs(count) => hidden(count as u128),
        DeclNode::Equation => hidden(1),
        DeclNode::Equations(count) => hidden(count as u128),
        DeclNode::Fixity(place, _fix, _level) => plain(place, 1),
        DeclNode::DataCon => hidden(2),
        DeclNode::DataCons(count) => hidden(count as u128),
        DeclNode::Fields => hidden(2),
        DeclNode::Tag(_width, _value) => hidden(0),
        DeclNode::BitFields => hidden(1),
        DeclNode::BitCon(count) => hidden(count as u128 + 1),
        DeclNode::BitCons(count) => hidden(count as u128),
        DeclNode::Pad(_bytes) => hidden(0),
        DeclNode::StructFields => hidden(1),
        DeclNode::StructParts(count) => hidden(count as u128),
        DeclNode::Depend => hidden(2),
        DeclNode::Depends(count) => hidden(count as u128),
        DeclNode::InitEach(place) => plain(place, 2),
        DeclNode::InitField => hidden(2),
        DeclNode::InitFields(place, count) => plain(place, count as u128),
        DeclNode::InitCell(place) => plain(place, 1),
        DeclNode::NoInit => hidden(0),
        DeclNode::Init => hidden(1),
        DeclNode::Data(place) => plain(place, 3),
        DeclNode::Bitdata(place) => plain(place, 3),
        DeclNode::Struct(place) => plain(place, 3),
        DeclNode::Area(place) => plain(place, 4),
        DeclNode::Port(place, _dir, _width, _value) => plain(place, 2),
        DeclNode::Class(place) => plain(place, 5),
        DeclNode::Instance(place) => plain(place, 4),
        DeclNode::Program(count) => unplaced(count as u128),
    }
}
