ghost use Rattle.std.specs.Prelude.{◌≡◌, [], Some, None, IfOk, length, nat_eq};
ghost use Rattle.hb_build.specs.Building.{Stepped};
ghost use Rattle.hb_build.specs.TypeSteps.{stepped as type_stepped};
ghost use Rattle.hb_build_expressions.specs.ExpressionSteps.{stepped as expr_stepped};
ghost use Rattle.hb_build_program.specs.States.{start};
ghost use Rattle.hb_build_program.specs.DeclarationSteps.{stepped, in_types, in_exprs, checked};

use crate::parts::{Heads, Members, Starts};
use hb_base::Memory;
use hb_build::TypeBuilder;
use hb_build_expressions::ExprBuilder;
use hb_read_declarations::DeclNode;
use hb_read_expressions::ExprNode;
use hb_read_types::TypeNode;
use hb_stack::Stack;
use hb_tree::{Decl, Program};
use std::alloc::Global;

/// What is built so far: the parts of types and of expressions, the small parts of declarations, the members, the
/// initialisers, the declarations at their end, and the program where it is at its end.
#[derive(Debug, Drop)]
pub struct DeclBuilder {
    pub types: TypeBuilder,
    pub exprs: ExprBuilder,
    pub heads: Heads,
    pub members: Members,
    pub starts: Starts,
    pub decls: Stack<Decl>,
    pub whole: Option<Program>,
}

impl DeclBuilder {
    /// Nothing is built yet. Takes no memory.
    pub fn new(alloc: Global) -> DeclBuilder
        ensures { result ≡ start }
    {
        DeclBuilder {
            types: TypeBuilder::new(alloc),
            exprs: ExprBuilder::new(alloc),
            heads: Heads::new(alloc),
            members: Members::new(alloc),
            starts: Starts::new(alloc),
            decls: Stack::new(alloc),
            whole: None,
        }
    }

    /// Takes the next node, and answers whether its parts are there. Where they are not, no program has these nodes, and
    /// what is built is of no use any more.
    pub fn take(&mut self, alloc: Global, node: DeclNode) -> Result<bool, Memory>
        ensures { IfOk result (λ taken. Stepped taken (stepped self.old node) self.new) }
    {
        match node {
            DeclNode::Type(part) => self.type_node(alloc, part),
            DeclNode::Expr(part) => self.expr_node(alloc, part),
            DeclNode::Name(place, name) => self.name(place, name),
            DeclNode::Names(count) => self.names(alloc, count),
            DeclNode::Types(count) => self.type_list(alloc, count),
            DeclNode::NoNumber => self.number(None),
            DeclNode::Number(value) => self.number(Some(value)),
            DeclNode::Sig(place) => self.sig(place),
            DeclNode::Sigs(count) => self.end_sigs(count),
            DeclNode::Equation => self.equation(),
            DeclNode::Equations(count) => self.end_equations(count),
            DeclNode::Fixity(place, fix, level) => self.fixity(place, fix, level),
            DeclNode::DataCon => self.data_con(),
            DeclNode::DataCons(count) => self.end_data_cons(count),
            DeclNode::Fields => self.fields(),
            DeclNode::Tag(width, value) => self.tag(width, value),
            DeclNode::BitFields => self.bit_fields(),
            DeclNode::BitCon(count) => self.bit_con(alloc, count),
            DeclNode::BitCons(count) => self.end_bit_cons(count),
            DeclNode::Pad(bytes) => self.pad(bytes),
            DeclNode::StructFields => self.struct_fields(),
            DeclNode::StructParts(count) => self.end_struct_parts(count),
            DeclNode::Depend => self.depend(),
            DeclNode::Depends(count) => self.end_depends(count),
            DeclNode::InitEach(place) => self.init_each(alloc, place),
            DeclNode::InitField => self.init_field(),
            DeclNode::InitFields(place, count) => self.init_fields(alloc, place, count),
            DeclNode::InitCell(place) => self.init_cell(place),
            DeclNode::NoInit => self.no_init(),
            DeclNode::Init => self.init(),
            DeclNode::Data(place) => self.data_type(alloc, place),
            DeclNode::Bitdata(place) => self.bitdata(alloc, place),
            DeclNode::Struct(place) => self.struct_type(alloc, place),
            DeclNode::Area(place) => self.area(place),
            DeclNode::Port(place, dir, width, value) => self.port(place, dir, width, value),
            DeclNode::Class(place) => self.class(alloc, place),
            DeclNode::Instance(place) => self.instance(alloc, place),
            DeclNode::Program(count) => self.program(alloc, count),
        }
    }

    /// A node of a type, a predicate or a context.
    fn type_node(&mut self, alloc: Global, part: TypeNode) -> Result<bool, Memory>
        ensures { IfOk result (λ taken. Stepped taken (in_types self.old (type_stepped self.old.types part)) self.new) }
    {
        let taken = self.types.take(alloc, part)?;
        Ok(taken)
    }

    /// A node of an expression or of an equation.
    fn expr_node(&mut self, alloc: Global, part: ExprNode) -> Result<bool, Memory>
        ensures { IfOk result (λ taken. Stepped taken (in_exprs self.old (expr_stepped self.old.exprs part)) self.new) }
    {
        let taken = self.exprs.take(alloc, part)?;
        Ok(taken)
    }

    /// So many signatures are built.
    fn end_sigs(&self, count: usize) -> Result<bool, Memory>
        ensures { IfOk result (λ taken. Stepped taken (checked self.now count (length self.now.members.sigs)) self.now) }
    {
        Ok(count == self.members.sigs.len())
    }

    /// So many equations are built.
    fn end_equations(&self, count: usize) -> Result<bool, Memory>
        ensures { IfOk result (λ taken. Stepped taken (checked self.now count (length self.now.exprs.binds)) self.now) }
    {
        Ok(count == self.exprs.binds.len())
    }

    /// So many constructors of a data type are built.
    fn end_data_cons(&self, count: usize) -> Result<bool, Memory>
        ensures { IfOk result (λ taken. Stepped taken (checked self.now count (length self.now.members.cons)) self.now) }
    {
        Ok(count == self.members.cons.len())
    }

    /// So many constructors of a bitdata type are built.
    fn end_bit_cons(&self, count: usize) -> Result<bool, Memory>
        ensures { IfOk result (λ taken. Stepped taken (checked self.now count (length self.now.members.bit_cons)) self.now) }
    {
        Ok(count == self.members.bit_cons.len())
    }

    /// So many parts of a struct are built.
    fn end_struct_parts(&self, count: usize) -> Result<bool, Memory>
        ensures { IfOk result (λ taken. Stepped taken (checked self.now count (length self.now.members.struct_parts)) self.now) }
    {
        Ok(count == self.members.struct_parts.len())
    }

    /// The program, where its last node is taken.
    pub fn into_program(self) -> Option<Program>
        ensures { result ≡ self.whole }
    {
        self.whole
    }
}
