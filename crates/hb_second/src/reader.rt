ghost use Rattle.std.specs.Prelude.{◌≡◌, ℕ, ◌&&◌, ◌==◌, ◌<◌, ◌≤◌, ◌^◌, length, codes, if◌then◌else◌, nat_lt, position, IfOk, IsTrue, Some, None, option_map, option_and_then};
ghost use Rattle.std.specs.List.{list_any};
ghost use Rattle.std.specs.Str.{bytes_eq};
ghost use Rattle.hb_second.specs.declared.source.Atom.TheVariants.{Literal, Variable};
ghost use Rattle.hb_second.specs.declared.source.Argument.TheVariants.{Atom as OneAtom};
ghost use Rattle.hb_tree.specs.ExpressionViews.{exprs};
ghost use Rattle.hb_second.specs.Items.{APort, TheSignature, TheEquation, ARead, Other, text_of, word_of, operator_at, operator_in, run_given, given_of, port_item, signature_item, read_of, call_item, take_item, write_of, do_item, is_variable, variable_of};
ghost use Rattle.hb_second.specs.Form.{atom_of, argument_of, operation_of};
ghost use Rattle.hb_second.specs.Moves.{in_ports, at_equation, in_body, given, may_go, is_port_address, is_next_port, may_be_port, may_read, put_read, may_write, put_write, written, named_write, step, IsSmall};

use crate::shapes::{is_main_signature, is_variable, variable_of};
use crate::source::{Argument, Atom, Operator, Statement};
use crate::spelling::{find_port, find_variable, has_port, is_new_name, operator_named, text_of};
use hb_base::{Dir, List, Memory, Name, Names, Port, Text};
use hb_tree::{Expr, ExprKind, Pat, PatKind, Sig};
use std::alloc::Global;

/// What may come next.
#[derive(Clone, Copy, Debug, PartialEq, Eq)]
pub enum Stage {
    /// A port, or the signature of `main`.
    Ports,
    /// The equation of `main`.
    Equation,
    /// A statement, at the beginning or after a read.
    Statements,
    /// A statement or the end, after a write.
    Written,
}

/// What the items so far are known to say: where the next one stands, the ports, the variables and the statements.
#[derive(Drop)]
pub struct Reader {
    pub stage: Stage,
    pub ports: List<Port>,
    pub variables: List<Text>,
    pub statements: List<Statement>,
}

/// A port may go this way: an In port only where an Out port stands before, or may still come.
fn may_go(way: Dir, ports: &[Port]) -> bool
    ensures { result ≡ may_go way ports.now }
{
    match way {
        Dir::In => has_port(Dir::Out, ports) || ports.len() < 255,
        Dir::Out => true,
    }
}

fn has_address(ports: &[Port], address: u128) -> bool
    ensures { result ≡ list_any (λ port. port.address == address) ports.now }
{
    ports.iter().any(|port| u128::from(port.address) == address)
}

fn is_port_address(ports: &[Port], address: u128) -> bool
    ensures { result ≡ is_port_address ports.now address }
{
    address >= 0x8000_0000 && address < 0x1_0000_0000 && !has_address(ports, address)
}

fn is_next_port(ports: &[Port], name: &[u8], address: u128) -> bool
    ensures is { result ≡ is_next_port ports.now name.now address }
    ensures within { IsTrue result → address < 2 ^ 32 }
{
    is_new_name(ports, &[], name) && is_port_address(ports, address)
}

/// The byte of a literal of eight bits.
fn byte_of(width: u32, value: u128) -> Option<Atom>
    ensures { result ≡ (if width == 8 then if nat_lt value 256 then Some (Literal value) else None else None) }
{
    if width == 8 {
        if value < 256 {
            Some(Atom::Literal(value as u8))
        } else {
            None
        }
    } else {
        None
    }
}

fn variable_at(variables: &[Text], name: &[u8]) -> Option<Atom>
    requires { length variables.now ≤ 1000 }
    ensures { result ≡ option_map Variable (position (bytes_eq name.now) variables.now) }
{
    match find_variable(variables, name) {
        Some(number) => Some(Atom::Variable(number)),
        None => None,
    }
}

/// The byte of a literal, or the variable of this name.
#[tactic(auto, using(crate::proofs::ArgumentLaws::byte_word))]
fn atom_at(names: &Names, variables: &[Text], expr: &Expr) -> Option<Atom>
    requires { length variables.now ≤ 1000 }
    ensures { result ≡ option_and_then (atom_of variables.now) (word_of names.now expr.now) }
{
    match &expr.kind {
        ExprKind::Bits(width, value) => byte_of(*width, *value),
        ExprKind::Var(name) => variable_at(variables, text_of(names, *name)),
        _ => None,
    }
}

fn operator_at(names: &Names, expr: &Expr) -> Option<Operator>
    ensures { result ≡ operator_at names.now (variable_of expr.now) }
{
    match variable_of(expr) {
        Some(name) => operator_named(text_of(names, name)),
        None => None,
    }
}

fn operation_of(a: Option<Atom>, operator: Option<Operator>, b: Option<Atom>) -> Option<Argument>
    ensures { result ≡ operation_of a operator b }
{
    match (a, operator, b) {
        (Some(a), Some(operator), Some(b)) => Some(Argument::Operation(a, operator, b)),
        _ => None,
    }
}

fn single(atom: Option<Atom>) -> Option<Argument>
    ensures { result ≡ option_map OneAtom atom }
{
    match atom {
        Some(atom) => Some(Argument::Atom(atom)),
        None => None,
    }
}

/// The one operator of a run.
fn operator_in(names: &Names, operators: &[Expr]) -> Option<Operator>
    ensures { result ≡ operator_in names.now (exprs operators.now) }
{
    match operators {
        [operator] => operator_at(names, operator),
        _ => None,
    }
}

/// Two atoms with an operator between.
#[tactic(auto, using(crate::proofs::ArgumentLaws::two_argument))]
fn operation_at(
    names: &Names,
    variables: &[Text],
    operands: &[Expr],
    operator: Option<Operator>,
) -> Option<Argument>
    requires { length variables.now ≤ 1000 }
    ensures { result ≡ option_and_then (argument_of variables.now) (run_given names.now (exprs operands.now) operator) }
{
    match operands {
        [a, b] => operation_of(
            atom_at(names, variables, a),
            operator,
            atom_at(names, variables, b),
        ),
        _ => None,
    }
}

/// What a write is given.
#[tactic(auto, using(crate::proofs::ArgumentLaws::one_argument))]
fn argument_at(names: &Names, variables: &[Text], expr: &Expr) -> Option<Argument>
    requires { length variables.now ≤ 1000 }
    ensures { result ≡ option_and_then (argument_of variables.now) (given_of names.now expr.now) }
{
    match &expr.kind {
        ExprKind::Run(operands, operators) => {
            let operator = operator_in(names, operators.as_slice());
            operation_at(names, variables, operands.as_slice(), operator)
        }
        ExprKind::Bits(_, _) => single(atom_at(names, variables, expr)),
        ExprKind::Var(_) => single(atom_at(names, variables, expr)),
        _ => None,
    }
}

impl Stage {
    fn in_ports(self) -> bool
        ensures { result ≡ in_ports self }
    {
        self == Stage::Ports
    }

    fn at_equation(self) -> bool
        ensures { result ≡ at_equation self }
    {
        self == Stage::Equation
    }

    fn in_body(self) -> bool
        ensures { result ≡ in_body self }
    {
        match self {
            Stage::Ports | Stage::Equation => false,
            Stage::Statements | Stage::Written => true,
        }
    }
}

impl Reader {
    fn may_be_port(&self, name: &[u8], way: Dir, address: u128) -> bool
        ensures is { result ≡ may_be_port self.now name.now way address }
        ensures within { IsTrue result → address < 2 ^ 32 }
    {
        self.stage.in_ports()
            && self.ports.len() < 256
            && may_go(way, self.ports.as_slice())
            && is_next_port(self.ports.as_slice(), name, address)
    }

    fn take_port(
        &mut self,
        alloc: Global,
        name: &[u8],
        way: Dir,
        address: u128,
    ) -> Result<bool, Memory>
        ensures { IfOk result (λ fits. step self.old (APort name.now way address) ≡ given fits self.new) }
    {
        if !self.may_be_port(name, way, address) {
            return Ok(false);
        }
        let name = Text::of(Vec::from_slice(alloc, name)?);
        self.ports.push(Port {
            name,
            dir: way,
            width: 1,
            address: address as u32,
        })?;
        Ok(true)
    }

    /// Takes a port, if it may stand here. After an item that may not, the reader is not used again.
    pub fn take_port_item(
        &mut self,
        alloc: Global,
        is_byte_port: bool,
        name: &[u8],
        way: Dir,
        address: u128,
    ) -> Result<bool, Memory>
        ensures { IfOk result (λ fits. step self.old (port_item is_byte_port name.now way address) ≡ given fits self.new) }
    {
        if is_byte_port {
            let fits = self.take_port(alloc, name, way, address)?;
            Ok(fits)
        } else {
            Ok(false)
        }
    }

    fn take_main(&mut self) -> bool
        ensures { step self.old TheSignature ≡ given result self.new }
    {
        if !self.stage.in_ports() || !has_port(Dir::Out, self.ports.as_slice()) {
            return false;
        }
        self.stage = Stage::Equation;
        true
    }

    /// Takes a signature, if it may stand here.
    pub fn take_signature(&mut self, names: &Names, sig: &Sig) -> bool
        ensures { step self.old (signature_item names.now sig.now) ≡ given result self.new }
    {
        if is_main_signature(names, sig) {
            self.take_main()
        } else {
            false
        }
    }

    /// Takes the equation of `main`, if it may stand here.
    pub fn take_equation(&mut self) -> bool
        ensures { step self.old TheEquation ≡ given result self.new }
    {
        if !self.stage.at_equation() {
            return false;
        }
        self.stage = Stage::Statements;
        true
    }

    fn may_read(&self, name: &[u8]) -> bool
        ensures { result ≡ may_read self.now name.now }
    {
        self.stage.in_body()
            && self.statements.len() < 999
            && is_new_name(self.ports.as_slice(), self.variables.as_slice(), name)
    }

    fn put_read(&mut self, alloc: Global, name: &[u8], number: Option<u32>) -> Result<bool, Memory>
        ensures { IfOk result (λ fits. put_read self.old name.now number ≡ given fits self.new) }
    {
        match number {
            Some(number) => {
                let name = Text::of(Vec::from_slice(alloc, name)?);
                self.variables.push(name)?;
                self.statements.push(Statement::Read(number))?;
                self.stage = Stage::Statements;
                Ok(true)
            }
            None => Ok(false),
        }
    }

    fn take_read(&mut self, alloc: Global, name: &[u8], port: &[u8]) -> Result<bool, Memory>
        requires { IsSmall self.old }
        ensures { IfOk result (λ fits. step self.old (ARead name.now port.now) ≡ given fits self.new) }
    {
        if !self.may_read(name) {
            return Ok(false);
        }
        let number = find_port(Dir::In, port, self.ports.as_slice());
        let fits = self.put_read(alloc, name, number)?;
        Ok(fits)
    }

    fn may_write(&self) -> bool
        ensures { result ≡ may_write self.now }
    {
        self.stage.in_body() && self.statements.len() < 1000
    }

    fn put_write(&mut self, number: Option<u32>, argument: Option<Argument>) -> Result<bool, Memory>
        ensures { IfOk result (λ fits. put_write self.old number argument ≡ given fits self.new) }
    {
        match (number, argument) {
            (Some(number), Some(argument)) => {
                self.statements.push(Statement::Write(number, argument))?;
                self.stage = Stage::Written;
                Ok(true)
            }
            _ => Ok(false),
        }
    }

    /// Takes a write, if it may stand here.
    fn take_write(&mut self, port: &[u8], argument: Option<Argument>) -> Result<bool, Memory>
        requires { IsSmall self.old }
        ensures { IfOk result (λ fits. written self.old port.now argument ≡ given fits self.new) }
    {
        if !self.may_write() {
            return Ok(false);
        }
        let number = find_port(Dir::Out, port, self.ports.as_slice());
        let fits = self.put_write(number, argument)?;
        Ok(fits)
    }

    fn take_named_write(
        &mut self,
        names: &Names,
        port: Option<Name>,
        argument: Option<Argument>,
    ) -> Result<bool, Memory>
        requires { IsSmall self.old }
        ensures { IfOk result (λ fits. named_write self.old names.now port argument ≡ given fits self.new) }
    {
        match port {
            Some(port) => {
                let fits = self.take_write(text_of(names, port), argument)?;
                Ok(fits)
            }
            None => Ok(false),
        }
    }

    /// Takes a call of `writePort`, if it may stand here.
    #[tactic(auto, using(crate::proofs::ArgumentLaws::write_is))]
    fn take_call(&mut self, names: &Names, f: &Expr, port: &Expr, x: &Expr) -> Result<bool, Memory>
        requires { IsSmall self.old }
        ensures { IfOk result (λ fits. step self.old (if is_variable names.now (codes "writePort") f.now then write_of names.now (variable_of port.now) (given_of names.now x.now) else Other) ≡ given fits self.new) }
    {
        if !is_variable(names, b"writePort", f) {
            return Ok(false);
        }
        let argument = argument_at(names, self.variables.as_slice(), x);
        let fits = self.take_named_write(names, variable_of(port), argument)?;
        Ok(fits)
    }

    /// Takes an expression as a statement, if it may stand here.
    pub fn take_do(&mut self, names: &Names, expr: &Expr) -> Result<bool, Memory>
        requires { IsSmall self.old }
        ensures { IfOk result (λ fits. step self.old (do_item names.now expr.now) ≡ given fits self.new) }
    {
        match &expr.kind {
            ExprKind::Apply(call, x) => match &call.kind {
                ExprKind::Apply(f, port) => {
                    let fits = self.take_call(names, f, port, x)?;
                    Ok(fits)
                }
                _ => Ok(false),
            },
            _ => Ok(false),
        }
    }

    fn take_named_read(
        &mut self,
        alloc: Global,
        names: &Names,
        name: Name,
        port: Option<Name>,
    ) -> Result<bool, Memory>
        requires { IsSmall self.old }
        ensures { IfOk result (λ fits. step self.old (read_of names.now name port) ≡ given fits self.new) }
    {
        match port {
            Some(port) => {
                let fits = self.take_read(alloc, text_of(names, name), text_of(names, port))?;
                Ok(fits)
            }
            None => Ok(false),
        }
    }

    fn take_call_of_read(
        &mut self,
        alloc: Global,
        names: &Names,
        name: Name,
        expr: &Expr,
    ) -> Result<bool, Memory>
        requires { IsSmall self.old }
        ensures { IfOk result (λ fits. step self.old (call_item names.now name expr.now) ≡ given fits self.new) }
    {
        match &expr.kind {
            ExprKind::Apply(f, x) => {
                if !is_variable(names, b"readPort", f) {
                    return Ok(false);
                }
                let fits = self.take_named_read(alloc, names, name, variable_of(x))?;
                Ok(fits)
            }
            _ => Ok(false),
        }
    }

    /// Takes a pattern with what is matched as a statement, if it may stand here.
    pub fn take_take(
        &mut self,
        alloc: Global,
        names: &Names,
        pat: &Pat,
        expr: &Expr,
    ) -> Result<bool, Memory>
        requires { IsSmall self.old }
        ensures { IfOk result (λ fits. step self.old (take_item names.now pat.now expr.now) ≡ given fits self.new) }
    {
        match &pat.kind {
            PatKind::Var(name) => {
                let fits = self.take_call_of_read(alloc, names, *name, expr)?;
                Ok(fits)
            }
            _ => Ok(false),
        }
    }
}
