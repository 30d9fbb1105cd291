ghost use Rattle.std.specs.Prelude.{◌≡◌, ◌↔◌, IsTrue, IfOk, IfErr, [], ◌∷◌};
ghost use Rattle.hb_tree.specs.ExpressionViews.{stmts};
ghost use Rattle.hb_second.specs.declared.reader.Stage.TheVariants.{Written};
ghost use Rattle.hb_second.specs.Items.{statement_items, equation_items, main_statements, decl_items, items_of, all_items};
ghost use Rattle.hb_second.specs.Form.{IsForm};
ghost use Rattle.hb_second.specs.Wrong.{FirstWrong, IfForm};
ghost use Rattle.hb_second.specs.Moves.{start, run, outcome, wrong_at, IsSmall};

use crate::reader::{Reader, Stage};
use crate::shapes::{first_place, is_byte_port, let_place, main_statements};
use crate::source::Source;
use crate::spelling::text_of;
use hb_base::{List, Memory, Names, Place};
use hb_tree::{Bind, Decl, Program, Stmt};
use std::alloc::Global;

/// Why a program is not read.
#[derive(Clone, Copy, Debug, PartialEq, Eq)]
pub enum FormError {
    /// The first declaration or statement that cannot stand is here, or something is missing here.
    Form(Place),
    /// Memory ran out. No contract ties this answer to a refused allocation.
    Memory,
}

/// The reader before the first declaration.
fn start(alloc: Global) -> Reader
    ensures { result ≡ start }
{
    Reader {
        stage: Stage::Ports,
        ports: List::of(Vec::new(alloc)),
        variables: List::of(Vec::new(alloc)),
        statements: List::of(Vec::new(alloc)),
    }
}

/// This place, where what stands there did not fit.
fn wrong_at(fits: bool, place: Place) -> Option<Place>
    ensures { result ≡ wrong_at fits place }
{
    if fits { None } else { Some(place) }
}

/// Takes a statement of the equation that stands here, or answers the statement's place if it cannot stand.
#[tactic(auto, using(crate::proofs::RunLaws::run_one, crate::proofs::RunLaws::run_other))]
fn take_statement(
    alloc: Global,
    names: &Names,
    reader: &mut Reader,
    around: Place,
    statement: &Stmt,
) -> Result<Option<Place>, Memory>
    requires { IsSmall reader.old }
    ensures { IfOk result (λ wrong. run reader.old (statement_items names.now around (stmts (statement.now ∷ []))) ≡ outcome wrong reader.new) }
{
    match statement {
        Stmt::Take(pat, expr) => {
            let fits = reader.take_take(alloc, names, pat, expr)?;
            Ok(wrong_at(fits, pat.place))
        }
        Stmt::Let(local) => Ok(Some(let_place(around, local.as_slice()))),
        Stmt::Do(expr) => {
            let fits = reader.take_do(names, expr)?;
            Ok(wrong_at(fits, first_place(expr)))
        }
    }
}

/// Takes statements of the equation that stands here, or answers the place of the first that cannot stand.
fn take_statements(
    alloc: Global,
    names: &Names,
    reader: &mut Reader,
    around: Place,
    statements: &[Stmt],
) -> Result<Option<Place>, Memory>
    requires { IsSmall reader.old }
    ensures { IfOk result (λ wrong. run reader.old (statement_items names.now around (stmts statements.now)) ≡ outcome wrong reader.new) }
{
    for statement in statements {
        let wrong = take_statement(alloc, names, reader, around, statement)?;
        match wrong {
            Some(place) => return Ok(Some(place)),
            None => {}
        }
    }
    Ok(None)
}

/// Takes an equation with its statements, or answers the place of the first part that cannot stand.
fn take_bind(
    alloc: Global,
    names: &Names,
    reader: &mut Reader,
    bind: &Bind,
) -> Result<Option<Place>, Memory>
    requires { IsSmall reader.old }
    ensures { IfOk result (λ wrong. run reader.old (equation_items names.now bind.now.place (main_statements names.now bind.now)) ≡ outcome wrong reader.new) }
{
    match main_statements(names, bind) {
        Some(statements) => {
            if !reader.take_equation() {
                return Ok(Some(bind.place));
            }
            let wrong = take_statements(alloc, names, reader, bind.place, statements)?;
            Ok(wrong)
        }
        None => Ok(Some(bind.place)),
    }
}

/// Takes a declaration, or answers the place of the first part that cannot stand.
#[tactic(auto, using(crate::proofs::RunLaws::run_one, crate::proofs::RunLaws::run_other))]
fn take_declaration(
    alloc: Global,
    names: &Names,
    reader: &mut Reader,
    declaration: &Decl,
) -> Result<Option<Place>, Memory>
    requires { IsSmall reader.old }
    ensures { IfOk result (λ wrong. run reader.old (decl_items names.now declaration.now) ≡ outcome wrong reader.new) }
{
    match declaration {
        Decl::Port(place, name, way, of, width, number) => {
            let is_byte_port = is_byte_port(names, of, *width);
            let name = text_of(names, name.name);
            let fits = reader.take_port_item(alloc, is_byte_port, name, *way, *number)?;
            Ok(wrong_at(fits, *place))
        }
        Decl::Sig(sig) => Ok(wrong_at(reader.take_signature(names, sig), sig.place)),
        Decl::Equation(bind) => {
            let wrong = take_bind(alloc, names, reader, bind)?;
            Ok(wrong)
        }
        Decl::Fixity(place, _, _, _) => Ok(Some(*place)),
        Decl::Data(place, _, _, _) => Ok(Some(*place)),
        Decl::Bitdata(place, _, _, _) => Ok(Some(*place)),
        Decl::Struct(place, _, _, _) => Ok(Some(*place)),
        Decl::Area(place, _, _, _, _) => Ok(Some(*place)),
        Decl::Class(place, _, _, _, _, _) => Ok(Some(*place)),
        Decl::Instance(place, _, _, _, _) => Ok(Some(*place)),
    }
}

/// The reader after all these declarations, or the place of the first part that cannot stand.
fn take_all(
    alloc: Global,
    names: &Names,
    declarations: &[Decl],
) -> Result<Result<Reader, Place>, Memory>
    ensures { IfOk result (λ answer. answer ≡ run start (all_items names.now declarations.now)) }
{
    let mut reader = start(alloc);
    for declaration in declarations {
        let wrong = take_declaration(alloc, names, &mut reader, declaration)?;
        match wrong {
            Some(place) => return Ok(Err(place)),
            None => {}
        }
    }
    Ok(Ok(reader))
}

fn is_written(stage: Stage) -> bool
    ensures { IsTrue result ↔ (stage ≡ Written) }
{
    match stage {
        Stage::Written => true,
        _ => false,
    }
}

/// The source that a program of the second form is. `end` is the place of the end of its text.
///
/// A refusal stands at the first declaration or statement such that no program of the form begins with those up to and
/// including it; where each could go on, something is missing, and it stands at the end.
pub fn read_source(
    alloc: Global,
    program: &Program,
    names: &Names,
    end: Place,
) -> Result<Source, FormError>
    ensures found { IfOk result (λ source. IsForm names.now program.now source) }
    ensures alone { IfOk result (λ source. (other : Source) → IsForm names.now program.now other → other ≡ source) }
    ensures only { IfErr result (IfForm (λ place. (source : Source) → ¬ IsForm names.now program.now source)) }
    ensures place { IfErr result (IfForm (λ place. FirstWrong names.now program.now end place)) }
{
    match take_all(alloc, names, program.decls.as_slice()) {
        Ok(Ok(reader)) => {
            if is_written(reader.stage) {
                let Reader {
                    ports,
                    statements,
                    ..
                } = reader;
                Ok(Source { ports, statements })
            } else {
                Err(FormError::Form(end))
            }
        }
        Ok(Err(place)) => Err(FormError::Form(place)),
        Err(_memory) => Err(FormError::Memory),
    }
}
