//! What becomes of the bytes of a file: a source, an image or a script, or why not.

ghost use Rattle.std.specs.Prelude.{◌≡◌, ◌≤◌, List, length};
ghost use Rattle.hb_base.specs.Ports.{ArePorts};
ghost use Rattle.hb_base.specs.Names.{fixed_names};
ghost use Rattle.hb_second_code.specs.Rules.{IsProgram};
ghost use Rattle.hb_top.specs.Steps.{failure_of, JudgesForm, JudgesSource, JudgesImage, JudgesScript, Builds};

use crate::failure::{Failure, NoImage};
use hb_base::limits::SOURCE_BYTES;
use hb_base::{Code, Fault, List as Items, Names, Place, Port, Script, refused};
use hb_compile::compile;
use hb_front::read_program;
use hb_image::{Image, ImageError};
use hb_lex::text_end;
use hb_script::ScriptError;
use hb_second::{FormError, Source, read_source};
use hb_tree::Program;
use std::alloc::Global;

/// The failure of a pass over the source.
fn failed(fault: Fault) -> Failure
    ensures { result ≡ failure_of fault }
{
    match fault {
        Fault::Refused(refusal) => Failure::Refused(refusal),
        Fault::Memory => Failure::Memory,
    }
}

/// The source that a program is. Its text ends here.
fn form_of(alloc: Global, program: &Program, names: &Names, end: Place) -> Result<Source, Failure>
    ensures { JudgesForm names.now program.now end result }
{
    match read_source(alloc, program, names, end) {
        Ok(source) => Ok(source),
        Err(FormError::Form(place)) => Err(failed(refused(alloc, Code::E05, place, b"form"))),
        Err(FormError::Memory) => Err(Failure::Memory),
    }
}

/// The source that bytes are, which are not too many. The table has the fixed names.
fn short_source(alloc: Global, bytes: &[u8], names: &mut Names) -> Result<Source, Failure>
    requires short { length bytes.now ≤ 1048576 }
    requires fixed { names.old ≡ fixed_names }
    ensures { JudgesSource bytes.now result }
{
    match read_program(alloc, bytes, names) {
        Ok(program) => form_of(alloc, &program, names, text_end(bytes)),
        Err(fault) => Err(failed(fault)),
    }
}

/// The source that the bytes are.
pub fn source_of(alloc: Global, bytes: &[u8]) -> Result<Source, Failure>
    ensures { JudgesSource bytes.now result }
{
    if bytes.len() > SOURCE_BYTES as usize {
        let first = Place { line: 1, col: 1 };
        return Err(failed(refused(alloc, Code::E30, first, b"-")));
    }
    match Names::new(alloc) {
        Ok(mut names) => short_source(alloc, bytes, &mut names),
        Err(_memory) => Err(Failure::Memory),
    }
}

/// The image that the bytes are.
pub fn image_of(alloc: Global, bytes: &[u8]) -> Result<Image, Failure>
    ensures { JudgesImage bytes.now result }
{
    match hb_image::read(alloc, bytes) {
        Ok(image) => Ok(image),
        Err(ImageError::Short) => Err(Failure::Image(NoImage::Short)),
        Err(ImageError::Bad(field)) => Err(Failure::Image(NoImage::Bad(field))),
        Err(ImageError::Memory) => Err(Failure::Memory),
    }
}

/// The script that the bytes are, for these ports.
pub fn script_of(alloc: Global, bytes: &[u8], ports: &Items<Port>) -> Result<Script, Failure>
    requires { ArePorts ports.now }
    ensures { JudgesScript ports.now bytes.now result }
{
    match hb_script::read(alloc, bytes, ports) {
        Ok(script) => Ok(script),
        Err(ScriptError::Bad(number)) => Err(Failure::Script(number)),
        Err(ScriptError::Memory) => Err(Failure::Memory),
    }
}

/// The image of a source.
pub fn build(alloc: Global, source: &Source) -> Result<Image, Failure>
    requires { IsProgram source.now }
    ensures { Builds source.now result }
{
    match compile(alloc, source) {
        Ok(image) => Ok(image),
        Err(_memory) => Err(Failure::Memory),
    }
}
