ghost use Rattle.std.specs.Prelude.{◌≡◌, ◌++◌, ◌∷◌, [], IfOk, OnOk};
ghost use Rattle.hb_compile.specs.Means.{Means};
ghost use Rattle.hb_image.specs.Rules.{IsImage};
ghost use Rattle.hb_second_code.specs.Rules.{IsProgram};

use hb_base::{List, Memory, Port, Text};
use hb_image::Image;
use hb_second::Source;
use hb_second_code::lower;
use hb_select::{assemble, select};
use std::alloc::Global;

/// A port like this one.
fn copy_of(alloc: Global, port: &Port) -> Result<Port, Memory>
    ensures { IfOk result (λ copy. copy ≡ port.now) }
{
    let name = Vec::from_slice(alloc, port.name.as_slice())?;
    Ok(Port {
        name: Text::of(name),
        dir: port.dir,
        width: port.width,
        address: port.address,
    })
}

/// Ports like these, in the same order.
fn copies_of(alloc: Global, ports: &[Port]) -> Result<List<Port>, Memory>
    ensures { IfOk result (λ copies. copies ≡ ports.now) }
{
    let mut copies = List::of(Vec::new(alloc));
    for port in ports {
        copies.push(copy_of(alloc, port)?)?;
    }
    Ok(copies)
}

/// The image of a source. The machine shows on it exactly what the source says, whatever the inputs are. `Memory` where
/// memory runs out.
pub fn compile(alloc: Global, source: &Source) -> Result<Image, Memory>
    requires { IsProgram source.now }
    ensures rules { IfOk result (λ image. IsImage image) }
    ensures means { IfOk result (λ image. Means source.now image) }
{
    let flat = lower(alloc, source)?;
    let asm = select(alloc, &flat)?;
    let code = assemble(alloc, &asm)?;
    let ports = copies_of(alloc, source.ports.as_slice())?;
    Ok(Image {
        ports,
        areas: 0,
        stack: flat.stack,
        code,
    })
}
