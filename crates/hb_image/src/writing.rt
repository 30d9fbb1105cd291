ghost use Rattle.std.specs.Prelude.{◌≡◌, ◌≤◌, ◌++◌, length, codes, OnOk, IfOk};
ghost use Rattle.std.specs.Int.{w16, w32, to_le_bytes};
ghost use Rattle.hb_image.specs.Format.{head_spelling, port_spelling, spelling};
ghost use Rattle.hb_image.specs.Rules.{IsImage};

use crate::image::Image;
use hb_base::{Dir, Memory, Port};
use std::alloc::Global;

const VERSION: u16 = 1;

fn put_sizes(out: &mut Vec<u8>, areas: u32, stack: u32, words: u32) -> Result<(), Memory>
    ensures { OnOk result (out.new.items
        ≡ out.old.items ++ (to_le_bytes w32 areas ++ to_le_bytes w32 stack ++ to_le_bytes w32 words)) }
{
    out.extend_from_slice(&areas.to_le_bytes())?;
    out.extend_from_slice(&stack.to_le_bytes())?;
    out.extend_from_slice(&words.to_le_bytes())?;
    Ok(())
}

fn put_front(out: &mut Vec<u8>, ports: u16) -> Result<(), Memory>
    ensures { OnOk result (out.new.items
        ≡ out.old.items ++ (codes "HBIM" ++ to_le_bytes w16 1 ++ to_le_bytes w16 ports)) }
{
    out.extend_from_slice(b"HBIM")?;
    out.extend_from_slice(&VERSION.to_le_bytes())?;
    out.extend_from_slice(&ports.to_le_bytes())?;
    Ok(())
}

fn put_head(out: &mut Vec<u8>, image: &Image) -> Result<(), Memory>
    requires { IsImage image.now }
    ensures { OnOk result (out.new.items ≡ out.old.items ++ head_spelling image.now) }
{
    put_front(out, image.ports.len() as u16)?;
    put_sizes(out, image.areas, image.stack, image.code.len() as u32)?;
    Ok(())
}

fn put_port(out: &mut Vec<u8>, port: &Port) -> Result<(), Memory>
    requires { length port.now.name ≤ 64 }
    ensures { OnOk result (out.new.items ≡ out.old.items ++ port_spelling port.now) }
{
    let kind = match port.dir {
        Dir::In => 0,
        Dir::Out => 1,
    };
    out.extend_from_slice(&[kind, port.width, port.name.len() as u8])?;
    out.extend_from_slice(&port.address.to_le_bytes())?;
    out.extend_from_slice(port.name.as_slice())?;
    Ok(())
}

/// The bytes of an image, in the format that [`read`](crate::read) takes.
pub fn write(alloc: Global, image: &Image) -> Result<Vec<u8>, Memory>
    requires { IsImage image.now }
    ensures { IfOk result (λ bytes. bytes.items ≡ spelling image.now) }
{
    let mut out = Vec::new(alloc);
    put_head(&mut out, image)?;
    for port in image.ports.as_slice() {
        put_port(&mut out, port)?;
    }
    for word in image.code.as_slice() {
        out.extend_from_slice(&word.to_le_bytes())?;
    }
    Ok(out)
}
