ghost use Rattle.std.specs.Prelude.{◌≡◌, ◌<◌, ◌^◌, List, All, IfOk, Ok};
ghost use Rattle.hb_image.specs.Format.{spelling};
ghost use Rattle.hb_image.specs.Reading.{Gives, front_at, sizes_at, words_at, image_of};
ghost use Rattle.hb_image.specs.Rules.{IsImage};

use crate::fault::{Field, ImageError};
use crate::fields::{areas_of, code_of, count_of, magic_of, stack_of, u32_of, version_of};
use crate::image::Image;
use crate::ports::ports_of;
use hb_base::List;
use std::alloc::Global;

#[tactic(auto, unfolding(crate::specs::Reading::front_at))]
fn front_of(bytes: &[u8]) -> Result<(u16, &[u8]), ImageError>
    ensures { Gives (λ x. (x.0, x.1.now)) result (front_at bytes.now) }
{
    let (_, rest) = magic_of(bytes)?;
    let (_, rest) = version_of(rest)?;
    let (count, rest) = count_of(rest)?;
    Ok((count, rest))
}

#[tactic(auto, unfolding(crate::specs::Reading::sizes_at))]
fn sizes_of(bytes: &[u8]) -> Result<((u32, u32, u32), &[u8]), ImageError>
    ensures { Gives (λ x. ((x.0.0, x.0.1, x.0.2), x.1.now)) result (sizes_at bytes.now) }
{
    let (areas, rest) = areas_of(bytes)?;
    let (stack, rest) = stack_of(rest)?;
    let (code, rest) = code_of(rest)?;
    Ok(((areas, stack, code), rest))
}

fn words_of(alloc: Global, count: u32, bytes: &[u8]) -> Result<(List<u32>, &[u8]), ImageError>
    ensures { Gives (λ x. (x.0, x.1.now)) result (words_at count bytes.now) }
{
    let mut words = Vec::new(alloc);
    let mut rest = bytes;
    for _ in 0..count {
        let (word, after) = u32_of(rest)?;
        words.push(word)?;
        rest = after;
    }
    Ok((List::of(words), rest))
}

#[tactic(auto, unfolding(crate::specs::Reading::image_of))]
fn image_from(alloc: Global, bytes: &[u8]) -> Result<Image, ImageError>
    ensures { Gives (λ image. image) result (image_of bytes.now) }
{
    let (count, rest) = front_of(bytes)?;
    let ((areas, stack, words), rest) = sizes_of(rest)?;
    let (ports, rest) = ports_of(alloc, count, rest)?;
    let (code, rest) = words_of(alloc, words, rest)?;
    if !rest.is_empty() {
        return Err(ImageError::Bad(Field::Tail));
    }
    Ok(Image {
        ports,
        areas,
        stack,
        code,
    })
}

/// The image that the bytes spell, all of the bytes.
pub fn read(alloc: Global, bytes: &[u8]) -> Result<Image, ImageError>
    // What is read is spelled so.
    ensures found { IfOk result (λ image. IsImage image) }
    ensures spelled { IfOk result (λ image. bytes.now ≡ spelling image) }
    // What is spelled so is read, unless memory runs out.
    ensures only { (image : Image) → IsImage image → All (λ word. word < 2 ^ 32) image.code → bytes.now ≡ spelling image
        → Gives (λ x. x) result (Ok image) }
    // The first field that is not all there or breaks its rule.
    ensures exact { Gives (λ image. image) result (image_of bytes.now) }
{
    image_from(alloc, bytes)
}
