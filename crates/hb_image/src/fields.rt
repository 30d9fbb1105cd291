//! The fields of an image, each by itself.

ghost use Rattle.std.specs.Prelude.{◌≡◌, ◌≤◌, length, IfOk};
ghost use Rattle.std.specs.Int.{w16, w32};
ghost use Rattle.hb_image.specs.Reading.{Gives, bytes_at, byte_at, number_at, magic_at, version_at, count_at, areas_at, stack_at, code_at, kind_at, width_at, length_at};

use crate::fault::{Field, ImageError};
use hb_base::{Dir, limits};

pub fn bytes_of(bytes: &[u8], count: usize) -> Result<(&[u8], &[u8]), ImageError>
    ensures { Gives (λ x. (x.0.now, x.1.now)) result (bytes_at count bytes.now) }
{
    if bytes.len() < count {
        return Err(ImageError::Short);
    }
    Ok(bytes.split_at(count))
}

fn byte_of(bytes: &[u8]) -> Result<(u8, &[u8]), ImageError>
    ensures { Gives (λ x. (x.0, x.1.now)) result (byte_at bytes.now) }
{
    match bytes {
        [] => Err(ImageError::Short),
        [byte, rest @ ..] => Ok((*byte, rest)),
    }
}

fn u16_of(bytes: &[u8]) -> Result<(u16, &[u8]), ImageError>
    ensures { Gives (λ x. (x.0, x.1.now)) result (number_at w16 bytes.now) }
{
    let (front, rest) = bytes_of(bytes, 2)?;
    Ok((u16::from_le_bytes([front[0], front[1]]), rest))
}

pub fn u32_of(bytes: &[u8]) -> Result<(u32, &[u8]), ImageError>
    ensures { Gives (λ x. (x.0, x.1.now)) result (number_at w32 bytes.now) }
{
    let (front, rest) = bytes_of(bytes, 4)?;
    let number = u32::from_le_bytes([front[0], front[1], front[2], front[3]]);
    Ok((number, rest))
}

#[tactic(auto, unfolding(crate::specs::Reading::magic_at))]
pub fn magic_of(bytes: &[u8]) -> Result<(&[u8], &[u8]), ImageError>
    ensures { Gives (λ x. (x.0.now, x.1.now)) result (magic_at bytes.now) }
{
    let (magic, rest) = bytes_of(bytes, 4)?;
    if magic != b"HBIM".as_slice() {
        return Err(ImageError::Bad(Field::Magic));
    }
    Ok((magic, rest))
}

#[tactic(auto, unfolding(crate::specs::Reading::version_at))]
pub fn version_of(bytes: &[u8]) -> Result<(u16, &[u8]), ImageError>
    ensures { Gives (λ x. (x.0, x.1.now)) result (version_at bytes.now) }
{
    let (version, rest) = u16_of(bytes)?;
    if version != 1 {
        return Err(ImageError::Bad(Field::Version));
    }
    Ok((version, rest))
}

#[tactic(auto, unfolding(crate::specs::Reading::count_at))]
pub fn count_of(bytes: &[u8]) -> Result<(u16, &[u8]), ImageError>
    ensures { Gives (λ x. (x.0, x.1.now)) result (count_at bytes.now) }
{
    let (count, rest) = u16_of(bytes)?;
    if count > 256 {
        return Err(ImageError::Bad(Field::Ports));
    }
    Ok((count, rest))
}

#[tactic(auto, unfolding(crate::specs::Reading::areas_at))]
pub fn areas_of(bytes: &[u8]) -> Result<(u32, &[u8]), ImageError>
    ensures { Gives (λ x. (x.0, x.1.now)) result (areas_at bytes.now) }
{
    let (areas, rest) = u32_of(bytes)?;
    if areas > limits::AREA_BYTES {
        return Err(ImageError::Bad(Field::Areas));
    }
    Ok((areas, rest))
}

#[tactic(auto, unfolding(crate::specs::Reading::stack_at))]
pub fn stack_of(bytes: &[u8]) -> Result<(u32, &[u8]), ImageError>
    ensures { Gives (λ x. (x.0, x.1.now)) result (stack_at bytes.now) }
{
    let (stack, rest) = u32_of(bytes)?;
    if stack % 4 != 0 || stack < limits::LEAST_STACK_BYTES || stack > limits::STACK_BYTES {
        return Err(ImageError::Bad(Field::Stack));
    }
    Ok((stack, rest))
}

#[tactic(auto, unfolding(crate::specs::Reading::code_at))]
pub fn code_of(bytes: &[u8]) -> Result<(u32, &[u8]), ImageError>
    ensures { Gives (λ x. (x.0, x.1.now)) result (code_at bytes.now) }
{
    let (code, rest) = u32_of(bytes)?;
    if code < 1 || code > limits::CODE_WORDS {
        return Err(ImageError::Bad(Field::Code));
    }
    Ok((code, rest))
}

#[tactic(auto, unfolding(crate::specs::Reading::kind_at))]
pub fn kind_of(bytes: &[u8]) -> Result<(Dir, &[u8]), ImageError>
    ensures { Gives (λ x. (x.0, x.1.now)) result (kind_at bytes.now) }
{
    let (kind, rest) = byte_of(bytes)?;
    match kind {
        0 => Ok((Dir::In, rest)),
        1 => Ok((Dir::Out, rest)),
        _ => Err(ImageError::Bad(Field::Kind)),
    }
}

#[tactic(auto, unfolding(crate::specs::Reading::width_at))]
pub fn width_of(bytes: &[u8]) -> Result<(u8, &[u8]), ImageError>
    ensures exact { Gives (λ x. (x.0, x.1.now)) result (width_at bytes.now) }
    ensures wide { IfOk result (λ x. 1 ≤ x.0) }
{
    let (width, rest) = byte_of(bytes)?;
    if width != 1 && width != 2 && width != 4 {
        return Err(ImageError::Bad(Field::Width));
    }
    Ok((width, rest))
}

#[tactic(auto, unfolding(crate::specs::Reading::length_at))]
pub fn length_of(bytes: &[u8]) -> Result<(u8, &[u8]), ImageError>
    ensures { Gives (λ x. (x.0, x.1.now)) result (length_at bytes.now) }
{
    let (len, rest) = byte_of(bytes)?;
    if len < 1 || len > 64 {
        return Err(ImageError::Bad(Field::Length));
    }
    Ok((len, rest))
}
