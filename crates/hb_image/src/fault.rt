//! Why bytes are no image.

ghost use Rattle.std.specs.Prelude.{◌≡◌};
ghost use Rattle.hb_image.specs.declared.fault.ImageError.TheVariants.{Memory};

use std::alloc::{AllocError, AllocFailed};
use thiserror::Error;

/// The fields of an image, in their order. From `Kind` to `Name` there is one for each port. `Words` have no
/// rule to break, and `Tail` is what may not follow them.
#[derive(Clone, Copy, Debug, PartialEq, Eq)]
pub enum Field {
    Magic,
    Version,
    Ports,
    Areas,
    Stack,
    Code,
    Kind,
    Width,
    Length,
    Address,
    Name,
    Words,
    Tail,
}

/// Why bytes are no image.
#[derive(Debug, Drop, Error)]
pub enum ImageError {
    /// No field breaks its rule, but the bytes end within one.
    #[error("the image ends early")]
    Short,
    /// The first field that breaks its rule.
    #[error("the field {0:?} of the image breaks its rule")]
    Bad(Field),
    /// Memory ran out.
    #[error("memory ran out")]
    Memory,
}

impl From<AllocError> for ImageError {
    ghost from_gives = { λ _ e. e ≡ Memory };

    fn from(_error: AllocError) -> ImageError {
        ImageError::Memory
    }
}

impl<T: Drop> From<AllocFailed<T>> for ImageError {
    ghost from_gives = { λ _ e. e ≡ Memory };

    fn from(_error: AllocFailed<T>) -> ImageError {
        ImageError::Memory
    }
}
