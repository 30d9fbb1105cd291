use hb_base::Refusal;
use hb_image::Field;

/// Why bytes are no image.
#[derive(Clone, Copy, Debug, PartialEq, Eq)]
pub enum NoImage {
    /// No field breaks its rule, but the bytes end within one.
    Short,
    /// The first field that breaks its rule.
    Bad(Field),
}

/// Why there is no run.
#[derive(Debug, Drop)]
pub enum Failure {
    /// The words are no command.
    Words,
    /// The source is refused.
    Refused(Refusal),
    /// The script is refused: the number of its first wrong line, from 1, or 0 where it is too long.
    Script(u32),
    /// The image is refused.
    Image(NoImage),
    /// A file could not be read.
    Read,
    /// The image could not be written.
    Write,
    /// There was no memory.
    Memory,
}
