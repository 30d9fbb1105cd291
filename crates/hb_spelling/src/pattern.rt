use hb_base::List;
use hb_bits::Cube;

/// What a pattern matches.
#[derive(Debug, Drop)]
pub enum PatternForm {
    /// All values.
    Any,
    /// The values of one constructor, by its number, whose arguments match the patterns at these places.
    Con(u32, List<usize>),
    /// The words in a cube, which has the width of their type.
    Bits(Cube),
    /// One number of an index type.
    Index(u64),
}

/// The patterns of a match by their places, parts before the whole. A place that is not in the table matches all values.
#[derive(Debug, Drop)]
pub struct Patterns {
    pub forms: List<PatternForm>,
}

/// A place that is in no table.
pub const WILD: usize = usize::MAX;

impl Patterns {
    /// The form of the pattern at a place; `None` where the pattern matches all values. Takes no memory.
    pub fn form(&self, place: usize) -> Option<&PatternForm> {
        self.forms.as_slice().get(place)
    }

    /// The patterns of the arguments where the pattern is one of a constructor; none elsewhere. Takes no memory.
    pub fn arguments(&self, place: usize) -> &[usize] {
        match self.form(place) {
            Some(PatternForm::Con(_, parts)) => parts.as_slice(),
            _ => &[],
        }
    }
}

/// The pattern at an index of a row; one that matches all values where the row has none there. Takes no memory.
pub fn pattern_at(row: &[usize], index: usize) -> usize {
    match row.get(index) {
        Some(pattern) => *pattern,
        None => WILD,
    }
}
