//! A plain description of types, by how their values are spelled as lists of letters, and of the patterns of a match.
#![tactic(auto)]

mod letter;
mod pattern;
mod spelling;
mod text;
mod valued;

pub use letter::Letter;
pub use pattern::{PatternForm, Patterns, WILD, pattern_at};
pub use spelling::{Spelling, Spellings};
pub use text::value_text;
pub use valued::{are_valued, matches_some, valued_types};

#[cfg(test)]
mod tests;
