//! The text front: from the bytes of a source to its laid-out tokens, and to its program.
#![tactic(auto)]

#[cfg(test)]
mod declaration_refusal_tests;
#[cfg(test)]
mod declaration_trees;
#[cfg(test)]
mod depth_tests;
#[cfg(test)]
mod document_tests;
#[cfg(test)]
mod expression_tests;
#[cfg(test)]
mod expression_trees;
#[cfg(test)]
mod grammar_tests;
mod laying;
#[cfg(test)]
mod place_tests;
mod reading;
#[cfg(test)]
mod refusal_tests;
#[cfg(test)]
mod samples;
#[cfg(test)]
mod tables;
#[cfg(test)]
mod tests;
#[cfg(test)]
mod trees;
#[cfg(test)]
mod whole_tests;

pub use laying::laid_tokens;
pub use reading::read_program;
