//! Layout: the braces and semicolons that the indentation of a source stands for are put among its tokens.
//!
//! A stack holds the brackets and blocks that are open. A block whose braces are written is explicit; one whose braces
//! are inserted is implicit, and has the column of its first token. Where a `let` block closed before its `in`, a due
//! mark lies on the stack in its place. `specs/Rules.antt` has the rules, `specs/Laid.antt` what they give.
#![tactic(auto)]

mod draft;
mod entry;
mod layout;
mod profile;
mod progress;
mod role;
mod stack;
#[cfg(test)]
mod tests;

pub use layout::offside;
