//! Meanings as trees of due steps: what evaluation leaves to be done, how it is answered, and when two of them are alike.
#![tactic(auto)]
