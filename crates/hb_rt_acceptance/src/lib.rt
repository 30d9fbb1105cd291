//! Acceptance tests of the routines: a machine runs them, and halts with what they compute.
#![tactic(auto)]

#[cfg(test)]
mod rows;
