//! A machine that runs a grammar given as a table, and why it reads just what the grammar says. No code.
#![tactic(auto)]
