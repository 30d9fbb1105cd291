//! What a block program shows: its values, its steps and tails, and the rules that it keeps.
#![tactic(auto)]
