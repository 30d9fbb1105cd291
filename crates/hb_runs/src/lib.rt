//! Runs, whatever runs: outcomes by counts, systems by their turns and weights, and the law that a pass keeps.
#![tactic(auto)]
