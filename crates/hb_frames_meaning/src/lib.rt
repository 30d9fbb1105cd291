//! What flat programs with frames show, the rules that they keep, and what their counts weigh. The definitions are in `specs/`.
#![tactic(auto)]
