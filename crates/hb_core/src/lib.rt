//! What an accepted source means: values, choice of instances, evaluation as a tree of due steps, and what so many steps
//! show. And when an annotation of a source fits.
#![tactic(auto)]
