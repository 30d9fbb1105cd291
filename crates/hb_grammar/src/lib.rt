//! The grammar of Habit sources, over laid-out tokens and the tree: one family a nonterminal, one case an alternative.
#![tactic(auto)]
