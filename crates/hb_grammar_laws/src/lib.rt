//! Laws of the grammar: what each family reads is a stretch of tokens, whatever follows it, and has at most four things for
//! each of its tokens. No code.
#![tactic(auto)]
