use crate::kind::Kind;
use crate::types::Ty;
use hb_base::List;

/// A predicate on types: a class by its number, and its arguments.
#[derive(Debug, Drop)]
pub struct Pred {
    pub class: u32,
    pub args: List<Ty>,
}

/// A type with its variables, of which it says the kinds, and the predicates that it asks of them.
#[derive(Debug, Drop)]
pub struct Scheme {
    pub kinds: List<Kind>,
    pub preds: List<Pred>,
    pub body: Ty,
}
