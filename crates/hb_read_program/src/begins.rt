use crate::symbol::{Item, Leaf};

/// The thing with a reader of its own with which a symbol begins, and what stands behind it.
#[derive(Clone, Copy)]
pub enum Begins {
    /// There is none.
    NoLeaf,
    /// A thing with one reader.
    Leaf(Leaf, &'static [Item]),
    /// A signature or an equation.
    Line(&'static [Item]),
    /// [context "=>"] conid varid+
    Class,
}
