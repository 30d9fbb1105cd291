ghost use Rattle.std.specs.Prelude.{◌≡◌};
ghost use Rattle.hb_fixity.specs.Fixities.{is_left, is_right, goes_left, goes_right};

use hb_base::{Name, Place};
use hb_tree::Fix;

/// How an operator groups: the greater its level, the tighter it binds.
#[derive(Clone, Copy, Debug, PartialEq, Eq)]
pub struct Fixity {
    pub fix: Fix,
    pub level: u8,
}

impl Fixity {
    /// What a name groups as that no declaration speaks of: `infixl 9`.
    pub const STANDARD: Fixity = Fixity {
        fix: Fix::Left,
        level: 9,
    };
}

/// An operator where it stands in a run, with the fixity of its name.
#[derive(Clone, Copy, Debug, PartialEq, Eq)]
pub struct Operator {
    pub place: Place,
    pub name: Name,
    pub fixity: Fixity,
}

fn is_left(fix: Fix) -> bool
    ensures { result ≡ is_left fix }
{
    match fix {
        Fix::Left => true,
        Fix::Right | Fix::Neither => false,
    }
}

fn is_right(fix: Fix) -> bool
    ensures { result ≡ is_right fix }
{
    match fix {
        Fix::Right => true,
        Fix::Left | Fix::Neither => false,
    }
}

/// An operator of the first fixity may stand at the head of the left operand of one of the second.
pub fn goes_left(inner: Fixity, outer: Fixity) -> bool
    ensures { result ≡ goes_left inner outer }
{
    if outer.level < inner.level {
        return true;
    }
    if inner.level == outer.level {
        return is_left(inner.fix) && is_left(outer.fix);
    }
    false
}

/// An operator of the second fixity may stand at the head of the right operand of one of the first.
pub fn goes_right(outer: Fixity, inner: Fixity) -> bool
    ensures { result ≡ goes_right outer inner }
{
    if outer.level < inner.level {
        return true;
    }
    if inner.level == outer.level {
        return is_right(outer.fix) && is_right(inner.fix);
    }
    false
}
