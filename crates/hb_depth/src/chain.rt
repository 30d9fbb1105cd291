ghost use Rattle.std.specs.Prelude.{◌≡◌, ◌+◌};
ghost use Rattle.hb_depth.specs.Marking.{arguments_in, arrows_in, capped};

/// What a form whose parts are done is to a form that it stands in.
#[derive(Clone, Copy, Debug, PartialEq, Eq)]
pub enum Chain {
    /// A form of another kind.
    Other,
    /// An application to so many arguments.
    Apply(u32),
    /// So many arrows to the right.
    Arrow(u32),
}

/// The sum of two numbers of levels. A sum past the range of `u32` stays at its end.
#[tactic(auto, unfolding(crate::specs::Marking::capped))]
pub fn sum(a: u32, b: u32) -> u32
    ensures { result ≡ capped (a + b) }
{
    a.saturating_add(b)
}

/// The number of arguments that the form is applied to.
pub fn arguments(chain: Option<Chain>) -> u32
    ensures { result ≡ arguments_in chain }
{
    match chain {
        Some(Chain::Apply(count)) => count,
        Some(Chain::Arrow(_count)) => 0,
        Some(Chain::Other) => 0,
        None => 0,
    }
}

/// The number of arrows of the form.
pub fn arrows(chain: Option<Chain>) -> u32
    ensures { result ≡ arrows_in chain }
{
    match chain {
        Some(Chain::Arrow(count)) => count,
        Some(Chain::Apply(_count)) => 0,
        Some(Chain::Other) => 0,
        None => 0,
    }
}
