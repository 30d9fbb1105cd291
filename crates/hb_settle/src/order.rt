ghost use Rattle.std.specs.Prelude.{◌≡◌, Some};
ghost use Rattle.hb_settle.specs.Order.{is_before, first_of};

use hb_base::Place;
use hb_tree::NameAt;

/// Whether the first place comes before the second one. The places of the prelude, in line 0, come after all others.
pub fn is_earlier(first: Place, second: Place) -> bool
    ensures { result ≡ is_before first second }
{
    if first.line == 0 {
        return false;
    }
    if second.line == 0 {
        return true;
    }
    if first.line == second.line {
        return first.col < second.col;
    }
    first.line < second.line
}

/// The earlier of what was met before and what is met now. What was met before stays where both have one place.
pub fn earlier(known: Option<NameAt>, met: NameAt) -> Option<NameAt>
    ensures { result ≡ Some (first_of known met) }
{
    match known {
        None => Some(met),
        Some(first) => {
            if is_earlier(met.place, first.place) {
                Some(met)
            } else {
                Some(first)
            }
        }
    }
}
