//! Shifts by up to 64 places.
ghost use Rattle.std.specs.Prelude.{◌≡◌, ◌-◌, ◌*◌, ◌/◌, ◌^◌, ◌<◌, ◌≤◌};

/// The word, so many places further up. No bit is lost.
pub(crate) fn shifted_up(word: u64, places: u32) -> u64
    requires places { places ≤ 64 }
    requires fits { word * 2 ^ places < 2 ^ 64 }
    ensures { result ≡ word * 2 ^ places }
{
    if places < u64::BITS {
        word << places
    } else {
        0
    }
}

/// The word without its last places.
pub(crate) fn shifted_down(word: u64, places: u32) -> u64
    requires { places ≤ 64 }
    ensures { result ≡ word / 2 ^ places }
{
    if places < u64::BITS {
        word >> places
    } else {
        0
    }
}

/// So many ones, with zeros above them.
pub(crate) fn ones(width: u32) -> u64
    requires { width ≤ 64 }
    ensures { result ≡ 2 ^ width - 1 }
{
    if width < u64::BITS {
        (1 << width) - 1
    } else {
        u64::MAX
    }
}
