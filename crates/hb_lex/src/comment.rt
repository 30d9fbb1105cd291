ghost use Rattle.std.specs.Prelude.{◌≡◌, ℕ, ◌+◌, ◌<◌, ◌≤◌, ◌^◌, length, drop, MatchOption, IfSome};
ghost use Rattle.hb_lex.specs.Tokens.{Inside};
ghost use Rattle.hb_lex.specs.Reading.{bound_of, bound_size, depth_after};

use crate::bytes::byte_at;

/// What two bytes are in a comment.
#[derive(Clone, Copy, Debug, PartialEq, Eq)]
enum Bound {
    /// `-}`
    Closes,
    /// `{-`
    Opens,
    Neither,
}

fn bound_at(bytes: &[u8], place: usize) -> Bound
    requires { place < length bytes.now }
    ensures bound { result ≡ bound_of (drop place bytes.now) }
    ensures within { place + bound_size result ≤ length bytes.now }
{
    let first = byte_at(bytes, place);
    let second = byte_at(bytes, place + 1);
    if first == b'-' && second == b'}' {
        Bound::Closes
    } else if first == b'{' && second == b'-' {
        Bound::Opens
    } else {
        Bound::Neither
    }
}

/// How many bytes it takes.
fn size_of(bound: Bound) -> usize
    ensures { result ≡ bound_size bound }
{
    match bound {
        Bound::Closes | Bound::Opens => 2,
        Bound::Neither => 1,
    }
}

/// How many comments are open after it.
fn depth_after(bound: Bound, depth: usize) -> usize
    requires { depth < 2 ^ 32 }
    ensures { result ≡ depth_after bound depth }
{
    match bound {
        Bound::Closes => depth.saturating_sub(1),
        Bound::Opens => depth + 1,
        Bound::Neither => depth,
    }
}

/// How many of the bytes after `{-` end with the `-}` that closes it.
pub fn inside(bytes: &[u8]) -> Option<usize>
    requires { length bytes.now ≤ 1048576 }
    ensures size { MatchOption result ((n : ℕ) → ¬ Inside bytes.now n) (λ n. Inside bytes.now n) }
    ensures within { IfSome result (λ n. n ≤ length bytes.now) }
{
    let mut depth: usize = 1;
    let mut place = 0;
    while place < bytes.len() {
        let bound = bound_at(bytes, place);
        place += size_of(bound);
        depth = depth_after(bound, depth);
        if depth == 0 {
            return Some(place);
        }
    }
    None
}
