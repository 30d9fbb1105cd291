//! A text cut into lines, and a line cut into words.

ghost use Rattle.std.specs.Prelude.{◌≡◌, ◌<◌, ◌∷◌, [], length, position, MatchOption};
ghost use Rattle.std.specs.Str.Lines.{lines, strip_carriage_return};
ghost use Rattle.hb_script.specs.Scripts;
ghost use Rattle.hb_script.specs.Scripts.{words, is_feed, is_no_blank};

fn is_blank(byte: u8) -> bool
    ensures { result ≡ Scripts.is_blank byte }
{
    byte == b' ' || byte == b'\t'
}

fn without_return(line: &[u8]) -> &[u8]
    ensures { result.now ≡ strip_carriage_return line.now }
{
    match line {
        [front @ .., b'\r'] => front,
        _ => line,
    }
}

fn line_end(text: &[u8]) -> Option<usize>
    ensures { result ≡ position is_feed text.now }
{
    text.iter().position(|byte| *byte == b'\n')
}

fn word_start(line: &[u8]) -> Option<usize>
    ensures { result ≡ position is_no_blank line.now }
{
    line.iter().position(|byte| !is_blank(*byte))
}

fn word_end(line: &[u8]) -> Option<usize>
    ensures { result ≡ position Scripts.is_blank line.now }
{
    line.iter().position(|byte| is_blank(*byte))
}

/// The first line, without what ends it, and what follows it.
pub fn first_line(text: &[u8]) -> (&[u8], &[u8])
    requires { 0 < length text.now }
    ensures parts { lines text.now ≡ result.0.now ∷ lines result.1.now }
    ensures shorter { length result.1.now < length text.now }
{
    match line_end(text) {
        None => (text, &[]),
        Some(end) => (without_return(&text[..end]), &text[end + 1..]),
    }
}

/// The first word, and what follows it, if there is one.
pub fn next_word(line: &[u8]) -> Option<(&[u8], &[u8])>
    ensures { MatchOption result (words line.now ≡ []) (λ found. words line.now ≡ found.0.now ∷ words found.1.now) }
{
    let line = &line[word_start(line)?..];
    match word_end(line) {
        None => Some((line, &[])),
        Some(end) => Some((&line[..end], &line[end..])),
    }
}
