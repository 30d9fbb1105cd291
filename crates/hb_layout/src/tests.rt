ghost use Rattle.std.specs.Prelude.{◌≡◌};
ghost use Rattle.hb_tokens.specs.Ends.{ends_once, is_end_kind};

use crate::offside;
use hb_base::{Code, Fault, List, Name, Place, Refusal};
use hb_tokens::{Token, TokenKind, Tokens, Word};
use std::alloc::Global;
use std::test::Fail;

/// The words and operators that the tests use.
const WORDS: [(&[u8], Word); 24] = [
    (b"where", Word::Where),
    (b"let", Word::Let),
    (b"in", Word::In),
    (b"do", Word::Do),
    (b"of", Word::Of),
    (b"case", Word::Case),
    (b"if", Word::If),
    (b"then", Word::Then),
    (b"else", Word::Else),
    (b"module", Word::Module),
    (b"import", Word::Import),
    (b"export", Word::Export),
    (b"deriving", Word::Deriving),
    (b"default", Word::Default),
    (b"type", Word::TypeWord),
    (b"newtype", Word::Newtype),
    (b"foreign", Word::Foreign),
    (b"opaque", Word::Opaque),
    (b"fails", Word::Fails),
    (b"::", Word::DoubleColon),
    (b"=", Word::Equals),
    (b"<-", Word::LeftArrow),
    (b"->", Word::RightArrow),
    (b"|", Word::Bar),
];

/// What a run of bytes is. A name stands by its first byte.
fn kind_of(text: &[u8]) -> TokenKind {
    for (word, kind) in WORDS {
        if word == text {
            return TokenKind::Word(kind);
        }
    }
    let first = text.first().copied().unwrap_or(b'?');
    if first.is_ascii_digit() {
        TokenKind::Number(first as u64)
    } else if first.is_ascii_uppercase() {
        TokenKind::ConId(Name(first as u32))
    } else if first.is_ascii_lowercase() {
        TokenKind::VarId(Name(first as u32))
    } else if text.len() == 1 && first != b'+' {
        TokenKind::Mark(first)
    } else {
        TokenKind::Op(Name(first as u32))
    }
}

/// Bytes of one class make up one token: letters and digits, operator bytes; a mark stands alone, and so does a blank.
fn class_of(byte: u8) -> u8 {
    if byte.is_ascii_alphabetic() || byte.is_ascii_digit() {
        1
    } else if byte == b'+'
        || byte == b'='
        || byte == b'<'
        || byte == b'-'
        || byte == b'>'
        || byte == b':'
    {
        2
    } else {
        0
    }
}

/// The tokens of a source, each with its place.
fn tokens_of(alloc: Global, source: &[u8]) -> Result<Tokens, Fail> {
    let mut list = List::of(Vec::new(alloc));
    let mut text: Vec<u8> = Vec::new(alloc);
    let mut start = Place { line: 1, col: 1 };
    let mut here = start;
    for byte in source {
        let goes_on = match text.as_slice().last() {
            Some(last) => class_of(*byte) != 0 && class_of(*last) == class_of(*byte),
            None => false,
        };
        if !goes_on && !text.is_empty() {
            list.push(Token {
                place: start,
                kind: kind_of(text.as_slice()),
            })?;
            text.clear();
        }
        if *byte != b' ' && *byte != b'\n' {
            if text.is_empty() {
                start = here;
            }
            text.push(*byte)?;
        }
        here = if *byte == b'\n' {
            Place {
                line: here.line.saturating_add(1),
                col: 1,
            }
        } else {
            Place {
                line: here.line,
                col: here.col.saturating_add(1),
            }
        };
    }
    if !text.is_empty() {
        list.push(Token {
            place: start,
            kind: kind_of(text.as_slice()),
        })?;
    }
    list.push(Token {
        place: here,
        kind: TokenKind::End,
    })?;
    Ok(Tokens { list })
}

fn byte_of(name: Name) -> u8 {
    u8::try_from(name.0).unwrap_or(b'?')
}

/// The text of a word.
fn word_text(word: Word) -> &'static [u8] {
    for (text, other) in WORDS {
        if other == word {
            return text;
        }
    }
    b"?"
}

/// The tokens as text, with a blank between two.
fn text_of(alloc: Global, tokens: &Tokens) -> Result<Vec<u8>, Fail> {
    let mut text = Vec::new(alloc);
    for token in tokens.list.as_slice() {
        if !text.is_empty() && token.kind != TokenKind::End {
            text.push(b' ')?;
        }
        match token.kind {
            TokenKind::VarId(name) | TokenKind::ConId(name) | TokenKind::Op(name) => text.push(
                byte_of(name),
            )?,
            TokenKind::Word(word) => text.extend_from_slice(word_text(word))?,
            TokenKind::Mark(mark) => text.push(mark)?,
            TokenKind::Number(_) => text.push(b'1')?,
            _ => (),
        }
    }
    Ok(text)
}

/// A refusal as text.
fn refusal_text(alloc: Global, refusal: &Refusal) -> Result<Vec<u8>, Fail> {
    let mut text = Vec::new(alloc);
    let code = match refusal.code {
        Code::E03 => b"E03",
        Code::E05 => b"E05",
        Code::E29 => b"E29",
        _ => b"E??",
    };
    text.extend_from_slice(code)?;
    text.push(b' ')?;
    text.extend_from_slice(format!(in alloc; "{}", refusal.place.line)?.as_bytes())?;
    text.push(b':')?;
    text.extend_from_slice(format!(in alloc; "{}", refusal.place.col)?.as_bytes())?;
    text.push(b' ')?;
    text.extend_from_slice(refusal.detail.as_slice())?;
    Ok(text)
}

fn is_end(token: &Token) -> bool
    ensures { result ≡ is_end_kind token.now.kind }
{
    match token.kind {
        TokenKind::End => true,
        _ => false,
    }
}

/// The last token, and no other, is the end.
fn ends_once(tokens: &[Token]) -> bool
    ensures { result ≡ ends_once tokens.now }
{
    match tokens {
        [] => false,
        [token] => is_end(token),
        [token, rest @ ..] => !is_end(token) && ends_once(rest),
    }
}

/// What the source is laid out as, or its refusal.
fn answer(alloc: Global, source: &[u8]) -> Result<Vec<u8>, Fail> {
    let tokens = tokens_of(alloc, source)?;
    if tokens.list.len() >= 2_097_152 || !ends_once(tokens.list.as_slice()) {
        return Err(Fail::from("no tokens of a source"));
    }
    match offside(alloc, &tokens) {
        Ok(laid) => text_of(alloc, &laid),
        Err(Fault::Refused(refusal)) => refusal_text(alloc, &refusal),
        Err(Fault::Memory) => Err(Fail::from("out of memory")),
    }
}

#[test]
fn a_block_opens_at_the_token_after_its_word(rt: HostRuntime) -> Result<(), Fail> {
    let rows: [(&[u8], &[u8]); 8] = [
        (b"", b"{ }"),
        (b"x", b"{ x }"),
        (b"x\ny", b"{ x ; y }"),
        (b"{ x }", b"{ x }"),
        (b"f = do\n  x\n  y", b"{ f = do { x ; y } }"),
        (b"f = do x\n       y", b"{ f = do { x ; y } }"),
        (b"f = do do x", b"{ f = do { do { x } } }"),
        (b"f x = y where x = y", b"{ f x = y where { x = y } }"),
    ];
    for (source, wanted) in rows {
        assert_eq!(rt; answer(rt.alloc(), source)?.as_slice(), wanted);
    }
    Ok(())
}

#[test]
fn a_block_with_no_token_right_of_the_enclosing_column_is_empty(
    rt: HostRuntime,
) -> Result<(), Fail> {
    let rows: [(&[u8], &[u8]); 5] = [
        (b"f = do\nx", b"{ f = do { } ; x }"),
        (b"f = do", b"{ f = do { } }"),
        (b"f = do\n  do\n  x", b"{ f = do { do { } ; x } }"),
        (b"f = do\n  do\n x", b"{ f = do { do { } } x }"),
        (b"f = do {\ndo\nx }", b"{ f = do { do { x } } }"),
    ];
    for (source, wanted) in rows {
        assert_eq!(rt; answer(rt.alloc(), source)?.as_slice(), wanted);
    }
    Ok(())
}

#[test]
fn a_bracket_makes_the_enclosing_column_0(rt: HostRuntime) -> Result<(), Fail> {
    let rows: [(&[u8], &[u8]); 3] = [
        (b"f = (do)", b"{ f = ( do { } ) }"),
        (b"f = do\n  g (do\n y)", b"{ f = do { g ( do { y } ) } }"),
        (b"f = do\n  g [x\ny]", b"{ f = do { g [ x y ] } }"),
    ];
    for (source, wanted) in rows {
        assert_eq!(rt; answer(rt.alloc(), source)?.as_slice(), wanted);
    }
    Ok(())
}

#[test]
fn a_line_of_a_lower_column_closes_blocks(rt: HostRuntime) -> Result<(), Fail> {
    let rows: [(&[u8], &[u8]); 6] = [
        (b"f = do\n  x\n    y\n  z\ng", b"{ f = do { x y ; z } ; g }"),
        (b"f = do\n  do\n    x\ny", b"{ f = do { do { x } } ; y }"),
        (b"f = do\n  do\n    x\n  y", b"{ f = do { do { x } ; y } }"),
        (b"f = do\n  do\n    x\n   y", b"{ f = do { do { x } y } }"),
        (b"  x\ny", b"{ x } y"),
        (
            b"f x = case x of\n    a -> b\n  where a = b",
            b"{ f x = case x of { a -> b } where { a = b } }",
        ),
    ];
    for (source, wanted) in rows {
        assert_eq!(rt; answer(rt.alloc(), source)?.as_slice(), wanted);
    }
    Ok(())
}

#[test]
fn a_line_of_the_same_column_is_parted_by_a_semicolon(rt: HostRuntime) -> Result<(), Fail> {
    let rows: [(&[u8], &[u8]); 5] = [
        (b"f = do\n  x\n  + y", b"{ f = do { x ; + y } }"),
        (
            b"f x = case x of\n  a -> b\n  where a = b",
            b"{ f x = case x of { a -> b ; where { a = b } } }",
        ),
        (b"f = do {\n  x\n  y }", b"{ f = do { x y } }"),
        (b"f = x\n{ y }", b"{ f = x ; { y } }"),
        (b"f = do\n{ y }", b"{ f = do { y } }"),
    ];
    for (source, wanted) in rows {
        assert_eq!(rt; answer(rt.alloc(), source)?.as_slice(), wanted);
    }
    Ok(())
}

#[test]
fn then_else_of_and_in_go_on(rt: HostRuntime) -> Result<(), Fail> {
    let rows: [(&[u8], &[u8]); 4] = [
        (
            b"f = do\n  if x\n  then y\n  else z\n  w",
            b"{ f = do { if x then y else z ; w } }",
        ),
        (
            b"f = do\n  case x\n  of y -> z",
            b"{ f = do { case x of { y -> z } } }",
        ),
        (
            b"f = do\n  let x = y\n  in z",
            b"{ f = do { let { x = y } in z } }",
        ),
        (b"f = if x\nthen y", b"{ f = if x then y }"),
    ];
    for (source, wanted) in rows {
        assert_eq!(rt; answer(rt.alloc(), source)?.as_slice(), wanted);
    }
    Ok(())
}

#[test]
fn a_closing_bracket_closes_the_blocks_inside_its_partner(rt: HostRuntime) -> Result<(), Fail> {
    let rows: [(&[u8], &[u8]); 7] = [
        (b"f = (do x)", b"{ f = ( do { x } ) }"),
        (b"f = [do do x] y", b"{ f = [ do { do { x } } ] y }"),
        (b"f = do { do x }", b"{ f = do { do { x } } }"),
        (b"f { x }", b"{ f { x } }"),
        (b"f { do x }", b"{ f { do { x } } }"),
        (b"{ f = do\n x\n y }", b"{ f = do { x ; y } }"),
        (b"f = do { x ; y }\ng", b"{ f = do { x ; y } ; g }"),
    ];
    for (source, wanted) in rows {
        assert_eq!(rt; answer(rt.alloc(), source)?.as_slice(), wanted);
    }
    Ok(())
}

#[test]
fn a_closing_bracket_without_its_partner_is_refused(rt: HostRuntime) -> Result<(), Fail> {
    let rows: [(&[u8], &[u8]); 8] = [
        (b"main = (1]", b"E03 1:10 -"),
        (b"f = )", b"E03 1:5 -"),
        (b"}", b"E03 1:1 -"),
        (b"f = ( x }", b"E03 1:9 -"),
        (b"f = do { x )", b"E03 1:12 -"),
        (b"f { x ]", b"E03 1:7 -"),
        (b"{ x } }", b"E03 1:7 -"),
        (b"f = do\n  x }", b"E03 2:5 -"),
    ];
    for (source, wanted) in rows {
        assert_eq!(rt; answer(rt.alloc(), source)?.as_slice(), wanted);
    }
    Ok(())
}

#[test]
fn what_is_open_at_the_end_is_refused(rt: HostRuntime) -> Result<(), Fail> {
    let rows: [(&[u8], &[u8]); 5] = [
        (b"f = (", b"E03 1:6 -"),
        (b"f = do {", b"E03 1:9 -"),
        (b"f = do { x\n", b"E03 2:1 -"),
        (b"f {", b"E03 1:4 -"),
        (b"f = [do x", b"E03 1:10 -"),
    ];
    for (source, wanted) in rows {
        assert_eq!(rt; answer(rt.alloc(), source)?.as_slice(), wanted);
    }
    Ok(())
}

#[test]
fn commas_semicolons_and_else_close_nothing(rt: HostRuntime) -> Result<(), Fail> {
    let rows: [(&[u8], &[u8]); 3] = [
        (b"f = (do x, y)", b"{ f = ( do { x , y } ) }"),
        (
            b"f = if x then do y else z",
            b"{ f = if x then do { y else z } }",
        ),
        (b"f = do { do x ; y }", b"{ f = do { do { x ; y } } }"),
    ];
    for (source, wanted) in rows {
        assert_eq!(rt; answer(rt.alloc(), source)?.as_slice(), wanted);
    }
    Ok(())
}

#[test]
fn an_in_closes_the_blocks_up_to_its_let(rt: HostRuntime) -> Result<(), Fail> {
    let rows: [(&[u8], &[u8]); 9] = [
        (b"f = let x = y in z", b"{ f = let { x = y } in z }"),
        (
            b"f = let x = y\n        in z",
            b"{ f = let { x = y } in z }",
        ),
        (
            b"f = let x = case y of z -> do w in v",
            b"{ f = let { x = case y of { z -> do { w } } } in v }",
        ),
        (
            b"f = let x = let y = z in w in v",
            b"{ f = let { x = let { y = z } in w } in v }",
        ),
        (b"in", b"E03 1:1 -"),
        (b"f = do x in y", b"E03 1:10 -"),
        (b"f = let x = (y in z)", b"E03 1:16 -"),
        (b"f = let x = do { y in z }", b"E03 1:20 -"),
        (b"f = let { x = y in z }", b"E03 1:17 -"),
    ];
    for (source, wanted) in rows {
        assert_eq!(rt; answer(rt.alloc(), source)?.as_slice(), wanted);
    }
    Ok(())
}

#[test]
fn a_let_block_that_closes_leaves_a_due_mark_for_an_in(rt: HostRuntime) -> Result<(), Fail> {
    let rows: [(&[u8], &[u8]); 9] = [
        (
            b"f = let x = y\n        a = b\n    in z",
            b"{ f = let { x = y ; a = b } in z }",
        ),
        (b"f = let { x = y } in z", b"{ f = let { x = y } in z }"),
        (
            b"f = let x = let y = z\n    in w",
            b"{ f = let { x = let { y = z } } in w }",
        ),
        (
            b"f = let { x = y } let { a = b } in in z",
            b"{ f = let { x = y } let { a = b } in in z }",
        ),
        (b"f = let { x = y } let { a = b } in in in", b"E03 1:39 -"),
        (b"f = let x = y in z in w", b"E03 1:20 -"),
        (
            b"f = let { x = y } do z in w",
            b"{ f = let { x = y } do { z } in w }",
        ),
        (b"f = let\nin z", b"{ f = let { } in z }"),
        (
            b"f = do\n  let x = y\n  z",
            b"{ f = do { let { x = y } ; z } }",
        ),
    ];
    for (source, wanted) in rows {
        assert_eq!(rt; answer(rt.alloc(), source)?.as_slice(), wanted);
    }
    Ok(())
}

#[test]
fn a_semicolon_a_bracket_or_the_end_of_a_block_removes_due_marks(
    rt: HostRuntime,
) -> Result<(), Fail> {
    let rows: [(&[u8], &[u8]); 8] = [
        (b"f = do\n  let x = y\n  z\n  in w", b"E03 4:3 -"),
        (b"f = let { x = y } ; in z", b"E03 1:21 -"),
        (b"f = let\ng in", b"E03 2:3 -"),
        (b"f = (let x = y) in z", b"E03 1:17 -"),
        (b"f = do { let { x = y } } in z", b"E03 1:26 -"),
        (b"f = do\n    let x = y\n  in z", b"E03 3:3 -"),
        (b"f = let { x = y } (; in z)", b"E03 1:22 -"),
        (
            b"f = let { x = y } ( z ) in w",
            b"{ f = let { x = y } ( z ) in w }",
        ),
    ];
    for (source, wanted) in rows {
        assert_eq!(rt; answer(rt.alloc(), source)?.as_slice(), wanted);
    }
    Ok(())
}

#[test]
fn left_out_words_and_forms_come_first(rt: HostRuntime) -> Result<(), Fail> {
    let rows: [(&[u8], &[u8]); 16] = [
        (b"import O", b"E05 1:1 import"),
        (b"x = module", b"E05 1:5 module"),
        (b"export", b"E05 1:1 export"),
        (b"deriving", b"E05 1:1 deriving"),
        (b"default", b"E05 1:1 default"),
        (b"type", b"E05 1:1 type"),
        (b"newtype", b"E05 1:1 newtype"),
        (b"foreign", b"E05 1:1 foreign"),
        (b"opaque", b"E05 1:1 opaque"),
        (b"f\n fails", b"E05 2:2 fails"),
        (b"f = if\n<- x", b"E05 2:1 if <-"),
        (b"f = case <- x", b"E05 1:10 case <-"),
        (
            b"f = do\n  x <- if y then z else w",
            b"{ f = do { x <- if y then z else w } }",
        ),
        (b"import type", b"E05 1:1 import"),
        (b"main = (1] import O", b"E05 1:12 import"),
        (b"in\ncase <-", b"E05 2:6 case <-"),
    ];
    for (source, wanted) in rows {
        assert_eq!(rt; answer(rt.alloc(), source)?.as_slice(), wanted);
    }
    Ok(())
}

/// The text so many times.
fn times(alloc: Global, text: &[u8], count: usize) -> Result<Vec<u8>, Fail> {
    let mut bytes = Vec::new(alloc);
    for _ in 0..count {
        bytes.extend_from_slice(text)?;
    }
    Ok(bytes)
}

/// A definition with so many brackets, with their partners.
fn brackets(alloc: Global, count: usize) -> Result<Vec<u8>, Fail> {
    let mut bytes = Vec::from_slice(alloc, b"main :: M U\nmain = ")?;
    bytes.extend_from_slice(times(alloc, b"(", count)?.as_slice())?;
    bytes.push(b'x')?;
    bytes.extend_from_slice(times(alloc, b")", count)?.as_slice())?;
    bytes.push(b'\n')?;
    Ok(bytes)
}

/// So many `do`s in one line, and then a text.
fn blocks(alloc: Global, count: usize, end: &[u8]) -> Result<Vec<u8>, Fail> {
    let mut bytes = times(alloc, b"do ", count)?;
    bytes.extend_from_slice(end)?;
    Ok(bytes)
}

/// The text begins so.
fn begins_with(text: &[u8], start: &[u8]) -> bool {
    text.starts_with(start)
}

#[test]
fn two_hundred_brackets_and_blocks_may_be_open(rt: HostRuntime) -> Result<(), Fail> {
    let alloc = rt.alloc();
    let laid = answer(alloc, brackets(alloc, 199)?.as_slice())?;
    assert!(rt; begins_with(laid.as_slice(), b"{ m :: M U ; m = ( ( ("));
    assert_eq!(rt;
        answer(alloc, brackets(alloc, 200)?.as_slice())?.as_slice(),
        b"E29 2:207 brackets".as_slice()
    );
    assert_eq!(rt;
        answer(alloc, brackets(alloc, 250)?.as_slice())?.as_slice(),
        b"E29 2:207 brackets".as_slice()
    );
    let laid = answer(alloc, blocks(alloc, 199, b"x")?.as_slice())?;
    assert!(rt; begins_with(laid.as_slice(), b"{ do { do { do {"));
    assert_eq!(rt;
        answer(alloc, blocks(alloc, 200, b"x")?.as_slice())?.as_slice(),
        b"E29 1:601 brackets".as_slice()
    );
    Ok(())
}

#[test]
fn an_empty_block_is_open_for_a_moment(rt: HostRuntime) -> Result<(), Fail> {
    let alloc = rt.alloc();
    let laid = answer(alloc, blocks(alloc, 199, b"\nx")?.as_slice())?;
    assert!(rt; begins_with(laid.as_slice(), b"{ do { do { do {"));
    assert_eq!(rt;
        answer(alloc, blocks(alloc, 200, b"\nx")?.as_slice())?.as_slice(),
        b"E29 2:1 brackets".as_slice()
    );
    assert_eq!(rt;
        answer(alloc, blocks(alloc, 200, b"")?.as_slice())?.as_slice(),
        b"E29 1:601 brackets".as_slice()
    );
    Ok(())
}

#[test]
fn a_bracket_without_its_partner_comes_before_too_many(rt: HostRuntime) -> Result<(), Fail> {
    let alloc = rt.alloc();
    let mut source = Vec::from_slice(alloc, b"main :: M U\nmain = ")?;
    source.extend_from_slice(times(alloc, b"(", 250)?.as_slice())?;
    assert_eq!(rt;
        answer(alloc, source.as_slice())?.as_slice(),
        b"E03 2:258 -".as_slice()
    );
    source.push(b']')?;
    assert_eq!(rt;
        answer(alloc, source.as_slice())?.as_slice(),
        b"E03 2:258 -".as_slice()
    );
    source.extend_from_slice(b" import")?;
    assert_eq!(rt;
        answer(alloc, source.as_slice())?.as_slice(),
        b"E05 2:260 import".as_slice()
    );
    Ok(())
}

#[test]
fn an_inserted_token_has_the_place_of_the_token_after_it(rt: HostRuntime) -> Result<(), Fail> {
    let alloc = rt.alloc();
    let tokens = tokens_of(alloc, b" f = do\n    x\n    y\n g\n")?;
    if !ends_once(tokens.list.as_slice()) || tokens.list.len() >= 100 {
        return Err(Fail::from("no tokens of a source"));
    }
    let Ok(laid) = offside(alloc, &tokens) else {
        return Err(Fail::from("refused"));
    };
    let wanted = [
        (1, 2, b'{'),
        (1, 2, b'f'),
        (1, 4, b'='),
        (1, 6, b'd'),
        (2, 5, b'{'),
        (2, 5, b'x'),
        (3, 5, b';'),
        (3, 5, b'y'),
        (4, 2, b'}'),
        (4, 2, b';'),
        (4, 2, b'g'),
        (5, 1, b'}'),
        (5, 1, b'.'),
    ];
    assert_eq!(rt; laid.list.len(), wanted.len());
    for (token, (line, col, byte)) in laid.list.as_slice().iter().zip(wanted) {
        assert_eq!(rt; token.place, Place { line, col });
        let mark = match token.kind {
            TokenKind::Mark(mark) => mark,
            TokenKind::VarId(name) => byte_of(name),
            TokenKind::Word(word) => word_text(word).first().copied().unwrap_or(b'?'),
            _ => b'.',
        };
        assert_eq!(rt; mark, byte);
    }
    Ok(())
}
