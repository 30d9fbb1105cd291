use crate::lex;
use hb_base::{Code, Fault, Name, Names, Refusal, fixed};
use hb_tokens::{Token, TokenKind, Tokens, Word};
use std::alloc::Global;
use std::test::Fail;

/// What the source gives, with a fresh table.
fn read(alloc: Global, source: &[u8], names: &mut Names) -> Result<Result<Tokens, Refusal>, Fail> {
    if source.len() > 1_048_576 || names.count() >= 0x8000_0000 {
        return Err(Fail::from("too much"));
    }
    match lex(alloc, source, names) {
        Ok(tokens) => Ok(Ok(tokens)),
        Err(Fault::Refused(refusal)) => Ok(Err(refusal)),
        Err(Fault::Memory) => Err(Fail::from("out of memory")),
    }
}

fn put_number(alloc: Global, text: &mut Vec<u8>, number: u128) -> Result<(), Fail> {
    text.extend_from_slice(format!(in alloc; "{number}")?.as_bytes())?;
    Ok(())
}

fn put_name(text: &mut Vec<u8>, names: &Names, name: Name) -> Result<(), Fail> {
    match names.text(name) {
        Some(found) => text.extend_from_slice(found)?,
        None => return Err(Fail::from("no such name")),
    }
    Ok(())
}

/// A name as it is, an operator and a word in quotes, a number with `#`, a bit literal as width and value.
fn put_kind(alloc: Global, text: &mut Vec<u8>, names: &Names, kind: TokenKind) -> Result<(), Fail> {
    match kind {
        TokenKind::VarId(name) | TokenKind::ConId(name) => put_name(text, names, name)?,
        TokenKind::Op(name) => {
            text.push(b'<')?;
            put_name(text, names, name)?;
            text.push(b'>')?;
        }
        TokenKind::Word(word) => {
            text.push(b'"')?;
            text.extend_from_slice(format!(in alloc; "{word:?}")?.as_bytes())?;
            text.push(b'"')?;
        }
        TokenKind::Number(value) => {
            text.push(b'#')?;
            put_number(alloc, text, u128::from(value))?;
        }
        TokenKind::Bits(width, value) => {
            put_number(alloc, text, u128::from(width))?;
            text.push(b'\'')?;
            put_number(alloc, text, value)?;
        }
        TokenKind::Mark(byte) => text.push(byte)?,
        TokenKind::Dot => text.extend_from_slice(b"dot")?,
        TokenKind::End => text.extend_from_slice(b"end")?,
    }
    Ok(())
}

fn put_place(alloc: Global, text: &mut Vec<u8>, line: u32, col: u32) -> Result<(), Fail> {
    put_number(alloc, text, u128::from(line))?;
    text.push(b':')?;
    put_number(alloc, text, u128::from(col))?;
    text.push(b' ')?;
    Ok(())
}

fn refusal_text(alloc: Global, refusal: &Refusal) -> Result<Vec<u8>, Fail> {
    let mut text = Vec::new(alloc);
    let code: &[u8] = match refusal.code {
        Code::E01 => b"E01 ",
        Code::E02 => b"E02 ",
        _ => b"? ",
    };
    text.extend_from_slice(code)?;
    put_place(alloc, &mut text, refusal.place.line, refusal.place.col)?;
    text.extend_from_slice(refusal.detail.as_slice())?;
    Ok(text)
}

/// The kinds of the tokens with a space between, or the refusal.
fn kinds(alloc: Global, source: &[u8]) -> Result<Vec<u8>, Fail> {
    let mut names = Names::new(alloc)?;
    let tokens = match read(alloc, source, &mut names)? {
        Ok(tokens) => tokens,
        Err(refusal) => return refusal_text(alloc, &refusal),
    };
    let mut text = Vec::new(alloc);
    for token in tokens.list.as_slice() {
        if token.kind != TokenKind::End {
            put_kind(alloc, &mut text, &names, token.kind)?;
            text.push(b' ')?;
        }
    }
    Ok(text)
}

/// The tokens with their places.
fn places(alloc: Global, source: &[u8]) -> Result<Vec<u8>, Fail> {
    let mut names = Names::new(alloc)?;
    let tokens = match read(alloc, source, &mut names)? {
        Ok(tokens) => tokens,
        Err(refusal) => return refusal_text(alloc, &refusal),
    };
    let mut text = Vec::new(alloc);
    for token in tokens.list.as_slice() {
        put_place(alloc, &mut text, token.place.line, token.place.col)?;
        put_kind(alloc, &mut text, &names, token.kind)?;
        text.push(b' ')?;
    }
    Ok(text)
}

/// A letter, and a digit so many times.
fn long(alloc: Global, letter: &[u8], digit: u8, number: usize) -> Result<Vec<u8>, Fail> {
    let mut text = Vec::from_slice(alloc, letter)?;
    for _ in 0..number {
        text.push(digit)?;
    }
    Ok(text)
}

#[test]
fn numbers_have_four_bases_and_end_at_2_to_64(rt: HostRuntime) -> Result<(), Fail> {
    let rows: &[(&[u8], &[u8])] = &[
        (b"0", b"#0 "),
        (b"007", b"#7 "),
        (b"18446744073709551615", b"#18446744073709551615 "),
        (b"18446744073709551616", b"E02 1:1 literal"),
        (
            b"340282366920938463463374607431768211456",
            b"E02 1:1 literal",
        ),
        (b"0018446744073709551615", b"#18446744073709551615 "),
        (b"0xFF 0xff 0xfF", b"#255 #255 #255 "),
        (b"0o17 0b101 0x0", b"#15 #5 #0 "),
        (b"0xFFFFFFFFFFFFFFFF", b"#18446744073709551615 "),
        (b"0x10000000000000000", b"E02 1:1 literal"),
        (b"0x0000000000000000F", b"#15 "),
        (b"0o1777777777777777777777", b"#18446744073709551615 "),
        (b"0o2000000000000000000000", b"E02 1:1 literal"),
        (b"main = 12ab", b"E02 1:8 literal"),
        (b"x 1_000", b"E02 1:3 literal"),
        (b"12A", b"E02 1:1 literal"),
        (b"0x", b"E02 1:1 literal"),
        (b"0xg", b"E02 1:1 literal"),
        (b"0b2", b"E02 1:1 literal"),
        (b"0b12", b"E02 1:1 literal"),
        (b"0o8", b"E02 1:1 literal"),
        (b"0X1", b"E02 1:1 literal"),
        (b"0B1", b"E02 1:1 literal"),
        (b"0x1_0", b"E02 1:1 literal"),
        (b"00x1", b"E02 1:1 literal"),
        (b"12'", b"E02 1:3 quote"),
        (b"12.5", b"#12 <.> #5 "),
        (b"12+1(2)", b"#12 <+> #1 ( #2 ) "),
    ];
    for (source, wanted) in rows {
        assert_eq!(rt; kinds(rt.alloc(), source)?.as_slice(), *wanted);
    }
    Ok(())
}

#[test]
fn bit_literals_are_whole_words(rt: HostRuntime) -> Result<(), Fail> {
    let rows: &[(&[u8], &[u8])] = &[
        (b"B0 B101 XF", b"1'0 3'5 4'15 "),
        (b"O17 X4E X4_E", b"6'15 8'78 8'78 "),
        (b"B0000_0001 B1_0_1", b"8'1 3'5 "),
        (b"B O X X4e B_1 B1_ B0__1", b"B O X X4e B_1 B1_ B0__1 "),
        (b"B2 O8 XG B1a B1' B10Z Z01", b"B2 O8 XG B1a B1' B10Z Z01 "),
    ];
    for (source, wanted) in rows {
        assert_eq!(rt; kinds(rt.alloc(), source)?.as_slice(), *wanted);
    }
    Ok(())
}

#[test]
fn bit_literals_have_at_most_128_bits(rt: HostRuntime) -> Result<(), Fail> {
    let refused: &[u8] = b"E02 1:1 literal";
    let rows: &[(&[u8], u8, usize, &[u8])] = &[
        (
            b"B",
            b'1',
            128,
            b"128'340282366920938463463374607431768211455 ",
        ),
        (b"B", b'1', 129, refused),
        (b"B", b'0', 128, b"128'0 "),
        (b"B", b'0', 129, refused),
        (
            b"O",
            b'7',
            42,
            b"126'85070591730234615865843651857942052863 ",
        ),
        (b"O", b'7', 43, refused),
        (
            b"X",
            b'F',
            32,
            b"128'340282366920938463463374607431768211455 ",
        ),
        (b"X", b'F', 33, refused),
        (b"0b", b'1', 64, b"#18446744073709551615 "),
        (b"0b", b'1', 65, refused),
    ];
    for (letter, digit, number, wanted) in rows {
        let source = long(rt.alloc(), letter, *digit, *number)?;
        assert_eq!(rt; kinds(rt.alloc(), source.as_slice())?.as_slice(), *wanted);
    }
    Ok(())
}

#[test]
fn a_selection_dot_is_glued_to_both_sides(rt: HostRuntime) -> Result<(), Fail> {
    let rows: &[(&[u8], &[u8])] = &[
        (b"f.x", b"f dot x "),
        (b"f.x.y", b"f dot x dot y "),
        (b"f'.x A.x __.x", b"f' dot x A dot x __ dot x "),
        (b"(f).x", b"( f ) dot x "),
        (b"a[].x", b"a [ ] dot x "),
        (b"f.where", b"f dot \"Where\" "),
        (b"f . x", b"f <.> x "),
        (b"f. x", b"f <.> x "),
        (b"f .x", b"f <.> x "),
        (b"f\n.x", b"f <.> x "),
        (b"f\t.x", b"f <.> x "),
        (b"f{--}.x", b"f <.> x "),
        (b"f.X", b"f <.> X "),
        (b"f._x", b"f <.> _x "),
        (b"f.1", b"f <.> #1 "),
        (b"f..x", b"f <..> x "),
        (b"f.+x", b"f <.+> x "),
        (b"_.x", b"_ <.> x "),
        (b"1.x", b"#1 <.> x "),
        (b"X4E.x", b"8'78 <.> x "),
        (b"where.x", b"\"Where\" <.> x "),
        (b"{}.x", b"{ } <.> x "),
        (b"`f`.x", b"` f ` <.> x "),
        (b".x", b"<.> x "),
        (b"f.", b"f <.> "),
    ];
    for (source, wanted) in rows {
        assert_eq!(rt; kinds(rt.alloc(), source)?.as_slice(), *wanted);
    }
    Ok(())
}

#[test]
fn comments_end_with_the_line_or_nest(rt: HostRuntime) -> Result<(), Fail> {
    let rows: &[(&[u8], &[u8])] = &[
        (b"-- x\ny", b"y "),
        (b"---x", b""),
        (b"a--b", b"a "),
        (b"-- {-\ny", b"y "),
        (b"--> --| |-- - -", b"<-->> <--|> <|--> <-> <-> "),
        (b"{- -}x", b"x "),
        (b"{--}x", b"x "),
        (b"{---}x", b"x "),
        (b"{-}-}x", b"x "),
        (b"{-{--}-}x", b"x "),
        (b"{- {- -} -- -}x", b"x "),
        (b"{- {- {- -} -} -} {--} x", b"x "),
        (b"-}", b"<-> } "),
        (b"{ - }", b"{ <-> } "),
        (b"{-", b"E02 1:1 comment"),
        (b"{-}", b"E02 1:1 comment"),
        (b"f{-", b"E02 1:2 comment"),
        (b"{- {- -}", b"E02 1:1 comment"),
        (b"{- {- -} -", b"E02 1:1 comment"),
        (b"x {- -} {-", b"E02 1:9 comment"),
        (b"{- -}\n {- {-", b"E02 2:2 comment"),
    ];
    for (source, wanted) in rows {
        assert_eq!(rt; kinds(rt.alloc(), source)?.as_slice(), *wanted);
    }
    Ok(())
}

#[test]
fn operators_are_longest_runs_and_seven_are_reserved(rt: HostRuntime) -> Result<(), Fail> {
    let rows: &[(&[u8], &[u8])] = &[
        (
            b"! # $ % & * + . / < > ? @ ^ - ~ :",
            b"<!> <#> <$> <%> <&> <*> <+> <.> </> <<> <>> <?> <@> <^> <-> <~> <:> ",
        ),
        (
            b":: = \\ | <- -> =>",
            b"\"DoubleColon\" \"Equals\" \"Backslash\" \"Bar\" \"LeftArrow\" \"RightArrow\" \"DoubleArrow\" ",
        ),
        (
            b"::: == \\\\ || <-- <= >=",
            b"<:::> <==> <\\\\> <||> <<--> <<=> <>=> ",
        ),
        (b"\\x->x", b"\"Backslash\" x \"RightArrow\" x "),
        (b"x .&. y", b"x <.&.> y "),
        (b"()[]{},;`", b"( ) [ ] { } , ; ` "),
    ];
    for (source, wanted) in rows {
        assert_eq!(rt; kinds(rt.alloc(), source)?.as_slice(), *wanted);
    }
    Ok(())
}

#[test]
fn words_are_no_names(rt: HostRuntime) -> Result<(), Fail> {
    let rows: &[(&[u8], &[u8])] = &[
        (
            b"area bitdata struct port class instance data infix infixl infixr where let",
            b"\"Area\" \"Bitdata\" \"Struct\" \"Port\" \"Class\" \"Instance\" \"Data\" \"Infix\" \"Infixl\" \"Infixr\" \"Where\" \"Let\" ",
        ),
        (
            b"in do of case if then else each fields aligned at",
            b"\"In\" \"Do\" \"Of\" \"Case\" \"If\" \"Then\" \"Else\" \"Each\" \"Fields\" \"Aligned\" \"At\" ",
        ),
        (
            b"module import export deriving default type newtype foreign opaque fails",
            b"\"Module\" \"Import\" \"Export\" \"Deriving\" \"Default\" \"TypeWord\" \"Newtype\" \"Foreign\" \"Opaque\" \"Fails\" ",
        ),
        (
            b"In ins _in in' where1 Where",
            b"In ins _in in' where1 Where ",
        ),
        (b"x _ _x x_1' aB9 a'b A'", b"x _ _x x_1' aB9 a'b A' "),
        (b"'a", b"E02 1:1 quote"),
        (b"a \"b\"", b"E02 1:3 quote"),
        (b"12ab 'c", b"E02 1:1 literal"),
    ];
    for (source, wanted) in rows {
        assert_eq!(rt; kinds(rt.alloc(), source)?.as_slice(), *wanted);
    }
    Ok(())
}

#[test]
fn a_byte_that_no_source_has_comes_first(rt: HostRuntime) -> Result<(), Fail> {
    let rows: &[(&[u8], &[u8])] = &[
        (b"\x80", b"E01 1:1 80"),
        (b"\x00", b"E01 1:1 00"),
        (b"x\x7F\x80", b"E01 1:2 7F"),
        (b"ab\n\tc\xC3", b"E01 2:10 C3"),
        (b"12ab \x1F", b"E01 1:6 1F"),
        (b"{- \xFF", b"E01 1:4 FF"),
        (b"-- \x0B", b"E01 1:4 0B"),
        (b"x ~\t\r\n", b"x <~> "),
    ];
    for (source, wanted) in rows {
        assert_eq!(rt; kinds(rt.alloc(), source)?.as_slice(), *wanted);
    }
    Ok(())
}

#[test]
fn places_count_lines_columns_and_tab_stops_of_8(rt: HostRuntime) -> Result<(), Fail> {
    let rows: &[(&[u8], &[u8])] = &[
        (b"", b"1:1 end "),
        (b"x", b"1:1 x 1:2 end "),
        (b"x\n", b"1:1 x 2:1 end "),
        (b"x\t", b"1:1 x 1:9 end "),
        (b"\tx", b"1:9 x 1:10 end "),
        (b"ab\tx", b"1:1 ab 1:9 x 1:10 end "),
        (b"abcdefg\tx", b"1:1 abcdefg 1:9 x 1:10 end "),
        (b"abcdefgh\tx", b"1:1 abcdefgh 1:17 x 1:18 end "),
        (b"\t\tx", b"1:17 x 1:18 end "),
        (b"\rx\r\ny", b"1:2 x 2:1 y 2:2 end "),
        (b"-- c", b"1:5 end "),
        (b"{-\n\t-}x", b"2:11 x 2:12 end "),
        (b"f.x\n  +1", b"1:1 f 1:2 dot 1:3 x 2:3 <+> 2:4 #1 2:5 end "),
    ];
    for (source, wanted) in rows {
        assert_eq!(rt; places(rt.alloc(), source)?.as_slice(), *wanted);
    }
    Ok(())
}

fn has_kind(tokens: &Tokens, place: usize, kind: TokenKind) -> bool {
    match tokens.list.as_slice().get(place) {
        Some(token) => token.kind == kind,
        None => false,
    }
}

fn tokens_of(alloc: Global, source: &[u8], names: &mut Names) -> Result<Tokens, Fail> {
    match read(alloc, source, names)? {
        Ok(tokens) => Ok(tokens),
        Err(_refusal) => Err(Fail::from("refused")),
    }
}

fn is_refused(alloc: Global, source: &[u8], names: &mut Names) -> Result<bool, Fail> {
    match read(alloc, source, names)? {
        Ok(_tokens) => Ok(false),
        Err(_refusal) => Ok(true),
    }
}

fn is_named(names: &Names, name: Name, text: &[u8]) -> bool {
    match names.text(name) {
        Some(found) => found == text,
        None => false,
    }
}

#[test]
fn each_name_is_taken_in_once(rt: HostRuntime) -> Result<(), Fail> {
    let mut names = Names::new(rt.alloc())?;
    let tokens = tokens_of(rt.alloc(), b"f main g f where + .x 1 X4E", &mut names)?;
    let wanted: [TokenKind; 11] = [
        TokenKind::VarId(Name(71)),
        TokenKind::VarId(fixed::MAIN),
        TokenKind::VarId(Name(72)),
        TokenKind::VarId(Name(71)),
        TokenKind::Word(Word::Where),
        TokenKind::Op(fixed::PLUS),
        TokenKind::Op(Name(73)),
        TokenKind::VarId(Name(74)),
        TokenKind::Number(1),
        TokenKind::Bits(8, 78),
        TokenKind::End,
    ];
    assert_eq!(rt; tokens.list.len(), 11);
    for (place, kind) in wanted.iter().enumerate() {
        assert!(rt; has_kind(&tokens, place, *kind));
    }
    assert_eq!(rt; names.count(), 75);
    assert!(rt; is_refused(rt.alloc(), b"new g 1a", &mut names)?);
    assert!(rt; is_named(&names, Name(72), b"g"));
    Ok(())
}
