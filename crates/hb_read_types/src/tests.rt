use crate::context_reader::ContextReader;
use crate::node::TypeNode;
use crate::pred_reader::PredReader;
use crate::qualified_reader::QualifiedReader;
use crate::type_reader::TypeReader;
use hb_base::{List, Memory, Name, Place, fixed};
use hb_tokens::{Token, TokenKind, Word};
use std::alloc::Global;
use std::test::Fail;

/// The token that one byte stands for: a letter for a name, `>` for an arrow, `<` for `<=`, `#` for `=>`.
fn kind(byte: u8) -> TokenKind {
    match byte {
        b'a'..=b'z' => TokenKind::VarId(Name(u32::from(byte))),
        b'A'..=b'Z' => TokenKind::ConId(Name(u32::from(byte))),
        b'0'..=b'9' => TokenKind::Number(u64::from(byte - b'0')),
        b'_' => TokenKind::VarId(fixed::WILDCARD),
        b'+' => TokenKind::Op(fixed::PLUS),
        b'*' => TokenKind::Op(fixed::TIMES),
        b'^' => TokenKind::Op(fixed::POWER),
        b'<' => TokenKind::Op(fixed::AT_MOST),
        b'/' => TokenKind::Op(fixed::SLASH),
        b'>' => TokenKind::Word(Word::RightArrow),
        b'=' => TokenKind::Word(Word::Equals),
        b'.' => TokenKind::Dot,
        b'#' => TokenKind::Word(Word::DoubleArrow),
        _ => TokenKind::Mark(byte),
    }
}

fn at(col: u32) -> Place {
    Place { line: 1, col }
}

fn var(col: u32, byte: u8) -> TypeNode {
    TypeNode::Var(at(col), Name(u32::from(byte)))
}

fn con(col: u32, byte: u8) -> TypeNode {
    TypeNode::Con(at(col), Name(u32::from(byte)))
}

fn token(i: usize, byte: u8) -> Token {
    Token {
        place: at((i % 100) as u32 + 1),
        kind: kind(byte),
    }
}

/// How many of the tokens the reader takes.
fn take_all(reader: &mut TypeReader, text: &[u8]) -> Result<usize, Memory> {
    for (i, byte) in text.iter().enumerate() {
        if !reader.take(&token(i, *byte))? {
            return Ok(i);
        }
    }
    Ok(text.len())
}

/// How many tokens are taken of what should be a type.
fn taken(alloc: Global, text: &[u8]) -> Result<usize, Memory> {
    let mut reader = TypeReader::of_type(alloc);
    take_all(&mut reader, text)
}

/// How many tokens are taken of what should be a type that stands by itself.
fn taken_alone(alloc: Global, text: &[u8]) -> Result<usize, Memory> {
    let mut reader = TypeReader::of_atype(alloc);
    take_all(&mut reader, text)
}

/// The nodes of the type that the tokens taken are.
fn read(alloc: Global, text: &[u8]) -> Result<Option<List<TypeNode>>, Memory> {
    let mut reader = TypeReader::of_type(alloc);
    take_all(&mut reader, text)?;
    reader.finish()
}

/// How many tokens are taken of what should be a predicate, and its nodes.
fn read_pred(alloc: Global, text: &[u8]) -> Result<(usize, Option<List<TypeNode>>), Memory> {
    let mut reader = PredReader::new(alloc);
    let mut taken = 0;
    for (i, byte) in text.iter().enumerate() {
        if !reader.take(&token(i, *byte))? {
            break;
        }
        taken = i + 1;
    }
    let nodes = reader.finish()?;
    Ok((taken, nodes))
}

/// How many tokens are taken of what should be a context, and its nodes.
fn read_context(alloc: Global, text: &[u8]) -> Result<(usize, Option<List<TypeNode>>), Memory> {
    let mut reader = ContextReader::new(alloc);
    let mut taken = 0;
    for (i, byte) in text.iter().enumerate() {
        if !reader.take(&token(i, *byte))? {
            break;
        }
        taken = i + 1;
    }
    let nodes = reader.finish()?;
    Ok((taken, nodes))
}

/// How many tokens are taken of a type that may have a context, and the nodes.
fn read_qualified(alloc: Global, text: &[u8]) -> Result<(usize, Option<List<TypeNode>>), Memory> {
    let mut reader = QualifiedReader::new(alloc)?;
    let mut taken = 0;
    for (i, byte) in text.iter().enumerate() {
        if !reader.take(&token(i, *byte))? {
            break;
        }
        taken = i + 1;
    }
    let nodes = reader.finish()?;
    Ok((taken, nodes))
}

/// How many tokens are taken of a type that may have a context.
fn taken_qualified(alloc: Global, text: &[u8]) -> Result<usize, Memory> {
    let (taken, _) = read_qualified(alloc, text)?;
    Ok(taken)
}

/// How many tokens are taken of what should be a context.
fn taken_context(alloc: Global, text: &[u8]) -> Result<usize, Memory> {
    let (taken, _) = read_context(alloc, text)?;
    Ok(taken)
}

/// How many tokens are taken of what should be a predicate.
fn taken_pred(alloc: Global, text: &[u8]) -> Result<usize, Memory> {
    let (taken, _) = read_pred(alloc, text)?;
    Ok(taken)
}

/// Whether the tokens are all taken, and are a whole predicate.
fn is_pred(alloc: Global, text: &[u8]) -> Result<bool, Memory> {
    let (taken, nodes) = read_pred(alloc, text)?;
    Ok(taken == text.len() && nodes.is_some())
}

/// Whether the tokens are all taken, and are a whole context.
fn is_context(alloc: Global, text: &[u8]) -> Result<bool, Memory> {
    let (taken, nodes) = read_context(alloc, text)?;
    Ok(taken == text.len() && nodes.is_some())
}

#[test]
fn arrows_lead_to_the_right(rt: HostRuntime) -> Result<(), Fail> {
    let nodes = read(rt.alloc(), b"a>b>C")?;
    assert!(rt; nodes.is_some());
    if let Some(nodes) = nodes {
        let want = [
            var(1, b'a'),
            var(3, b'b'),
            con(5, b'C'),
            TypeNode::Arrow(at(3)),
            TypeNode::Arrow(at(1)),
        ];
        assert_eq!(rt; nodes.as_slice(), want.as_slice());
    }
    Ok(())
}

#[test]
fn types_are_applied_from_the_left(rt: HostRuntime) -> Result<(), Fail> {
    let nodes = read(rt.alloc(), b"(Ma)8()")?;
    assert!(rt; nodes.is_some());
    if let Some(nodes) = nodes {
        let want = [
            con(2, b'M'),
            var(3, b'a'),
            TypeNode::Apply(at(2)),
            TypeNode::Number(at(5), 8),
            TypeNode::Apply(at(1)),
            TypeNode::Unit(at(6)),
            TypeNode::Apply(at(1)),
        ];
        assert_eq!(rt; nodes.as_slice(), want.as_slice());
    }
    Ok(())
}

#[test]
fn pairs_and_sums_stand_at_their_brackets(rt: HostRuntime) -> Result<(), Fail> {
    let nodes = read(rt.alloc(), b"B(n+2)>(a>b,c)")?;
    assert!(rt; nodes.is_some());
    if let Some(nodes) = nodes {
        let want = [
            con(1, b'B'),
            var(3, b'n'),
            TypeNode::Number(at(5), 2),
            TypeNode::Sum(at(2)),
            TypeNode::Apply(at(1)),
            var(9, b'a'),
            var(11, b'b'),
            TypeNode::Arrow(at(9)),
            var(13, b'c'),
            TypeNode::Pair(at(8)),
            TypeNode::Arrow(at(1)),
        ];
        assert_eq!(rt; nodes.as_slice(), want.as_slice());
    }
    Ok(())
}

#[test]
fn the_first_token_that_cannot_stand_is_refused(rt: HostRuntime) -> Result<(), Fail> {
    let alloc = rt.alloc();
    assert_eq!(rt; taken(alloc, b"a+b")?, 1);
    assert_eq!(rt; taken(alloc, b"(a+b+c)")?, 4);
    assert_eq!(rt; taken(alloc, b"(a>b+c)")?, 4);
    assert_eq!(rt; taken(alloc, b"(a+b>c)")?, 4);
    assert_eq!(rt; taken(alloc, b"(a+b,c)")?, 4);
    assert_eq!(rt; taken(alloc, b"(a,b,c)")?, 4);
    assert_eq!(rt; taken(alloc, b"(a,b+c)")?, 4);
    assert_eq!(rt; taken(alloc, b"(a/b)")?, 2);
    assert_eq!(rt; taken(alloc, b"a>>b")?, 2);
    assert_eq!(rt; taken(alloc, b"a>b)")?, 3);
    assert_eq!(rt; taken(alloc, b"(,)")?, 1);
    assert_eq!(rt; taken(alloc, b"M_")?, 1);
    assert_eq!(rt; taken(alloc, b")")?, 0);
    assert_eq!(rt; taken(alloc, b"((a,b)+(c>d))>(e>f,g)")?, 21);
    Ok(())
}

#[test]
fn a_type_by_itself_takes_no_more(rt: HostRuntime) -> Result<(), Fail> {
    let alloc = rt.alloc();
    assert_eq!(rt; taken_alone(alloc, b"ab")?, 1);
    assert_eq!(rt; taken_alone(alloc, b"a>b")?, 1);
    assert_eq!(rt; taken_alone(alloc, b"(ab>c)d")?, 6);
    assert_eq!(rt; taken_alone(alloc, b"()8")?, 2);
    Ok(())
}

#[test]
fn a_type_that_is_begun_is_not_whole(rt: HostRuntime) -> Result<(), Fail> {
    let alloc = rt.alloc();
    assert!(rt; read(alloc, b"")?.is_none());
    assert!(rt; read(alloc, b"a>")?.is_none());
    assert!(rt; read(alloc, b"(a")?.is_none());
    assert!(rt; read(alloc, b"(a,")?.is_none());
    assert!(rt; read(alloc, b"(a+b)>")?.is_none());
    assert!(rt; read(alloc, b"(a>b)")?.is_some());
    Ok(())
}

#[test]
fn a_class_has_its_types_before_it(rt: HostRuntime) -> Result<(), Fail> {
    let (_, nodes) = read_pred(rt.alloc(), b"C(Ma)b")?;
    assert!(rt; nodes.is_some());
    if let Some(nodes) = nodes {
        let want = [
            con(3, b'M'),
            var(4, b'a'),
            TypeNode::Apply(at(3)),
            var(6, b'b'),
            TypeNode::Class(at(1), Name(u32::from(b'C')), 2),
        ];
        assert_eq!(rt; nodes.as_slice(), want.as_slice());
    }
    Ok(())
}

#[test]
fn a_name_begins_a_class_or_a_fact(rt: HostRuntime) -> Result<(), Fail> {
    let (_, nodes) = read_pred(rt.alloc(), b"C+n=8")?;
    assert!(rt; nodes.is_some());
    if let Some(nodes) = nodes {
        let want = [
            con(1, b'C'),
            var(3, b'n'),
            TypeNode::Number(at(5), 8),
            TypeNode::SumFact,
        ];
        assert_eq!(rt; nodes.as_slice(), want.as_slice());
    }
    Ok(())
}

#[test]
fn the_number_two_begins_a_power_or_a_fact(rt: HostRuntime) -> Result<(), Fail> {
    let alloc = rt.alloc();
    let (_, nodes) = read_pred(alloc, b"2^n=m")?;
    assert!(rt; nodes.is_some());
    if let Some(nodes) = nodes {
        let want = [var(3, b'n'), var(5, b'm'), TypeNode::PowerFact];
        assert_eq!(rt; nodes.as_slice(), want.as_slice());
    }
    assert!(rt; is_pred(alloc, b"2*n=m")?);
    assert!(rt; is_pred(alloc, b"2<n")?);
    assert_eq!(rt; taken_pred(alloc, b"3^n=m")?, 1);
    assert_eq!(rt; taken_pred(alloc, b"(2)^n=m")?, 3);
    Ok(())
}

#[test]
fn the_first_token_that_ends_no_predicate_is_refused(rt: HostRuntime) -> Result<(), Fail> {
    let alloc = rt.alloc();
    assert!(rt; is_pred(alloc, b"(ab>c)*(x,y)=()")?);
    assert!(rt; !is_pred(alloc, b"C")?);
    assert!(rt; !is_pred(alloc, b"n+m")?);
    assert_eq!(rt; taken_pred(alloc, b"ab")?, 1);
    assert_eq!(rt; taken_pred(alloc, b"C>a")?, 1);
    assert_eq!(rt; taken_pred(alloc, b"Ca+b=c")?, 2);
    assert_eq!(rt; taken_pred(alloc, b"a+b=c=d")?, 5);
    assert_eq!(rt; taken_pred(alloc, b"a+b<c")?, 3);
    assert_eq!(rt; taken_pred(alloc, b"a<b=c")?, 3);
    assert_eq!(rt; taken_pred(alloc, b"a=b")?, 1);
    Ok(())
}

#[test]
fn a_bracket_begins_a_fact_or_several_predicates(rt: HostRuntime) -> Result<(), Fail> {
    let alloc = rt.alloc();
    let (_, nodes) = read_context(alloc, b"(Ea,Ob)")?;
    assert!(rt; nodes.is_some());
    if let Some(nodes) = nodes {
        let want = [
            var(3, b'a'),
            TypeNode::Class(at(2), Name(u32::from(b'E')), 1),
            var(6, b'b'),
            TypeNode::Class(at(5), Name(u32::from(b'O')), 1),
            TypeNode::Context(2),
        ];
        assert_eq!(rt; nodes.as_slice(), want.as_slice());
    }
    let (_, nodes) = read_context(alloc, b"(Ea)<b")?;
    assert!(rt; nodes.is_some());
    if let Some(nodes) = nodes {
        let want = [
            con(2, b'E'),
            var(3, b'a'),
            TypeNode::Apply(at(2)),
            var(6, b'b'),
            TypeNode::AtMostFact,
            TypeNode::Context(1),
        ];
        assert_eq!(rt; nodes.as_slice(), want.as_slice());
    }
    Ok(())
}

#[test]
fn the_two_readings_of_a_bracket_part_at_the_first_token(rt: HostRuntime) -> Result<(), Fail> {
    let alloc = rt.alloc();
    assert!(rt; is_context(alloc, b"(Ea,Ob)+c=d")?);
    assert!(rt; is_context(alloc, b"(n+m)<k")?);
    assert!(rt; is_context(alloc, b"(n+m=k)")?);
    assert!(rt; is_context(alloc, b"((n+m)<k,Ea)")?);
    assert!(rt; is_context(alloc, b"Ea")?);
    assert_eq!(rt; taken_context(alloc, b"(n+m)=k")?, 5);
    assert_eq!(rt; taken_context(alloc, b"(n+m=k)<l")?, 7);
    assert_eq!(rt; taken_context(alloc, b"(Ea,b>c,d)")?, 7);
    assert_eq!(rt; taken_context(alloc, b"(Ea>b,Oc)")?, 9);
    assert_eq!(rt; taken_context(alloc, b"(Ea,Ob,Oc)+d")?, 10);
    assert_eq!(rt; taken_context(alloc, b"()a")?, 2);
    assert_eq!(rt; taken_context(alloc, b"((Ea))a")?, 6);
    assert_eq!(rt; taken_context(alloc, b"Ea,Ob")?, 2);
    Ok(())
}

#[test]
fn a_context_stands_before_its_type(rt: HostRuntime) -> Result<(), Fail> {
    let alloc = rt.alloc();
    let (_, nodes) = read_qualified(alloc, b"Ea#a>b")?;
    assert!(rt; nodes.is_some());
    if let Some(nodes) = nodes {
        let want = [
            var(2, b'a'),
            TypeNode::Class(at(1), Name(u32::from(b'E')), 1),
            TypeNode::Context(1),
            var(4, b'a'),
            var(6, b'b'),
            TypeNode::Arrow(at(4)),
        ];
        assert_eq!(rt; nodes.as_slice(), want.as_slice());
    }
    let (_, nodes) = read_qualified(alloc, b"Ea")?;
    assert!(rt; nodes.is_some());
    if let Some(nodes) = nodes {
        let want = [
            TypeNode::Context(0),
            con(1, b'E'),
            var(2, b'a'),
            TypeNode::Apply(at(1)),
        ];
        assert_eq!(rt; nodes.as_slice(), want.as_slice());
    }
    Ok(())
}

#[test]
fn a_type_and_a_context_part_at_the_first_token(rt: HostRuntime) -> Result<(), Fail> {
    let alloc = rt.alloc();
    assert_eq!(rt; taken_qualified(alloc, b"(Ea,Ob)#(a,b)")?, 13);
    assert_eq!(rt; taken_qualified(alloc, b"(Ea,Ob)>c#d")?, 9);
    assert_eq!(rt; taken_qualified(alloc, b"a+b=c#d#e")?, 7);
    assert_eq!(rt; taken_qualified(alloc, b"a#b")?, 1);
    assert_eq!(rt; taken_qualified(alloc, b"Ea>b#c")?, 4);
    assert_eq!(rt; taken_qualified(alloc, b"(a+b)<c>d")?, 7);
    assert_eq!(rt; taken_qualified(alloc, b"#a")?, 0);
    let (_, nodes) = read_qualified(alloc, b"a+b=c")?;
    assert!(rt; nodes.is_none());
    Ok(())
}
