use crate::program::ProgramReader;
use hb_base::{List, Memory, Name, Place, fixed};
use hb_read_declarations::DeclNode;
use hb_read_types::TypeNode;
use hb_tokens::{Token, TokenKind, Word};
use std::alloc::Global;
use std::test::Fail;

/// The token that one byte stands for: a letter for a name, but for `P`, `I` and `O`, which are `Pad`, `In` and `Out`, and for
/// `X`, a bit literal; and a letter or a mark that a program does not use for each word.
fn kind(byte: u8) -> TokenKind {
    match byte {
        b'P' => TokenKind::ConId(fixed::PAD),
        b'I' => TokenKind::ConId(fixed::IN),
        b'O' => TokenKind::ConId(fixed::OUT),
        b'X' => TokenKind::Bits(8, 4),
        b'a'..=b'z' => TokenKind::VarId(Name(u32::from(byte))),
        b'A'..=b'D' | b'S'..=b'W' => TokenKind::ConId(Name(u32::from(byte))),
        b'0'..=b'9' => TokenKind::Number(u64::from(byte - b'0')),
        b'/' => TokenKind::Op(fixed::SLASH),
        b'+' => TokenKind::Op(fixed::PLUS),
        b'_' => TokenKind::End,
        _ => word_kind(byte),
    }
}

fn word_kind(byte: u8) -> TokenKind {
    let word = match byte {
        b'!' => Word::Data,
        b'"' => Word::Bitdata,
        b'$' => Word::Struct,
        b'%' => Word::Area,
        b'&' => Word::Port,
        b'?' => Word::Class,
        b'@' => Word::Instance,
        b'~' => Word::Where,
        b'*' => Word::If,
        b'^' => Word::Infixl,
        b'R' => Word::Infixr,
        b'N' => Word::Infix,
        b'E' => Word::Each,
        b'F' => Word::Fields,
        b'.' => Word::At,
        b'\\' => Word::Aligned,
        b':' => Word::DoubleColon,
        b'=' => Word::Equals,
        b'|' => Word::Bar,
        b'>' => Word::RightArrow,
        b'<' => Word::LeftArrow,
        b'#' => Word::DoubleArrow,
        _ => return TokenKind::Mark(byte),
    };
    TokenKind::Word(word)
}

fn at(col: u32) -> Place {
    Place { line: 1, col }
}

/// How many tokens are taken of what should be a program, and its nodes.
fn read(alloc: Global, text: &[u8]) -> Result<(usize, Option<List<DeclNode>>), Memory> {
    let mut reader = ProgramReader::new(alloc)?;
    for (i, byte) in text.iter().enumerate() {
        let token = Token {
            place: at((i % 100) as u32 + 1),
            kind: kind(*byte),
        };
        match reader.take(token)? {
            Some(next) => reader = next,
            None => return Ok((i, None)),
        }
    }
    let nodes = reader.finish()?;
    Ok((text.len(), nodes))
}

/// The form of a part of a declaration.
fn part(node: DeclNode) -> &'static [u8] {
    match node {
        DeclNode::Type(TypeNode::Context(_)) => b"context",
        DeclNode::Type(_) => b"type",
        DeclNode::Expr(_) => b"expr",
        DeclNode::Names(_) => b"names",
        DeclNode::Types(_) => b"types",
        DeclNode::NoNumber => b"no-number",
        DeclNode::Number(_) => b"number",
        DeclNode::Sigs(_) => b"sigs",
        DeclNode::Equations(_) => b"equations",
        DeclNode::DataCon => b"con",
        DeclNode::DataCons(_) => b"cons",
        DeclNode::Fields => b"fields",
        DeclNode::Tag(_, _) => b"tag",
        DeclNode::BitFields => b"bit-fields",
        DeclNode::BitCon(_) => b"bit-con",
        DeclNode::BitCons(_) => b"bit-cons",
        DeclNode::Pad(_) => b"pad",
        DeclNode::StructFields => b"struct-fields",
        DeclNode::StructParts(_) => b"struct-parts",
        DeclNode::Depend => b"depend",
        DeclNode::Depends(_) => b"depends",
        DeclNode::InitEach(_) => b"each",
        DeclNode::InitField => b"init-field",
        DeclNode::InitFields(_, _) => b"init-fields",
        DeclNode::InitCell(_) => b"cell",
        DeclNode::NoInit => b"no-init",
        DeclNode::Init => b"init",
        _ => b"?",
    }
}

fn form(node: DeclNode) -> &'static [u8] {
    match node {
        DeclNode::Name(_, fixed::PLUS) => b"+",
        DeclNode::Name(_, _) => b"name",
        DeclNode::Sig(_) => b"sig",
        DeclNode::Equation => b"equation",
        DeclNode::Fixity(_, _, _) => b"fixity",
        DeclNode::Data(_) => b"data",
        DeclNode::Bitdata(_) => b"bitdata",
        DeclNode::Struct(_) => b"struct",
        DeclNode::Area(_) => b"area",
        DeclNode::Port(_, _, _, _) => b"port",
        DeclNode::Class(_) => b"class",
        DeclNode::Instance(_) => b"instance",
        DeclNode::Program(_) => b"program",
        _ => part(node),
    }
}

fn count(node: DeclNode) -> Option<usize> {
    match node {
        DeclNode::Names(count)
        | DeclNode::Types(count)
        | DeclNode::Sigs(count)
        | DeclNode::Equations(count)
        | DeclNode::DataCons(count)
        | DeclNode::BitCon(count)
        | DeclNode::BitCons(count)
        | DeclNode::StructParts(count)
        | DeclNode::Depends(count)
        | DeclNode::InitFields(_, count)
        | DeclNode::Program(count)
        | DeclNode::Type(TypeNode::Context(count)) => Some(count),
        _ => None,
    }
}

/// The forms of the nodes, with a space before each and its count behind it.
fn forms(alloc: Global, nodes: &[DeclNode]) -> Result<Vec<u8>, Fail> {
    let mut text = Vec::new(alloc);
    for node in nodes {
        text.push(b' ')?;
        text.extend_from_slice(form(*node))?;
        if let Some(count) = count(*node) {
            text.push(b'0' + (count % 10) as u8)?;
        }
    }
    Ok(text)
}

/// The first of these programs that is not read, or whose nodes are not of these forms.
fn first_other(alloc: Global, rows: &[(&[u8], &[u8])]) -> Result<Option<usize>, Fail> {
    for (i, (text, wanted)) in rows.iter().enumerate() {
        let (_, nodes) = read(alloc, text)?;
        let Some(nodes) = nodes else {
            return Ok(Some(i));
        };
        let found = forms(alloc, nodes.as_slice())?;
        if found.as_slice() != *wanted {
            return Ok(Some(i));
        }
    }
    Ok(None)
}

#[test]
fn types_are_read_with_their_constructors(rt: HostRuntime) -> Result<(), Fail> {
    let rows: [(&[u8], &[u8]); 6] = [
        (
            b"{!T=A}_",
            b" name names0 name types0 con cons1 data program1",
        ),
        (
            b"{!Tab=AbT|B}_",
            b" name name name names2 name type type types2 con name types0 con cons2 data program1",
        ),
        (
            b"{\"T=A[]}_",
            b" name no-number name bit-con0 bit-cons1 bitdata program1",
        ),
        (
            b"{\"T/8=A[X|a,b:T]}_",
            b" name number name tag name name names2 type fields bit-fields bit-con2 bit-cons1 bitdata program1",
        ),
        (
            b"{$T[P4]}_",
            b" name no-number pad struct-parts1 struct program1",
        ),
        (
            b"{$T/8[a:T|P4]}_",
            b" name number name names1 type fields struct-fields pad struct-parts2 struct program1",
        ),
    ];
    assert_eq!(rt; first_other(rt.alloc(), &rows)?, None);
    Ok(())
}

#[test]
fn areas_and_ports_are_read(rt: HostRuntime) -> Result<(), Fail> {
    let rows: [(&[u8], &[u8]); 7] = [
        (b"{%a:T}_", b" name no-init type no-number area program1"),
        (b"{%a:T\\4}_", b" name no-init type number area program1"),
        (
            b"{%a<b:T}_",
            b" name expr cell init type no-number area program1",
        ),
        (
            b"{%a<Ei>b:T}_",
            b" name name expr cell each init type no-number area program1",
        ),
        (
            b"{%a<F[b<c|d<e]:T}_",
            b" name name expr cell init-field name expr cell init-field init-fields2 init type no-number area program1",
        ),
        (b"{&a:IT.X}_", b" name type port program1"),
        (
            b"{&a:OT.X;&b:IT.X}_",
            b" name type port name type port program2",
        ),
    ];
    assert_eq!(rt; first_other(rt.alloc(), &rows)?, None);
    Ok(())
}

#[test]
fn classes_and_instances_are_read_with_what_stands_in_them(rt: HostRuntime) -> Result<(), Fail> {
    let rows: [(&[u8], &[u8]); 6] = [
        (
            b"{?Ca}_",
            b" context0 name name names1 depends0 sigs0 class program1",
        ),
        (
            b"{?Da#Ca|a>b,b>a}_",
            b" type type context1 name name names1 name names1 name names1 depend name names1 name names1 depend depends2 sigs0 class program1",
        ),
        (
            b"{?Ca~{b:T;;(+):T;}}_",
            b" context0 name name names1 depends0 name names1 context0 type sig + names1 context0 type sig sigs2 class program1",
        ),
        (
            b"{@CT}_",
            b" name type types1 context0 equations0 instance program1",
        ),
        (
            b"{@CTU*DT,DU}_",
            b" name type type types2 type type type type context2 equations0 instance program1",
        ),
        (
            b"{@CT~{;a=b}}_",
            b" name type types1 context0 expr expr equations1 instance program1",
        ),
    ];
    assert_eq!(rt; first_other(rt.alloc(), &rows)?, None);
    Ok(())
}

#[test]
fn signatures_equations_and_fixities_are_read(rt: HostRuntime) -> Result<(), Fail> {
    let rows: [(&[u8], &[u8]); 8] = [
        (b"{a:T}_", b" name names1 context0 type sig program1"),
        (
            b"{a,(+):DT#T}_",
            b" name + names2 type type context1 type sig program1",
        ),
        (b"{a=b}_", b" expr expr equation program1"),
        (
            b"{a:T;a=b}_",
            b" name names1 context0 type sig expr expr equation program2",
        ),
        (b"{^6+}_", b" + names1 fixity program1"),
        (b"{R6+,`a`}_", b" + name names2 fixity program1"),
        (b"{N0`a`}_", b" name names1 fixity program1"),
        (b"{;;^6+;}_", b" + names1 fixity program1"),
    ];
    assert_eq!(rt; first_other(rt.alloc(), &rows)?, None);
    Ok(())
}

#[test]
fn what_cannot_go_on_is_refused_at_its_first_token(rt: HostRuntime) -> Result<(), Fail> {
    // The tokens before the first that cannot stand.
    let rows: [(&[u8], usize); 16] = [
        (b"!", 0),
        (b"{!T=A}}", 6),
        (b"{!T|", 3),
        (b"{!T=A|}", 6),
        (b"{\"T=A[X|]", 8),
        (b"{$T[]", 4),
        (b"{^X", 2),
        (b"{?C}", 3),
        (b"{@C}", 3),
        (b"{&a:T", 4),
        (b"{&a:IT.4", 7),
        (b"{%a<F[]", 6),
        (b"{%a<b;", 5),
        (b"{a:}", 3),
        (b"{a,b=", 4),
        (b"{}__", 3),
    ];
    for (text, count) in rows {
        let (taken, nodes) = read(rt.alloc(), text)?;
        assert_eq!(rt; taken, count);
        assert!(rt; nodes.is_none());
    }
    Ok(())
}

#[test]
fn a_program_is_whole_at_its_end_and_not_before(rt: HostRuntime) -> Result<(), Fail> {
    let rows: [(&[u8], bool); 5] = [
        (b"", false),
        (b"{", false),
        (b"{}", false),
        (b"{}_", true),
        (b"{!T=A}", false),
    ];
    for (text, whole) in rows {
        let (taken, nodes) = read(rt.alloc(), text)?;
        assert_eq!(rt; taken, text.len());
        assert_eq!(rt; nodes.is_some(), whole);
    }
    Ok(())
}

#[test]
fn the_nodes_of_a_class_stand_in_order(rt: HostRuntime) -> Result<(), Fail> {
    let (_, nodes) = read(rt.alloc(), b"{?Da#Cb}_")?;
    let wanted = [
        DeclNode::Type(TypeNode::Var(at(4), Name(97))),
        DeclNode::Type(TypeNode::Class(at(3), Name(68), 1)),
        DeclNode::Type(TypeNode::Context(1)),
        DeclNode::Name(at(6), Name(67)),
        DeclNode::Name(at(7), Name(98)),
        DeclNode::Names(1),
        DeclNode::Depends(0),
        DeclNode::Sigs(0),
        DeclNode::Class(at(2)),
        DeclNode::Program(1),
    ];
    assert!(rt; nodes.is_some());
    if let Some(nodes) = nodes {
        assert_eq!(rt; nodes.as_slice(), wanted.as_slice());
    }
    Ok(())
}
