use crate::{Code, Detail, Fault, List, Memory, Name, Names, Place, fixed, refused};
use std::test::Fail;

/// Whether the name has this text.
fn is_named(names: &Names, name: Name, text: &[u8]) -> bool {
    match names.text(name) {
        Some(found) => found == text,
        None => false,
    }
}

#[test]
fn the_fixed_names_have_their_numbers(rt: HostRuntime) -> Result<(), Fail> {
    let names = Names::new(rt.alloc())?;
    assert_eq!(rt; names.count(), 71);
    let table: &[(Name, &[u8])] = &[
        (fixed::PAD, b"Pad"),
        (fixed::IN, b"In"),
        (fixed::OUT, b"Out"),
        (fixed::PLUS, b"+"),
        (fixed::TIMES, b"*"),
        (fixed::POWER, b"^"),
        (fixed::AT_MOST, b"<="),
        (fixed::MAIN, b"main"),
        (fixed::UNSIGNED, b"Unsigned"),
        (fixed::SIGNED, b"Signed"),
        (fixed::BIT, b"Bit"),
        (fixed::IX, b"Ix"),
        (fixed::NON_ZERO, b"NonZero"),
        (fixed::M, b"M"),
        (fixed::REF, b"Ref"),
        (fixed::STORED, b"Stored"),
        (fixed::BE, b"BE"),
        (fixed::ARRAY, b"Array"),
        (fixed::WIDTH, b"Width"),
        (fixed::INDEX, b"Index"),
        (fixed::NUM_LIT, b"NumLit"),
        (fixed::BIT_REP, b"BitRep"),
        (fixed::CELL, b"Cell"),
        (fixed::UNIT, b"Unit"),
        (fixed::PAIR, b"Pair"),
        (fixed::BOOL, b"Bool"),
        (fixed::FALSE, b"False"),
        (fixed::TRUE, b"True"),
        (fixed::MAYBE, b"Maybe"),
        (fixed::NOTHING, b"Nothing"),
        (fixed::JUST, b"Just"),
        (fixed::SLASH, b"/"),
        (fixed::WILDCARD, b"_"),
    ];
    for (name, text) in table {
        assert!(rt; is_named(&names, *name, *text));
    }
    Ok(())
}

#[test]
fn the_primitives_stand_after_the_fixed_names(rt: HostRuntime) -> Result<(), Fail> {
    let names = Names::new(rt.alloc())?;
    let first = Name(fixed::FIRST_PRIMITIVE);
    let last = Name(fixed::FIRST_PRIMITIVE + fixed::PRIMITIVES - 1);
    assert!(rt; is_named(&names, first, b"addU"));
    assert!(rt; is_named(&names, last, b"halt"));
    Ok(())
}

#[test]
fn a_known_text_keeps_its_name_and_a_new_one_gets_the_next(rt: HostRuntime) -> Result<(), Fail> {
    let mut names = Names::new(rt.alloc())?;
    assert_eq!(rt; names.intern(b"main")?, fixed::MAIN);
    assert_eq!(rt; names.intern(b"uart")?, Name(71));
    assert_eq!(rt; names.intern(b"ring")?, Name(72));
    assert_eq!(rt; names.intern(b"uart")?, Name(71));
    assert_eq!(rt; names.count(), 73);
    assert!(rt; names.text(Name(73)).is_none());
    Ok(())
}

#[test]
fn a_detail_keeps_its_first_200_bytes(rt: HostRuntime) -> Result<(), Fail> {
    let text = [b'a'; 201];
    let detail = Detail::of(rt.alloc(), &text)?;
    assert_eq!(rt; detail.as_slice().len(), 200);
    let whole = Detail::of(rt.alloc(), &text[..200])?;
    assert_eq!(rt; whole.as_slice().len(), 200);
    let short = Detail::of(rt.alloc(), b"align")?;
    assert!(rt; short.as_slice() == b"align".as_slice());
    Ok(())
}

#[test]
fn a_refusal_has_its_parts(rt: HostRuntime) -> Result<(), Fail> {
    let place = Place { line: 3, col: 7 };
    match refused(rt.alloc(), Code::E18, place, b"stride") {
        Fault::Refused(refusal) => {
            assert_eq!(rt; refusal.code, Code::E18);
            assert_eq!(rt; refusal.place, place);
            assert!(rt; refusal.detail.as_slice() == b"stride".as_slice());
        },
        Fault::Memory => assert!(rt; false),
    }
    Ok(())
}

#[test]
fn a_list_hands_over_its_items(rt: HostRuntime) -> Result<(), Fail> {
    let mut list: List<u32> = List::of(Vec::new(rt.alloc()));
    list.push(7)?;
    list.push(9)?;
    let items = list.into_items();
    assert!(rt; items.as_slice() == [7, 9].as_slice());
    Ok(())
}
