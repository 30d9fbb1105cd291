use crate::{
    Letter, PatternForm, Patterns, Spelling, Spellings, matches_some, value_text, valued_types,
};
use hb_base::{List, Memory, Text};
use std::alloc::Global;
use std::test::Fail;

fn places(alloc: Global, items: &[usize]) -> Result<List<usize>, Memory> {
    let items = Vec::from_slice(alloc, items)?;
    Ok(List::of(items))
}

/// A data type whose constructors have arguments of the types at these places.
fn data(alloc: Global, cons: &[&[usize]]) -> Result<Spelling, Memory> {
    let mut all = List::of(Vec::new(alloc));
    for con in cons {
        let con = places(alloc, con)?;
        all.push(con)?;
    }
    Ok(Spelling::Data(all))
}

fn texts(alloc: Global, names: &[&[u8]]) -> Result<List<Text>, Memory> {
    let mut all = List::of(Vec::new(alloc));
    for name in names {
        let name = Vec::from_slice(alloc, name)?;
        all.push(Text::of(name))?;
    }
    Ok(all)
}

#[test]
fn values_are_written_with_nested_ones_in_brackets(rt: HostRuntime) -> Result<(), Fail> {
    let alloc = rt.alloc();
    let maybe = data(alloc, &[&[], &[0]])?;
    let pair = data(alloc, &[&[1, 2]])?;
    let forms = vec![in alloc; Spelling::Bits(2), maybe, Spelling::Index(9), pair]?;
    let types = Spellings {
        forms: List::of(forms),
    };
    let none = texts(alloc, &[])?;
    let maybe_names = texts(alloc, &[b"Nothing", b"Just"])?;
    let no_names = texts(alloc, &[])?;
    let pair_names = texts(alloc, &[b"Pair"])?;
    let names = vec![in alloc; none, maybe_names, no_names, pair_names]?;
    let letters = vec![in alloc;
        Letter::Con(0),
        Letter::Con(1),
        Letter::Bit(true),
        Letter::Bit(false),
        Letter::Index(5),
        Letter::Con(0),
    ]?;
    let of = places(alloc, &[3, 1])?;
    let text = value_text(alloc, &types, &List::of(names), &of, &List::of(letters))?;
    assert_eq!(rt;
        text.as_slice(),
        b"Pair (Just B10) B00000000000000000000000000000101 Nothing".as_slice()
    );
    Ok(())
}

#[test]
fn a_type_has_values_where_a_constructor_has_some(rt: HostRuntime) -> Result<(), Fail> {
    let alloc = rt.alloc();
    let never = data(alloc, &[])?;
    let some = data(alloc, &[&[0], &[1]])?;
    let forms = vec![in alloc; never, Spelling::Opaque, some, Spelling::Index(0)]?;
    let types = Spellings {
        forms: List::of(forms),
    };
    let valued = valued_types(alloc, &types)?;
    assert_eq!(rt; valued.as_slice(), [false, true, true, false].as_slice());
    let first = PatternForm::Con(0, places(alloc, &[9])?);
    let second = PatternForm::Con(1, places(alloc, &[9])?);
    let forms = vec![in alloc; first, second]?;
    let patterns = Patterns {
        forms: List::of(forms),
    };
    assert!(rt; !matches_some(alloc, &types, &valued, &patterns, &[0], &[2])?);
    assert!(rt; matches_some(alloc, &types, &valued, &patterns, &[1], &[2])?);
    Ok(())
}
