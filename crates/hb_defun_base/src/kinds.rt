use hb_base::{List, Memory};
use hb_values::{ValueForm, ValueTypes};
use std::alloc::Global;

/// The places in a block program's table of the types that it wants besides those of the ground program: of a result that is
/// dropped, of any word, and of a truth value.
#[derive(Clone, Copy, Debug, PartialEq, Eq)]
pub struct Kinds {
    pub nothing: u32,
    pub word: u32,
    pub truth: u32,
}

fn copied_row(alloc: Global, row: &List<u32>) -> Result<List<u32>, Memory> {
    let mut copy = List::of(Vec::new(alloc));
    for part in row.as_slice() {
        copy.push(*part)?;
    }
    Ok(copy)
}

fn copied_rows(alloc: Global, rows: &List<List<u32>>) -> Result<List<List<u32>>, Memory> {
    let mut copy = List::of(Vec::new(alloc));
    for row in rows.as_slice() {
        let row = copied_row(alloc, row)?;
        copy.push(row)?;
    }
    Ok(copy)
}

fn copied_form(alloc: Global, form: &ValueForm) -> Result<ValueForm, Memory> {
    match form {
        ValueForm::Word(count) => Ok(ValueForm::Word(*count)),
        ValueForm::Outside => Ok(ValueForm::Outside),
        ValueForm::Data(rows) => {
            let rows = copied_rows(alloc, rows)?;
            Ok(ValueForm::Data(rows))
        }
        ValueForm::Arrow(class, takes, gives) => Ok(ValueForm::Arrow(*class, *takes, *gives)),
        ValueForm::Action(class, gives) => Ok(ValueForm::Action(*class, *gives)),
        ValueForm::Nothing => Ok(ValueForm::Nothing),
    }
}

fn copied_forms(alloc: Global, forms: &List<ValueForm>) -> Result<List<ValueForm>, Memory> {
    let mut copy = List::of(Vec::new(alloc));
    for form in forms.as_slice() {
        let form = copied_form(alloc, form)?;
        copy.push(form)?;
    }
    Ok(copy)
}

fn is_nothing(form: &ValueForm) -> bool {
    match form {
        ValueForm::Nothing => true,
        _ => false,
    }
}

fn is_word(form: &ValueForm) -> bool {
    match form {
        ValueForm::Word(count) => *count == 0,
        _ => false,
    }
}

/// Two constructors without arguments.
fn is_truth(form: &ValueForm) -> bool {
    match form {
        ValueForm::Data(rows) => match rows.as_slice() {
            [no, yes] => no.len() == 0 && yes.len() == 0,
            _ => false,
        },
        _ => false,
    }
}

/// Where the wanted types stand, as far as a table has them.
#[derive(Clone, Copy)]
struct Places {
    nothing: Option<u32>,
    word: Option<u32>,
    truth: Option<u32>,
}

fn found(forms: &[ValueForm]) -> Places {
    let mut all = Places {
        nothing: None,
        word: None,
        truth: None,
    };
    let mut place: u32 = 0;
    for form in forms {
        if is_nothing(form) {
            all.nothing = Some(place);
        }
        if is_word(form) {
            all.word = Some(place);
        }
        if is_truth(form) {
            all.truth = Some(place);
        }
        place = place.saturating_add(1);
    }
    all
}

/// Puts a type of so many words at the end, where the table does not have it yet, and answers its place.
fn placed(
    types: &mut ValueTypes,
    at: Option<u32>,
    form: ValueForm,
    words: u32,
) -> Result<u32, Memory> {
    match at {
        Some(place) => {
            drop(form);
            Ok(place)
        }
        None => match u32::try_from(types.forms.len()) {
            Ok(place) => {
                types.forms.push(form)?;
                types.words.push(words)?;
                Ok(place)
            }
            Err(_) => {
                drop(form);
                Err(Memory)
            }
        },
    }
}

fn truth_form(alloc: Global) -> Result<ValueForm, Memory> {
    let mut rows = List::of(Vec::new(alloc));
    rows.push(List::of(Vec::new(alloc)))?;
    rows.push(List::of(Vec::new(alloc)))?;
    Ok(ValueForm::Data(rows))
}

/// The table of the types of a block program: that of the ground program, and behind it the types that this one lacks.
pub fn block_types(alloc: Global, of: &ValueTypes) -> Result<(ValueTypes, Kinds), Memory> {
    let forms = copied_forms(alloc, &of.forms)?;
    let words = copied_row(alloc, &of.words)?;
    let mut types = ValueTypes { forms, words };
    let all = found(types.forms.as_slice());
    let nothing = placed(&mut types, all.nothing, ValueForm::Nothing, 0)?;
    let word = placed(&mut types, all.word, ValueForm::Word(0), 1)?;
    let form = truth_form(alloc)?;
    let truth = placed(&mut types, all.truth, form, 1)?;
    Ok((
        types,
        Kinds {
            nothing,
            word,
            truth,
        },
    ))
}
