use crate::kinds::Kinds;
use hb_base::List;
use hb_mono::{Body, BodyKind, Constructor, Mono};
use hb_values::{Class, ClassMap, Label, Member, ValueForm};

/// A ground program with its closure classes, and the types that its block program wants besides. Where a number names nothing,
/// look-ups answer 0.
#[derive(Drop)]
pub struct Ground<'a> {
    pub mono: &'a Mono,
    pub map: &'a ClassMap,
    pub kinds: Kinds,
}

/// How many arguments a primitive has.
pub fn primitive_arity(primitive: u32) -> u32 {
    match primitive {
        27 | 28 => 0,
        6 | 14 | 15 | 16 | 17 | 18 | 19 => 1,
        21 | 22 | 23 | 24 | 25 | 26 | 29 | 30 => 1,
        32 | 34 | 36 | 37 => 1,
        _ => 2,
    }
}

/// Whether a primitive with all its arguments is an action: one on a cell, on a port, `return` or `halt`.
pub fn is_action(primitive: u32) -> bool {
    primitive >= 32
}

fn number_at(all: &List<u32>, place: u32) -> u32 {
    match all.as_slice().get(place as usize) {
        Some(number) => *number,
        None => 0,
    }
}

fn are_same(these: &[u64], those: &[u64]) -> bool {
    if these.len() != those.len() {
        return false;
    }
    for (this, that) in these.iter().zip(those.iter()) {
        if *this != *that {
            return false;
        }
    }
    true
}

/// A label by its member, the numbers of a primitive, and how many arguments it has taken.
fn is_label(label: &Label, member: Member, numbers: &[u64], taken: u32) -> bool {
    label.member == member && label.taken == taken && are_same(label.numbers.as_slice(), numbers)
}

impl<'a> Ground<'a> {
    /// The type of a node's value.
    pub fn node(&self, node: u32) -> u32 {
        number_at(&self.map.of_node, node)
    }

    /// The type of a local of a body.
    pub fn local(&self, body: u32, local: u32) -> u32 {
        match self.map.of_local.as_slice().get(body as usize) {
            Some(types) => number_at(types, local),
            None => 0,
        }
    }

    /// The type of what a body gives.
    pub fn result(&self, body: u32) -> u32 {
        number_at(&self.map.results, body)
    }

    fn body(&self, body: u32) -> Option<&Body> {
        self.mono.bodies.as_slice().get(body as usize)
    }

    fn constructor(&self, con: u32) -> Option<&Constructor> {
        self.mono.constructors.as_slice().get(con as usize)
    }

    /// How many locals a body has captured.
    pub fn free(&self, body: u32) -> u32 {
        match self.body(body) {
            Some(body) => body.free,
            None => 0,
        }
    }

    /// How many parameters a body has; the run of a `do` has none.
    pub fn params(&self, body: u32) -> u32 {
        match self.body(body) {
            Some(body) => match body.kind {
                BodyKind::Call(count) => count,
                BodyKind::Run => 0,
            },
            None => 0,
        }
    }

    /// The place of a constructor in its type.
    pub fn index(&self, con: u32) -> u32 {
        match self.constructor(con) {
            Some(constructor) => constructor.index,
            None => 0,
        }
    }

    /// How many arguments a member has.
    pub fn arity(&self, member: Member) -> u32 {
        match member {
            Member::Body(body) => self.params(body),
            Member::Primitive(primitive) => primitive_arity(primitive),
            Member::Constructor(con) => match self.constructor(con) {
                Some(constructor) => match u32::try_from(constructor.arguments.len()) {
                    Ok(count) => count,
                    Err(_) => 0,
                },
                None => 0,
            },
        }
    }

    fn form(&self, of: u32) -> Option<&ValueForm> {
        self.map.types.forms.as_slice().get(of as usize)
    }

    /// The rows of a data type: for each of its constructors the types of the arguments. A type that is not one has none.
    pub fn rows(&self, of: u32) -> &[List<u32>] {
        match self.form(of) {
            Some(ValueForm::Data(rows)) => rows.as_slice(),
            _ => &[],
        }
    }

    /// The class of the values of a type.
    pub fn class(&self, of: u32) -> u32 {
        match self.form(of) {
            Some(ValueForm::Arrow(class, _, _)) => *class,
            Some(ValueForm::Action(class, _)) => *class,
            _ => 0,
        }
    }

    fn whole_class(&self, class: u32) -> Option<&Class> {
        self.map.classes.as_slice().get(class as usize)
    }

    /// What a function or an action of a class gives.
    pub fn gives(&self, class: u32) -> u32 {
        match self.whole_class(class) {
            Some(class) => class.gives,
            None => 0,
        }
    }

    fn labels(&self, class: u32) -> &[Label] {
        match self.whole_class(class) {
            Some(class) => class.labels.as_slice(),
            None => &[],
        }
    }

    /// The number of a label in its class.
    pub fn label(&self, class: u32, member: Member, numbers: &[u64], taken: u32) -> u32 {
        let mut place: u32 = 0;
        for label in self.labels(class) {
            if is_label(label, member, numbers, taken) {
                return place;
            }
            place = place.saturating_add(1);
        }
        0
    }

    /// The type of what a label has captured at a place.
    pub fn capture(&self, class: u32, label: u32, place: u32) -> u32 {
        match self.labels(class).get(label as usize) {
            Some(label) => number_at(&label.captures, place),
            None => 0,
        }
    }
}
