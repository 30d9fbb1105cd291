use hb_base::List;

/// How the values of a type are spelled as lists of letters.
#[derive(Debug, Drop)]
pub enum Spelling {
    /// A constructor, and then its arguments: for each constructor in the order of declaration, the places of its
    /// arguments' types. They stand before the place of the type itself.
    Data(List<List<usize>>),
    /// A word of so many bits, the most significant first.
    Bits(u32),
    /// One letter, a number below this one.
    Index(u64),
    /// One letter that all values share.
    Opaque,
}

/// The types of a match by their places, parts before the whole. Each type has one place.
#[derive(Debug, Drop)]
pub struct Spellings {
    pub forms: List<Spelling>,
}

impl Spellings {
    /// The form of the type at a place. Takes no memory.
    pub fn form(&self, place: usize) -> Option<&Spelling> {
        self.forms.as_slice().get(place)
    }

    /// The types of a constructor's arguments; none where the type has no such constructor. Takes no memory.
    pub fn arguments(&self, place: usize, con: u32) -> &[usize] {
        match self.form(place) {
            Some(Spelling::Data(cons)) => match cons.as_slice().get(con as usize) {
                Some(arguments) => arguments.as_slice(),
                None => &[],
            },
            _ => &[],
        }
    }

    /// Whether the values of the type are spelled with no letter. Takes no memory.
    pub fn is_silent(&self, place: usize) -> bool {
        matches!(self.form(place), Some(Spelling::Bits(0)))
    }
}
