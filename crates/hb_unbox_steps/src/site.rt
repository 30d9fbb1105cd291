use hb_base::List;
use hb_frames::Home;
use hb_local_places::{Places, spare_word, words_of};
use hb_mil::{Atom, Block, Mil};
use hb_values::ValueForm;

/// What all steps of a block program are turned by: the program, the addresses of its areas and of its ports in text order, the homes
/// of its blocks, the places of their locals, and for each closure class the block that goes on by the label.
#[derive(Clone, Copy)]
pub struct Site<'a> {
    pub mil: &'a Mil,
    pub areas: &'a [u32],
    pub ports: &'a [u32],
    pub homes: &'a List<Home>,
    pub places: &'a Places,
    pub dispatches: &'a [u32],
}

/// A block of the program, with its number.
#[derive(Clone, Copy)]
pub struct Spot<'a> {
    pub site: Site<'a>,
    pub block: &'a Block,
    pub number: u32,
}

impl<'a> Spot<'a> {
    /// The type of a local of the block, by its number in the table of types.
    fn type_of(&self, local: u32) -> Option<u32> {
        let params = self.block.params.as_slice();
        if let Some(of) = params.get(local as usize) {
            return Some(*of);
        }
        let place = (local as usize).saturating_sub(params.len());
        match self.block.steps.as_slice().get(place) {
            Some(step) => Some(step.of),
            None => None,
        }
    }

    /// The form of the type of what an atom is, where it is a local.
    pub(crate) fn form(&self, a: Atom) -> Option<&'a ValueForm> {
        let of = match a {
            Atom::Local(local) => self.type_of(local)?,
            _ => return None,
        };
        self.site.mil.types.forms.as_slice().get(of as usize)
    }

    /// How many words the values of a type have.
    pub(crate) fn words_of(&self, of: u32) -> u32 {
        words_of(&self.site.mil.types, of)
    }

    /// How many words the local of this number has.
    pub(crate) fn words(&self, local: u32) -> u32 {
        match self.type_of(local) {
            Some(of) => self.words_of(of),
            None => 0,
        }
    }

    /// The first of the words that no local has.
    pub(crate) fn spare(&self) -> u32 {
        match self.site.homes.as_slice().get(self.number as usize) {
            Some(home) => spare_word(*home),
            None => spare_word(Home::Shared),
        }
    }

    /// The block that goes on by the label of a function or an action.
    pub(crate) fn dispatch(&self, a: Atom) -> u32 {
        let class = match self.form(a) {
            Some(ValueForm::Arrow(class, _, _)) => *class,
            Some(ValueForm::Action(class, _)) => *class,
            _ => return 0,
        };
        match self.site.dispatches.get(class as usize) {
            Some(block) => *block,
            None => 0,
        }
    }
}
