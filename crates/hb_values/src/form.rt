use hb_base::List;

/// The form of a type of values, its parts by their places in a table. `Word(n)` is a value of one word with n numbers, or 0 for
/// all 2^32. `Outside` is a type whose number is out of its range. `Data` has the types of the arguments of each constructor.
/// `Arrow` and `Action` have a closure class, and what they take and give. `Nothing` is what is kept of a result that is dropped: no
/// word.
#[derive(Debug, Drop)]
pub enum ValueForm {
    Word(u32),
    Outside,
    Data(List<List<u32>>),
    Arrow(u32, u32, u32),
    Action(u32, u32),
    Nothing,
}

/// A table of types of values: parts stand before the whole, and no type stands there twice. `words` says of each how many words
/// its values have: 1 for a word; 1 and the greatest sum of one constructor's arguments for data; 1 and the greatest sum of what one
/// label of the class captures for an arrow or an action. Sums from 65 on stand as 65.
#[derive(Debug, Drop)]
pub struct ValueTypes {
    pub forms: List<ValueForm>,
    pub words: List<u32>,
}
