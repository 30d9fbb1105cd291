ghost use Rattle.std.specs.Prelude.{◌≡◌};
ghost use Rattle.hb_lex.specs.Words.{declaration_word, expression_word, left_out_word, word_of, operator_word};

use hb_tokens::Word;

/// Words that begin a declaration or stand in one.
fn declaration_word(text: &[u8]) -> Option<Word>
    ensures { result ≡ declaration_word text.now }
{
    if text == b"area".as_slice() {
        Some(Word::Area)
    } else if text == b"bitdata".as_slice() {
        Some(Word::Bitdata)
    } else if text == b"struct".as_slice() {
        Some(Word::Struct)
    } else if text == b"port".as_slice() {
        Some(Word::Port)
    } else if text == b"class".as_slice() {
        Some(Word::Class)
    } else if text == b"instance".as_slice() {
        Some(Word::Instance)
    } else if text == b"data".as_slice() {
        Some(Word::Data)
    } else if text == b"infix".as_slice() {
        Some(Word::Infix)
    } else if text == b"infixl".as_slice() {
        Some(Word::Infixl)
    } else if text == b"infixr".as_slice() {
        Some(Word::Infixr)
    } else if text == b"where".as_slice() {
        Some(Word::Where)
    } else {
        None
    }
}

/// Words of expressions and initialisers.
fn expression_word(text: &[u8]) -> Option<Word>
    ensures { result ≡ expression_word text.now }
{
    if text == b"let".as_slice() {
        Some(Word::Let)
    } else if text == b"in".as_slice() {
        Some(Word::In)
    } else if text == b"do".as_slice() {
        Some(Word::Do)
    } else if text == b"of".as_slice() {
        Some(Word::Of)
    } else if text == b"case".as_slice() {
        Some(Word::Case)
    } else if text == b"if".as_slice() {
        Some(Word::If)
    } else if text == b"then".as_slice() {
        Some(Word::Then)
    } else if text == b"else".as_slice() {
        Some(Word::Else)
    } else if text == b"each".as_slice() {
        Some(Word::Each)
    } else if text == b"fields".as_slice() {
        Some(Word::Fields)
    } else if text == b"aligned".as_slice() {
        Some(Word::Aligned)
    } else if text == b"at".as_slice() {
        Some(Word::At)
    } else {
        None
    }
}

/// Words of Habit that are left out.
fn left_out_word(text: &[u8]) -> Option<Word>
    ensures { result ≡ left_out_word text.now }
{
    if text == b"module".as_slice() {
        Some(Word::Module)
    } else if text == b"import".as_slice() {
        Some(Word::Import)
    } else if text == b"export".as_slice() {
        Some(Word::Export)
    } else if text == b"deriving".as_slice() {
        Some(Word::Deriving)
    } else if text == b"default".as_slice() {
        Some(Word::Default)
    } else if text == b"type".as_slice() {
        Some(Word::TypeWord)
    } else if text == b"newtype".as_slice() {
        Some(Word::Newtype)
    } else if text == b"foreign".as_slice() {
        Some(Word::Foreign)
    } else if text == b"opaque".as_slice() {
        Some(Word::Opaque)
    } else if text == b"fails".as_slice() {
        Some(Word::Fails)
    } else {
        None
    }
}

/// The word that a text is, where it is no name.
pub fn word_of(text: &[u8]) -> Option<Word>
    ensures { result ≡ word_of text.now }
{
    match declaration_word(text) {
        Some(word) => Some(word),
        None => match expression_word(text) {
            Some(word) => Some(word),
            None => left_out_word(text),
        },
    }
}

/// The reserved operator that a text is.
pub fn operator_word(text: &[u8]) -> Option<Word>
    ensures { result ≡ operator_word text.now }
{
    if text == b"::".as_slice() {
        Some(Word::DoubleColon)
    } else if text == b"=".as_slice() {
        Some(Word::Equals)
    } else if text == b"\\".as_slice() {
        Some(Word::Backslash)
    } else if text == b"|".as_slice() {
        Some(Word::Bar)
    } else if text == b"<-".as_slice() {
        Some(Word::LeftArrow)
    } else if text == b"->".as_slice() {
        Some(Word::RightArrow)
    } else if text == b"=>".as_slice() {
        Some(Word::DoubleArrow)
    } else {
        None
    }
}
