ghost use Rattle.std.specs.Prelude.{◌≡◌};
ghost use Rattle.hb_read_declarations.specs.Codes.{word_code};

use hb_tokens::Word;

/// The number of a word. No two words have the same.
pub fn word_code(word: Word) -> u8
    ensures { result ≡ word_code word }
{
    match word {
        Word::Area => 10,
        Word::Bitdata => 11,
        Word::Struct => 12,
        Word::Port => 13,
        Word::Class => 14,
        Word::Instance => 15,
        Word::Data => 16,
        Word::Infix => 17,
        Word::Infixl => 18,
        Word::Infixr => 19,
        Word::Where => 20,
        Word::Let => 21,
        Word::In => 22,
        Word::Do => 23,
        Word::Of => 24,
        Word::Case => 25,
        Word::If => 26,
        Word::Then => 27,
        Word::Else => 28,
        Word::Each => 29,
        Word::Fields => 30,
        Word::Aligned => 31,
        Word::At => 32,
        Word::Module => 33,
        Word::Import => 34,
        Word::Export => 35,
        Word::Deriving => 36,
        Word::Default => 37,
        Word::TypeWord => 38,
        Word::Newtype => 39,
        Word::Foreign => 40,
        Word::Opaque => 41,
        Word::Fails => 42,
        Word::DoubleColon => 43,
        Word::Equals => 44,
        Word::Backslash => 45,
        Word::Bar => 46,
        Word::LeftArrow => 47,
        Word::RightArrow => 48,
        Word::DoubleArrow => 49,
    }
}
