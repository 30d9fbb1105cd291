/// A word or an operator that is no name: one variant a reserved word, a word of Habit that is left out here, and
/// a reserved operator.
#[derive(Clone, Copy, Debug, PartialEq, Eq)]
pub enum Word {
    Area,
    Bitdata,
    Struct,
    Port,
    Class,
    Instance,
    Data,
    Infix,
    Infixl,
    Infixr,
    Where,
    Let,
    In,
    Do,
    Of,
    Case,
    If,
    Then,
    Else,
    Each,
    Fields,
    Aligned,
    At,
    /// `module`, left out.
    Module,
    /// `import`, left out.
    Import,
    /// `export`, left out.
    Export,
    /// `deriving`, left out.
    Deriving,
    /// `default`, left out.
    Default,
    /// `type`, left out.
    TypeWord,
    /// `newtype`, left out.
    Newtype,
    /// `foreign`, left out.
    Foreign,
    /// `opaque`, left out.
    Opaque,
    /// `fails`, left out.
    Fails,
    /// `::`
    DoubleColon,
    /// `=`
    Equals,
    /// `\`
    Backslash,
    /// `|`
    Bar,
    /// `<-`
    LeftArrow,
    /// `->`
    RightArrow,
    /// `=>`
    DoubleArrow,
}
